// A plain weight as a weight: its size is its absolute value.
ghost use Rattle.std.specs.Prelude.{◌≡◌, ◌^◌, ◌+ℤ◌, ◌-ℤ◌};
ghost use Rattle.weights.specs.Kinds.{Exact};
ghost use Rattle.weights.specs.Parts.{cut, stepped};
ghost use Rattle.weights.specs.Plains.{plain_kind};
ghost use Rattle.std.proofs.Common.{rules};

use super::{Plain, part};
use crate::Weight;

impl Weight for Plain {
    ghost kind = { plain_kind };

    ghost small = { Prim.search rules };

    fn size(self) -> u32 {
        self.value.unsigned_abs()
    }

    fn zero() -> Plain {
        Plain { value: 0 }
    }

    fn plus(self, other: Plain) -> Plain
        ensures sum { Exact plain_kind self other result (plain_kind.meaning self +ℤ plain_kind.meaning other) }
        ensures part { result.value ≡ cut (2 ^ 30) (self.value +ℤ other.value) }
    {
        Plain::new(i64::from(self.value) + i64::from(other.value))
    }

    fn minus(self, other: Plain) -> Plain
        ensures difference { Exact plain_kind self other result (plain_kind.meaning self -ℤ plain_kind.meaning other) }
        ensures part { result.value ≡ cut (2 ^ 30) (self.value -ℤ other.value) }
    {
        Plain::new(i64::from(self.value) - i64::from(other.value))
    }

    fn below(self, other: Plain) -> bool {
        self.value < other.value
    }

    fn moved(self, step: u32, up: bool) -> Plain
        ensures end { result ≡ plain_kind.moved self step up }
        ensures part { result.value ≡ cut (2 ^ 18) (stepped self.value step up) }
    {
        let value = part::moved(self.value, step, up);
        Plain { value }
    }
}
