// A paired weight as a weight: its size is that of its larger part, and parts are added, moved and cut each by itself.
ghost use Rattle.std.specs.Prelude.{◌≡◌, ◌^◌, ◌+ℤ◌, ◌-ℤ◌};
ghost use Rattle.weights.specs.Kinds.{Exact};
ghost use Rattle.weights.specs.Parts.{cut, stepped};
ghost use Rattle.weights.specs.Paireds.{paired_kind};
ghost use Rattle.std.proofs.Common.{rules};

use super::{Paired, part};
use crate::Weight;

impl Weight for Paired {
    ghost kind = { paired_kind };

    ghost small = { Prim.search rules };

    fn size(self) -> u32 {
        self.grey.unsigned_abs().max(self.dark.unsigned_abs())
    }

    fn zero() -> Paired {
        Paired { grey: 0, dark: 0 }
    }

    fn plus(self, other: Paired) -> Paired
        ensures sum { Exact paired_kind self other result (paired_kind.meaning self +ℤ paired_kind.meaning other) }
        ensures grey { result.grey ≡ cut (2 ^ 30) (self.grey +ℤ other.grey) }
        ensures dark { result.dark ≡ cut (2 ^ 30) (self.dark +ℤ other.dark) }
    {
        let grey = i64::from(self.grey) + i64::from(other.grey);
        let dark = i64::from(self.dark) + i64::from(other.dark);
        Paired::new(grey, dark)
    }

    fn minus(self, other: Paired) -> Paired
        ensures difference { Exact paired_kind self other result (paired_kind.meaning self -ℤ paired_kind.meaning other) }
        ensures grey { result.grey ≡ cut (2 ^ 30) (self.grey -ℤ other.grey) }
        ensures dark { result.dark ≡ cut (2 ^ 30) (self.dark -ℤ other.dark) }
    {
        let grey = i64::from(self.grey) - i64::from(other.grey);
        let dark = i64::from(self.dark) - i64::from(other.dark);
        Paired::new(grey, dark)
    }

    fn below(self, other: Paired) -> bool {
        self.meaning() < other.meaning()
    }

    fn moved(self, step: u32, up: bool) -> Paired
        ensures end { result ≡ paired_kind.moved self step up }
        ensures grey { result.grey ≡ cut (2 ^ 18) (stepped self.grey step up) }
        ensures dark { result.dark ≡ cut (2 ^ 18) (stepped self.dark step up) }
    {
        let grey = part::moved(self.grey, step, up);
        let dark = part::moved(self.dark, step, up);
        Paired { grey, dark }
    }
}
