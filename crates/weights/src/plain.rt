// A plain weight: one signed number, which is its meaning.
ghost use Rattle.std.specs.Prelude.{◌≡◌, ◌^◌, ◌≤◌, unsigned_abs, Some};
ghost use Rattle.std.specs.Fmt.{signed_decimal};
ghost use Rattle.weights.specs.Parts.{cut};

use super::part;
use std::fmt;

mod weight;

#[derive(Clone, Copy, PartialEq, Eq, Debug)]
pub struct Plain {
    value: i32,
    ghost within: { unsigned_abs value ≤ 2 ^ 30 },
}

impl Plain {
    // Cuts the number at 2^30 in either direction.
    pub fn new(number: i64) -> Plain
        ensures { result.value ≡ cut (2 ^ 30) number }
    {
        let value = part::cut(number, part::PART_LIMIT);
        Plain { value }
    }

    pub fn value(self) -> i32
        ensures { result ≡ self.value }
    {
        self.value
    }
}

// As -5.
impl fmt::Display for Plain {
    ghost output = { λ w. Some (signed_decimal w.value) };

    fn fmt<W: fmt::Write>(&self, f: &mut fmt::Formatter<W>) -> fmt::Result {
        write!(f, "{}", self.value)
    }
}
