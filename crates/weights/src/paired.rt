// A paired weight: a grey part, and a count of dark cells that decides between equal greys.
ghost use Rattle.std.specs.Prelude.{◌≡◌, ◌^◌, ◌≤◌, unsigned_abs, Some, ◌++◌, codes};
ghost use Rattle.std.specs.Fmt.{signed_decimal};
ghost use Rattle.weights.specs.Parts.{cut, joined};

use super::part;
use std::fmt;

mod weight;

#[derive(Clone, Copy, PartialEq, Eq, Debug)]
pub struct Paired {
    grey: i32,
    dark: i32,
    ghost within: { (unsigned_abs grey ≤ 2 ^ 30) × (unsigned_abs dark ≤ 2 ^ 30) },
}

impl Paired {
    // Cuts each part at 2^30 in either direction.
    pub fn new(first: i64, second: i64) -> Paired
        ensures { (result.grey ≡ cut (2 ^ 30) first) × (result.dark ≡ cut (2 ^ 30) second) }
    {
        let grey = part::cut(first, part::PART_LIMIT);
        let dark = part::cut(second, part::PART_LIMIT);
        Paired { grey, dark }
    }

    pub fn grey(self) -> i32
        ensures { result ≡ self.grey }
    {
        self.grey
    }

    pub fn dark(self) -> i32
        ensures { result ≡ self.dark }
    {
        self.dark
    }

    // The whole number that the pair means.
    pub fn meaning(self) -> i64
        ensures { result ≡ joined self.grey self.dark }
    {
        i64::from(self.grey) * (1 << 32) + i64::from(self.dark)
    }
}

// As -5,1.
impl fmt::Display for Paired {
    ghost output = { λ w. Some (signed_decimal w.grey ++ codes "," ++ signed_decimal w.dark) };

    fn fmt<W: fmt::Write>(&self, f: &mut fmt::Formatter<W>) -> fmt::Result {
        write!(f, "{},{}", self.grey, self.dark)
    }
}
