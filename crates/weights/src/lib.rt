// Weights: whole numbers of bounded size that costs and multipliers are made of.
#![tactic(auto)]

ghost use Rattle.std.specs.Prelude.{◌≡◌, pos, ◌+ℤ◌, ◌-ℤ◌, int_lt};
ghost use Rattle.weights.specs.Kinds.{Kind, Exact, Roomy};

mod greys;
mod paired;
mod part;
mod plain;
mod sizes;
#[cfg(test)]
mod tests;

pub use greys::{GreyCost, convert};
pub use paired::Paired;
pub use plain::Plain;
pub use sizes::{COST_SIZE, MULTIPLIER_SIZE, any_beyond};

// What is known of every kind: `kind` says what a weight means and how large it is. A sum is known by its
// meaning and size alone, and two weights of one meaning may differ.
pub trait Weight: Copy {
    ghost kind: { Kind Self };

    fn size(self) -> u32
        ensures { result ≡ kind.size self };

    fn zero() -> Self
        ensures value { kind.meaning result ≡ pos 0 }
        ensures size { kind.size result ≡ 0 };

    fn plus(self, other: Self) -> Self
        ensures sum { Exact kind self other result (kind.meaning self +ℤ kind.meaning other) };

    fn minus(self, other: Self) -> Self
        ensures difference { Exact kind self other result (kind.meaning self -ℤ kind.meaning other) };

    // Whether this weight means less than the other.
    fn below(self, other: Self) -> bool
        ensures { result ≡ int_lt (kind.meaning self) (kind.meaning other) };

    // This weight after a step up or down. The direction is a flag, since it is a bit of a word.
    fn moved(self, step: u32, up: bool) -> Self
        ensures end { result ≡ kind.moved self step up };

    // Of memory alone: a local array of weights can be lent. For each implementation `search` finds the proof.
    ghost small: { Roomy Self.row };
}
