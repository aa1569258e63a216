// From greys to costs. A grey is 0 for black to 255 for white.
ghost use Rattle.std.specs.Prelude.{◌≡◌, ℕ, map, length, pos, if◌then◌else◌, nat_eq};
ghost use Rattle.refusals.specs.Numbers.{number_of};
ghost use Rattle.weights.specs.Parts.{grey_cost};
ghost use Rattle.weights.specs.Plains.{plain_cost};
ghost use Rattle.weights.specs.Paireds.{paired_cost};

use crate::{Paired, Plain, Weight, part};
use refusals::Refusal;

// A kind whose costs come from greys.
pub trait GreyCost: Weight {
    ghost priced: { ℕ → Self };

    fn of_grey(grey: u8) -> Self
        ensures cost { result ≡ priced grey };
}

impl GreyCost for Plain {
    ghost priced = { plain_cost };

    fn of_grey(grey: u8) -> Plain
        ensures cost { result ≡ plain_cost grey }
        ensures part { result.value ≡ grey_cost grey }
    {
        Plain::new(part::grey_cost(grey))
    }
}

impl GreyCost for Paired {
    ghost priced = { paired_cost };

    fn of_grey(grey: u8) -> Paired
        ensures cost { result ≡ paired_cost grey }
        ensures grey { result.grey ≡ grey_cost grey }
        ensures dark { result.dark ≡ pos 1 }
    {
        Paired::new(part::grey_cost(grey), 1)
    }
}

// Turns each grey into the cost at its place. Lists of different lengths are declined, and then no cost changes.
pub fn convert<W: GreyCost>(greys: &[u8], costs: &mut [W]) -> Result<(), Refusal>
    ensures number { number_of result ≡ (if nat_eq (length greys.now) (length costs.old) then 0 else 21) }
    ensures costs { costs.new ≡ (if nat_eq (length greys.now) (length costs.old) then map W.priced greys.now else costs.old) }
{
    if greys.len() != costs.len() {
        return Err(Refusal::GreyLength);
    }
    // By index, since after a zipped `iter_mut` a proof knows no more than the length of `costs`.
    for (i, grey) in greys.iter().enumerate() {
        costs[i] = W::of_grey(*grey);
    }
    Ok(())
}
