// What can be relied on, over every layout and every kind of weights, whatever calls are made on a reading.
#![tactic(auto)]

ghost use Rattle.promise.specs.Examples.{Examples};
ghost use Rattle.promise.specs.Theorem.{NoFalseWord};

use layouts::Layout;
use tickets::TicketWeight;
use weights::Weight;

// No false word can be certified by the public calls. There is nothing to compute: the contract is the promise.
pub fn no_false_word<L: Layout, P: Layout, W: Weight, T: TicketWeight>()
    ensures { NoFalseWord L.plan P.plan W.kind T.Weight.kind T.codec }
{}

// Worked readings, by computation.
pub fn worked_readings()
    ensures { Examples }
{}
