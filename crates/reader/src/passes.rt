// The passes over lists of weights from which the floor and a round are made. Boards are checked before.
ghost use Rattle.std.specs.Prelude.{◌≡◌, ◌^◌, ◌≤◌, length};
ghost use Rattle.weights.specs.Kinds.{meanings};
ghost use Rattle.dual.specs.Choice.{negatives, odd, pick, chosen};
ghost use Rattle.model.specs.Model.{equal};
ghost use Rattle.model.specs.Words.{bytes, bits};
ghost use Rattle.reader.specs.Sizes.{total_size};

use crate::choice::{is_negative, turned_place};
use weights::Weight;

// Weights of one meaning may differ, so that the interface has no `==`.
pub(crate) fn mean_same<W: Weight>(a: W, b: W) -> bool
    ensures { result ≡ equal (W.kind.meaning a) (W.kind.meaning b) }
{
    !a.below(b) && !b.below(a)
}

// Marks the negative weights, and says whether there is an odd number of them.
pub(crate) fn mark_negatives<W: Weight>(list: &[W], marks: &mut [u8]) -> bool
    requires { length list.now ≡ length marks.old }
    ensures marks { marks.new ≡ bytes (negatives (meanings W.kind list.now)) }
    ensures parity { result ≡ odd (negatives (meanings W.kind list.now)) }
{
    let mut uneven = false;
    // Written by place: of what `iter_mut` lends under `zip` a proof knows nothing afterwards.
    for (i, w) in list.iter().enumerate() {
        let negative = is_negative(*w);
        marks[i] = u8::from(negative);
        uneven ^= negative;
    }
    uneven
}

// Marks the choice of one row.
pub(crate) fn mark_choice<W: Weight>(multipliers: &[W], marks: &mut [u8])
    requires { length multipliers.now ≡ length marks.old }
    ensures { marks.new ≡ bytes (chosen (meanings W.kind multipliers.now)) }
{
    if mark_negatives(multipliers, marks) {
        if let Some(turned) = turned_place(multipliers) {
            marks[turned] = u8::from(marks[turned] == 0);
        }
    }
}

// The sum of the marked weights.
pub(crate) fn sum_marked<W: Weight>(marks: &[u8], list: &[W]) -> W
    requires same { length marks.now ≡ length list.now }
    requires small { total_size W.kind list.now ≤ 2 ^ 30 }
    ensures value { W.kind.meaning result ≡ pick (bits marks.now) (meanings W.kind list.now) }
    ensures size { W.kind.size result ≤ total_size W.kind list.now }
{
    let mut sum = W::zero();
    for (mark, w) in marks.iter().zip(list) {
        if *mark != 0 {
            sum = sum.plus(*w);
        }
    }
    sum
}
