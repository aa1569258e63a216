// What a round asks of one row's cells and of one edge. Boards are checked before.
ghost use Rattle.std.specs.Prelude.{◌≡◌, ℕ, ◌<◌, length, replicate, slice_index};
ghost use Rattle.dual.specs.Choice.{odd};
ghost use Rattle.dual.specs.Bound.{at};
ghost use Rattle.model.specs.Moves.{moved_edge};
ghost use Rattle.model.specs.Words.{bits};

use weights::Weight;

// Whether an odd number of these cells is dark.
pub(crate) fn odd_dark(cells: &[u8], word: &[u8]) -> bool
    requires { (k : ℕ) → k < length cells.now → slice_index cells.now k < length word.now }
    ensures { result ≡ odd (at (bits word.now) cells.now) }
{
    let mut uneven = false;
    for cell in cells {
        uneven ^= word[usize::from(*cell)] != 0;
    }
    uneven
}

// The multiplier of one edge after a step: it moves where the word's bit and the row's choice, two flags, differ, up for bit 0.
pub(crate) fn moved_edge<W: Weight>(multiplier: W, step: u32, dark: bool, chosen: bool) -> W
    ensures { result ≡ moved_edge W.kind step dark chosen multiplier }
{
    if dark != chosen {
        multiplier.moved(step, !dark)
    } else {
        multiplier
    }
}

// The same value in every place. `fill` asks for clones that cannot fail, which `Copy` does not promise of a type parameter.
pub(crate) fn set_all<T: Copy>(list: &mut [T], value: T)
    ensures { list.new ≡ replicate (length list.old) value }
{
    for place in list {
        *place = value;
    }
}
