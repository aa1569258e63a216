// The choice of one parity row: the even set of its places with the least sum of multipliers.
ghost use Rattle.std.specs.Prelude.{◌≡◌, true, false, nat_lt, slice_index_or, unsigned_abs};
ghost use Rattle.std.specs.Option.{option_map};
ghost use Rattle.weights.specs.Kinds.{meanings};
ghost use Rattle.dual.specs.Choice.{negative, negatives, odd, nearer, nearest, cheaper, toggle, flipped};
ghost use Rattle.reader.specs.Spots.{spot, OfSign, turned_at};

use weights::Weight;

// The signs of the multipliers, with at most one place turned.
#[derive(Clone, Copy, PartialEq, Eq, Debug)]
pub struct RowChoice {
    toggled: Option<usize>,
}

pub(crate) fn is_negative<W: Weight>(w: W) -> bool
    ensures { result ≡ negative (W.kind.meaning w) }
{
    w.below(W::zero())
}

fn odd_negatives<W: Weight>(multipliers: &[W]) -> bool
    ensures { result ≡ odd (negatives (meanings W.kind multipliers.now)) }
{
    let mut uneven = false;
    for m in multipliers {
        uneven ^= is_negative(*m);
    }
    uneven
}

// Whether a weight is nearer to 0 than an older one of the same sign. The sign is a flag, as in the search's definition.
fn is_nearer<W: Weight>(m: W, old: W, below: bool) -> bool
    requires new { negative (W.kind.meaning m) ≡ below }
    requires old { negative (W.kind.meaning old) ≡ below }
    ensures { result ≡ nat_lt (unsigned_abs (W.kind.meaning m)) (unsigned_abs (W.kind.meaning old)) }
{
    if below { old.below(m) } else { m.below(old) }
}

// Of the spot so far and a new one of the same sign, the one nearer to 0; the earlier one at equality. Which sign it is comes
// with the call, so that a type of its own could not promise it.
fn nearer_of<W: Weight>(
    best: Option<(usize, W)>,
    place: usize,
    m: W,
    below: bool,
) -> Option<(usize, W)>
    requires sign { negative (W.kind.meaning m) ≡ below }
    requires best { OfSign W.kind below best }
    ensures value { option_map (spot W.kind) result ≡ nearer (option_map (spot W.kind) best) (place, unsigned_abs (W.kind.meaning m)) }
    ensures sign { OfSign W.kind below result }
{
    match best {
        Some((at, old)) if !is_nearer(m, old, below) => Some((at, old)),
        _ => Some((place, m)),
    }
}

// The place nearest to 0 among the negative multipliers, or among the others; absent where there is none. It counts along,
// since the place is the answer.
fn nearest<W: Weight>(multipliers: &[W], below: bool) -> Option<(usize, W)>
    ensures value { option_map (spot W.kind) result ≡ nearest below (meanings W.kind multipliers.now) }
    ensures sign { OfSign W.kind below result }
{
    let mut best = None;
    for (i, m) in multipliers.iter().enumerate() {
        if is_negative(*m) == below {
            best = nearer_of(best, i, *m, below);
        }
    }
    best
}

// Of the negative spot d and the other spot a, the place that is cheaper to turn. The absolute values are
// compared as a with 0 - d, which is exact for every weight.
fn cheaper<W: Weight>(d: Option<(usize, W)>, a: Option<(usize, W)>) -> Option<usize>
    requires { (OfSign W.kind true d) × (OfSign W.kind false a) }
    ensures { result ≡ cheaper (option_map (spot W.kind) d) (option_map (spot W.kind) a) }
{
    match (d, a) {
        (None, None) => None,
        (None, Some((add, _))) => Some(add),
        (Some((drop, _)), None) => Some(drop),
        (Some((drop, less)), Some((add, more))) => {
            if more.below(W::zero().minus(less)) {
                Some(add)
            } else {
                Some(drop)
            }
        },
    }
}

// The place to turn in a row with an odd number of negative multipliers.
pub(crate) fn turned_place<W: Weight>(multipliers: &[W]) -> Option<usize>
    ensures { result ≡ cheaper (nearest true (meanings W.kind multipliers.now)) (nearest false (meanings W.kind multipliers.now)) }
{
    cheaper(nearest(multipliers, true), nearest(multipliers, false))
}

// The choice of a row with these multipliers.
pub fn choose<W: Weight>(multipliers: &[W]) -> RowChoice
    ensures { result.toggled ≡ toggle (meanings W.kind multipliers.now) }
{
    let toggled = if odd_negatives(multipliers) {
        turned_place(multipliers)
    } else {
        None
    };
    RowChoice { toggled }
}

impl RowChoice {
    // The place, if any, at which the choice departs from the signs.
    pub fn toggled(self) -> Option<usize>
        ensures { result ≡ self.toggled }
    {
        self.toggled
    }

    // Whether the place is chosen, in a row with these multipliers.
    pub fn takes<W: Weight>(self, multipliers: &[W], place: usize) -> bool
        ensures { result ≡ slice_index_or (flipped self.toggled (negatives (meanings W.kind multipliers.now))) place false }
    {
        match multipliers.get(place) {
            Some(m) => is_negative(*m) != self.turns(place),
            None => false,
        }
    }

    fn turns(self, place: usize) -> bool
        ensures { result ≡ turned_at self.toggled place }
    {
        Some(place) == self.toggled
    }
}
