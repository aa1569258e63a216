// Reading the multiplier records of a ticket, which come as one part.
ghost use Rattle.std.specs.Prelude.{◌≡◌, ◌+◌, true, length, drop, is_some, Some, None, MatchOption};
ghost use Rattle.tickets.specs.Reads.{small, multiplier_at, multipliers_in};

use crate::TicketWeight;
use crate::marks::MULTIPLIER_MARK;
use crate::reader::behind_mark;
use weights::{MULTIPLIER_SIZE, Weight};

// How many bytes the record of a multiplier takes.
fn record_len<W: TicketWeight>() -> usize
    ensures { result ≡ 2 + W.codec.width }
{
    2 + usize::from(W::width())
}

// The weight whose bytes these are, unless it is too large for a multiplier.
fn small_weight<W: TicketWeight>(bytes: &[u8]) -> Option<W>
    ensures { result ≡ small W.Weight.kind (W.codec.get bytes.now) }
{
    W::from_bytes(bytes).filter(|weight| weight.size() <= MULTIPLIER_SIZE)
}

// The multiplier whose record these bytes are.
fn multiplier<W: TicketWeight>(bytes: &[u8]) -> Option<W>
    requires { length bytes.now ≡ 2 + W.codec.width }
    ensures { result ≡ multiplier_at W.Weight.kind W.codec bytes.now }
{
    small_weight(behind_mark(bytes, MULTIPLIER_MARK)?)
}

// Whether the part has the records of so many multipliers, and nothing behind them.
pub(crate) fn are_multipliers<W: TicketWeight>(part: &[u8], edges: usize) -> bool
    ensures { result ≡ is_some (multipliers_in W.Weight.kind W.codec edges part.now) }
{
    let len = record_len::<W>();
    edges.checked_mul(len) == Some(part.len())
        && part
            .chunks_exact(len)
            .all(|record| multiplier::<W>(record).is_some())
}

// The multiplier with which the records begin, and what lies behind it.
fn first_multiplier<W: TicketWeight>(records: &[u8]) -> Option<(W, &[u8])>
    ensures { MatchOption result (multiplier_at W.Weight.kind W.codec records.now ≡ None) (λ p. (multiplier_at W.Weight.kind W.codec records.now ≡ Some p.0) × (p.1.now ≡ drop (2 + W.codec.width) records.now)) }
{
    let (front, behind) = records.split_at_checked(record_len::<W>())?;
    let first = multiplier(front)?;
    Some((first, behind))
}

// Reads the multipliers of a part that has one for each place of the work list. A zip with the part's chunks would be
// shorter, but a proof knows nothing of what is written through one: what is left of the part goes along.
pub(crate) fn read_multipliers<W: TicketWeight>(part: &[u8], work: &mut [W])
    requires { is_some (multipliers_in W.Weight.kind W.codec (length work.old) part.now) ≡ true }
    ensures { Some work.new ≡ multipliers_in W.Weight.kind W.codec (length work.old) part.now }
{
    let mut left = part;
    for place in work.iter_mut() {
        let Some((first, behind)) = first_multiplier(left) else {
            return;
        };
        *place = first;
        left = behind;
    }
}
