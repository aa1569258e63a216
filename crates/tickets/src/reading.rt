// Reading a whole ticket.
ghost use Rattle.std.specs.Prelude.{◌≡◌, length, IfOk, OnErr, OnOk};
ghost use Rattle.refusals.specs.Numbers.{number_of};
ghost use Rattle.tickets.specs.Packs.{unpacked};
ghost use Rattle.tickets.specs.Reads.{says, packed_word, records_part, multipliers_read, parts_refusal, read_refusal};
ghost use Rattle.tickets.specs.Tickets.{counts, ticket};

use crate::TicketWeight;
use crate::head::Head;
use crate::multipliers::{are_multipliers, read_multipliers};
use crate::reader::TicketReader;
use layouts::Layout;
use refusals::Refusal;

// Whether the head says the kind and the layout's counts.
fn is_expected<L: Layout, W: TicketWeight>(layout: &L, head: Head) -> bool
    ensures { result ≡ says W.TicketWeight.codec.kind_byte (counts (L.plan layout.now)) head }
{
    head.kind == W::kind_byte()
        && u16::from(head.cells) == layout.cells()
        && u16::from(head.rows) == layout.rows()
        && head.edges == layout.edges()
}

// The packed word, and the multiplier records as one part.
fn parts<'a, L: Layout, W: TicketWeight>(
    layout: &L,
    bytes: &'a [u8],
) -> Result<(&'a [u8], &'a [u8]), Refusal>
    ensures number { number_of result ≡ parts_refusal W.TicketWeight.codec.kind_byte (counts (L.plan layout.now)) bytes.now }
    ensures value { IfOk result (λ p. (p.0.now ≡ packed_word (counts (L.plan layout.now)) bytes.now) × (p.1.now ≡ records_part (counts (L.plan layout.now)) bytes.now)) }
{
    let mut reader = TicketReader::new(bytes);
    let head = reader.head().ok_or(Refusal::TicketHead)?;
    if !is_expected::<L, W>(layout, head) {
        return Err(Refusal::TicketCounts);
    }
    let word = reader.word(layout.cells()).ok_or(Refusal::TicketForm)?;
    Ok((word, reader.multipliers()))
}

// Reads the ticket of a word and its multipliers over this layout. The multipliers land in the work list, and the answer is
// the packed word: bytes that are read are the ticket of both. A work list that is not one an edge is declined first. When
// the call is declined, the work list stays.
pub fn read<'a, L: Layout, W: TicketWeight>(
    layout: &L,
    bytes: &'a [u8],
    work: &mut [W],
) -> Result<&'a [u8], Refusal>
    ensures number { number_of result ≡ read_refusal W.Weight.kind W.codec (counts (L.plan layout.now)) bytes.now (length work.old) }
    ensures word { IfOk result (λ p. p.now ≡ packed_word (counts (L.plan layout.now)) bytes.now) }
    ensures work { OnOk result (work.new ≡ multipliers_read W.Weight.kind W.codec (counts (L.plan layout.now)) bytes.now) }
    ensures written { IfOk result (λ p. bytes.now ≡ ticket W.codec (counts (L.plan layout.now)) (unpacked (L.plan layout.now).cells p.now) work.new) }
    ensures same { OnErr result (work.new ≡ work.old) }
{
    if work.len() != usize::from(layout.edges()) {
        return Err(Refusal::WorkLength);
    }
    let (word, records) = parts::<L, W>(layout, bytes)?;
    if !are_multipliers::<W>(records, work.len()) {
        return Err(Refusal::TicketForm);
    }
    read_multipliers(records, work);
    Ok(word)
}
