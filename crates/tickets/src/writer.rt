// Writing a ticket.
ghost use Rattle.std.specs.Prelude.{◌≡◌, ◌+◌, ◌*◌, ◌≤◌, ◌++◌, length, drop, IfOk, OnErr, OnOk};
ghost use Rattle.refusals.specs.Numbers.{number_of};
ghost use Rattle.std.specs.List.{flat_map};
ghost use Rattle.tickets.specs.Packs.{packed_length, packed};
ghost use Rattle.tickets.specs.Tickets.{counts, head_bytes, multiplier_bytes, ticket, ticket_size, write_refusal, Writable};

use crate::TicketWeight;
use crate::marks::{HEAD_MARK, MULTIPLIER_MARK, WORD_MARK};
use crate::words::{Word, packed_len};
use layouts::Layout;
use refusals::Refusal;
use weights::{MULTIPLIER_SIZE, any_beyond};

// The caller's output, and the place of the next record.
#[derive(Drop)]
struct TicketWriter<'a> {
    out: &'a mut [u8],
    at: usize,
}

impl<'a> TicketWriter<'a> {
    ghost use Rattle.tickets.specs.Writers.{Puts};

    fn new(out: &'a mut [u8]) -> TicketWriter<'a>
        ensures same_output { result.out.ghost_name ≡ out.entry.ghost_name }
        ensures bytes { result.out.now ≡ out.old }
        ensures place { result.at ≡ 0 }
    {
        TicketWriter { out, at: 0 }
    }

    // Writes bytes at the place, which then moves behind them.
    fn put(&mut self, bytes: &[u8])
        requires { self.old.at + length bytes.now ≤ length self.old.out.now }
        ensures { Puts self.old self.new bytes.now }
    {
        let end = self.at + bytes.len();
        let out = &mut *self.out;
        out[self.at..end].copy_from_slice(bytes);
        self.at = end;
    }

    // Writes the cells of a word, packed.
    fn put_packed(&mut self, word: &Word)
        requires { self.old.at + packed_length (length word.now.bytes.now) ≤ length self.old.out.now }
        ensures { Puts self.old self.new (packed word.now.bytes.now) }
    {
        let end = self.at + packed_len(word.len());
        let out = &mut *self.out;
        word.pack(&mut out[self.at..end]);
        self.at = end;
    }

    fn put_multiplier<W: TicketWeight>(&mut self, multiplier: W)
        requires { self.old.at + (2 + W.codec.width) ≤ length self.old.out.now }
        ensures { Puts self.old self.new (multiplier_bytes W.codec multiplier) }
    {
        self.put(&MULTIPLIER_MARK);
        let bytes = multiplier.bytes();
        self.put(&bytes[0..usize::from(W::width())]);
    }

    // Writes the records of all multipliers.
    fn put_multipliers<W: TicketWeight>(&mut self, multipliers: &[W])
        requires { self.old.at + length multipliers.now * (2 + W.codec.width) ≤ length self.old.out.now }
        ensures { Puts self.old self.new (flat_map (multiplier_bytes W.codec) multipliers.now) }
    {
        for multiplier in multipliers {
            self.put_multiplier(*multiplier);
        }
    }
}

// A layout's counts of cells and rows are small enough for a byte each.
fn head_of<L: Layout, W: TicketWeight>(layout: &L) -> [u8; 7]
    ensures { result ≡ head_bytes W.TicketWeight.codec.kind_byte (counts (L.plan layout.now)) }
{
    let [first, second] = HEAD_MARK;
    let [high, low] = layout.edges().to_be_bytes();
    [
        first,
        second,
        W::kind_byte(),
        layout.cells() as u8,
        layout.rows() as u8,
        high,
        low,
    ]
}

// How many bytes the tickets over a layout take.
pub fn ticket_len<L: Layout, W: TicketWeight>(layout: &L) -> usize
    ensures { result ≡ ticket_size W.codec (counts (L.plan layout.now)) }
{
    9 + packed_len(usize::from(layout.cells()))
        + usize::from(layout.edges()) * (2 + usize::from(W::width()))
}

// The word, where its ticket may be written.
fn check<'a, L: Layout, W: TicketWeight>(
    layout: &L,
    word: &'a [u8],
    multipliers: &[W],
    room: usize,
) -> Result<Word<'a>, Refusal>
    ensures number { number_of result ≡ write_refusal W.Weight.kind W.codec (counts (L.plan layout.now)) word.now multipliers.now room }
    ensures word { IfOk result (λ w. w.bytes.now ≡ word.now) }
    ensures fit { OnOk result (Writable W.codec word.now multipliers.now room) }
{
    if word.len() != usize::from(layout.cells()) {
        return Err(Refusal::GivenWord);
    }
    let word = Word::new(word).ok_or(Refusal::GivenWord)?;
    if multipliers.len() != usize::from(layout.edges())
        || any_beyond(multipliers, MULTIPLIER_SIZE)
    {
        return Err(Refusal::OfferedMultipliers);
    }
    if room < ticket_len::<L, W>(layout) {
        return Err(Refusal::OutputShort);
    }
    Ok(word)
}

// Writes the ticket of a word and its multipliers at the front of the output, and answers its length. The bytes behind it
// stay, and so do all bytes when the call is declined.
pub fn write<L: Layout, W: TicketWeight>(
    layout: &L,
    word: &[u8],
    multipliers: &[W],
    out: &mut [u8],
) -> Result<usize, Refusal>
    ensures number { number_of result ≡ write_refusal W.Weight.kind W.codec (counts (L.plan layout.now)) word.now multipliers.now (length out.old) }
    ensures length { IfOk result (λ n. n ≡ length (ticket W.codec (counts (L.plan layout.now)) word.now multipliers.now)) }
    ensures after { IfOk result (λ n. out.new ≡ ticket W.codec (counts (L.plan layout.now)) word.now multipliers.now ++ drop n out.old) }
    ensures same { OnErr result (out.new ≡ out.old) }
{
    let word = check(layout, word, multipliers, out.len())?;
    let mut writer = TicketWriter::new(out);
    writer.put(&head_of::<L, W>(layout));
    writer.put(&WORD_MARK);
    writer.put_packed(&word);
    writer.put_multipliers(multipliers);
    Ok(writer.at)
}
