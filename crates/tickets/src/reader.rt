// Reading a ticket without copying it.
ghost use Rattle.std.specs.Prelude.{◌≡◌, ◌+◌, ◌≤◌, true, false, length, drop, is_some, if◌then◌else◌, MatchOption};
ghost use Rattle.std.specs.Option.{option_map};
ghost use Rattle.tickets.specs.Packs.{packed_length};
ghost use Rattle.tickets.specs.Reads.{head_at, marked, word_part};

use crate::head::Head;
use crate::marks::{HEAD_MARK, WORD_MARK};
use crate::words::{is_clear, packed_len};

// The caller's bytes, and the place of the next record: the project's form for a reader that copies nothing.
#[derive(Drop)]
pub struct TicketReader<'a> {
    bytes: &'a [u8],
    at: usize,
    ghost within: { at ≤ length bytes.now },
}

// What lies behind the mark with which the bytes begin: a slice pattern takes the two apart at each record.
pub(crate) fn behind_mark(bytes: &[u8], mark: [u8; 2]) -> Option<&[u8]>
    ensures { MatchOption result (marked mark bytes.now ≡ false) (λ rest. (marked mark bytes.now ≡ true) × (rest.now ≡ drop 2 bytes.now) × (length rest.now + 2 ≡ length bytes.now)) }
{
    match bytes {
        [first, second, rest @ ..] if *first == mark[0] && *second == mark[1] => Some(rest),
        _ => None,
    }
}

impl<'a> TicketReader<'a> {
    pub fn new(bytes: &'a [u8]) -> TicketReader<'a>
        ensures bytes { result.bytes.now ≡ bytes.now }
        ensures place { result.at ≡ 0 }
    {
        TicketReader { bytes, at: 0 }
    }

    // What lies behind the place.
    fn rest(&self) -> &'a [u8]
        ensures value { result.now ≡ drop self.now.at self.now.bytes.now }
        ensures length { length result.now + self.now.at ≡ length self.now.bytes.now }
    {
        let bytes = self.bytes;
        &bytes[self.at..]
    }

    // The head at the place, which then moves behind it.
    pub fn head(&mut self) -> Option<Head>
        ensures value { result ≡ head_at (drop self.old.at self.old.bytes.now) }
        ensures place { self.new.at ≡ (if is_some result then self.old.at + 7 else self.old.at) }
        ensures same { self.new.bytes.now ≡ self.old.bytes.now }
    {
        let rest = behind_mark(self.rest(), HEAD_MARK)?;
        let &[kind, cells, rows, high, low, ..] = rest else {
            return None;
        };
        self.at += 7;
        Some(Head {
            kind,
            cells,
            rows,
            edges: u16::from_be_bytes([high, low]),
        })
    }

    // The packed word at the place, which then moves behind it.
    pub fn word(&mut self, cells: u16) -> Option<&'a [u8]>
        ensures value { option_map (λ p. p.now) result ≡ word_part cells (drop self.old.at self.old.bytes.now) }
        ensures place { self.new.at ≡ (if is_some result then self.old.at + (2 + packed_length cells) else self.old.at) }
        ensures same { self.new.bytes.now ≡ self.old.bytes.now }
    {
        let rest = behind_mark(self.rest(), WORD_MARK)?;
        let cells = usize::from(cells);
        let len = packed_len(cells);
        let packed = rest.get(..len)?;
        if !is_clear(packed, cells) {
            return None;
        }
        self.at += 2 + len;
        Some(packed)
    }

    // What lies behind the place: once head and word are passed, the multiplier records as one part.
    pub fn multipliers(&self) -> &'a [u8]
        ensures { result.now ≡ drop self.now.at self.now.bytes.now }
    {
        self.rest()
    }
}
