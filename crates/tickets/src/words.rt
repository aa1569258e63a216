// Words, packed for a ticket: eight cells a byte, the first in the top bit.
ghost use Rattle.std.specs.Prelude.{◌≡◌, ◌≤◌, ◌<◌, true, false, not, length, slice_index, MatchOption};
ghost use Rattle.tickets.specs.Packs.{Bits, no_bits, octet, packed_length, packed, cell_bit, unpacked, clear};

// How many bytes the cells take.
pub(crate) fn packed_len(cells: usize) -> usize
    ensures { result ≡ packed_length cells }
{
    cells.div_ceil(8)
}

// Whether each byte is 0 or 1.
pub fn is_word(bytes: &[u8]) -> bool
    ensures { result ≡ not (no_bits bytes.now) }
{
    bytes.iter().all(|byte| *byte <= 1)
}

// What stands at a place, 0 behind the end.
fn at_or_zero(bytes: &[u8], place: usize) -> u8
    ensures { result ≡ slice_index bytes.now place }
{
    bytes.get(place).copied().unwrap_or(0)
}

// One byte of 0 or 1 for each cell.
#[derive(Clone, Copy)]
pub(crate) struct Word<'a> {
    bytes: &'a [u8],
    ghost bits: { Bits bytes.now },
}

impl<'a> Word<'a> {
    pub(crate) fn new(bytes: &'a [u8]) -> Option<Word<'a>>
        ensures { MatchOption result (no_bits bytes.now ≡ true) (λ w. (no_bits bytes.now ≡ false) × (w.bytes.now ≡ bytes.now)) }
    {
        if is_word(bytes) {
            Some(Word { bytes })
        } else {
            None
        }
    }

    pub(crate) fn len(&self) -> usize
        ensures { result ≡ length self.now.bytes.now }
    {
        self.bytes.len()
    }

    // A cell, 0 behind the last.
    fn cell(&self, place: usize) -> u8
        ensures value { result ≡ slice_index self.now.bytes.now place }
        ensures bit { result ≤ 1 }
    {
        at_or_zero(self.bytes, place)
    }

    // Byte j of the packed word. The cells stand one by one, as in the definition: a fold would owe the bound of each step.
    fn octet(&self, j: usize) -> u8
        requires { j < packed_length (length self.now.bytes.now) }
        ensures { result ≡ octet self.now.bytes.now j }
    {
        let first = 8 * j;
        let high = 128 * self.cell(first)
            + 64 * self.cell(first + 1)
            + 32 * self.cell(first + 2)
            + 16 * self.cell(first + 3);
        let low = 8 * self.cell(first + 4)
            + 4 * self.cell(first + 5)
            + 2 * self.cell(first + 6)
            + self.cell(first + 7);
        high + low
    }

    // Packs all cells into as many bytes as they take.
    pub(crate) fn pack(&self, out: &mut [u8])
        requires { length out.old ≡ packed_length (length self.now.bytes.now) }
        ensures { out.new ≡ packed self.now.bytes.now }
    {
        for (j, byte) in out.iter_mut().enumerate() {
            *byte = self.octet(j);
        }
    }
}

// The bit of a cell, 0 behind the last byte.
fn bit_of(packed: &[u8], cell: usize) -> u8
    ensures { result ≡ cell_bit packed.now cell }
{
    (at_or_zero(packed, cell / 8) >> (7 - cell % 8)) % 2
}

// Writes the cells of a packed word, one byte of 0 or 1 a cell.
pub fn unpack(packed: &[u8], word: &mut [u8])
    ensures { word.new ≡ unpacked (length word.old) packed.now }
{
    for (i, cell) in word.iter_mut().enumerate() {
        *cell = bit_of(packed, i);
    }
}

// Whether the bits behind the last cell are zero.
pub(crate) fn is_clear(packed: &[u8], cells: usize) -> bool
    ensures { result ≡ clear cells packed.now }
{
    let last = u16::from(at_or_zero(packed, cells / 8));
    last % (1 << (8 - cells % 8)) == 0
}
