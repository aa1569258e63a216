// A layout over two lists of the caller.
ghost use Rattle.std.specs.Prelude.{◌≡◌, ◌<◌, true, ◌∷◌, length, slice_index};
ghost use Rattle.std.specs.Option.{option_map};
ghost use Rattle.layouts.specs.Lists.{row_in, rows_of, rises, rises_below, ends_rise, row_rises, rows_rise, listed_refusal, listed_cells, listed_rows};
ghost use Rattle.layouts.specs.ListPlan.{listed_plan};
ghost use Rattle.refusals.specs.Numbers.{number_of};

use crate::{CellNo, Layout, RowNo};
use refusals::Refusal;

// `entries` has the cells of all rows, row by row, and `ends` has for each row the place just after its last entry.
#[derive(Clone, Copy)]
pub struct Listed<'a> {
    cells: u16,
    ends: &'a [u16],
    entries: &'a [u16],
    ghost ok: { listed_refusal cells ends.now entries.now ≡ 0 },
}

// Each number is above the one before it.
fn rises(numbers: &[u16]) -> bool
    ensures { result ≡ rises numbers.now }
{
    numbers.is_sorted_by(|a, b| a < b)
}

// The ends rise strictly from above 0 to the number of entries.
fn ends_rise(ends: &[u16], entries: usize) -> bool
    ensures { result ≡ ends_rise ends.now entries }
{
    let last = ends.last().copied().unwrap_or(0);
    ends.first() != Some(&0) && rises(ends) && usize::from(last) == entries
}

// Each cell after the first is below the count and above the one before it.
fn rises_below(cells: u16, row: &[u16]) -> bool
    ensures { result ≡ rises_below cells row.now }
{
    row.is_sorted_by(|a, b| a < b && *b < cells)
}

// Each cell is below the count and above the one before it: one pass, which ends at the first that is not.
fn row_rises(cells: u16, row: &[u16]) -> bool
    ensures { result ≡ row_rises cells row.now }
{
    row.first().is_none_or(|&first| first < cells) && rises_below(cells, row)
}

// Each row rises. The rows lie one after another, so a row starts where the one before it ends.
fn rows_rise(cells: u16, ends: &[u16], entries: &[u16]) -> bool
    requires { ends_rise ends.now (length entries.now) ≡ true }
    ensures { result ≡ rows_rise cells (rows_of ends.now entries.now) }
{
    // A running start: a zip of the ends needs 0 put before them and a span for each row, and reads no better.
    let mut start = 0;
    for end in ends {
        let end = usize::from(*end);
        if !row_rises(cells, &entries[start..end]) {
            return false;
        }
        start = end;
    }
    true
}

// A row starts where the one before it ends.
fn row_start(ends: &[u16], row: usize) -> u16
    requires { row < length ends.now }
    ensures { result ≡ slice_index (0 ∷ ends.now) row }
{
    ends[..row].last().copied().unwrap_or(0)
}

impl<'a> Listed<'a> {
    // Whether the lists give a layout.
    pub fn check(cells: u16, ends: &[u16], entries: &[u16]) -> Result<(), Refusal>
        ensures { number_of result ≡ listed_refusal cells ends.now entries.now }
    {
        if !(1..=128).contains(&cells) || ends.len() > 96 || entries.len() > 1024 {
            return Err(Refusal::LayoutLimits);
        }
        if !ends_rise(ends, entries.len()) {
            return Err(Refusal::RowEnds);
        }
        if !rows_rise(cells, ends, entries) {
            return Err(Refusal::RowEntries);
        }
        Ok(())
    }

    // The layout of the lists, or one cell and no rows where the check declines them.
    pub fn new(cells: u16, ends: &'a [u16], entries: &'a [u16]) -> Listed<'a>
        ensures cells { result.cells ≡ listed_cells cells ends.now entries.now }
        ensures rows { rows_of result.ends.now result.entries.now ≡ listed_rows cells ends.now entries.now }
    {
        if Listed::check(cells, ends, entries).is_err() {
            return Listed {
                cells: 1,
                ends: &[],
                entries: &[],
            };
        }
        Listed {
            cells,
            ends,
            entries,
        }
    }

    // The cells of a row, absent where the row does not exist.
    fn row(&self, row: RowNo) -> Option<&[u16]>
        ensures { option_map (λ s. s.now) result ≡ row_in (rows_of self.now.ends.now self.now.entries.now) row.0 }
    {
        let row = usize::from(row.0);
        let end = *self.ends.get(row)?;
        let start = row_start(self.ends, row);
        Some(&self.entries[usize::from(start)..usize::from(end)])
    }
}

// Counts are narrowed by `as`: the limits of a layout show that they fit, and a failure would have no answer.
impl Layout for Listed<'_> {
    ghost plan = { λ s. listed_plan s.cells s.ends.now s.entries.now s.ok };

    fn cells(&self) -> u16 {
        self.cells
    }

    fn rows(&self) -> u16 {
        self.ends.len() as u16
    }

    fn edges(&self) -> u16 {
        self.entries.len() as u16
    }

    fn row_len(&self, row: RowNo) -> Option<u16> {
        Some(self.row(row)?.len() as u16)
    }

    fn cell(&self, row: RowNo, place: u16) -> Option<CellNo> {
        let cell = self.row(row)?.get(usize::from(place))?;
        Some(CellNo(*cell))
    }
}
