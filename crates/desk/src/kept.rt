// A listed layout that keeps its lists. The library's borrows them.
ghost use Rattle.std.specs.Prelude.{◌≡◌, ◌<◌, ◌∷◌, length, slice_index};
ghost use Rattle.std.specs.Option.{option_map};
ghost use Rattle.layouts.specs.Lists.{row_in, rows_of, listed_refusal};
ghost use Rattle.layouts.specs.ListPlan.{listed_plan};
ghost use Rattle.refusals.specs.Numbers.{number_of};

use arrayvec::ArrayVec;
use layouts::{CellNo, Layout, Listed, RowNo};
use refusals::Refusal;

// `ends` and `entries` as the library's listed layout has them, which has checked them.
#[derive(Drop)]
pub struct KeptList {
    cells: u16,
    ends: ArrayVec<u16, 96>,
    entries: ArrayVec<u16, 1024>,
    ghost ok: { listed_refusal cells ends.items entries.items ≡ 0 },
}

// A row starts where the one before it ends.
fn row_start(ends: &[u16], row: usize) -> u16
    requires { row < length ends.now }
    ensures { result ≡ slice_index (0 ∷ ends.now) row }
{
    ends[..row].last().copied().unwrap_or(0)
}

impl KeptList {
    // The layout of the lists, where the library's check accepts them.
    pub fn new(cells: u16, ends: &[u16], entries: &[u16]) -> Result<KeptList, Refusal>
        ensures { number_of result ≡ listed_refusal cells ends.now entries.now }
    {
        Listed::check(cells, ends, entries)?;
        let mut kept_ends = ArrayVec::new();
        kept_ends.try_extend_from_slice(ends).unwrap();
        let mut kept_entries = ArrayVec::new();
        kept_entries.try_extend_from_slice(entries).unwrap();
        Ok(KeptList {
            cells,
            ends: kept_ends,
            entries: kept_entries,
        })
    }

    // One cell and no rows.
    pub fn single() -> KeptList {
        KeptList {
            cells: 1,
            ends: ArrayVec::new(),
            entries: ArrayVec::new(),
        }
    }

    // The cells of a row, absent where the row does not exist.
    fn row(&self, row: RowNo) -> Option<&[u16]>
        ensures { option_map (λ s. s.now) result ≡ row_in (rows_of self.now.ends.items self.now.entries.items) row.0 }
    {
        let row = usize::from(row.0);
        let end = *self.ends.get(row)?;
        let start = row_start(&self.ends, row);
        Some(&self.entries[usize::from(start)..usize::from(end)])
    }
}

// Counts are narrowed by `as`: the limits of a layout show that they fit.
impl Layout for KeptList {
    ghost plan = { λ s. listed_plan s.cells s.ends.items s.entries.items s.ok };

    fn cells(&self) -> u16 {
        self.cells
    }

    fn rows(&self) -> u16 {
        self.ends.len() as u16
    }

    fn edges(&self) -> u16 {
        self.entries.len() as u16
    }

    fn row_len(&self, row: RowNo) -> Option<u16> {
        Some(self.row(row)?.len() as u16)
    }

    fn cell(&self, row: RowNo, place: u16) -> Option<CellNo> {
        let cell = self.row(row)?.get(usize::from(place))?;
        Some(CellNo(*cell))
    }
}
