// A row that is built up as a sum of rows.
ghost use Rattle.std.specs.Prelude.{◌≡◌, true, [], ◌<◌, ◌≤◌, length};
ghost use Rattle.sums.specs.Names.{numbers};
ghost use Rattle.layouts.specs.Plans.{row_at};
ghost use Rattle.layouts.specs.Lists.{row_rises};
ghost use Rattle.sums.specs.Sums.{toggled, with_row, with_rows, some_rising};

use arrayvec::ArrayVec;
use layouts::{Layout, RowNo};

// The cells of the row, rising.
#[derive(Drop)]
pub(crate) struct SumRow {
    cells: ArrayVec<u8, 128>,
    ghost rising: { row_rises 128 cells.items ≡ true },
}

impl Default for SumRow {
    fn default() -> Self
        ensures { result.cells.items ≡ [] }
    {
        SumRow {
            cells: ArrayVec::new(),
        }
    }
}

impl SumRow {
    // The cells, at most 128.
    pub(crate) fn cells(&self) -> &[u8]
        ensures cells { result.now ≡ self.now.cells.items }
        ensures few { length result.now ≤ 128 }
    {
        &self.cells
    }

    // Whether it is a row of a layout with so many cells.
    #[tactic(auto, using(crate::proofs::Rising::fits_by_last))]
    pub(crate) fn fits(&self, cells: u16) -> bool
        ensures { result ≡ some_rising cells self.now.cells.items }
    {
        let Some(last) = self.cells.last() else {
            return false;
        };
        u16::from(*last) < cells
    }

    // Takes the cell out where it is in, and puts it in its place where it is not.
    fn toggle(&mut self, cell: u8)
        requires { cell < 128 }
        ensures { self.new.cells.items ≡ toggled self.old.cells.items cell }
    {
        match self.cells.binary_search(&cell) {
            Ok(place) => {
                self.cells.remove(place);
            }
            Err(place) => self.cells.insert(place, cell),
        }
    }

    // Toggles each cell of a row of the layout, which is asked for the cell of a place by number.
    fn add_row<L: Layout>(&mut self, layout: &L, row: RowNo)
        requires { row.0 < length (L.plan layout.now).rows }
        ensures { self.new.cells.items ≡ with_row self.old.cells.items (row_at (L.plan layout.now).rows row.0) }
    {
        let len = layout.row_len(row).unwrap();
        for place in 0..len {
            let cell = layout.cell(row, place).unwrap();
            // narrowed by `as`: a layout has at most 128 cells
            self.toggle(cell.0 as u8);
        }
    }

    // Adds the named rows, one after another.
    #[tactic(auto, using(crate::proofs::Rising::named_below))]
    pub(crate) fn add_rows<L: Layout>(&mut self, layout: &L, rows: &[RowNo])
        requires { row_rises (length (L.plan layout.now).rows) (numbers rows.now) ≡ true }
        ensures { self.new.cells.items ≡ with_rows (L.plan layout.now).rows self.old.cells.items (numbers rows.now) }
    {
        for row in rows {
            self.add_row(layout, *row);
        }
    }
}
