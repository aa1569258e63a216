// The sums that were added to a layout.
ghost use Rattle.std.specs.Prelude.{◌≡◌, [], ◌<◌, ◌-◌, ◌*◌, ◌≤◌, length, take};
ghost use Rattle.std.specs.List.{list_all};
ghost use Rattle.std.specs.Borrow.{sem};
ghost use Rattle.arrayvec.specs.ArrayVec.{array_vec_len};
ghost use Rattle.layouts.specs.Plans.{edges};
ghost use Rattle.sums.specs.Sums.{some_rising};
ghost use Rattle.sums.specs.Tables.{cells_of, LendsNewSum};

use crate::row::SumRow;
use arrayvec::ArrayVec;

#[derive(Drop)]
pub(crate) struct SumTable {
    rows: ArrayVec<SumRow, 8>,
}

impl SumTable {
    pub(crate) fn new() -> SumTable
        ensures { result.rows.items ≡ [] }
    {
        SumTable {
            rows: ArrayVec::new(),
        }
    }

    // The rows, at most 8.
    pub(crate) fn rows(&self) -> &[SumRow]
        ensures rows { result.now ≡ self.now.rows.items }
        ensures few { length result.now ≤ 8 }
    {
        &self.rows
    }

    // Lends a new row without cells, to be built up in its place.
    pub(crate) fn open(&mut self) -> &mut SumRow
        requires { array_vec_len self.old.rows < 8 }
        ensures* writes_back { sem 𝓛 (LendsNewSum self.entry result) }
        ensures empty { result.now.cells.items ≡ [] }
    {
        let place = self.rows.len();
        self.rows.push(SumRow::default());
        self.rows.get_mut(place).unwrap()
    }

    // Takes the newest row back.
    pub(crate) fn close(&mut self)
        ensures { self.new.rows.items ≡ take (array_vec_len self.old.rows - 1) self.old.rows.items }
    {
        self.rows.pop();
    }
}

// The cells of all rows together.
pub(crate) fn edges_of(rows: &[SumRow]) -> usize
    requires { length rows.now ≤ 8 }
    ensures edges { result ≡ edges (cells_of rows.now) }
    ensures few { result ≤ 1024 }
{
    let mut edges = 0;
    for row in rows {
        edges += row.cells().len();
    }
    edges
}

// Whether each row is one of a layout with so many cells.
pub(crate) fn all_fit(rows: &[SumRow], cells: u16) -> bool
    ensures { result ≡ list_all (λ row. some_rising cells row.cells.items) rows.now }
{
    rows.iter().all(|row| row.fits(cells))
}
