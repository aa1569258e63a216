// A copy of a layout, made once a call, so that no pass asks the layout anything.
ghost use Rattle.std.specs.Prelude.{◌≡◌, ◌+◌, ◌<◌, ◌≤◌, ◌++◌, length, slice_range};
ghost use Rattle.arrayvec.specs.ArrayVec.{array_vec_len};
ghost use Rattle.layouts.specs.Plans.{edge_cells, row_at};
ghost use Rattle.reader.specs.Tables.{Rows};

use arrayvec::ArrayVec;
use layouts::{Layout, RowNo};

// The edges of one row: the first, and the one behind the last. Of two bytes each, since all rows are set up at each call.
#[derive(Clone, Copy, Default)]
pub(crate) struct Row {
    pub(crate) start: u16,
    pub(crate) end: u16,
}

impl Row {
    // The row's part of a list that has an entry for each edge.
    pub(crate) fn of<T>(self, list: &[T]) -> &[T]
        requires order { self.start ≤ self.end }
        requires within { self.end ≤ length list.now }
        ensures { result.now ≡ slice_range list.now self.start self.end }
    {
        &list[usize::from(self.start)..usize::from(self.end)]
    }
}

// The cell of each edge, and the edges of each row, in memory of a fixed size.
#[derive(Drop)]
pub(crate) struct Table<'a, L: Layout> {
    layout: &'a L,
    cells: ArrayVec<u8, 1024>,
    rows: ArrayVec<Row, 96>,
    ghost cells_copied: { cells.items ≡ edge_cells (L.plan layout.now).rows },
    ghost rows_copied: { Rows (L.plan layout.now).rows rows.items },
}

// Adds the cells of a row. A layout is asked for the cell of a place by number.
fn copy_row<L: Layout>(layout: &L, row: RowNo, cells: &mut ArrayVec<u8, 1024>)
    requires row { row.0 < length (L.plan layout.now).rows }
    requires room { array_vec_len cells.old + length (row_at (L.plan layout.now).rows row.0) ≤ 1024 }
    ensures { cells.new.items ≡ cells.old.items ++ row_at (L.plan layout.now).rows row.0 }
{
    let len = layout.row_len(row).unwrap();
    for place in 0..len {
        let cell = layout.cell(row, place).unwrap();
        // narrowed by `as`: a layout has at most 128 cells
        cells.push(cell.0 as u8);
    }
}

impl<'a, L: Layout> Table<'a, L> {
    pub(crate) fn of(layout: &'a L) -> Table<'a, L>
        ensures { result.layout.now ≡ layout.now }
    {
        let mut cells = ArrayVec::new();
        let mut rows = ArrayVec::new();
        // A layout is asked for its rows by number.
        for row in 0..layout.rows() {
            // narrowed by `as`: there are at most 1,024 edges
            let start = cells.len() as u16;
            copy_row(layout, RowNo(row), &mut cells);
            let end = cells.len() as u16;
            rows.push(Row { start, end });
        }
        Table {
            layout,
            cells,
            rows,
        }
    }

    pub(crate) fn rows(&self) -> &[Row]
        ensures { Rows (L.plan self.now.layout.now).rows result.now }
    {
        &self.rows
    }

    // The cell of each edge.
    pub(crate) fn edge_cells(&self) -> &[u8]
        ensures { result.now ≡ edge_cells (L.plan self.now.layout.now).rows }
    {
        &self.cells
    }
}
