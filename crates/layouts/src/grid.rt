// A layout of lines and columns, with no table.
ghost use Rattle.std.specs.Prelude.{◌≡◌, IfOk};
ghost use Rattle.layouts.specs.Grids.{grid_refusal};
ghost use Rattle.layouts.specs.GridPlan.{grid_plan};
ghost use Rattle.refusals.specs.Numbers.{number_of};

use crate::{CellNo, Layout, RowNo};
use refusals::Refusal;

// Cell line × columns + column stands in that line and column. The lines are the first rows, then the columns.
#[derive(Clone, Copy)]
pub struct Grid {
    lines: u16,
    columns: u16,
    ghost ok: { grid_refusal lines columns ≡ 0 },
}

impl Grid {
    // A grid with sides of 2 to 11.
    pub fn new(lines: u16, columns: u16) -> Result<Grid, Refusal>
        ensures why { number_of result ≡ grid_refusal lines columns }
        ensures sides { IfOk result (λ g. (g.lines ≡ lines) × (g.columns ≡ columns)) }
    {
        if !(2..=11).contains(&lines) || !(2..=11).contains(&columns) {
            return Err(Refusal::GridSide);
        }
        Ok(Grid { lines, columns })
    }
}

impl Layout for Grid {
    ghost plan = { λ g. grid_plan g.lines g.columns g.ok };

    fn cells(&self) -> u16 {
        self.lines * self.columns
    }

    fn rows(&self) -> u16 {
        self.lines + self.columns
    }

    fn edges(&self) -> u16 {
        2 * self.lines * self.columns
    }

    fn row_len(&self, row: RowNo) -> Option<u16> {
        if row.0 < self.lines {
            Some(self.columns)
        } else if row.0 < self.rows() {
            Some(self.lines)
        } else {
            None
        }
    }

    fn cell(&self, row: RowNo, place: u16) -> Option<CellNo> {
        let len = self.row_len(row)?;
        if place >= len {
            return None;
        }
        let cell = if row.0 < self.lines {
            row.0 * self.columns + place
        } else {
            place * self.columns + (row.0 - self.lines)
        };
        Some(CellNo(cell))
    }
}
