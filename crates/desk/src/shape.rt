// The layout that is chosen. A reading uses its layout up, so that the desk keeps one to copy, in memory of a fixed size.
ghost use Rattle.std.specs.Prelude.{◌≡◌};
ghost use Rattle.desk.specs.Shapes.{shape_plan};

use crate::kept::KeptList;
use layouts::{CellNo, Grid, Layout, RowNo};

#[derive(Drop)]
pub enum Shape {
    Listed(KeptList),
    Grid(Grid),
}

impl Layout for Shape {
    ghost plan = { shape_plan };

    fn cells(&self) -> u16 {
        match self {
            Shape::Listed(listed) => listed.cells(),
            Shape::Grid(grid) => grid.cells(),
        }
    }

    fn rows(&self) -> u16 {
        match self {
            Shape::Listed(listed) => listed.rows(),
            Shape::Grid(grid) => grid.rows(),
        }
    }

    fn edges(&self) -> u16 {
        match self {
            Shape::Listed(listed) => listed.edges(),
            Shape::Grid(grid) => grid.edges(),
        }
    }

    fn row_len(&self, row: RowNo) -> Option<u16> {
        match self {
            Shape::Listed(listed) => listed.row_len(row),
            Shape::Grid(grid) => grid.row_len(row),
        }
    }

    fn cell(&self, row: RowNo, place: u16) -> Option<CellNo> {
        match self {
            Shape::Listed(listed) => listed.cell(row, place),
            Shape::Grid(grid) => grid.cell(row, place),
        }
    }
}
