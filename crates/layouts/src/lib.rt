// Layouts of a label: which cells each parity row joins.
#![tactic(auto)]

ghost use Rattle.std.specs.Prelude.{◌≡◌, length};
ghost use Rattle.layouts.specs.Plans.{Plan, edges, row_length, cell_at};
ghost use Rattle.std.specs.Option.{option_map};

mod grid;
mod listed;
#[cfg(test)]
mod tests;

pub use grid::Grid;
pub use listed::Listed;

// The number of a row, from 0.
#[derive(Clone, Copy, PartialEq, Eq, Debug)]
pub struct RowNo(pub u16);

// The number of a cell, from 0.
#[derive(Clone, Copy, PartialEq, Eq, Debug)]
pub struct CellNo(pub u16);

// A question changes nothing, and has the same answer each time.
pub trait Layout {
    ghost plan: { Self → Plan };

    fn cells(&self) -> u16
        ensures { result ≡ (plan self.now).cells };

    fn rows(&self) -> u16
        ensures { result ≡ length (plan self.now).rows };

    fn edges(&self) -> u16
        ensures { result ≡ edges (plan self.now).rows };

    // The length of a row, absent where the row does not exist.
    fn row_len(&self, row: RowNo) -> Option<u16>
        ensures { result ≡ row_length (plan self.now) row.0 };

    // The cell at a place of a row, absent where the row or the place does not exist.
    fn cell(&self, row: RowNo, place: u16) -> Option<CellNo>
        ensures { option_map (λ c. c.0) result ≡ cell_at (plan self.now) row.0 place };
}
