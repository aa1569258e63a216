// A layout to which sums of its rows are added.
ghost use Rattle.std.specs.Prelude.{◌≡◌, ◌≤◌, length};
ghost use Rattle.sums.specs.Names.{numbers};

use crate::names::are_some_rising;
use crate::row::SumRow;
use crate::table::{SumTable, all_fit, edges_of};
use layouts::{CellNo, Layout, RowNo};
use refusals::Refusal;

#[derive(Drop)]
pub struct SumLayer<L> {
    below: L,
    sums: SumTable,
}

impl<L> SumLayer<L> {
    ghost use Rattle.sums.specs.Layers.{IsNew};

    // A layer over a layout, without sums.
    pub fn new(below: L) -> SumLayer<L>
        ensures { IsNew below result }
    {
        SumLayer {
            below,
            sums: SumTable::new(),
        }
    }

    // The layout below.
    pub fn below(&self) -> &L
        ensures { result.now ≡ self.now.below }
    {
        &self.below
    }
}

impl<L: Layout> SumLayer<L> {
    ghost use Rattle.sums.specs.Layers.{AddDoes, added, layer_plan};
    ghost use Rattle.sums.specs.Sums.{keeps_limits, counted};
    ghost use Rattle.sums.specs.Tables.{cells_of};

    // Whether the rows below and the sums keep the limits of a layout, as they always do after `add`.
    #[tactic(auto, using(crate::proofs::Rising::count_of_cells, crate::proofs::Rising::fitting_cells))]
    fn keeps_limits(&self) -> bool
        ensures { result ≡ keeps_limits (L.plan self.now.below) (added self.now) }
    {
        let sums = self.sums.rows();
        let rows = usize::from(self.below.rows()) + sums.len();
        let edges = usize::from(self.below.edges()) + edges_of(sums);
        rows <= 96 && edges <= 1024 && all_fit(sums, self.below.cells())
    }

    // The sums that count.
    fn counted(&self) -> &[SumRow]
        ensures few { length result.now ≤ 8 }
        ensures cells { cells_of result.now ≡ counted (L.plan self.now.below) (added self.now) }
    {
        if self.keeps_limits() {
            self.sums.rows()
        } else {
            &[]
        }
    }

    // Adds the sum of the named rows of the layout below, or leaves the layer as it was.
    pub fn add(&mut self, rows: &[RowNo]) -> Result<(), Refusal>
        ensures { AddDoes L.plan (numbers rows.now) self.old result self.new }
    {
        let below = self.below.rows();
        let sums = self.sums.rows();
        if sums.len() >= 8 || usize::from(below) + sums.len() >= 96 {
            return Err(Refusal::SumsFull);
        }
        if !are_some_rising(rows, below) {
            return Err(Refusal::SumRows);
        }
        let edges = usize::from(self.below.edges()) + edges_of(sums);
        let sum = self.sums.open();
        sum.add_rows(&self.below, rows);
        let cells = sum.cells().len();
        if cells == 0 || edges + cells > 1024 {
            self.sums.close();
            return Err(Refusal::SumCells);
        }
        Ok(())
    }
}

impl<L: Layout> Layout for SumLayer<L> {
    ghost use Rattle.sums.specs.Layers.{layer_plan};

    ghost plan = { layer_plan L.plan };

    fn cells(&self) -> u16 {
        self.below.cells()
    }

    fn rows(&self) -> u16 {
        self.below.rows() + self.counted().len() as u16
    }

    #[tactic(auto, using(layouts::specs::Plans::edges_append))]
    fn edges(&self) -> u16 {
        self.below.edges() + edges_of(self.counted()) as u16
    }

    fn row_len(&self, row: RowNo) -> Option<u16> {
        let below = self.below.rows();
        if row.0 < below {
            return self.below.row_len(row);
        }
        let sum = self.counted().get(usize::from(row.0 - below))?;
        Some(sum.cells().len() as u16)
    }

    fn cell(&self, row: RowNo, place: u16) -> Option<CellNo> {
        let below = self.below.rows();
        if row.0 < below {
            return self.below.cell(row, place);
        }
        let sum = self.counted().get(usize::from(row.0 - below))?;
        let cell = sum.cells().get(usize::from(place))?;
        Some(CellNo(u16::from(*cell)))
    }
}
