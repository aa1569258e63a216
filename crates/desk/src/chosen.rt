// The layout that is chosen, and the sums that were added to it. A reading uses its layout up, and may begin anew: so what
// is kept here is what a layout is made from.
use crate::kept::KeptList;
use crate::shape::Shape;
use layouts::{Grid, RowNo};
use refusals::Refusal;
use std::alloc::{AllocError, Global};
use sums::SumLayer;

#[derive(Drop)]
pub enum Source {
    Listed {
        cells: u16,
        ends: Vec<u16>,
        entries: Vec<u16>,
    },
    Grid(Grid),
}

impl Source {
    // Lists that are declined make a layout too, of one cell and no rows.
    fn shape(&self) -> Shape {
        match self {
            Source::Listed {
                cells,
                ends,
                entries,
            } => match KeptList::new(*cells, ends, entries) {
                Ok(listed) => Shape::Listed(listed),
                Err(_) => Shape::Listed(KeptList::single()),
            },
            Source::Grid(grid) => Shape::Grid(*grid),
        }
    }
}

#[derive(Drop)]
pub struct Chosen {
    source: Source,
    sums: Vec<Vec<RowNo>>,
}

impl Chosen {
    pub fn new(heap: Global, source: Source) -> Chosen {
        Chosen {
            source,
            sums: Vec::new(heap),
        }
    }

    // The layout with its sums, each of which was accepted before.
    pub fn layer(&self) -> Result<SumLayer<Shape>, Refusal> {
        let mut layer = SumLayer::new(self.source.shape());
        for rows in &self.sums {
            layer.add(rows)?;
        }
        Ok(layer)
    }

    pub fn keep_sum(&mut self, rows: Vec<RowNo>) -> Result<(), AllocError> {
        self.sums.push(rows).map_err(|_| AllocError)
    }
}
