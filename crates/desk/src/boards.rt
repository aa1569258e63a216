// The five boards of a reading.
use crate::command::BoardName;
use crate::fault::Fault;
use crate::weights_text::{Shown, Spaced, Word};
use crate::words;
use layouts::Layout;
use std::alloc::{AllocError, Global};
use std::fmt;

#[derive(Drop)]
pub struct Boards<W> {
    pub costs: Vec<W>,
    pub carried: Vec<W>,
    pub kept: Vec<W>,
    pub trial: Vec<u8>,
    pub word: Vec<u8>,
}

impl<W: Shown> Boards<W> {
    pub fn new(heap: Global) -> Boards<W> {
        Boards {
            costs: Vec::new(heap),
            carried: Vec::new(heap),
            kept: Vec::new(heap),
            trial: Vec::new(heap),
            word: Vec::new(heap),
        }
    }

    // Boards for these costs, of the lengths that the layout asks for.
    pub fn for_layout<L: Layout>(
        heap: Global,
        layout: &L,
        costs: Vec<W>,
    ) -> Result<Boards<W>, AllocError> {
        let cells = usize::from(layout.cells());
        let edges = usize::from(layout.edges());
        Ok(Boards {
            costs,
            carried: vec![in heap; W::zero(); edges]?,
            kept: vec![in heap; W::zero(); edges]?,
            trial: vec![in heap; 0u8; cells]?,
            word: vec![in heap; 0u8; cells]?,
        })
    }

    pub fn replace(&mut self, heap: Global, name: BoardName, values: &[&str]) -> Result<(), Fault> {
        match name {
            BoardName::Costs => self.costs = words::values(heap, values)?,
            BoardName::Carried => self.carried = words::values(heap, values)?,
            BoardName::Kept => self.kept = words::values(heap, values)?,
            BoardName::Trial => self.trial = words::joined_cells(heap, values)?,
            BoardName::Word => self.word = words::joined_cells(heap, values)?,
        }
        Ok(())
    }
}

// A line for each board.
impl<W: Shown> fmt::Display for Boards<W> {
    fn fmt<F: fmt::Write>(&self, f: &mut fmt::Formatter<F>) -> fmt::Result {
        writeln!(f, "costs{}", Spaced(&self.costs))?;
        writeln!(f, "carried{}", Spaced(&self.carried))?;
        writeln!(f, "kept{}", Spaced(&self.kept))?;
        writeln!(f, "trial{}", Word(&self.trial))?;
        writeln!(f, "word{}", Word(&self.word))
    }
}
