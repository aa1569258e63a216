// The boards of one kind of weight, and the reading that stands on them.
use crate::boards::Boards;
use crate::command::{Query, Setting};
use crate::fault::Fault;
use crate::shape::Shape;
use crate::weights_text::Shown;
use crate::{answers, words};
use layouts::Layout;
use promise::no_false_word;
use reader::Reading;
use std::alloc::{AllocError, Global};
use sums::SumLayer;

#[derive(Drop)]
pub struct Session<W> {
    pub heap: Global,
    pub boards: Boards<W>,
    multipliers: Vec<W>,
    pub reading: Option<Reading<SumLayer<Shape>, W>>,
}

impl<W: Shown> Session<W> {
    pub fn new(heap: Global) -> Session<W> {
        // Nothing to compute: the contract says what may be relied on in all that follows.
        no_false_word::<SumLayer<Shape>, SumLayer<Shape>, W, W>();
        Session {
            heap,
            boards: Boards::new(heap),
            multipliers: Vec::new(heap),
            reading: None,
        }
    }

    pub fn has_begun(&self) -> bool {
        self.reading.is_some()
    }

    pub fn forget_reading(&mut self) {
        self.reading = None;
    }

    pub fn set(&mut self, setting: Setting) -> Result<String, Fault> {
        match setting {
            Setting::Greys(greys) => self.set_costs(self.priced(&greys)?),
            Setting::Costs(words) => self.set_costs(words::values(self.heap, words)?),
            Setting::Multipliers(words) => {
                self.multipliers = words::values(self.heap, words)?;
                Ok(answers::ok(self.heap)?)
            }
            Setting::Board { name, values } => {
                self.boards.replace(self.heap, name, values)?;
                Ok(answers::ok(self.heap)?)
            }
        }
    }

    // Floor and ceiling of a reading are those of its costs, so other costs forget it.
    fn set_costs(&mut self, costs: Vec<W>) -> Result<String, Fault> {
        self.forget_reading();
        self.boards.costs = costs;
        Ok(answers::costs(self.heap, &self.boards.costs)?)
    }

    pub fn ask<L: Layout>(&self, layout: &L, query: Query) -> Result<String, Fault> {
        match query {
            Query::Choices => self.choices(layout),
            Query::Floor => self.floor(layout),
            Query::Encode { word, multipliers } => self.encode(layout, &word, multipliers),
            Query::Decode(bytes) => self.decode(layout, &bytes),
        }
    }

    fn choices<L: Layout>(&self, layout: &L) -> Result<String, Fault> {
        let mut marks = vec![in self.heap; 0u8; usize::from(layout.edges())]?;
        let mut sums = self.zeros(usize::from(layout.rows()))?;
        reader::choices(layout, &self.multipliers, &mut marks, &mut sums)?;
        Ok(answers::choices(self.heap, layout, &marks, &sums)?)
    }

    fn floor<L: Layout>(&self, layout: &L) -> Result<String, Fault> {
        let cells = usize::from(layout.cells());
        let mut slacks = self.zeros(cells)?;
        reader::slacks(layout, &self.boards.costs, &self.multipliers, &mut slacks)?;
        let mut trial = vec![in self.heap; 0u8; cells]?;
        let floor = reader::floor(layout, &self.boards.costs, &self.multipliers, &mut trial)?;
        Ok(answers::floor(self.heap, &slacks, &trial, floor)?)
    }

    fn encode<L: Layout>(&self, layout: &L, word: &[u8], words: &[&str]) -> Result<String, Fault> {
        let multipliers: Vec<W> = words::values(self.heap, words)?;
        let mut out = vec![in self.heap; 0u8; tickets::ticket_len::<L, W>(layout)]?;
        tickets::write(layout, word, &multipliers, &mut out)?;
        Ok(answers::ticket(self.heap, &out)?)
    }

    fn decode<L: Layout>(&self, layout: &L, bytes: &[u8]) -> Result<String, Fault> {
        let mut multipliers = self.zeros(usize::from(layout.edges()))?;
        let packed = tickets::read(layout, bytes, &mut multipliers)?;
        let mut word = vec![in self.heap; 0u8; usize::from(layout.cells())]?;
        tickets::unpack(packed, &mut word);
        Ok(answers::contents(self.heap, &word, &multipliers)?)
    }

    // The costs of greys.
    fn priced(&self, greys: &[u8]) -> Result<Vec<W>, Fault> {
        let mut costs = self.zeros(greys.len())?;
        weights::convert(greys, &mut costs)?;
        Ok(costs)
    }

    pub fn zeros(&self, len: usize) -> Result<Vec<W>, AllocError> {
        vec![in self.heap; W::zero(); len]
    }
}
