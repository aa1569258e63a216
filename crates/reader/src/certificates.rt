// The ticket of a reading, and the ticket of another reading that is taken.
ghost use Rattle.std.specs.Prelude.{◌≡◌, ◌^◌};
ghost use Rattle.reader.specs.Calls.{boards, state, TakeDoes, WriteDoes};

use crate::bounds::floor_value;
use crate::passes::{mean_same, sum_marked};
use crate::reading::Reading;
use crate::table::Table;
use layouts::Layout;
use refusals::Refusal;
use tickets::{TicketWeight, read, unpack, write};

impl<L: Layout, W: TicketWeight> Reading<L, W> {
    // Believes a ticket only once its word meets every row and the floor of its multipliers is its word's cost. The work list
    // holds the multipliers as soon as the ticket's form has passed.
    pub fn take(
        &mut self,
        costs: &[W],
        carried: &[W],
        kept: &mut [W],
        trial: &[u8],
        word: &mut [u8],
        ticket: &[u8],
        work: &mut [W],
    ) -> Result<(), Refusal>
        ensures { TakeDoes L.plan W.Weight.kind costs.now W.codec ticket.now work.old (state self.old (boards carried.now kept.old trial.now word.old)) result (state self.new (boards carried.now kept.new trial.now word.new)) work.new }
    {
        self.check(costs, carried, kept, trial, word)?;
        let packed = read(&self.layout, ticket, work)?;
        let mut store = [0u8; 128];
        let claimed = &mut store[0..costs.len()];
        unpack(packed, claimed);
        let table = Table::of(&self.layout);
        if !table.is_met_by(claimed) {
            return Err(Refusal::RowUnmet);
        }
        let floor = floor_value(&table, costs, work);
        let cost = sum_marked(claimed, costs);
        if !mean_same(floor, cost) {
            return Err(Refusal::TicketFloor);
        }
        let mut progress = self.progress();
        progress.raise(floor, work, kept);
        progress.lower(cost, claimed, word);
        self.floor = progress.floor;
        self.ceiling = progress.ceiling;
        Ok(())
    }

    // Writes the ticket of the kept word and the kept multipliers at the front of the output, and answers its length.
    pub fn write(
        &self,
        costs: &[W],
        carried: &[W],
        kept: &[W],
        trial: &[u8],
        word: &[u8],
        out: &mut [u8],
    ) -> Result<usize, Refusal>
        ensures { WriteDoes L.plan W.Weight.kind costs.now W.codec (state self.now (boards carried.now kept.now trial.now word.now)) out.old result out.new }
    {
        self.check(costs, carried, kept, trial, word)?;
        if !self.progress().is_met() {
            return Err(Refusal::NotMet);
        }
        write(&self.layout, word, kept, out)
    }
}
