// What a reading is handed from outside: multipliers, or a word.
ghost use Rattle.std.specs.Prelude.{◌≡◌};
ghost use Rattle.reader.specs.Calls.{boards, state, OfferDoes, ProposeDoes};

use crate::bounds::floor_value;
use crate::passes::sum_marked;
use crate::reading::Reading;
use crate::table::Table;
use layouts::Layout;
use refusals::Refusal;
use tickets::is_word;
use weights::{MULTIPLIER_SIZE, Weight, any_beyond};

impl<L: Layout, W: Weight> Reading<L, W> {
    // The list becomes the carried multipliers; where its floor is above the reading's, it is kept.
    pub fn offer(
        &mut self,
        costs: &[W],
        carried: &mut [W],
        kept: &mut [W],
        trial: &[u8],
        word: &[u8],
        list: &[W],
    ) -> Result<(), Refusal>
        ensures { OfferDoes L.plan W.kind costs.now list.now (state self.old (boards carried.old kept.old trial.now word.now)) result (state self.new (boards carried.new kept.new trial.now word.now)) }
    {
        self.check(costs, carried, kept, trial, word)?;
        if list.len() != usize::from(self.layout.edges()) || any_beyond(list, MULTIPLIER_SIZE) {
            return Err(Refusal::OfferedMultipliers);
        }
        carried.copy_from_slice(list);
        let table = Table::of(&self.layout);
        let floor = floor_value(&table, costs, carried);
        let mut progress = self.progress();
        progress.raise(floor, carried, kept);
        self.floor = progress.floor;
        Ok(())
    }

    // Keeps the word, where it costs less than the ceiling.
    #[tactic(auto, unfolding(model::specs::Model::passes))]
    pub fn propose(
        &mut self,
        costs: &[W],
        carried: &[W],
        kept: &[W],
        trial: &[u8],
        word: &mut [u8],
        proposed: &[u8],
    ) -> Result<(), Refusal>
        ensures { ProposeDoes L.plan W.kind costs.now proposed.now (state self.old (boards carried.now kept.now trial.now word.old)) result (state self.new (boards carried.now kept.now trial.now word.new)) }
    {
        self.check(costs, carried, kept, trial, word)?;
        if proposed.len() != usize::from(self.layout.cells()) || !is_word(proposed) {
            return Err(Refusal::GivenWord);
        }
        let table = Table::of(&self.layout);
        if !table.is_met_by(proposed) {
            return Err(Refusal::RowUnmet);
        }
        let mut progress = self.progress();
        progress.lower(sum_marked(proposed, costs), proposed, word);
        self.ceiling = progress.ceiling;
        Ok(())
    }
}
