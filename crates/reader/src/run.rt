// Running a reading: the boards are checked once, the layout is copied once, and then rounds are made.
ghost use Rattle.std.specs.Prelude.{◌≡◌};
ghost use Rattle.reader.specs.Calls.{boards, state, RunDoes};

use crate::reading::Reading;
use crate::steps::StepRule;
use crate::table::Table;
use layouts::Layout;
use refusals::Refusal;
use weights::Weight;

impl<L: Layout, W: Weight> Reading<L, W> {
    // Makes at most so many rounds, and answers how many it made.
    pub fn run(
        &mut self,
        costs: &[W],
        carried: &mut [W],
        kept: &mut [W],
        trial: &mut [u8],
        word: &mut [u8],
        count: u32,
        rule: StepRule,
    ) -> Result<u32, Refusal>
        ensures { RunDoes L.plan W.kind costs.now rule count (state self.old (boards carried.old kept.old trial.old word.old)) result (state self.new (boards carried.new kept.new trial.new word.new)) }
    {
        self.check(costs, carried, kept, trial, word)?;
        if !(1..=4096).contains(&count) {
            return Err(Refusal::RunCount);
        }
        let mut progress = self.progress();
        let table = Table::of(&self.layout);
        progress.rounds(&table, costs, rule, count, carried, kept, trial, word);
        let made = progress.rounds - self.rounds;
        self.rounds = progress.rounds;
        self.floor = progress.floor;
        self.ceiling = progress.ceiling;
        Ok(made)
    }
}
