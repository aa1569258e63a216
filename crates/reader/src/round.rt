// One round of a reading, and the steps that it shares with other calls. Boards are checked before, once a call.
ghost use Rattle.std.specs.Prelude.{◌≡◌, ℕ, ◌+◌, ◌^◌, ◌<◌, ◌≤◌, List, length};
ghost use Rattle.layouts.specs.Plans.{edges};
ghost use Rattle.model.specs.Model.{equal, raised_to, lowered_to, improved, moves, round, rounds_of};
ghost use Rattle.weights.specs.Sizes.{Within};
ghost use Rattle.reader.specs.Boards.{Fit};
ghost use Rattle.reader.specs.Calls.{boards, seen};
ghost use Rattle.reader.specs.Rules.{step_of};

use crate::bounds::bound;
use crate::passes::{mean_same, sum_marked};
use crate::reading::Progress;
use crate::steps::StepRule;
use crate::table::Table;
use layouts::Layout;
use weights::Weight;

impl<W: Weight> Progress<W> {
    // Whether floor and ceiling are equal.
    pub(crate) fn is_met(&self) -> bool
        ensures { result ≡ equal (W.kind.meaning self.now.floor) (W.kind.meaning self.now.ceiling) }
    {
        mean_same(self.floor, self.ceiling)
    }

    // Keeps the multipliers whose floor this is, where it is above the reading's.
    pub(crate) fn raise(&mut self, floor: W, multipliers: &[W], kept: &mut [W])
        requires { length kept.old ≡ length multipliers.now }
        ensures rounds { self.new.rounds ≡ self.old.rounds }
        ensures after { (carried : List W) (trial word : List ℕ) → seen W.kind self.new (boards carried kept.new trial word) ≡ raised_to (W.kind.meaning floor) multipliers.now (seen W.kind self.old (boards carried kept.old trial word)) }
    {
        if self.floor.below(floor) {
            self.floor = floor;
            kept.copy_from_slice(multipliers);
        }
    }

    // Keeps the codeword of this cost, where it is below the ceiling.
    pub(crate) fn lower(&mut self, cost: W, given: &[u8], word: &mut [u8])
        requires { length word.old ≡ length given.now }
        ensures rounds { self.new.rounds ≡ self.old.rounds }
        ensures after { (carried kept : List W) (trial : List ℕ) → seen W.kind self.new (boards carried kept trial word.new) ≡ lowered_to (W.kind.meaning cost) given.now (seen W.kind self.old (boards carried kept trial word.old)) }
    {
        if cost.below(self.ceiling) {
            self.ceiling = cost;
            word.copy_from_slice(given);
        }
    }

    // Keeps the word, where it is a codeword below the ceiling.
    pub(crate) fn improve<L: Layout>(
        &mut self,
        table: &Table<L>,
        costs: &[W],
        given: &[u8],
        word: &mut [u8],
    )
        requires costs { length costs.now ≡ (L.plan table.now.layout.now).cells }
        requires small { Within W.kind (2 ^ 16) costs.now }
        requires given { length given.now ≡ length costs.now }
        requires word { length word.old ≡ length costs.now }
        ensures rounds { self.new.rounds ≡ self.old.rounds }
        ensures after { (carried kept : List W) (trial : List ℕ) → seen W.kind self.new (boards carried kept trial word.new) ≡ improved W.kind (L.plan table.now.layout.now) costs.now given.now (seen W.kind self.old (boards carried kept trial word.old)) }
    {
        if table.is_met_by(given) {
            self.lower(sum_marked(given, costs), given, word);
        }
    }

    // A round with its step: the trial word and the floor of the carried multipliers; the floor may rise, the word may be kept,
    // and the multipliers move by the choices that they had at the start.
    pub(crate) fn round<L: Layout>(
        &mut self,
        table: &Table<L>,
        costs: &[W],
        step: u32,
        carried: &mut [W],
        kept: &mut [W],
        trial: &mut [u8],
        word: &mut [u8],
    )
        requires rounds { self.old.rounds < 4096 }
        requires fit { Fit W.kind (L.plan table.now.layout.now) costs.now carried.old }
        requires kept { length kept.old ≡ length carried.old }
        requires trial { length trial.old ≡ length costs.now }
        requires word { length word.old ≡ length costs.now }
        ensures rounds { self.new.rounds ≡ self.old.rounds + 1 }
        ensures moved { carried.new ≡ moves W.kind (L.plan table.now.layout.now) costs.now step trial.new carried.old }
        ensures after { seen W.kind self.new (boards carried.new kept.new trial.new word.new) ≡ round W.kind (L.plan table.now.layout.now) costs.now step (seen W.kind self.old (boards carried.old kept.old trial.old word.old)) }
    {
        let mut store = [0u8; 1024];
        let whole = &mut store[..];
        let marks = &mut whole[0..carried.len()];
        let floor = bound(&*table, &*costs, carried, trial, marks);
        self.raise(floor, carried, kept);
        self.improve(table, costs, trial, word);
        table.move_edges(trial, marks, step, carried);
        self.rounds += 1;
    }

    // At most so many rounds: none is made once the reading is met, or once 4,096 have been made.
    pub(crate) fn rounds<L: Layout>(
        &mut self,
        table: &Table<L>,
        costs: &[W],
        rule: StepRule,
        count: u32,
        carried: &mut [W],
        kept: &mut [W],
        trial: &mut [u8],
        word: &mut [u8],
    )
        requires fit { Fit W.kind (L.plan table.now.layout.now) costs.now carried.old }
        requires kept { length kept.old ≡ length carried.old }
        requires trial { length trial.old ≡ length costs.now }
        requires word { length word.old ≡ length costs.now }
        ensures grows { self.old.rounds ≤ self.new.rounds }
        ensures after { seen W.kind self.new (boards carried.new kept.new trial.new word.new) ≡ rounds_of W.kind (L.plan table.now.layout.now) costs.now (step_of rule) count (seen W.kind self.old (boards carried.old kept.old trial.old word.old)) }
    {
        for _round in 0..count {
            if self.is_met() || self.rounds >= 4096 {
                return;
            }
            let step = rule.step(self.rounds + 1);
            self.round(table, costs, step, carried, kept, trial, word);
        }
    }
}
