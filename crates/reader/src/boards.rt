// The checks of a caller's boards, which are slices that go to each call.
ghost use Rattle.std.specs.Prelude.{◌≡◌, not, length};
ghost use Rattle.refusals.specs.Numbers.{number_of};
ghost use Rattle.model.specs.Calls.{misfit, begin_refusal, shape_refusal};
ghost use Rattle.reader.specs.Boards.{floor_refusal, choices_refusal};

use crate::reading::Reading;
use layouts::Layout;
use refusals::Refusal;
use tickets::is_word;
use weights::{COST_SIZE, MULTIPLIER_SIZE, Weight, any_beyond};

// The boards from which a floor is worked out, with an output of n entries.
pub(crate) fn check_floor<L: Layout, W: Weight>(
    layout: &L,
    costs: &[W],
    multipliers: &[W],
    n: usize,
) -> Result<(), Refusal>
    ensures { number_of result ≡ floor_refusal W.kind (L.plan layout.now) costs.now multipliers.now n }
{
    let cells = usize::from(layout.cells());
    if costs.len() != cells || multipliers.len() != usize::from(layout.edges()) || n != cells {
        return Err(Refusal::BoardLength);
    }
    if any_beyond(costs, COST_SIZE) || any_beyond(multipliers, MULTIPLIER_SIZE) {
        return Err(Refusal::BoardValue);
    }
    Ok(())
}

// The multipliers from which choices are made, with outputs of m and n entries.
pub(crate) fn check_choices<L: Layout, W: Weight>(
    layout: &L,
    multipliers: &[W],
    m: usize,
    n: usize,
) -> Result<(), Refusal>
    ensures { number_of result ≡ choices_refusal W.kind (L.plan layout.now) multipliers.now m n }
{
    let edges = usize::from(layout.edges());
    if multipliers.len() != edges || m != edges || n != usize::from(layout.rows()) {
        return Err(Refusal::BoardLength);
    }
    if any_beyond(multipliers, MULTIPLIER_SIZE) {
        return Err(Refusal::BoardValue);
    }
    Ok(())
}

// The boards of a reading, as a call is given them: costs, carried and kept multipliers, trial word and kept word.
#[derive(Drop)]
pub(crate) struct Boards<'a, W> {
    pub(crate) costs: &'a [W],
    pub(crate) carried: &'a [W],
    pub(crate) kept: &'a [W],
    pub(crate) trial: &'a [u8],
    pub(crate) word: &'a [u8],
}

impl<W: Weight> Boards<'_, W> {
    // Whether they have one entry a cell, or one an edge.
    fn are_fitting<L: Layout>(&self, layout: &L) -> bool
        ensures { result ≡ not (misfit (L.plan layout.now) (length self.now.costs.now) (length self.now.carried.now) (length self.now.kept.now) (length self.now.trial.now) (length self.now.word.now)) }
    {
        let cells = usize::from(layout.cells());
        let edges = usize::from(layout.edges());
        self.costs.len() == cells
            && self.carried.len() == edges
            && self.kept.len() == edges
            && self.trial.len() == cells
            && self.word.len() == cells
    }

    // Whether a reading may begin with them: of those to be filled, the lengths alone count.
    pub(crate) fn check_new<L: Layout>(&self, layout: &L) -> Result<(), Refusal>
        ensures { number_of result ≡ begin_refusal W.kind (L.plan layout.now) self.now.costs.now (length self.now.carried.now) (length self.now.kept.now) (length self.now.trial.now) (length self.now.word.now) }
    {
        if !self.are_fitting(layout) {
            return Err(Refusal::BoardLength);
        }
        if any_beyond(self.costs, COST_SIZE) {
            return Err(Refusal::BoardValue);
        }
        Ok(())
    }

    // Whether a call may work on them.
    #[tactic(auto, unfolding(model::specs::Calls::shape_refusal))]
    fn check<L: Layout>(&self, layout: &L) -> Result<(), Refusal>
        ensures { number_of result ≡ shape_refusal W.kind (L.plan layout.now) self.now.costs.now self.now.carried.now self.now.kept.now self.now.trial.now self.now.word.now }
    {
        self.check_new(layout)?;
        if any_beyond(self.carried, MULTIPLIER_SIZE)
            || any_beyond(self.kept, MULTIPLIER_SIZE)
            || !is_word(self.trial)
            || !is_word(self.word)
        {
            return Err(Refusal::BoardValue);
        }
        Ok(())
    }
}

impl<L: Layout, W: Weight> Reading<L, W> {
    // The boards that go to a call.
    pub(crate) fn check(
        &self,
        costs: &[W],
        carried: &[W],
        kept: &[W],
        trial: &[u8],
        word: &[u8],
    ) -> Result<(), Refusal>
        ensures { number_of result ≡ shape_refusal W.kind (L.plan self.now.layout) costs.now carried.now kept.now trial.now word.now }
    {
        let given = Boards {
            costs: &*costs,
            carried: &*carried,
            kept: &*kept,
            trial: &*trial,
            word: &*word,
        };
        given.check(&self.layout)
    }
}
