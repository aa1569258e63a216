// The floor of a set of multipliers: no codeword costs less. Boards go to each public call as slices.
ghost use Rattle.std.specs.Prelude.{◌≡◌, ◌+◌, ◌^◌, ◌≤◌, length, IfOk, OnErr, OnOk};
ghost use Rattle.refusals.specs.Numbers.{number_of};
ghost use Rattle.layouts.specs.Plans.{edge_cells};
ghost use Rattle.weights.specs.Kinds.{meanings};
ghost use Rattle.dual.specs.Bound.{slacks, choices, trial_word, floor};
ghost use Rattle.model.specs.Model.{floor_of};
ghost use Rattle.model.specs.Words.{bytes};
ghost use Rattle.reader.specs.Boards.{floor_refusal, Fit};
ghost use Rattle.reader.specs.Sizes.{total_size};

use crate::boards::check_floor;
use crate::passes::{mark_negatives, sum_marked};
use crate::table::Table;
use layouts::Layout;
use refusals::Refusal;
use weights::Weight;

// Costs, one a cell, and multipliers, one an edge, each within its size.
#[derive(Drop)]
pub(crate) struct Priced<'a, L: Layout, W: Weight> {
    table: &'a Table<'a, L>,
    costs: &'a [W],
    multipliers: &'a [W],
    ghost fit: { Fit W.kind (L.plan table.now.layout.now) costs.now multipliers.now },
}

impl<L: Layout, W: Weight> Priced<'_, L, W> {
    // The slacks of all cells.
    fn slacks_into(&self, out: &mut [W])
        requires { length out.old ≡ length self.now.costs.now }
        ensures value { meanings W.kind out.new ≡ slacks (edge_cells (L.plan self.now.table.now.layout.now).rows) (meanings W.kind self.now.multipliers.now) (meanings W.kind self.now.costs.now) }
        ensures size { total_size W.kind out.new ≤ 2 ^ 23 + 2 ^ 28 }
    {
        out.copy_from_slice(self.costs);
        self.table.slacken(self.multipliers, out);
    }

    // The floor, with the trial word and the choices of all rows. Every sum on the way is exact: the sizes of all slacks add
    // up to at most 128 * 2^16 + 1024 * 2^18, and those of all multipliers to 1024 * 2^18, together below 2^30.
    pub(crate) fn bound(&self, trial: &mut [u8], marks: &mut [u8]) -> W
        requires trial { length trial.old ≡ length self.now.costs.now }
        requires marks { length marks.old ≡ length self.now.multipliers.now }
        ensures value { W.kind.meaning result ≡ floor (L.plan self.now.table.now.layout.now).rows (meanings W.kind self.now.costs.now) (meanings W.kind self.now.multipliers.now) }
        ensures trial { trial.new ≡ bytes (trial_word (L.plan self.now.table.now.layout.now).rows (meanings W.kind self.now.costs.now) (meanings W.kind self.now.multipliers.now)) }
        ensures marks { marks.new ≡ bytes (choices (L.plan self.now.table.now.layout.now).rows (meanings W.kind self.now.multipliers.now)) }
    {
        // Memory of a fixed size, since there is no heap; an `ArrayVec` would ask that weights have a default.
        let mut store = [W::zero(); 128];
        let whole = &mut store[..];
        let left = &mut whole[0..self.costs.len()];
        self.slacks_into(left);
        let _ = mark_negatives(left, trial);
        self.table.mark_choices(self.multipliers, marks);
        sum_marked(trial, left).plus(sum_marked(marks, self.multipliers))
    }
}

// The floor of boards that were checked, with the trial word and the choices of all rows.
pub(crate) fn bound<'a, L: Layout, W: Weight>(
    table: &'a Table<'a, L>,
    costs: &'a [W],
    multipliers: &'a [W],
    trial: &mut [u8],
    marks: &mut [u8],
) -> W
    requires fit { Fit W.kind (L.plan table.now.layout.now) costs.now multipliers.now }
    requires trial { length trial.old ≡ length costs.now }
    requires marks { length marks.old ≡ length multipliers.now }
    ensures value { W.kind.meaning result ≡ floor (L.plan table.now.layout.now).rows (meanings W.kind costs.now) (meanings W.kind multipliers.now) }
    ensures trial { trial.new ≡ bytes (trial_word (L.plan table.now.layout.now).rows (meanings W.kind costs.now) (meanings W.kind multipliers.now)) }
    ensures marks { marks.new ≡ bytes (choices (L.plan table.now.layout.now).rows (meanings W.kind multipliers.now)) }
{
    let priced = Priced {
        table,
        costs,
        multipliers,
    };
    priced.bound(trial, marks)
}

// The floor alone.
pub(crate) fn floor_value<L: Layout, W: Weight>(
    table: &Table<L>,
    costs: &[W],
    multipliers: &[W],
) -> W
    requires { Fit W.kind (L.plan table.now.layout.now) costs.now multipliers.now }
    ensures { W.kind.meaning result ≡ floor_of W.kind (L.plan table.now.layout.now) costs.now multipliers.now }
{
    let mut trial = [0u8; 128];
    let mut marks = [0u8; 1024];
    bound(
        &*table,
        &*costs,
        &*multipliers,
        &mut trial[0..costs.len()],
        &mut marks[0..multipliers.len()],
    )
}

// Works out the floor of the multipliers and writes the trial word, one byte of 0 or 1 a cell.
// Declined boards leave the trial word as it was.
pub fn floor<L: Layout, W: Weight>(
    layout: &L,
    costs: &[W],
    multipliers: &[W],
    trial: &mut [u8],
) -> Result<W, Refusal>
    ensures number { number_of result ≡ floor_refusal W.kind (L.plan layout.now) costs.now multipliers.now (length trial.old) }
    ensures value { IfOk result (λ w. W.kind.meaning w ≡ floor (L.plan layout.now).rows (meanings W.kind costs.now) (meanings W.kind multipliers.now)) }
    ensures trial { OnOk result (trial.new ≡ bytes (trial_word (L.plan layout.now).rows (meanings W.kind costs.now) (meanings W.kind multipliers.now))) }
    ensures same { OnErr result (trial.new ≡ trial.old) }
{
    check_floor(layout, costs, multipliers, trial.len())?;
    let table = Table::of(layout);
    let priced = Priced {
        table: &table,
        costs,
        multipliers,
    };
    // All of it is overwritten, so that the front of an array is as plain as a vector.
    let mut marks = [0u8; 1024];
    Ok(priced.bound(trial, &mut marks[0..multipliers.len()]))
}

// Writes the slack of each cell: its cost minus its multipliers. Declined boards leave the output as it was.
pub fn slacks<L: Layout, W: Weight>(
    layout: &L,
    costs: &[W],
    multipliers: &[W],
    out: &mut [W],
) -> Result<(), Refusal>
    ensures number { number_of result ≡ floor_refusal W.kind (L.plan layout.now) costs.now multipliers.now (length out.old) }
    ensures value { OnOk result (meanings W.kind out.new ≡ slacks (edge_cells (L.plan layout.now).rows) (meanings W.kind multipliers.now) (meanings W.kind costs.now)) }
    ensures same { OnErr result (out.new ≡ out.old) }
{
    check_floor(layout, costs, multipliers, out.len())?;
    let table = Table::of(layout);
    let priced = Priced {
        table: &table,
        costs,
        multipliers,
    };
    priced.slacks_into(out);
    Ok(())
}
