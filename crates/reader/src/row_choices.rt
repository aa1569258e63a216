// The choices of all rows of a layout, with the least sum of each. Boards go to each public call as slices.
ghost use Rattle.std.specs.Prelude.{◌≡◌, length, OnErr, OnOk};
ghost use Rattle.refusals.specs.Numbers.{number_of};
ghost use Rattle.weights.specs.Kinds.{meanings};
ghost use Rattle.dual.specs.Bound.{choices, row_leasts};
ghost use Rattle.model.specs.Words.{bytes};
ghost use Rattle.reader.specs.Boards.{choices_refusal};

use crate::boards::check_choices;
use crate::table::Table;
use layouts::Layout;
use refusals::Refusal;
use weights::Weight;

// Writes the choices of all rows, one byte an edge, 1 where the edge is chosen, and the least sum of each row.
// Declined boards leave both outputs as they were.
pub fn choices<L: Layout, W: Weight>(
    layout: &L,
    multipliers: &[W],
    marks: &mut [u8],
    sums: &mut [W],
) -> Result<(), Refusal>
    ensures number { number_of result ≡ choices_refusal W.kind (L.plan layout.now) multipliers.now (length marks.old) (length sums.old) }
    ensures marks { OnOk result (marks.new ≡ bytes (choices (L.plan layout.now).rows (meanings W.kind multipliers.now))) }
    ensures sums { OnOk result (meanings W.kind sums.new ≡ row_leasts (L.plan layout.now).rows (meanings W.kind multipliers.now)) }
    ensures same { OnErr result ((marks.new ≡ marks.old) × (sums.new ≡ sums.old)) }
{
    check_choices(layout, multipliers, marks.len(), sums.len())?;
    let table = Table::of(layout);
    table.mark_choices(multipliers, marks);
    table.sum_rows(marks, multipliers, sums);
    Ok(())
}
