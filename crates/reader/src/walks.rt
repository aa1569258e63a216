// The walks over all rows and edges of a copied layout. That a list has an entry an edge or a cell ties it to the table, an
// argument of the same call, and so stands in each contract and in no type.
ghost use Rattle.std.specs.Prelude.{◌≡◌, ◌+◌, ◌^◌, ◌≤◌, length};
ghost use Rattle.layouts.specs.Plans.{edges, edge_cells};
ghost use Rattle.weights.specs.Kinds.{meanings};
ghost use Rattle.weights.specs.Sizes.{Within};
ghost use Rattle.dual.specs.Bound.{at, slacks, choices, row_leasts, codeword};
ghost use Rattle.model.specs.Moves.{moved_edges};
ghost use Rattle.model.specs.Words.{bytes, bits};
ghost use Rattle.reader.specs.Sizes.{total_size};

use crate::edges::{moved_edge, odd_dark};
use crate::passes::{mark_choice, sum_marked};
use crate::table::Table;
use layouts::Layout;
use weights::Weight;

impl<L: Layout> Table<'_, L> {
    // Marks the choices of all rows, one byte an edge.
    pub(crate) fn mark_choices<W: Weight>(&self, multipliers: &[W], marks: &mut [u8])
        requires multipliers { length multipliers.now ≡ edges (L.plan self.now.layout.now).rows }
        requires marks { length marks.old ≡ edges (L.plan self.now.layout.now).rows }
        ensures { marks.new ≡ bytes (choices (L.plan self.now.layout.now).rows (meanings W.kind multipliers.now)) }
    {
        for row in self.rows() {
            let start = usize::from(row.start);
            let end = usize::from(row.end);
            mark_choice(row.of(multipliers), &mut marks[start..end]);
        }
    }

    // The least sum of each row, from the choices of all rows.
    pub(crate) fn sum_rows<W: Weight>(&self, marks: &[u8], multipliers: &[W], sums: &mut [W])
        requires multipliers { length multipliers.now ≡ edges (L.plan self.now.layout.now).rows }
        requires marks { marks.now ≡ bytes (choices (L.plan self.now.layout.now).rows (meanings W.kind multipliers.now)) }
        requires sums { length sums.old ≡ length (L.plan self.now.layout.now).rows }
        requires small { total_size W.kind multipliers.now ≤ 2 ^ 30 }
        ensures { meanings W.kind sums.new ≡ row_leasts (L.plan self.now.layout.now).rows (meanings W.kind multipliers.now) }
    {
        // Written by place: of what `iter_mut` lends under `zip` a proof knows nothing afterwards.
        for (i, row) in self.rows().iter().enumerate() {
            sums[i] = sum_marked(row.of(marks), row.of(multipliers));
        }
    }

    // Whether the word meets every row.
    pub(crate) fn is_met_by(&self, word: &[u8]) -> bool
        requires { length word.now ≡ (L.plan self.now.layout.now).cells }
        ensures { result ≡ codeword (L.plan self.now.layout.now).rows (bits word.now) }
    {
        for row in self.rows() {
            if odd_dark(row.of(self.edge_cells()), word) {
                return false;
            }
        }
        true
    }

    // Each edge takes its multiplier from the entry of its cell: what is left of the costs are the slacks.
    pub(crate) fn slacken<W: Weight>(&self, multipliers: &[W], left: &mut [W])
        requires multipliers { length multipliers.now ≡ edges (L.plan self.now.layout.now).rows }
        requires left { length left.old ≡ (L.plan self.now.layout.now).cells }
        requires small { Within W.kind (2 ^ 18) multipliers.now }
        requires costs { total_size W.kind left.old ≤ 2 ^ 23 }
        ensures value { meanings W.kind left.new ≡ slacks (edge_cells (L.plan self.now.layout.now).rows) (meanings W.kind multipliers.now) (meanings W.kind left.old) }
        ensures size { total_size W.kind left.new ≤ 2 ^ 23 + 2 ^ 28 }
    {
        for (cell, multiplier) in self.edge_cells().iter().zip(multipliers) {
            let cell = usize::from(*cell);
            left[cell] = left[cell].minus(*multiplier);
        }
    }

    // The multipliers of all edges after a step. The marks are the choices of the rows, so no row's move changes another's choice.
    pub(crate) fn move_edges<W: Weight>(
        &self,
        word: &[u8],
        marks: &[u8],
        step: u32,
        multipliers: &mut [W],
    )
        requires word { length word.now ≡ (L.plan self.now.layout.now).cells }
        requires marks { length marks.now ≡ edges (L.plan self.now.layout.now).rows }
        requires multipliers { length multipliers.old ≡ edges (L.plan self.now.layout.now).rows }
        ensures { multipliers.new ≡ moved_edges W.kind step (at (bits word.now) (edge_cells (L.plan self.now.layout.now).rows)) (bits marks.now) multipliers.old }
    {
        let cells = self.edge_cells();
        // The other lists by place: of what `iter_mut` lends under `zip` a proof knows nothing afterwards.
        for (i, multiplier) in multipliers.iter_mut().enumerate() {
            let dark = word[usize::from(cells[i])] != 0;
            *multiplier = moved_edge(*multiplier, step, dark, marks[i] != 0);
        }
    }
}
