// Sums of parity rows: a layout over another one, to which they are added before a reading begins over it.
#![tactic(auto)]

ghost use Rattle.sums.specs.Laws.{SumHasOddCells, LayersKeepCodewords};

mod layer;
mod names;
mod row;
mod table;

pub use layer::SumLayer;
use layouts::Layout;

// A sum of rows has the cells that an odd number of them has. There is nothing to compute: the contract is the law.
pub fn sum_has_odd_cells()
    ensures { SumHasOddCells }
{}

// A word is a codeword of a layer exactly when it is one of the layout below, after any addings.
pub fn layers_keep_codewords<L: Layout>()
    ensures { LayersKeepCodewords L.plan }
{}
