// The beginning of a reading.
ghost use Rattle.std.specs.Prelude.{◌≡◌};
ghost use Rattle.reader.specs.Calls.{boards, BeginDoes};

use crate::boards::Boards;
use crate::bounds::floor_value;
use crate::edges::set_all;
use crate::reading::Reading;
use crate::table::Table;
use layouts::Layout;
use refusals::Refusal;
use weights::Weight;

impl<L: Layout + Drop, W: Weight> Reading<L, W> {
    // A reading over the layout, which is used up even where the call is declined: all multipliers are zero, both words blank.
    pub fn begin(
        layout: L,
        costs: &[W],
        carried: &mut [W],
        kept: &mut [W],
        trial: &mut [u8],
        word: &mut [u8],
    ) -> Result<Reading<L, W>, Refusal>
        ensures { BeginDoes L.plan W.kind costs.now layout (boards carried.old kept.old trial.old word.old) result (boards carried.new kept.new trial.new word.new) }
    {
        let zero = W::zero();
        let given = Boards {
            costs: &*costs,
            carried: &*carried,
            kept: &*kept,
            trial: &*trial,
            word: &*word,
        };
        given.check_new(&layout)?;
        set_all(carried, zero);
        set_all(kept, zero);
        set_all(trial, 0);
        set_all(word, 0);
        let table = Table::of(&layout);
        let floor = floor_value(&table, costs, carried);
        Ok(Reading {
            layout,
            rounds: 0,
            floor,
            ceiling: zero,
        })
    }
}
