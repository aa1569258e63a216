// What a reading has come to.
ghost use Rattle.std.specs.Prelude.{◌≡◌};
ghost use Rattle.reader.specs.Calls.{VerdictDoes};

use crate::reading::{Progress, Reading, Verdict};
use weights::Weight;

impl<L, W: Weight> Reading<L, W> {
    pub(crate) fn progress(&self) -> Progress<W>
        ensures rounds { result.rounds ≡ self.now.rounds }
        ensures floor { result.floor ≡ self.now.floor }
        ensures ceiling { result.ceiling ≡ self.now.ceiling }
    {
        Progress {
            rounds: self.rounds,
            floor: self.floor,
            ceiling: self.ceiling,
        }
    }

    // Floor and ceiling, the rounds made, and whether the reading is met. Whether the trial word meets the rows has no say in it.
    pub fn verdict(&self) -> Verdict<W>
        ensures { VerdictDoes W.kind self.now result }
    {
        let progress = self.progress();
        Verdict {
            bounds: (progress.floor, progress.ceiling),
            rounds: progress.rounds,
            met: progress.is_met(),
        }
    }
}
