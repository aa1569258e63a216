// Every reason for which a call is declined. A declined call changes nothing.
#![tactic(auto)]

ghost use Rattle.std.specs.Prelude.{◌≡◌};
ghost use Rattle.refusals.specs.Numbers.{number};

use thiserror::Error;

// Each case has the sentence that is printed of it.
#[derive(Clone, Copy, PartialEq, Eq, Debug, Error)]
pub enum Refusal {
    #[error("refused {}: a layout has 1 to 128 cells, at most 96 rows and at most 1,024 cell entries", self.number())]
    LayoutLimits = 1,
    #[error("refused {}: row ends rise strictly from above 0, and the last is the number of cell entries", self.number())]
    RowEnds = 2,
    #[error("refused {}: a cell entry is below the cell count and above the one before it in its row", self.number())]
    RowEntries = 3,
    #[error("refused {}: a grid's sides are 2 to 11", self.number())]
    GridSide = 4,
    #[error("refused {}: at most 8 sums of rows can be added, and at most 96 rows in all", self.number())]
    SumsFull = 5,
    #[error("refused {}: a sum names at least one row, all rows are there, and they rise strictly", self.number())]
    SumRows = 6,
    #[error("refused {}: a sum has at least one cell, and there are at most 1,024 edges in all", self.number())]
    SumCells = 7,
    #[error("refused {}: a step is 1 to 4,096", self.number())]
    StepRange = 8,
    #[error("refused {}: a board has the wrong length", self.number())]
    BoardLength = 9,
    #[error("refused {}: a cost is beyond size 65,536, a multiplier beyond 262,144, or a word byte above 1", self.number())]
    BoardValue = 10,
    #[error("refused {}: a run makes 1 to 4,096 rounds", self.number())]
    RunCount = 11,
    #[error("refused {}: multipliers are one an edge and of size at most 262,144", self.number())]
    OfferedMultipliers = 12,
    #[error("refused {}: a word has one bit, 0 or 1, for each cell", self.number())]
    GivenWord = 13,
    #[error("refused {}: the word does not meet every row", self.number())]
    RowUnmet = 14,
    #[error("refused {}: the ticket's head is short, or its mark is wrong", self.number())]
    TicketHead = 15,
    #[error("refused {}: the ticket is of another kind or layout", self.number())]
    TicketCounts = 16,
    #[error("refused {}: the ticket has a wrong mark, length, unused bit or size after its head", self.number())]
    TicketForm = 17,
    #[error("refused {}: the ticket's multipliers do not prove its word", self.number())]
    TicketFloor = 18,
    #[error("refused {}: the reading is not met", self.number())]
    NotMet = 19,
    #[error("refused {}: the output is too short", self.number())]
    OutputShort = 20,
    #[error("refused {}: greys and costs differ in length", self.number())]
    GreyLength = 21,
    #[error("refused {}: the work list is not one weight an edge", self.number())]
    WorkLength = 22,
}

impl Refusal {
    // The number that stands for the refusal, 1 to 22.
    pub fn number(self) -> u8
        ensures { result ≡ number self }
    {
        self as u8
    }
}

#[cfg(test)]
mod tests {
    use super::Refusal;
    use std::test::Fail;

    #[test]
    fn a_refusal_prints_its_number_and_sentence(rt: HostRuntime) -> Result<(), Fail> {
        let first = format!(in rt.alloc(); "{}", Refusal::LayoutLimits)?;
        assert!(rt;
            first.as_str()
                == "refused 1: a layout has 1 to 128 cells, at most 96 rows and at most 1,024 cell entries"
        );
        let last = format!(in rt.alloc(); "{}", Refusal::WorkLength)?;
        assert!(rt; last.as_str() == "refused 22: the work list is not one weight an edge");
        Ok(())
    }
}
