// Reading a label: the row choice, the floor, and the steps by which multipliers move.
#![tactic(auto)]

mod begin;
mod boards;
mod bounds;
mod certificates;
mod choice;
mod edges;
mod offers;
mod passes;
mod reading;
mod round;
mod row_choices;
mod run;
mod steps;
mod table;
#[cfg(test)]
mod tests;
mod verdict;
mod walks;

pub use bounds::{floor, slacks};
pub use choice::{RowChoice, choose};
pub use reading::{Reading, Verdict};
pub use row_choices::choices;
pub use steps::{Step, StepRule};
