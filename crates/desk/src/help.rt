// What help lists.
use crate::verb;
use std::fmt;

// A line for each command.
#[derive(Drop)]
pub struct Commands;

impl fmt::Display for Commands {
    fn fmt<W: fmt::Write>(&self, f: &mut fmt::Formatter<W>) -> fmt::Result {
        for verb in verb::ALL {
            writeln!(f, "{verb}: {}", verb.purpose())?;
        }
        Ok(())
    }
}
