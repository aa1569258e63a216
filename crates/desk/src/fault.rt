// Why a line is not carried out.
use crate::verb::Verb;
use hex::FromHexError;
use refusals::Refusal;
use std::alloc::AllocError;
use thiserror::Error;

// What a line should have held.
#[derive(Clone, Copy, Debug, Error)]
pub enum Mistake {
    #[error("expected text in UTF-8")]
    NotText,
    #[error("expected a command: help lists them")]
    Unknown,
    #[error("expected {0}")]
    Form(Verb),
    #[error("expected a number in decimal, without a sign")]
    Count,
    #[error("a grey is 0 to 255")]
    Grey,
    #[error("expected numbers in decimal, as -5")]
    Plain,
    #[error("expected pairs of numbers in decimal, as -5,1")]
    Paired,
    #[error("expected a word, a digit a cell, as 110")]
    Word,
    #[error("expected a ticket, two hexadecimal digits a byte")]
    Hex,
    #[error("expected the name of a board: costs, carried, kept, trial or word")]
    Board,
    #[error("choose a layout first, by listed or grid")]
    NoLayout,
    #[error("begin a reading first, by begin or read")]
    NoReading,
    #[error("sums are added before a reading begins: choose the layout again to add more")]
    Begun,
}

#[derive(Clone, Copy, Debug, Error)]
pub enum Fault {
    #[error(transparent)]
    Mistake(#[from] Mistake),
    #[error(transparent)]
    Refused(#[from] Refusal),
    // the one fault that ends the program
    #[error(transparent)]
    Memory(#[from(alloc)] AllocError),
}

impl From<FromHexError> for Fault {
    fn from(error: FromHexError) -> Fault {
        match error {
            FromHexError::OutOfMemory => Fault::Memory(AllocError),
            _ => Fault::Mistake(Mistake::Hex),
        }
    }
}
