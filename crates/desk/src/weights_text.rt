// Weights as words: a plain weight is a number, a paired one two numbers with a comma between.
use crate::fault::Mistake;
use crate::words;
use crate::words::FromWord;
use std::fmt;
use tickets::TicketWeight;
use weights::{GreyCost, Paired, Plain};

// A kind of weight that is read and written.
pub trait Shown: GreyCost + TicketWeight + FromWord + Clone + fmt::Display {}

impl Shown for Plain {}

impl Shown for Paired {}

impl FromWord for Plain {
    fn from_word(word: &str) -> Result<Plain, Mistake> {
        let value = words::number(word).ok_or(Mistake::Plain)?;
        Ok(Plain::new(value))
    }
}

fn pair(word: &str) -> Option<Paired> {
    let (grey, dark) = word.split_once(',')?;
    Some(Paired::new(words::number(grey)?, words::number(dark)?))
}

impl FromWord for Paired {
    fn from_word(word: &str) -> Result<Paired, Mistake> {
        pair(word).ok_or(Mistake::Paired)
    }
}

// A list of weights, each behind a blank.
#[derive(Drop)]
pub struct Spaced<'a, W>(pub &'a [W]);

impl<W: fmt::Display> fmt::Display for Spaced<'_, W> {
    fn fmt<F: fmt::Write>(&self, f: &mut fmt::Formatter<F>) -> fmt::Result {
        for weight in self.0 {
            write!(f, " {weight}")?;
        }
        Ok(())
    }
}

// A word, a digit a cell, behind a blank; nothing where there is no cell.
#[derive(Drop)]
pub struct Word<'a>(pub &'a [u8]);

impl fmt::Display for Word<'_> {
    fn fmt<F: fmt::Write>(&self, f: &mut fmt::Formatter<F>) -> fmt::Result {
        if !self.0.is_empty() {
            write!(f, " ")?;
        }
        for bit in self.0 {
            write!(f, "{bit}")?;
        }
        Ok(())
    }
}
