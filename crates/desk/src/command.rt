// What a line asks for.
use crate::fault::{Fault, Mistake};
use crate::verb::Verb;
use crate::words;
use crate::words::FromWord;
use layouts::RowNo;
use reader::StepRule;
use std::alloc::Global;

#[derive(Clone, Copy)]
pub enum KindName {
    Plain,
    Paired,
}

#[derive(Clone, Copy)]
pub enum BoardName {
    Costs,
    Carried,
    Kept,
    Trial,
    Word,
}

// What sets a board. Weights stay words until it is known of which kind they are.
#[derive(Drop)]
pub enum Setting<'a> {
    Greys(Vec<u8>),
    Costs(&'a [&'a str]),
    Multipliers(&'a [&'a str]),
    Board {
        name: BoardName,
        values: &'a [&'a str],
    },
}

// What is asked of the layout and the boards.
#[derive(Drop)]
pub enum Query<'a> {
    Choices,
    Floor,
    Encode {
        word: Vec<u8>,
        multipliers: &'a [&'a str],
    },
    Decode(Vec<u8>),
}

// What is asked of a reading.
#[derive(Drop)]
pub enum Action<'a> {
    Read,
    Begin,
    Run { count: u32, rule: StepRule },
    Trace { count: u32, rule: StepRule },
    Offer(&'a [&'a str]),
    Propose(Vec<u8>),
    Take { ticket: Vec<u8>, work: Option<u16> },
    Verdict,
    Write(Option<u16>),
}

#[derive(Drop)]
pub enum Command<'a> {
    Help,
    Listed {
        cells: u16,
        ends: Vec<u16>,
        entries: Vec<u16>,
    },
    Grid {
        lines: u16,
        columns: u16,
    },
    Sum(Vec<RowNo>),
    Kind(KindName),
    Set(Setting<'a>),
    Ask(Query<'a>),
    Act(Action<'a>),
    Boards,
}

// `heap` goes along to all that allocates, as allocators do.
pub fn parse<'a>(heap: Global, words: &'a [&'a str]) -> Result<Command<'a>, Fault> {
    let (first, rest) = words.split_first().ok_or(Mistake::Unknown)?;
    let verb: Verb = first.parse()?;
    continued(heap, verb, rest)
}

// The command that a verb and the words after it stand for. A match: a table would hold function pointers.
fn continued<'a>(heap: Global, verb: Verb, rest: &'a [&'a str]) -> Result<Command<'a>, Fault> {
    match verb {
        Verb::Listed => listing(heap, rest),
        Verb::Sum => Ok(Command::Sum(words::values(heap, rest)?)),
        Verb::Greys => Ok(Command::Set(Setting::Greys(words::values(heap, rest)?))),
        Verb::Costs => Ok(Command::Set(Setting::Costs(rest))),
        Verb::Multipliers => Ok(Command::Set(Setting::Multipliers(rest))),
        Verb::Board => Ok(Command::Set(board(rest)?)),
        Verb::Encode => Ok(Command::Ask(encoding(heap, rest)?)),
        Verb::Decode => Ok(Command::Ask(decoding(heap, rest)?)),
        Verb::Offer => Ok(Command::Act(Action::Offer(rest))),
        Verb::Run => {
            let (count, rule) = running(verb, rest)?;
            Ok(Command::Act(Action::Run { count, rule }))
        }
        Verb::Trace => {
            let (count, rule) = running(verb, rest)?;
            Ok(Command::Act(Action::Trace { count, rule }))
        }
        Verb::Propose => Ok(Command::Act(proposing(heap, rest)?)),
        Verb::Take => Ok(Command::Act(taking(heap, rest)?)),
        _ => short(verb, rest),
    }
}

// A command with a fixed number of words.
fn short<'a>(verb: Verb, rest: &[&str]) -> Result<Command<'a>, Fault> {
    match (verb, rest) {
        (Verb::Help, []) => Ok(Command::Help),
        (Verb::Grid, [lines, columns]) => {
            let lines = u16::from_word(lines)?;
            let columns = u16::from_word(columns)?;
            Ok(Command::Grid { lines, columns })
        }
        (Verb::Kind, ["plain"]) => Ok(Command::Kind(KindName::Plain)),
        (Verb::Kind, ["paired"]) => Ok(Command::Kind(KindName::Paired)),
        (Verb::Choices, []) => Ok(Command::Ask(Query::Choices)),
        (Verb::Floor, []) => Ok(Command::Ask(Query::Floor)),
        (Verb::Read, []) => Ok(Command::Act(Action::Read)),
        (Verb::Begin, []) => Ok(Command::Act(Action::Begin)),
        (Verb::Verdict, []) => Ok(Command::Act(Action::Verdict)),
        (Verb::Write, []) => Ok(Command::Act(Action::Write(None))),
        (Verb::Write, [room]) => Ok(Command::Act(Action::Write(Some(u16::from_word(room)?)))),
        (Verb::Boards, []) => Ok(Command::Boards),
        _ => Err(Fault::from(Mistake::Form(verb))),
    }
}

fn listing<'a>(heap: Global, rest: &[&str]) -> Result<Command<'a>, Fault> {
    let [cells, "ends", rows @ ..] = rest else {
        return Err(Fault::from(Mistake::Form(Verb::Listed)));
    };
    let cells = u16::from_word(cells)?;
    let split = rows.iter().position(|word| *word == "entries");
    let split = split.ok_or(Mistake::Form(Verb::Listed))?;
    Ok(Command::Listed {
        cells,
        ends: words::values(heap, &rows[..split])?,
        entries: words::values(heap, &rows[split + 1..])?,
    })
}

fn encoding<'a>(heap: Global, rest: &'a [&'a str]) -> Result<Query<'a>, Fault> {
    let [word, multipliers @ ..] = rest else {
        return Err(Fault::from(Mistake::Form(Verb::Encode)));
    };
    let word = words::cells(heap, word)?;
    Ok(Query::Encode { word, multipliers })
}

fn decoding<'a>(heap: Global, rest: &[&str]) -> Result<Query<'a>, Fault> {
    let [digits] = rest else {
        return Err(Fault::from(Mistake::Form(Verb::Decode)));
    };
    Ok(Query::Decode(words::hex_bytes(heap, digits)?))
}

fn board<'a>(rest: &'a [&'a str]) -> Result<Setting<'a>, Fault> {
    let (name, values) = rest.split_first().ok_or(Mistake::Form(Verb::Board))?;
    let name = match *name {
        "costs" => BoardName::Costs,
        "carried" => BoardName::Carried,
        "kept" => BoardName::Kept,
        "trial" => BoardName::Trial,
        "word" => BoardName::Word,
        _ => return Err(Fault::from(Mistake::Board)),
    };
    Ok(Setting::Board { name, values })
}

// How many rounds, and the rule of their steps.
fn running(verb: Verb, rest: &[&str]) -> Result<(u32, StepRule), Fault> {
    match rest {
        [count, "constant", step] => {
            let count = u16::from_word(count)?;
            let step = u16::from_word(step)?;
            Ok((u32::from(count), StepRule::constant(u32::from(step))?))
        }
        [count, "divided", first] => {
            let count = u16::from_word(count)?;
            let first = u16::from_word(first)?;
            Ok((u32::from(count), StepRule::divided(u32::from(first))?))
        }
        _ => Err(Fault::from(Mistake::Form(verb))),
    }
}

fn proposing<'a>(heap: Global, rest: &[&str]) -> Result<Action<'a>, Fault> {
    let [word] = rest else {
        return Err(Fault::from(Mistake::Form(Verb::Propose)));
    };
    Ok(Action::Propose(words::cells(heap, word)?))
}

fn taking<'a>(heap: Global, rest: &[&str]) -> Result<Action<'a>, Fault> {
    let (digits, work) = match rest {
        [digits] => (digits, None),
        [digits, "work", room] => (digits, Some(u16::from_word(room)?)),
        _ => return Err(Fault::from(Mistake::Form(Verb::Take))),
    };
    let ticket = words::hex_bytes(heap, digits)?;
    Ok(Action::Take { ticket, work })
}
