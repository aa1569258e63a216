// The words that commands begin with, and what is said of each command.
use crate::fault::Mistake;
use std::fmt;
use std::str::FromStr;

#[derive(Clone, Copy, PartialEq, Eq, Debug)]
pub enum Verb {
    Help,
    Listed,
    Grid,
    Sum,
    Kind,
    Greys,
    Costs,
    Multipliers,
    Choices,
    Floor,
    Encode,
    Decode,
    Read,
    Begin,
    Run,
    Trace,
    Offer,
    Propose,
    Take,
    Verdict,
    Write,
    Boards,
    Board,
}

// In the order in which help lists them.
pub const ALL: [Verb; 23] = [
    Verb::Help,
    Verb::Listed,
    Verb::Grid,
    Verb::Sum,
    Verb::Kind,
    Verb::Greys,
    Verb::Costs,
    Verb::Multipliers,
    Verb::Choices,
    Verb::Floor,
    Verb::Encode,
    Verb::Decode,
    Verb::Read,
    Verb::Begin,
    Verb::Run,
    Verb::Trace,
    Verb::Offer,
    Verb::Propose,
    Verb::Take,
    Verb::Verdict,
    Verb::Write,
    Verb::Boards,
    Verb::Board,
];

impl Verb {
    // The word that the command begins with.
    fn word(self) -> &'static str {
        match self {
            Verb::Help => "help",
            Verb::Listed => "listed",
            Verb::Grid => "grid",
            Verb::Sum => "sum",
            Verb::Kind => "kind",
            Verb::Greys => "greys",
            Verb::Costs => "costs",
            Verb::Multipliers => "multipliers",
            Verb::Choices => "choices",
            Verb::Floor => "floor",
            Verb::Encode => "encode",
            Verb::Decode => "decode",
            Verb::Read => "read",
            Verb::Begin => "begin",
            Verb::Run => "run",
            Verb::Trace => "trace",
            Verb::Offer => "offer",
            Verb::Propose => "propose",
            Verb::Take => "take",
            Verb::Verdict => "verdict",
            Verb::Write => "write",
            Verb::Boards => "boards",
            Verb::Board => "board",
        }
    }

    // What follows the word.
    fn rest(self) -> &'static str {
        match self {
            Verb::Help | Verb::Choices | Verb::Floor => "",
            Verb::Read | Verb::Begin | Verb::Verdict | Verb::Boards => "",
            Verb::Listed => " CELLS ends E.. entries C..",
            Verb::Grid => " A B",
            Verb::Sum => " R..",
            Verb::Kind => " plain or kind paired",
            Verb::Greys => " G..",
            Verb::Costs => " C..",
            Verb::Multipliers | Verb::Offer => " M..",
            Verb::Encode => " WORD M..",
            Verb::Decode => " HEX",
            Verb::Run => " COUNT constant S or run COUNT divided S",
            Verb::Trace => " COUNT constant S or trace COUNT divided S",
            Verb::Propose => " WORD",
            Verb::Take => " HEX or take HEX work N",
            Verb::Write => " or write N",
            Verb::Board => " NAME V..",
        }
    }

    // What the command does.
    pub fn purpose(self) -> &'static str {
        match self {
            Verb::Help => "lists the commands",
            Verb::Listed =>
                "chooses a layout by where each row ends and the cells of all rows in order",
            Verb::Grid => "chooses a grid of A lines and B columns, each 2 to 11",
            Verb::Sum =>
                "adds a row, the sum of the rows R.. of the layout, before a reading begins",
            Verb::Kind =>
                "chooses the kind of weights; another kind than before forgets costs, multipliers and the reading",
            Verb::Greys => "sets the costs by greys, 0 for black to 255 for white, one a cell",
            Verb::Costs =>
                "sets the costs, one a cell, as -5 in kind plain and as -5,1 in kind paired",
            Verb::Multipliers => "sets the multipliers, one an edge, written as costs are",
            Verb::Choices => "answers the choice of each row and its sum",
            Verb::Floor => "answers the slacks, the trial word and the floor",
            Verb::Encode => "answers the ticket of a word, as 110, and of multipliers, one an edge",
            Verb::Decode => "answers the word and the multipliers of a ticket",
            _ => self.purpose_in_reading(),
        }
    }

    // What a command does that begins a reading, or stands in one.
    fn purpose_in_reading(self) -> &'static str {
        match self {
            Verb::Read =>
                "reads the label: begins, and runs with smaller and smaller steps until the reading is met",
            Verb::Begin => "begins a reading over the layout, its sums and the costs",
            Verb::Run =>
                "makes at most COUNT rounds of step S, or of S divided by the number of the round",
            Verb::Trace => "runs, and says after each round what it came to",
            Verb::Offer => "gives the reading multipliers, one an edge",
            Verb::Propose => "gives the reading a word, as 110",
            Verb::Take =>
                "gives the reading a ticket, with a work list of one weight an edge or of N",
            Verb::Verdict =>
                "answers floor and ceiling, the rounds made, and whether they have met",
            Verb::Write => "answers the ticket of a reading that is met, from an output of N bytes",
            Verb::Boards => "answers the five boards of the reading",
            Verb::Board =>
                "replaces the board NAME, as boards names it; a reading with other boards than its own promises nothing",
            _ => "",
        }
    }
}

// The form of the command.
impl fmt::Display for Verb {
    fn fmt<W: fmt::Write>(&self, f: &mut fmt::Formatter<W>) -> fmt::Result {
        write!(f, "{}{}", self.word(), self.rest())
    }
}

impl FromStr for Verb {
    type Err = Mistake;

    fn from_str(word: &str) -> Result<Verb, Mistake> {
        ALL.into_iter()
            .find(|verb| verb.word() == word)
            .ok_or(Mistake::Unknown)
    }
}
