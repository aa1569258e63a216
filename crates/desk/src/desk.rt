// What stands on the desk, and how a line changes it.
use crate::chosen::{Chosen, Source};
use crate::command::{Action, Command, KindName, Query, Setting};
use crate::fault::{Fault, Mistake};
use crate::session::Session;
use crate::{answers, command, help};
use layouts::{Grid, Listed, RowNo};
use std::alloc::{AllocError, Global};
use weights::{Paired, Plain};

// An enum, since a boxed kind may not be made and handed out.
#[derive(Drop)]
enum Kind {
    Plain(Session<Plain>),
    Paired(Session<Paired>),
}

#[derive(Drop)]
pub struct Desk {
    heap: Global,
    chosen: Option<Chosen>,
    kind: Kind,
}

impl Desk {
    pub fn new(heap: Global) -> Desk {
        Desk {
            heap,
            chosen: None,
            kind: Kind::Plain(Session::new(heap)),
        }
    }

    // The text that answers the line of this number. It fails only for want of memory.
    pub fn answer(&mut self, number: u64, line: &[u8]) -> Result<String, AllocError> {
        match self.obey(line) {
            Ok(text) => Ok(text),
            Err(Fault::Mistake(mistake)) => format!(in self.heap; "line {number}: {mistake}\n"),
            Err(Fault::Refused(refusal)) => format!(in self.heap; "{refusal}\n"),
            Err(Fault::Memory(error)) => Err(error),
        }
    }

    fn obey(&mut self, line: &[u8]) -> Result<String, Fault> {
        let line = line.trim_ascii();
        if line.is_empty() || line.starts_with(b"#") {
            return Ok(String::new(self.heap));
        }
        let text = std::str::from_utf8(line).map_err(|_| Mistake::NotText)?;
        self.obey_text(text)
    }

    fn obey_text(&mut self, text: &str) -> Result<String, Fault> {
        let words: Vec<&str> = text.split_ascii_whitespace().collect(self.heap)?;
        let command = command::parse(self.heap, &words)?;
        self.carry_out(command)
    }

    // Changes nothing where it answers a fault. A match: a table would hold function pointers.
    fn carry_out(&mut self, command: Command) -> Result<String, Fault> {
        match command {
            Command::Help => {
                let commands = help::Commands;
                Ok(format!(in self.heap; "{commands}")?)
            }
            Command::Listed {
                cells,
                ends,
                entries,
            } => self.choose_listed(cells, ends, entries),
            Command::Grid { lines, columns } => self.choose_grid(lines, columns),
            Command::Sum(rows) => self.sum(rows),
            Command::Kind(name) => self.choose_kind(name),
            Command::Set(setting) => self.set(setting),
            Command::Ask(query) => self.ask(query),
            Command::Act(action) => self.act(action),
            Command::Boards => self.boards(),
        }
    }

    // Where the lists are declined, one cell and no rows stand, as the library makes it.
    fn choose_listed(
        &mut self,
        cells: u16,
        ends: Vec<u16>,
        entries: Vec<u16>,
    ) -> Result<String, Fault> {
        let checked = Listed::check(cells, &ends, &entries);
        let counts = self.choose(Source::Listed {
            cells,
            ends,
            entries,
        })?;
        match checked {
            Ok(()) => Ok(counts),
            Err(refusal) => Ok(format!(in self.heap; "{refusal}\n{counts}")?),
        }
    }

    fn choose_grid(&mut self, lines: u16, columns: u16) -> Result<String, Fault> {
        self.choose(Source::Grid(Grid::new(lines, columns)?))
    }

    // A reading over another layout is forgotten.
    fn choose(&mut self, source: Source) -> Result<String, Fault> {
        let chosen = Chosen::new(self.heap, source);
        let counts = answers::counts(self.heap, &chosen.layer()?)?;
        self.chosen = Some(chosen);
        match &mut self.kind {
            Kind::Plain(session) => session.forget_reading(),
            Kind::Paired(session) => session.forget_reading(),
        }
        Ok(counts)
    }

    fn sum(&mut self, rows: Vec<RowNo>) -> Result<String, Fault> {
        if self.has_begun() {
            return Err(Fault::from(Mistake::Begun));
        }
        let chosen = self.chosen.as_mut().ok_or(Mistake::NoLayout)?;
        let mut layer = chosen.layer()?;
        layer.add(&rows)?;
        let answer = answers::sum(self.heap, &layer)?;
        chosen.keep_sum(rows)?;
        Ok(answer)
    }

    fn has_begun(&self) -> bool {
        match &self.kind {
            Kind::Plain(session) => session.has_begun(),
            Kind::Paired(session) => session.has_begun(),
        }
    }

    // Boards and a reading of one kind mean nothing in the other, so they are forgotten.
    fn choose_kind(&mut self, name: KindName) -> Result<String, Fault> {
        match (&self.kind, name) {
            (Kind::Plain(_), KindName::Paired) => self.kind = Kind::Paired(Session::new(self.heap)),
            (Kind::Paired(_), KindName::Plain) => self.kind = Kind::Plain(Session::new(self.heap)),
            _ => {}
        }
        Ok(answers::ok(self.heap)?)
    }

    fn set(&mut self, setting: Setting) -> Result<String, Fault> {
        match &mut self.kind {
            Kind::Plain(session) => session.set(setting),
            Kind::Paired(session) => session.set(setting),
        }
    }

    fn ask(&self, query: Query) -> Result<String, Fault> {
        let layer = self.chosen.as_ref().ok_or(Mistake::NoLayout)?.layer()?;
        match &self.kind {
            Kind::Plain(session) => session.ask(&layer, query),
            Kind::Paired(session) => session.ask(&layer, query),
        }
    }

    fn act(&mut self, action: Action) -> Result<String, Fault> {
        let layer = self.chosen.as_ref().ok_or(Mistake::NoLayout)?.layer()?;
        match &mut self.kind {
            Kind::Plain(session) => session.act(layer, action),
            Kind::Paired(session) => session.act(layer, action),
        }
    }

    fn boards(&self) -> Result<String, Fault> {
        match &self.kind {
            Kind::Plain(session) => Ok(answers::boards(self.heap, &session.boards)?),
            Kind::Paired(session) => Ok(answers::boards(self.heap, &session.boards)?),
        }
    }
}
