// What is asked of a reading.
use crate::boards::Boards;
use crate::command::Action;
use crate::fault::{Fault, Mistake};
use crate::session::Session;
use crate::shape::Shape;
use crate::weights_text::Shown;
use crate::{answers, words};
use layouts::Layout;
use reader::{Reading, StepRule, Verdict};
use sums::SumLayer;

impl<W: Shown> Session<W> {
    // Over the layout with its sums, of which each reading that begins takes one. Changes nothing where it answers a fault.
    pub fn act(&mut self, layer: SumLayer<Shape>, action: Action) -> Result<String, Fault> {
        match action {
            Action::Read => return self.read(layer),
            Action::Begin => self.begin(layer)?,
            Action::Run { count, rule } => {
                let made = self.run(count, rule)?;
                return Ok(answers::ran(self.heap, made)?);
            }
            Action::Trace { count, rule } => return self.trace(count, rule),
            Action::Offer(words) => self.offer(words)?,
            Action::Propose(word) => self.propose(&word)?,
            Action::Take { ticket, work } => {
                self.take(&ticket, work.unwrap_or(layer.edges()))?;
            }
            Action::Verdict => return Ok(answers::verdict(self.heap, &self.verdict()?)?),
            Action::Write(room) => {
                let room = room.map_or(
                    tickets::ticket_len::<SumLayer<Shape>, W>(&layer),
                    usize::from,
                );
                return self.write(room);
            }
        }
        Ok(answers::ok(self.heap)?)
    }

    fn begin(&mut self, layer: SumLayer<Shape>) -> Result<(), Fault> {
        let mut boards = Boards::for_layout(self.heap, &layer, self.boards.costs.clone()?)?;
        let reading = Reading::begin(
            layer,
            &boards.costs,
            &mut boards.carried,
            &mut boards.kept,
            &mut boards.trial,
            &mut boards.word,
        )?;
        self.boards = boards;
        self.reading = Some(reading);
        Ok(())
    }

    fn run(&mut self, count: u32, rule: StepRule) -> Result<u32, Fault> {
        let reading = self.reading.as_mut().ok_or(Mistake::NoReading)?;
        let boards = &mut self.boards;
        let made = reading.run(
            &boards.costs,
            &mut boards.carried,
            &mut boards.kept,
            &mut boards.trial,
            &mut boards.word,
            count,
            rule,
        )?;
        Ok(made)
    }

    // Round by round, with a line for each.
    fn trace(&mut self, count: u32, rule: StepRule) -> Result<String, Fault> {
        let mut text = String::new(self.heap);
        if !(1..=4096).contains(&count) {
            // declined as a run of so many rounds is
            let made = self.run(count, rule)?;
            return Ok(answers::ran(self.heap, made)?);
        }
        let before = self.verdict()?.rounds;
        for _round in 0..count {
            if self.run(1, rule)? == 0 {
                break;
            }
            let line = answers::traced(self.heap, &self.verdict()?, &self.boards.trial)?;
            text.push_str(&line)?;
        }
        let made = self.verdict()?.rounds.saturating_sub(before);
        text.push_str(&answers::ran(self.heap, made)?)?;
        Ok(text)
    }

    // Runs of 256 rounds with steps of 4,096, 2,048 and so on down to 1, until the reading is met or 4,096 rounds are made.
    fn read(&mut self, layer: SumLayer<Shape>) -> Result<String, Fault> {
        let room = tickets::ticket_len::<SumLayer<Shape>, W>(&layer);
        self.begin(layer)?;
        let mut text = String::new(self.heap);
        for halvings in 0..16u32 {
            if self.verdict()?.met {
                break;
            }
            let step = (4096u32 >> halvings).max(1);
            let made = self.run(256, StepRule::constant(step)?)?;
            text.push_str(&answers::ran(self.heap, made)?)?;
        }
        let verdict = self.verdict()?;
        text.push_str(&answers::verdict(self.heap, &verdict)?)?;
        text.push_str(&answers::word(self.heap, &self.boards.word)?)?;
        if verdict.met {
            text.push_str(&self.write(room)?)?;
        }
        Ok(text)
    }

    fn offer(&mut self, words: &[&str]) -> Result<(), Fault> {
        let list: Vec<W> = words::values(self.heap, words)?;
        let reading = self.reading.as_mut().ok_or(Mistake::NoReading)?;
        let boards = &mut self.boards;
        reading.offer(
            &boards.costs,
            &mut boards.carried,
            &mut boards.kept,
            &boards.trial,
            &boards.word,
            &list,
        )?;
        Ok(())
    }

    fn propose(&mut self, word: &[u8]) -> Result<(), Fault> {
        let reading = self.reading.as_mut().ok_or(Mistake::NoReading)?;
        let boards = &mut self.boards;
        reading.propose(
            &boards.costs,
            &boards.carried,
            &boards.kept,
            &boards.trial,
            &mut boards.word,
            word,
        )?;
        Ok(())
    }

    fn take(&mut self, ticket: &[u8], room: u16) -> Result<(), Fault> {
        let mut work = self.zeros(usize::from(room))?;
        let reading = self.reading.as_mut().ok_or(Mistake::NoReading)?;
        let boards = &mut self.boards;
        reading.take(
            &boards.costs,
            &boards.carried,
            &mut boards.kept,
            &boards.trial,
            &mut boards.word,
            ticket,
            &mut work,
        )?;
        Ok(())
    }

    fn verdict(&self) -> Result<Verdict<W>, Fault> {
        let reading = self.reading.as_ref().ok_or(Mistake::NoReading)?;
        Ok(reading.verdict())
    }

    // The ticket, from an output of so many bytes.
    fn write(&self, room: usize) -> Result<String, Fault> {
        let mut out = vec![in self.heap; 0u8; room]?;
        let reading = self.reading.as_ref().ok_or(Mistake::NoReading)?;
        let boards = &self.boards;
        let len = reading.write(
            &boards.costs,
            &boards.carried,
            &boards.kept,
            &boards.trial,
            &boards.word,
            &mut out,
        )?;
        out.truncate(len);
        Ok(answers::ticket(self.heap, &out)?)
    }
}
