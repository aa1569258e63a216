// The texts that answer commands. The heap goes along to all that allocates, as allocators do.
use crate::boards::Boards;
use crate::weights_text::{Shown, Spaced, Word};
use layouts::{CellNo, Layout, RowNo};
use reader::Verdict;
use std::alloc::{AllocError, Global};
use std::fmt;

pub fn ok(heap: Global) -> Result<String, AllocError> {
    String::from_str(heap, "ok\n")
}

pub fn counts<L: Layout>(heap: Global, layout: &L) -> Result<String, AllocError> {
    let cells = layout.cells();
    let rows = layout.rows();
    let edges = layout.edges();
    format!(in heap; "layout {cells} cells {rows} rows {edges} edges\n")
}

pub fn boards<W: Shown>(heap: Global, boards: &Boards<W>) -> Result<String, AllocError> {
    format!(in heap; "{boards}")
}

pub fn costs<W: Shown>(heap: Global, costs: &[W]) -> Result<String, AllocError> {
    let costs = Spaced(costs);
    format!(in heap; "costs{costs}\n")
}

pub fn choices<'a, L: Layout, W: Shown>(
    heap: Global,
    layout: &'a L,
    marks: &'a [u8],
    sums: &'a [W],
) -> Result<String, AllocError> {
    if sums.is_empty() {
        return String::from_str(heap, "no rows\n");
    }
    let rows = Rows {
        layout,
        marks,
        sums,
    };
    format!(in heap; "{rows}")
}

pub fn floor<W: Shown>(
    heap: Global,
    slacks: &[W],
    trial: &[u8],
    floor: W,
) -> Result<String, AllocError> {
    let slacks = Spaced(slacks);
    let trial = Word(trial);
    format!(in heap; "slacks{slacks}\ntrial{trial}\nfloor {floor}\n")
}

// The cells of the sum that was added last.
pub fn sum<L: Layout>(heap: Global, layout: &L) -> Result<String, AllocError> {
    let row = RowNo(layout.rows().saturating_sub(1));
    let cells = Cells { layout, row };
    format!(in heap; "sum cells{cells}\n")
}

pub fn ran(heap: Global, made: u32) -> Result<String, AllocError> {
    format!(in heap; "ran {made}\n")
}

pub fn verdict<W: Shown>(heap: Global, verdict: &Verdict<W>) -> Result<String, AllocError> {
    let (floor, ceiling) = verdict.bounds;
    let rounds = verdict.rounds;
    let end = if verdict.met { "met" } else { "open" };
    format!(in heap; "verdict floor {floor} ceiling {ceiling} rounds {rounds} {end}\n")
}

// What a round came to.
pub fn traced<W: Shown>(
    heap: Global,
    verdict: &Verdict<W>,
    trial: &[u8],
) -> Result<String, AllocError> {
    let (floor, ceiling) = verdict.bounds;
    let rounds = verdict.rounds;
    let trial = Word(trial);
    format!(in heap; "round {rounds} trial{trial} floor {floor} ceiling {ceiling}\n")
}

pub fn word(heap: Global, word: &[u8]) -> Result<String, AllocError> {
    let word = Word(word);
    format!(in heap; "word{word}\n")
}

pub fn ticket(heap: Global, bytes: &[u8]) -> Result<String, AllocError> {
    let bytes = hex::encode_upper(heap, bytes)?;
    format!(in heap; "ticket {bytes}\n")
}

// What a ticket holds.
pub fn contents<W: Shown>(
    heap: Global,
    word: &[u8],
    multipliers: &[W],
) -> Result<String, AllocError> {
    let word = Word(word);
    let multipliers = Spaced(multipliers);
    format!(in heap; "word{word}\nmultipliers{multipliers}\n")
}

// A line for each row. The marks have one byte an edge, row after row.
#[derive(Drop)]
struct Rows<'a, L, W> {
    layout: &'a L,
    marks: &'a [u8],
    sums: &'a [W],
}

impl<L: Layout, W: Shown> fmt::Display for Rows<'_, L, W> {
    fn fmt<F: fmt::Write>(&self, f: &mut fmt::Formatter<F>) -> fmt::Result {
        let layout = self.layout;
        // cut off row by row: `next` on another iterator inside the loop would leave its end open
        let mut marks = self.marks;
        for (row, sum) in (0..layout.rows()).zip(self.sums) {
            let len = usize::from(layout.row_len(RowNo(row)).unwrap_or(0));
            let (own, after) = marks.split_at(len.min(marks.len()));
            let cells = Chosen {
                layout,
                row: RowNo(row),
                marks: own,
            };
            writeln!(f, "row {row} choice{cells} sum {sum}")?;
            marks = after;
        }
        Ok(())
    }
}

// The cells of a row, each behind a blank.
#[derive(Drop)]
struct Cells<'a, L> {
    layout: &'a L,
    row: RowNo,
}

impl<L: Layout> fmt::Display for Cells<'_, L> {
    fn fmt<F: fmt::Write>(&self, f: &mut fmt::Formatter<F>) -> fmt::Result {
        for place in 0..self.layout.row_len(self.row).unwrap_or(0) {
            if let Some(CellNo(cell)) = self.layout.cell(self.row, place) {
                write!(f, " {cell}")?;
            }
        }
        Ok(())
    }
}

// The cells of a row whose edges are marked, each behind a blank.
#[derive(Drop)]
struct Chosen<'a, L> {
    layout: &'a L,
    row: RowNo,
    marks: &'a [u8],
}

impl<L: Layout> fmt::Display for Chosen<'_, L> {
    fn fmt<F: fmt::Write>(&self, f: &mut fmt::Formatter<F>) -> fmt::Result {
        for (place, mark) in (0..u16::MAX).zip(self.marks) {
            if *mark == 1
                && let Some(CellNo(cell)) = self.layout.cell(self.row, place)
            {
                write!(f, " {cell}")?;
            }
        }
        Ok(())
    }
}
