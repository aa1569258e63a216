// Answers commands from the standard input, one a line, on the standard output.
#![tactic(auto)]

mod answers;
mod boards;
mod chosen;
mod command;
mod desk;
mod fault;
mod help;
mod kept;
mod reading;
mod session;
mod shape;
mod verb;
mod weights_text;
mod words;

use std::io;
use std::io::{BufRead, BufReader};

fn run(rt: &HostRuntime) -> io::Result<()> {
    let heap = rt.alloc();
    let mut desk = desk::Desk::new(heap);
    let lines = BufReader::new(heap, rt.stdin())?.split(heap, b'\n');
    for (number, line) in (1u64..).zip(lines) {
        let text = desk.answer(number, &line?)?;
        print!(rt; "{text}")?;
    }
    Ok(())
}

fn main(rt: HostRuntime) -> io::Result<()> {
    run(&rt)
}
