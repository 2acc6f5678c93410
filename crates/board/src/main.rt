// `board`: reads one command a line from standard input and prints one answer each, over the planner's calls.
#![tactic(auto)]

use crate::answer::{Board, answer};
use std::alloc::Global;
use std::io::{BufRead, BufReader};

mod answer;
mod command;
mod field;

fn run(rt: &HostRuntime, heap: Global) -> anyhow::Result<()> {
    let mut board = Box::new(heap, Board::new())?;
    for line in BufReader::new(heap, rt.stdin())?.split(heap, b'\n') {
        let line = line?;
        answer(rt, &mut board, &line)?;
    }
    Ok(())
}

fn main(rt: HostRuntime) -> anyhow::Result<()> {
    run(&rt, rt.alloc())
}
