// `round`: reads a job sheet from standard input and prints its job card, or why the sheet is declined.
#![tactic(auto)]

use anyhow::anyhow;
use jobs::answer;
use planner::tables::Planner;
use std::alloc::Global;
use std::io::{Read, Write};

// A sheet has at most 65,535 bytes; one more is read, to see that it has too many.
const MOST: u64 = 65536;

// No job card is longer: 32 lines of at most 256 steps.
const CARD: usize = 32768;

fn run(rt: &HostRuntime, heap: Global) -> anyhow::Result<()> {
    let mut bytes = Vec::new(heap);
    rt.stdin().take(MOST).read_to_end(&mut bytes)?;
    let mut out = vec![in heap; 0u8; CARD]?;
    let mut planner = Box::new(heap, Planner::new())?;
    match answer(&mut planner, &bytes, &mut out) {
        Ok(n) if n <= CARD => Ok(rt.stdout().write_all(&out[..n])?),
        _ => Err(anyhow!("the answer has no room")),
    }
}

fn main(rt: HostRuntime) -> anyhow::Result<()> {
    run(&rt, rt.alloc())
}
