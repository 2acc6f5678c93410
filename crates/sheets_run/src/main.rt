// `sheets_run`: reads sheets from standard input, each up to a percent sign, and prints for each the problem or the fault line;
// then the same for sheets at the limits, which it builds.
#![tactic(auto)]

mod built;

use anyhow::anyhow;
use model::source::ProblemSource;
use sets::facts::{FactSet, LiteralSet};
use sheet::fault::SheetFault;
use sheet::fault_line::write_fault;
use sheet::problem::SheetProblem;
use sheet::reader::read;
use std::alloc::Global;
use std::io;
use std::io::{BufRead, BufReader, Write};

fn tell_facts(rt: &HostRuntime, set: FactSet) -> io::Result<()> {
    for fact in 0..64 {
        if set.contains(fact) {
            print!(rt; " {fact}")?;
        }
    }
    Ok(())
}

// A fact by its number, with a minus where it is false.
fn tell_literals(rt: &HostRuntime, set: LiteralSet) -> io::Result<()> {
    for fact in 0..64 {
        if set.contains(2 * fact) {
            print!(rt; " {fact}")?;
        }
        if set.contains(2 * fact + 1) {
            print!(rt; " -{fact}")?;
        }
    }
    Ok(())
}

fn tell_problem(rt: &HostRuntime, problem: &SheetProblem) -> io::Result<()> {
    print!(rt;
        "length {} facts {} start",
        problem.length(),
        problem.facts()
    )?;
    tell_facts(rt, problem.start())?;
    print!(rt; " goal")?;
    tell_literals(rt, problem.goal())?;
    for number in 0..problem.steps() {
        let step = problem.step(number);
        print!(rt; " needs")?;
        tell_literals(rt, step.needs)?;
        print!(rt; " makes")?;
        tell_literals(rt, step.makes)?;
    }
    println!(rt; "")
}

// The sheet's own writer fills bytes, as on a device; here they are printed.
fn tell_fault(rt: &HostRuntime, fault: &SheetFault) -> anyhow::Result<()> {
    let mut line = [0; 37];
    match write_fault(fault, &mut line) {
        Ok(n) => Ok(rt.stdout().write_all(&line[..n])?),
        Err(_) => Err(anyhow!("the fault line has no room")),
    }
}

// Reads a sheet, and tells what is to be told of the problem that it states, or its fault.
fn read_and<F: FnOnce(&SheetProblem) -> io::Result<()>>(
    rt: &HostRuntime,
    sheet: &[u8],
    problem: &mut SheetProblem,
    tell: F,
) -> anyhow::Result<()>
    requires { F.IsAlwaysCallable tell }
{
    match read(sheet, problem) {
        Ok(()) => Ok(tell(problem)?),
        Err(fault) => tell_fault(rt, &fault),
    }
}

// The sheets of the input, each with the problem that it states.
fn given(rt: &HostRuntime, heap: Global, problem: &mut SheetProblem) -> anyhow::Result<()> {
    for sheet in BufReader::new(heap, rt.stdin())?.split(heap, b'%') {
        read_and(rt, &sheet?, problem, |p| tell_problem(rt, p))?;
    }
    Ok(())
}

// How large a sheet is, where it is read.
fn measure(rt: &HostRuntime, sheet: &[u8], problem: &mut SheetProblem) -> anyhow::Result<()> {
    read_and(rt, sheet, problem, |p| {
        println!(rt;
            "{} bytes, {} facts, {} steps",
            sheet.len(),
            p.facts(),
            p.steps()
        )
    })
}

// The largest sheet that is read, of each sort, and the smallest that is not.
fn at_limits(rt: &HostRuntime, heap: Global, problem: &mut SheetProblem) -> anyhow::Result<()> {
    measure(rt, &built::facts(heap, 64)?, problem)?;
    measure(rt, &built::facts(heap, 65)?, problem)?;
    measure(rt, &built::again(heap)?, problem)?;
    measure(rt, &built::steps(heap, 256)?, problem)?;
    measure(rt, &built::steps(heap, 257)?, problem)?;
    measure(rt, &built::bytes(heap, 65535)?, problem)?;
    measure(rt, &built::bytes(heap, 65536)?, problem)
}

fn run(rt: &HostRuntime, heap: Global) -> anyhow::Result<()> {
    let mut problem = Box::new(heap, SheetProblem::empty())?;
    given(rt, heap, &mut problem)?;
    at_limits(rt, heap, &mut problem)
}

fn main(rt: HostRuntime) -> anyhow::Result<()> {
    run(&rt, rt.alloc())
}
