// What the board holds, and how it answers each command.
use crate::command::{Command, parse};
use crate::field::{RankingName, SourceName};
use anyhow::anyhow;
use clauses::record::ClauseRecord;
use model::answers::Decline;
use model::path::Entry;
use model::source::ProblemSource;
use planner::tables::Planner;
use sheet::fault::SheetFault;
use sheet::fault_line::write_fault;
use sheet::problem::SheetProblem;
use sheet::reader::read;
use sources::by_step::ByStep;
use sources::filter::ReachFilter;
use sources::forward::Forward;
use sources::water::{MetersFault, WaterLine};
use std::fmt::Display;
use std::io::Write;
use std::str::from_utf8;
use std::{fmt, fs};

// No job card is longer: 32 lines of at most 256 steps.
const CARD: usize = 32768;

// The planner, and the clause record of the source that was opened last.
#[derive(Drop)]
pub(crate) struct Board {
    planner: Planner,
    record: Option<ClauseRecord>,
}

impl Board {
    pub(crate) fn new() -> Board {
        Board {
            planner: Planner::new(),
            record: None,
        }
    }

    fn open<S: ProblemSource>(&mut self, source: &S) {
        self.planner.open(source);
        self.record = Some(ClauseRecord::of(source));
    }

    // Opens the source, or the reach filter over it.
    fn open_through<S: ProblemSource + Drop>(&mut self, filtered: bool, source: S) {
        if filtered {
            self.open(&ReachFilter::new(source));
        } else {
            self.open(&source);
        }
    }

    fn open_water(&mut self, filtered: bool, meters: u32) -> Result<(), MetersFault> {
        self.open_through(filtered, WaterLine::new(meters as usize)?);
        Ok(())
    }

    fn open_bytes(&mut self, filtered: bool, bytes: &[u8]) -> Result<(), SheetFault> {
        let mut problem = SheetProblem::empty();
        read(bytes, &mut problem)?;
        self.open_through(filtered, problem);
        Ok(())
    }

    fn ask(&mut self, times: u32, ranking: RankingName) -> Result<(), Decline> {
        match ranking {
            RankingName::Forward => self.planner.ask(times as usize, &Forward),
            RankingName::ByStep => self.planner.ask(times as usize, &ByStep),
        }
    }

    fn kept(&self, one: u32, other: u32) -> Result<bool, Decline> {
        let record = self.record.as_ref().ok_or(Decline::Unopened)?;
        record.kept(one as usize, other as usize)
    }
}

// What the path has at a place.
#[derive(Clone, Copy)]
struct AtPlace(Option<Entry>);

impl Display for AtPlace {
    fn fmt<W: fmt::Write>(&self, f: &mut fmt::Formatter<W>) -> fmt::Result {
        match self.0 {
            Some(entry) => write!(f, "{entry}"),
            None => f.write_str("no entry"),
        }
    }
}

// Prints what was answered, or the number that the call is declined with.
fn tell<T: Display + Drop, E: Into<u8>>(rt: &HostRuntime, res: Result<T, E>) -> anyhow::Result<()> {
    match res {
        Ok(answer) => println!(rt; "{answer}")?,
        Err(fault) => {
            let number: u8 = fault.into();
            println!(rt; "declined {number}")?;
        }
    }
    Ok(())
}

fn done<E: Into<u8>>(rt: &HostRuntime, res: Result<(), E>) -> anyhow::Result<()> {
    tell(rt, res.map(|()| "ok"))
}

// Answers what is no command, or a file that cannot be read.
fn puzzled(rt: &HostRuntime) -> anyhow::Result<()> {
    println!(rt; "?")?;
    Ok(())
}

// The sheet's own writer fills bytes, as on a device; here they are printed.
fn tell_fault(rt: &HostRuntime, fault: &SheetFault) -> anyhow::Result<()> {
    let mut line = [0; 64];
    match write_fault(fault, &mut line) {
        Ok(n) => Ok(rt.stdout().write_all(&line[..n])?),
        Err(_) => Err(anyhow!("the fault line has no room")),
    }
}

// Opens what the sheet of a file states, or says its fault line.
fn open_sheet(
    rt: &HostRuntime,
    board: &mut Board,
    filtered: bool,
    file: &[u8],
) -> anyhow::Result<()> {
    let Ok(path) = from_utf8(file) else {
        return puzzled(rt);
    };
    let Ok(bytes) = fs::read(rt, path) else {
        return puzzled(rt);
    };
    match board.open_bytes(filtered, &bytes) {
        Ok(()) => Ok(println!(rt; "ok")?),
        Err(fault) => tell_fault(rt, &fault),
    }
}

fn report(rt: &HostRuntime, board: &Board) -> anyhow::Result<()> {
    let mut card = [0; CARD];
    match board.planner.report(&mut card) {
        Ok(n) if n <= CARD => Ok(rt.stdout().write_all(&card[..n])?),
        Ok(_) => Err(anyhow!("the card has no room")),
        Err(decline) => done(rt, Err(decline)),
    }
}

// Answers one command.
fn carry_out(rt: &HostRuntime, board: &mut Board, command: Command) -> anyhow::Result<()> {
    let planner = &mut board.planner;
    match command {
        Command::Open { filtered, source } => match source {
            SourceName::Sheet(file) => open_sheet(rt, board, filtered, file),
            SourceName::Water(meters) => done(rt, board.open_water(filtered, meters)),
        },
        Command::Ask { times, ranking } => done(rt, board.ask(times, ranking)),
        Command::Pin { time, step, taken } => {
            done(rt, planner.pin(time as usize, step as usize, taken))
        }
        Command::Unpin { time, step } => done(rt, planner.unpin(time as usize, step as usize)),
        Command::Run { choices } => tell(rt, planner.run(choices)),
        Command::Forced { time, step } => tell(rt, planner.forced(time as usize, step as usize)),
        Command::Path { place } => tell(rt, planner.path(place as usize).map(AtPlace)),
        Command::Report => report(rt, board),
        Command::Kept { one, other } => {
            let kept = board.kept(one, other);
            tell(rt, kept.map(|kept| if kept { "kept" } else { "not kept" }))
        }
    }
}

// Answers one line.
pub(crate) fn answer(rt: &HostRuntime, board: &mut Board, line: &[u8]) -> anyhow::Result<()> {
    match parse(line) {
        Some(command) => carry_out(rt, board, command),
        None => puzzled(rt),
    }
}
