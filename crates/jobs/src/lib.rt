// From a job sheet's bytes to the bytes that answer it: the job card, or the fault line of a sheet that is declined.
#![tactic(auto)]

ghost use Rattle.std.specs.Prelude.{MatchResult};
ghost use Rattle.sheet.specs.Stated.{stated};
ghost use Rattle.planner.specs.Obeys.{ledger};
ghost use Rattle.jobs.specs.Answering.{Answered};
ghost use Rattle.jobs.specs.JobCards.{SheetAnswered, JobAnswered};
ghost use Rattle.jobs.specs.Running.{Begun, RanOut};

use model::answers::{Decline, Outcome};
use planner::tables::Planner;
use sheet::fault_line::write_fault;
use sheet::problem::SheetProblem;
use sheet::reader::read;
use sources::filter::ReachFilter;
use sources::forward::Forward;

// How many runs a job is granted, and how many choices each.
const RUNS: usize = 1000;

const CHOICES: u32 = 1000000;

// Runs the planner until it has an answer or the grant is used up.
fn run_out(planner: &mut Planner) -> Result<(), Decline>
    ensures { Begun (ledger planner.old) → MatchResult result (λ _. RanOut (ledger planner.old) planner.new) (λ _. ⊥) }
{
    for run in 0..RUNS {
        match planner.run(CHOICES)? {
            Outcome::NotYet => {}
            _ => return Ok(()),
        }
    }
    Ok(())
}

// Plans what a sheet states, and writes the job card.
fn plan(planner: &mut Planner, problem: SheetProblem, out: &mut [u8]) -> Result<usize, Decline>
    ensures { JobAnswered (stated problem) out.old result out.new planner.new }
{
    let length = problem.length();
    let filter = ReachFilter::new(problem);
    planner.open(&filter);
    planner.ask(length, &Forward)?;
    run_out(planner)?;
    planner.report(out)
}

// Answers a sheet: writes its job card, or the fault line where it is declined, and says how many bytes that is.
pub fn answer(planner: &mut Planner, bytes: &[u8], out: &mut [u8]) -> Result<usize, Decline>
    ensures line { Answered bytes.now out.old result out.new }
    ensures card { SheetAnswered planner.old bytes.now out.old result out.new planner.new }
{
    let mut problem = SheetProblem::empty();
    match read(bytes, &mut problem) {
        Ok(()) => plan(planner, problem, out),
        Err(fault) => write_fault(&fault, out).map_err(|_| Decline::TooShort),
    }
}
