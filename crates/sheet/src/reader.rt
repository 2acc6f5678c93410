// Reads a sheet line by line, and leaves what it states or the empty problem.
ghost use Rattle.std.specs.Prelude.{◌≡◌, ◌+◌, ◌<◌, true, Some, None, MatchResult};
ghost use Rattle.sheet.specs.Exact.{OneReading, Faulted, Exact};
ghost use Rattle.sheet.specs.Job.{Adds, Flawed, field, no_job};
ghost use Rattle.sheet.specs.Kind.{allowed, in_step, after_step};
ghost use Rattle.sheet.specs.Sheet.{Next, Wrong, Reads, Refused};
ghost use Rattle.sheet.specs.Statement.{Statement, Proper, meant, kind_stated};
ghost use Rattle.sheet.specs.Stated.{stated as job};

use crate::cut::Reader;
use crate::fault::{Place, SheetFault};
use crate::kind::{check_end, check_order};
use crate::line::{Line, SignedName};
use crate::name::plain::PlainName;
use crate::problem::SheetProblem;

// Adds what a line states, or says why it may not stand.
fn add_line(problem: &mut SheetProblem, stated: Line, line: u32) -> Result<(), SheetFault>
    requires proper { Proper (meant stated) }
    requires begun { in_step (kind_stated (meant stated)) ≡ true → 0 < problem.old.count }
    ensures { MatchResult result (λ _. Adds (job problem.old) (meant stated.entry) (job problem.new))
        (λ e. Flawed (job problem.old) (meant stated.entry) (record { line = line; byte = field (meant stated.entry) }) e) }
{
    let place = Place { line, byte: 3 };
    match stated {
        Line::Version(n) => {
            if n != 1 {
                return Err(SheetFault::Version(Place { line, byte: 5 }));
            }
            Ok(())
        }
        Line::Length(n) => {
            if n > 32 {
                return Err(SheetFault::Length(place));
            }
            problem.times = n as usize;
            Ok(())
        }
        Line::Fact(bytes) => problem.add_fact(PlainName { bytes }, place),
        Line::True(bytes) => problem.add_true(PlainName { bytes }, place),
        Line::Wanted { negative, name } => {
            let name = PlainName { bytes: name };
            problem.add_wanted(SignedName { negative, name }, place)
        }
        Line::Step(bytes) => problem.add_step(PlainName { bytes }, place),
        Line::Need { negative, name } => {
            let name = PlainName { bytes: name };
            problem.add_need(SignedName { negative, name }, place)
        }
        Line::Make { negative, name } => {
            let name = PlainName { bytes: name };
            problem.add_make(SignedName { negative, name }, place)
        }
    }
}

impl<'a> Reader<'a> {
    // One line: adds what it states, and goes on to the next. That a step has begun is said of the reader and the problem both, so
    // no ghost field of one of them can hold it.
    fn one_line(&mut self, problem: &mut SheetProblem) -> Result<(), SheetFault>
        requires { after_step self.old.previous ≡ true → 0 < problem.old.count }
        ensures { MatchResult result (λ _. (t : Statement) × Next self.old.rest.now t self.new.rest.now × (self.new.previous ≡ Some (kind_stated t)) × (self.new.line ≡ self.old.line + 1) × (allowed self.old.previous (kind_stated t) ≡ true) × Adds (job problem.old) t (job problem.new))
            (λ e. Wrong self.old.rest.now self.old.previous (job problem.old) self.old.line e) }
    {
        let (stated, after) = self.read_line()?;
        let kind = stated.kind();
        check_order(self.previous, kind, self.line)?;
        add_line(problem, stated, self.line)?;
        *self = Reader {
            rest: after,
            line: self.line + 1,
            previous: Some(kind),
        };
        Ok(())
    }
}

// Every line of the sheet, from the first on.
fn read_lines(problem: &mut SheetProblem, front: Reader) -> Result<(), SheetFault>
    requires front { (front.line ≡ 1) × (front.previous ≡ None) }
    requires fresh { job problem.old ≡ no_job }
    ensures { MatchResult result (λ _. Reads front.entry.rest.now (job problem.new)) (λ e. Faulted front.entry.rest.now e) }
{
    let mut reader = front;
    // at least once: the empty sheet has a first line too, which is its fault
    loop {
        reader.one_line(problem)?;
        if reader.rest.is_empty() {
            break;
        }
    }
    check_end(reader.previous, reader.line)
}

// The problem that the sheet states, or its fault and the empty problem.
fn fill(sheet: &[u8], problem: &mut SheetProblem) -> Result<(), SheetFault>
    ensures { MatchResult result (λ _. Reads sheet.now (job problem.new)) (λ e. Faulted sheet.now e × (job problem.new ≡ no_job)) }
{
    *problem = SheetProblem::empty();
    let reader = Reader::open(sheet)?;
    let read = read_lines(problem, reader);
    if read.is_err() {
        *problem = SheetProblem::empty();
    }
    read
}

// Reads a sheet: Ok exactly where the bytes are one, and then the problem is what they state; else their one fault, and the
// problem is the empty one, whatever it was before.
pub fn read(sheet: &[u8], problem: &mut SheetProblem) -> Result<(), SheetFault>
    ensures says { MatchResult result (λ _. Reads sheet.now (job problem.new)) (λ e. Refused sheet.now e × (job problem.new ≡ no_job)) }
    ensures exact { Exact sheet.now result (job problem.new) }
{
    fill(sheet, problem)
}

// The theorem that reading is a function of the bytes.
pub fn reading_stands()
    ensures { OneReading }
{}
