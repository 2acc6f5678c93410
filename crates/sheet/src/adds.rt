// What each line adds to a sheet problem.
ghost use Rattle.std.specs.Prelude.{◌≡◌, ◌<◌, false, MatchResult};
ghost use Rattle.sets.specs.Sets.{lit_in, no_literals};
ghost use Rattle.sets.specs.Literals.{Literal};
ghost use Rattle.sheet.specs.Name.{name_bytes};
ghost use Rattle.sheet.specs.Entry.{Unknown, Stands};
ghost use Rattle.sheet.specs.Job.{Adds, Flawed, no_job};
ghost use Rattle.sheet.specs.Records.{job_step};
ghost use Rattle.sheet.specs.Statement.{fact as fact_line, holds, wanted, step as step_line, need, make};
ghost use Rattle.sheet.specs.Stated.{stated};
ghost use Rattle.sheet.specs.declared.fault.SheetFault.{SheetFault};

use crate::entry::{append, check_new, first_match};
use crate::fault::{Place, SheetFault};
use crate::line::SignedName;
use crate::name::Name;
use crate::name::plain::PlainName;
use crate::problem::SheetProblem;
use crate::record::{FactRecord, StepRecord};
use crate::signed::SignedFact;
use sets::facts::{FactSet, LiteralSet};

impl StepRecord {
    // A step with no needs and no makes.
    fn new(name: Name) -> StepRecord
        ensures value { job_step result ≡ record { name = name_bytes name; needs = no_literals; makes = no_literals } }
        ensures needs { (l : Literal) → lit_in result.needs l ≡ false }
        ensures makes { (l : Literal) → lit_in result.makes l ≡ false }
    {
        StepRecord {
            name,
            needs: LiteralSet::empty(),
            makes: LiteralSet::empty(),
        }
    }
}

impl SheetProblem {
    // The empty problem: one unnamed false fact, no steps, no goal, length 0.
    pub fn empty() -> SheetProblem
        ensures { stated result ≡ no_job }
    {
        let fact = FactRecord {
            name: Name::blank(),
        };
        let step = StepRecord::new(Name::blank());
        SheetProblem {
            times: 0,
            facts: [fact; 64],
            named: 0,
            steps: [step; 256],
            count: 0,
            start: FactSet::empty(),
            goal: LiteralSet::empty(),
        }
    }

    // The number of the fact with this name.
    fn fact(&self, name: &[u8], field: Place) -> Result<usize, SheetFault>
        ensures { MatchResult result (λ f. Stands (stated self.now).facts name.now f)
            (λ e. Unknown (stated self.now).facts name.now × (e ≡ SheetFault.UnknownFact field)) }
    {
        first_match(&self.facts[..self.named], name).ok_or(SheetFault::UnknownFact(field))
    }

    // The fact with this name, and the sign before the name.
    fn signed_fact(&self, signed: SignedName, field: Place) -> Result<SignedFact, SheetFault>
        ensures { MatchResult result (λ x. Stands (stated self.now).facts signed.entry.name.bytes.now x.fact × (x.negative ≡ signed.entry.negative) × (x.field ≡ field))
            (λ e. Unknown (stated self.now).facts signed.entry.name.bytes.now × (e ≡ SheetFault.UnknownFact field)) }
    {
        let SignedName { negative, name } = signed;
        let fact = self.fact(name.bytes, field)?;
        Ok(SignedFact {
            fact,
            negative,
            field,
        })
    }

    pub(crate) fn add_fact(&mut self, name: PlainName, field: Place) -> Result<(), SheetFault>
        ensures { MatchResult result (λ _. Adds (stated self.old) (fact_line name.entry.bytes.now) (stated self.new))
            (λ e. Flawed (stated self.old) (fact_line name.entry.bytes.now) field e) }
    {
        check_new(&self.facts[..self.named], name.bytes, field)?;
        let fact = FactRecord {
            name: Name::from(name),
        };
        self.named = append(&mut self.facts, self.named, fact, field)?;
        Ok(())
    }

    pub(crate) fn add_true(&mut self, name: PlainName, field: Place) -> Result<(), SheetFault>
        ensures { MatchResult result (λ _. Adds (stated self.old) (holds name.entry.bytes.now) (stated self.new))
            (λ e. Flawed (stated self.old) (holds name.entry.bytes.now) field e) }
    {
        let fact = self.fact(name.bytes, field)?;
        if self.start.contains(fact) {
            return Err(SheetFault::Repeated(field));
        }
        self.start = self.start.insert(fact);
        Ok(())
    }

    pub(crate) fn add_wanted(&mut self, signed: SignedName, field: Place) -> Result<(), SheetFault>
        ensures { MatchResult result (λ _. Adds (stated self.old) (wanted signed.entry.negative signed.entry.name.bytes.now) (stated self.new))
            (λ e. Flawed (stated self.old) (wanted signed.entry.negative signed.entry.name.bytes.now) field e) }
    {
        let fact = self.signed_fact(signed, field)?;
        fact.join(&mut self.goal)
    }

    pub(crate) fn add_step(&mut self, name: PlainName, field: Place) -> Result<(), SheetFault>
        ensures { MatchResult result (λ _. Adds (stated self.old) (step_line name.entry.bytes.now) (stated self.new))
            (λ e. Flawed (stated self.old) (step_line name.entry.bytes.now) field e) }
    {
        check_new(&self.steps[..self.count], name.bytes, field)?;
        let step = StepRecord::new(Name::from(name));
        self.count = append(&mut self.steps, self.count, step, field)?;
        Ok(())
    }

    pub(crate) fn add_need(&mut self, signed: SignedName, field: Place) -> Result<(), SheetFault>
        requires { 0 < self.old.count }
        ensures { MatchResult result (λ _. Adds (stated self.old) (need signed.entry.negative signed.entry.name.bytes.now) (stated self.new))
            (λ e. Flawed (stated self.old) (need signed.entry.negative signed.entry.name.bytes.now) field e) }
    {
        let fact = self.signed_fact(signed, field)?;
        let newest = self.count - 1;
        // As a slice: an element lent straight out of the array in `self` gets no proof.
        let steps: &mut [StepRecord] = &mut self.steps;
        let step = &mut steps[newest];
        fact.join(&mut step.needs)
    }

    // `add_need` on the other list: what would pick the list is longer than the two bodies.
    pub(crate) fn add_make(&mut self, signed: SignedName, field: Place) -> Result<(), SheetFault>
        requires { 0 < self.old.count }
        ensures { MatchResult result (λ _. Adds (stated self.old) (make signed.entry.negative signed.entry.name.bytes.now) (stated self.new))
            (λ e. Flawed (stated self.old) (make signed.entry.negative signed.entry.name.bytes.now) field e) }
    {
        let fact = self.signed_fact(signed, field)?;
        let newest = self.count - 1;
        let steps: &mut [StepRecord] = &mut self.steps;
        let step = &mut steps[newest];
        fact.join(&mut step.makes)
    }
}
