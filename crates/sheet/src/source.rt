// A sheet problem is a problem source, and tells the length to ask and the names.
ghost use Rattle.std.specs.Prelude.{◌≡◌, ◌≤◌};
ghost use Rattle.sheet.specs.Job.{problem_in};
ghost use Rattle.sheet.specs.Stated.{stated};
ghost use Rattle.sheet.specs.Lawful.{lawful};
ghost use Rattle.sheet.specs.Empty.{none_in};

use crate::problem::SheetProblem;
use model::source::ProblemSource;
use model::step::Step;
use sets::facts::{FactSet, LiteralSet};

impl ProblemSource for SheetProblem {
    ghost meaning = { λ p. problem_in (stated p) };

    ghost limits = { λ p. lawful none_in p };

    fn facts(&self) -> usize {
        self.named.max(1)
    }

    fn steps(&self) -> usize {
        self.count
    }

    fn step(&self, number: usize) -> Step {
        match self.steps[..self.count].get(number) {
            Some(row) => Step {
                enabled: true,
                needs: row.needs,
                makes: row.makes,
            },
            None => Step::closed(),
        }
    }

    fn start(&self) -> FactSet {
        self.start
    }

    fn goal(&self) -> LiteralSet {
        self.goal
    }
}

impl SheetProblem {
    // The length that the sheet asks.
    pub fn length(&self) -> usize
        ensures value { result ≡ (stated self.now).times }
        ensures within { result ≤ 32 }
    {
        self.times
    }
}
