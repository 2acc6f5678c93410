// What a problem source is: it means one problem, and answers its parts.
ghost use Rattle.std.specs.Prelude.{◌≡◌};
ghost use Rattle.model.specs.Problems.{Problem, WellFormed, StartLiterals, steps, step as row};

use crate::step::Step;
use sets::facts::{FactSet, LiteralSet};

// Asking changes nothing; each answer is that part of the meaning, each time.
pub trait ProblemSource {
    // the one problem that the source means
    ghost meaning: { Self → Problem };

    // How many facts there are.
    fn facts(&self) -> usize
        ensures { result ≡ (meaning self.now).facts };

    // How many steps there are.
    fn steps(&self) -> usize
        ensures { result ≡ steps (meaning self.now) };

    // The step of a number; beyond the count a closed one with no needs and no makes.
    fn step(&self, number: usize) -> Step
        ensures { result ≡ row (meaning self.now) number };

    // The facts that are true at the start.
    fn start(&self) -> FactSet
        ensures { result ≡ (meaning self.now).start };

    fn goal(&self) -> LiteralSet
        ensures { result ≡ (meaning self.now).goal };

    // The literals that hold at the start.
    final fn start_literals(&self) -> LiteralSet
        ensures { StartLiterals (meaning self.now) result }
    {
        let truths = self.start();
        LiteralSet::new(truths, FactSet::below(self.facts()).minus(truths))
    }

    ghost limits: { (s : Self) → WellFormed (meaning s) };
}
