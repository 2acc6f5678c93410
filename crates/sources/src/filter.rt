// The reach filter: a source made over any other, in which each step with a need outside the reach set is closed.
ghost use Rattle.std.specs.Prelude.{◌≡◌};
ghost use Rattle.model.specs.Problems.{Problem};
ghost use Rattle.sources.specs.Reach.{Exact, closing, Filters, SamePlans};
ghost use Rattle.sources.specs.Reaches.{closing_well};

use crate::reach::closed_steps;
use model::source::ProblemSource;
use model::step::Step;
use sets::facts::{FactSet, LiteralSet};

#[derive(Drop)]
pub struct ReachFilter<S: ProblemSource> {
    below: S,
    closed: [bool; 256],
    // true of just the steps with a need out of reach
    ghost exact: { ∥ Exact (S.meaning below) closed ∥₁ },
}

impl<S: ProblemSource> ReachFilter<S> {
    // Over the source below, which stays as it is: its meaning is the one problem that filters that source's, and has the same plans.
    pub fn new(below: S) -> ReachFilter<S>
        ensures below { result.below ≡ below }
        ensures exact { Exact (S.meaning below) result.closed }
        ensures filters { Filters (S.meaning below) (closing (S.meaning result.below) result.closed) }
        ensures only { (q : Problem) → Filters (S.meaning below) q → q ≡ closing (S.meaning result.below) result.closed }
        ensures plans { SamePlans (S.meaning below) (closing (S.meaning result.below) result.closed) }
    {
        let closed = closed_steps(&below);
        ReachFilter { below, closed }
    }
}

// It answers as the source below does, but for the steps that it closes.
impl<S: ProblemSource> ProblemSource for ReachFilter<S> {
    ghost meaning = { λ s. closing (S.meaning s.below) s.closed };

    ghost limits = { λ s. closing_well (S.meaning s.below) s.closed (S.limits s.below) };

    fn facts(&self) -> usize {
        self.below.facts()
    }

    fn steps(&self) -> usize {
        self.below.steps()
    }

    fn step(&self, number: usize) -> Step {
        let step = self.below.step(number);
        if number < 256 {
            Step {
                enabled: step.enabled & !self.closed[number],
                needs: step.needs,
                makes: step.makes,
            }
        } else {
            step
        }
    }

    fn start(&self) -> FactSet {
        self.below.start()
    }

    fn goal(&self) -> LiteralSet {
        self.below.goal()
    }
}
