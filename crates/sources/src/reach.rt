// The reach set of a source's problem, and the steps that it leaves out of reach.
ghost use Rattle.std.specs.Prelude.{◌≡◌, ◌<◌};
ghost use Rattle.sources.specs.Reach.{Exact};
ghost use Rattle.sources.specs.Rounds.{Outside, Widened, Round, ReachSet};
ghost use Rattle.model.specs.Problems.{steps, step as row};

use model::source::ProblemSource;
use model::step::Step;
use sets::facts::LiteralSet;
use std::array;

// Whether a need of the step is outside the set.
fn lacks(step: Step, reach: LiteralSet) -> bool
    ensures { Outside step reach result }
{
    !step.needs.subset(reach)
}

// With all needs of an open step, its makes.
fn widen(reach: LiteralSet, step: Step) -> LiteralSet
    ensures { Widened reach step result }
{
    if step.enabled && !lacks(step, reach) {
        reach.union(step.makes)
    } else {
        reach
    }
}

// Once through the steps.
fn round<S: ProblemSource>(source: &S, reach: LiteralSet) -> LiteralSet
    ensures { Round (S.meaning source.now) (steps (S.meaning source.now)) reach result }
{
    let mut wide = reach;
    for o in 0..source.steps() {
        wide = widen(wide, source.step(o));
    }
    wide
}

// Rounds, until one brings nothing new.
fn reach_set<S: ProblemSource>(source: &S) -> LiteralSet
    ensures { ReachSet (S.meaning source.now) result }
{
    let mut reach = source.start_literals();
    loop {
        let wide = round(source, reach);
        if wide.subset(reach) {
            return reach;
        }
        reach = wide;
    }
}

// Whether a need of the step of a number is outside the set; from the count on no step is asked for.
fn is_out<S: ProblemSource>(source: &S, count: usize, number: usize, reach: LiteralSet) -> bool
    ensures { number < count → Outside (row (S.meaning source.now) number) reach result }
{
    number < count && lacks(source.step(number), reach)
}

// True for each step with a need outside the reach set.
pub(crate) fn closed_steps<S: ProblemSource>(source: &S) -> [bool; 256]
    ensures { Exact (S.meaning source.now) result }
{
    let reach = reach_set(source);
    let count = source.steps();
    array::from_fn(|o| is_out(source, count, o, reach))
}
