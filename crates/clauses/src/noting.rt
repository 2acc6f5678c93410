// Noting struck pairs, and taking them up.
ghost use Rattle.std.specs.Prelude.{◌≡◌, ◌+◌, true, false, [], ◌∷◌, ◌++◌, MatchBool, MatchOption};
ghost use Rattle.model.specs.Held.{problem_of};
ghost use Rattle.clauses.specs.Waiting.{Held, Noted, Gathered, Due, Idle, waiting};

use crate::number::LiteralNumber;
use crate::waiting::{Touched, Waiting};
use model::source::ProblemSource;
use model::table::ProblemTable;
use sets::facts::{LiteralSet, flip};
use sets::stack::Stack;

impl Waiting {
    pub(crate) fn none() -> Waiting
        ensures { Idle result }
    {
        Waiting {
            pairs: [(0, 0); 8256],
            len: 0,
            all: false,
        }
    }

    // No pair awaits, but every step is to be looked at.
    pub(crate) fn begin(&mut self)
        ensures { (self.new.len ≡ 0) × (self.new.all ≡ true) }
    {
        self.len = 0;
        self.all = true;
    }

    // The pair awaits a look; where there is no room, every step does.
    pub(crate) fn note(&mut self, a: LiteralNumber, b: LiteralNumber)
        ensures noted { Noted self.old self.new }
        ensures held { self.new.all ≡ false → Held self.new a.number b.number }
    {
        let mut waiting = Stack::resume(&mut self.pairs, self.len);
        let ok = waiting.push((a.number, b.number));
        self.len = waiting.len();
        self.all |= !ok;
    }

    // The newest pair that awaits.
    fn pop(&mut self) -> Option<(u8, u8)>
        ensures all { self.new.all ≡ self.old.all }
        ensures top { MatchOption result ((self.old.len ≡ 0) × (self.new.len ≡ 0))
            (λ x. (waiting self.old ≡ waiting self.new ++ x ∷ []) × (self.new.len + 1 ≡ self.old.len)) }
    {
        let mut waiting = Stack::resume(&mut self.pairs, self.len);
        let top = waiting.pop();
        self.len = waiting.len();
        top
    }

    // Takes up all that awaits. A literal paired with itself is looked at by every step.
    pub(crate) fn gather(&mut self) -> Touched
        ensures { Gathered self.old self.new result }
    {
        let mut touched = Touched {
            needs: LiteralSet::empty(),
            all: self.all,
        };
        while let Some((a, b)) = self.pop() {
            touched.all |= a == b;
            touched.needs = touched
                .needs
                .insert(flip(a as usize))
                .insert(flip(b as usize));
        }
        self.all = false;
        touched
    }

    // Whether nothing awaits.
    pub(crate) fn idle(&self) -> bool
        ensures { MatchBool result (Idle self.now) (Idle self.now → ⊥) }
    {
        self.len == 0 && !self.all
    }
}

impl Touched {
    // Whether the step looks at a pair that was taken up, or all are to be looked at.
    pub(crate) fn concerns(self, problem: &ProblemTable, o: usize) -> bool
        ensures { MatchBool result (Due (problem_of problem.now) o self) (Due (problem_of problem.now) o self → ⊥) }
    {
        self.all || problem.step(o).needs.intersects(self.needs)
    }
}
