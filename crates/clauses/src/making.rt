// Making the clause record: all pairs that are true at the start, less what steps spoil, until nothing awaits another look.
ghost use Rattle.std.specs.Prelude.{◌≡◌, ℕ, ◌<◌, true, false};
ghost use Rattle.sets.specs.Literals.{Literal};
ghost use Rattle.model.specs.Held.{problem_of};
ghost use Rattle.model.specs.Problems.{steps};
ghost use Rattle.model.specs.Clauses.{Largest};
ghost use Rattle.clauses.specs.Waiting.{Due, Idle, Moved, Visited, Ready, size, kept_in};

use crate::pairs::Pairs;
use crate::record::ClauseRecord;
use crate::waiting::{Touched, Waiting};
use model::source::ProblemSource;
use model::table::ProblemTable;

impl ClauseRecord {
    // Looks again at the step if it is due.
    fn visit(&mut self, problem: &ProblemTable, o: usize, touched: Touched)
        ensures moved { Moved (problem_of problem.now) self.old self.new }
        ensures here { Visited (problem_of problem.now) self.old self.new o (Due (problem_of problem.now) o touched) }
    {
        if touched.concerns(problem, o) {
            self.examine(problem, o);
        }
    }

    // Looks again at each step that is due.
    fn sweep(&mut self, problem: &ProblemTable, touched: Touched)
        ensures moved { Moved (problem_of problem.now) self.old self.new }
        ensures here { (o : ℕ) → o < steps (problem_of problem.now)
            → Visited (problem_of problem.now) self.old self.new o (Due (problem_of problem.now) o touched) }
    {
        for o in 0..problem.steps() {
            self.visit(problem, o, touched);
        }
    }

    // Takes up what awaits. Whether there was anything.
    fn round(&mut self, problem: &ProblemTable) -> bool
        ensures facts { self.new.facts ≡ self.old.facts }
        ensures ready { Ready (problem_of problem.now) self.old → Ready (problem_of problem.now) self.new }
        ensures falls { result ≡ true → size self.new < size self.old }
        ensures ends { result ≡ false → Idle self.new.waiting }
    {
        if self.waiting.idle() {
            return false;
        }
        let touched = self.waiting.gather();
        self.sweep(problem, touched);
        true
    }

    fn settle(&mut self, problem: &ProblemTable)
        ensures facts { self.new.facts ≡ self.old.facts }
        ensures largest { Ready (problem_of problem.now) self.old → Largest (problem_of problem.now) (kept_in self.new) }
    {
        while self.round(problem) {}
    }

    // The record of no problem: no facts, and no pair is kept.
    pub fn empty() -> ClauseRecord
        ensures facts { result.facts ≡ 0 }
        ensures none { (a b : Literal) → kept_in result a b ≡ false }
    {
        ClauseRecord {
            facts: 0,
            pairs: Pairs::empty(),
            waiting: Waiting::none(),
        }
    }

    // Becomes the record of the problem, whatever it held.
    pub fn make(&mut self, problem: &ProblemTable)
        ensures facts { self.new.facts ≡ (problem_of problem.now).facts }
        ensures largest { Largest (problem_of problem.now) (kept_in self.new) }
    {
        self.facts = problem.facts();
        self.pairs = Pairs::at_start(problem);
        self.waiting.begin();
        self.settle(problem);
    }

    // The record of the problem that a source means.
    pub fn of<S: ProblemSource>(source: &S) -> ClauseRecord
        ensures facts { result.facts ≡ (S.meaning source.now).facts }
        ensures largest { Largest (S.meaning source.now) (kept_in result) }
    {
        let table = ProblemTable::of(source);
        let mut record = ClauseRecord::empty();
        record.make(&table);
        record
    }
}
