// Building the index of a problem and its clauses, in place.
ghost use Rattle.std.specs.Prelude.{◌≡◌, ℕ, ◌<◌, Bool, true, not, ◌&&◌, ◌||◌, length, ◌==◌, slice_index_or};
ghost use Rattle.sets.specs.Sets.{step_in, no_literals, no_steps};
ghost use Rattle.model.specs.Problems.{steps, step};
ghost use Rattle.model.specs.Held.{problem_of};
ghost use Rattle.marks.specs.Tables.{Transposed};
ghost use Rattle.marks.specs.Building.{Small, Columned, Gathered, RivalsOf, Closes, Starts, Blank};
ghost use Rattle.marks.specs.Meaning.{Means, clauses_of};

use crate::index::Index;
use crate::mark::opposite_literal;
use crate::put::enter;
use model::source::ProblemSource;
use model::step::Step;
use model::table::ProblemTable;
use sets::facts::{FactSet, LiteralSet};
use sets::steps::StepSet;

// By step, a set of literals of it.
fn fill<F: Fn(Step) -> LiteralSet>(problem: &ProblemTable, part: F, rows: &mut [LiteralSet; 256])
    requires { F.IsAlwaysCallable part }
    ensures sized { length rows.new ≡ 256 }
    ensures rows { (o : ℕ) → o < 256 → F.post part (step (problem_of problem.now) o) (slice_index_or rows.new o no_literals) }
{
    for (o, row) in rows.iter_mut().enumerate() {
        *row = part(problem.step(o));
    }
}

// The steps of the problem that are closed.
fn closed_steps(problem: &ProblemTable) -> StepSet
    ensures { Closes (problem_of problem.now) (steps (problem_of problem.now)) result }
{
    let mut closed = StepSet::empty();
    for o in 0..problem.steps() {
        if !problem.step(o).enabled {
            closed.insert(o as u8);
        }
    }
    closed
}

// The literals that hold at the start.
fn start_literals(problem: &ProblemTable) -> LiteralSet
    ensures { Starts (problem_of problem.now) result }
{
    let truths = problem.start();
    let all = FactSet::below(problem.facts());
    LiteralSet::new(truths, all.minus(truths))
}

// Puts step `o` into the column of each literal of its row.
fn add_columns(columns: &mut [StepSet], row: LiteralSet, o: u8)
    requires { length columns.old ≡ 128 }
    ensures columned { Columned columns.old row o 128 columns.new }
    ensures small { Small row }
{
    let mut from = 0;
    while let Some(l) = row.next_from(from) {
        enter(columns, l, o);
        from = l + 1;
    }
}

// The rows read by columns: by literal the steps that have it.
fn transpose(rows: &[LiteralSet; 256], columns: &mut [StepSet; 128])
    ensures { Transposed rows.now columns.new }
{
    *columns = [StepSet::empty(); 128];
    for (o, row) in rows.iter().enumerate() {
        add_columns(columns, *row, o as u8);
    }
}

// All steps that have the opposite of one of the literals.
fn gather(columns: &[StepSet; 128], literals: LiteralSet) -> StepSet
    ensures gathered { Gathered columns.now literals 128 result }
    ensures small { Small literals }
{
    let mut all = StepSet::empty();
    let mut from = 0;
    while let Some(l) = literals.next_from(from) {
        all = all.union(columns[opposite_literal(l as u8) as usize]);
        from = l + 1;
    }
    all
}

// The steps other than `o` that interfere with a step of these needs and makes.
fn rivals_of(
    makers: &[StepSet; 128],
    needers: &[StepSet; 128],
    needs: LiteralSet,
    makes: LiteralSet,
    o: u8,
) -> StepSet
    ensures { RivalsOf makers.now needers.now needs makes o result }
{
    let made = gather(makers, makes);
    let needed = gather(needers, makes);
    let undone = gather(makers, needs);
    let mut all = made.union(needed).union(undone);
    all.remove(o);
    all
}

// By step, the steps that interfere with it.
fn fill_rivals(
    makers: &[StepSet; 128],
    needers: &[StepSet; 128],
    needs: &[LiteralSet; 256],
    makes: &[LiteralSet; 256],
    rivals: &mut [StepSet; 256],
)
    ensures sized { length rivals.new ≡ 256 }
    ensures rows { (o : ℕ) → o < 256 → RivalsOf makers.now needers.now (slice_index_or needs.now o no_literals) (slice_index_or makes.now o no_literals) o (slice_index_or rivals.new o no_steps) }
{
    for (o, set) in rivals.iter_mut().enumerate() {
        *set = rivals_of(makers, needers, needs[o], makes[o], o as u8);
    }
}

impl Index {
    // The index with every set empty.
    pub fn empty() -> Index
        ensures { Blank result }
    {
        Index {
            needs: [LiteralSet::empty(); 256],
            makes: [LiteralSet::empty(); 256],
            rivals: [StepSet::empty(); 256],
            makers: [StepSet::empty(); 128],
            needers: [StepSet::empty(); 128],
            clauses: [LiteralSet::empty(); 128],
            start: LiteralSet::empty(),
            goal: LiteralSet::empty(),
            closed: StepSet::empty(),
        }
    }

    // The index of a problem and of the clauses that `kept` has, by a literal's number those that share a clause with it.
    pub fn build(&mut self, problem: &ProblemTable, kept: &[LiteralSet; 128])
        ensures { Means self.new (problem_of problem.now) (clauses_of kept.now) }
    {
        fill(problem, |step| step.needs, &mut self.needs);
        fill(problem, |step| step.makes, &mut self.makes);
        transpose(&self.needs, &mut self.needers);
        transpose(&self.makes, &mut self.makers);
        fill_rivals(
            &self.makers,
            &self.needers,
            &self.needs,
            &self.makes,
            &mut self.rivals,
        );
        self.clauses = *kept;
        self.start = start_literals(problem);
        self.goal = problem.goal();
        self.closed = closed_steps(problem);
    }
}
