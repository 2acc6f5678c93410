// Reading and changing a table of pairs.
ghost use Rattle.std.specs.Prelude.{◌≡◌, ◌<◌, ◌≤◌, true, false, not, ◌&&◌, ◌||◌, if◌then◌else◌, ◌==◌, nat_lt, slice_index_or};
ghost use Rattle.sets.specs.Sets.{lit_in, no_literals};
ghost use Rattle.sets.specs.Literals.{Literal, fact, lit, code};
ghost use Rattle.model.specs.Held.{problem_of};
ghost use Rattle.model.specs.Clauses.{Clause};
ghost use Rattle.clauses.specs.Pairs.{rel, load, Linked};
ghost use Rattle.clauses.specs.Striking.{Good};

use crate::number::LiteralNumber;
use crate::pairs::Pairs;
use model::source::ProblemSource;
use model::table::ProblemTable;
use sets::facts::{FactSet, LiteralSet};
use std::array;

impl Pairs {
    // The rows.
    pub(crate) fn table(&self) -> &[LiteralSet; 128]
        ensures { (a b : Literal) → lit_in (slice_index_or result.now (code a) no_literals) b ≡ rel self.now a b }
    {
        &self.rows
    }

    // No pairs.
    pub(crate) fn empty() -> Pairs
        ensures { (a b : Literal) → rel result a b ≡ false }
    {
        Pairs {
            rows: [LiteralSet::empty(); 128],
        }
    }

    // The literals that a literal is paired with.
    pub(crate) fn row(&self, a: usize) -> LiteralSet
        ensures { (l : Literal) → lit_in result l ≡ rel self.now (lit a) l }
    {
        if a < 128 {
            self.rows[a]
        } else {
            LiteralSet::empty()
        }
    }

    pub(crate) fn contains(&self, a: usize, b: usize) -> bool
        ensures { result ≡ rel self.now (lit a) (lit b) }
    {
        self.row(a).contains(b)
    }

    fn strike_one(&mut self, a: LiteralNumber, b: LiteralNumber)
        ensures pairs { (k l : Literal) → rel self.new k l ≡ (rel self.old k l && not (code k == a.number && code l == b.number)) }
        ensures less { load self.new ≤ load self.old }
        ensures falls { rel self.old (lit a.number) (lit b.number) ≡ true → load self.new < load self.old }
    {
        let row = a.number as usize;
        self.rows[row] = self.rows[row].remove(b.number as usize);
    }

    // Strikes the pair, in both orders.
    pub(crate) fn strike(&mut self, a: LiteralNumber, b: LiteralNumber)
        ensures pairs { (k l : Literal) → rel self.new k l
            ≡ (rel self.old k l && not ((code k == a.number && code l == b.number) || (code k == b.number && code l == a.number))) }
        ensures less { load self.new ≤ load self.old }
        ensures falls { rel self.old (lit a.number) (lit b.number) ≡ true → load self.new < load self.old }
    {
        self.strike_one(a, b);
        self.strike_one(b, a);
    }

    // The literals that are paired with one of the set.
    pub(crate) fn linked(&self, set: LiteralSet) -> LiteralSet
        ensures some { (l : Literal) → lit_in result l ≡ true → Linked (rel self.now) set l }
        ensures all { (k l : Literal) → lit_in set k ≡ true → Clause (rel self.now) k l → lit_in result l ≡ true }
    {
        let mut all = LiteralSet::empty();
        let mut from = 0;
        while let Some(a) = set.next_from(from) {
            all = all.union(self.row(a));
            from = a + 1;
        }
        all
    }

    // The literals paired with themselves.
    pub(crate) fn singles(&self) -> LiteralSet
        ensures { (l : Literal) → lit_in result l ≡ rel self.now l l }
    {
        let mut all = LiteralSet::empty();
        for a in 0..128 {
            if self.contains(a, a) {
                all = all.insert(a);
            }
        }
        all
    }

    // Every pair of the problem's literals of which one holds at the start.
    pub(crate) fn at_start(problem: &ProblemTable) -> Pairs
        ensures { Good (problem_of problem.now) (rel result) }
    {
        let all = every_literal(problem);
        let first = problem.start_literals();
        Pairs {
            rows: array::from_fn(|a| first_row(all, first, a)),
        }
    }
}

fn every_literal(problem: &ProblemTable) -> LiteralSet
    ensures { (l : Literal) → lit_in result l ≡ nat_lt (fact l) (problem_of problem.now).facts }
{
    let all = FactSet::below(problem.facts());
    LiteralSet::new(all, all)
}

fn first_row(all: LiteralSet, first: LiteralSet, a: usize) -> LiteralSet
    ensures { (x : Literal) → lit_in result x ≡ (if lit_in first (lit a) then lit_in all x else (if lit_in all (lit a) then lit_in first x else false)) }
{
    if first.contains(a) {
        all
    } else if all.contains(a) {
        first
    } else {
        LiteralSet::empty()
    }
}
