// Taking marks back.
ghost use Rattle.std.specs.Prelude.{◌≡◌, ℕ, ◌+◌, ◌<◌, ◌≤◌, Bool, true, false, not, ◌&&◌, ◌||◌, length, ◌==◌, slice_index_or};
ghost use Rattle.sets.specs.Sets.{step_in, no_literals, no_steps};
ghost use Rattle.marks.specs.declared.mark.Mark.{Mark as AMark};
ghost use Rattle.marks.specs.Tables.{number_in, marked_in, ranged, same};
ghost use Rattle.marks.specs.Grows.{Retreated};
ghost use Rattle.marks.specs.Deciding.{Restores};

use crate::mark::Mark;
use crate::marked::Marked;
use crate::tables::Marks;
use model::cell::Cell;
use model::path::Side;
use sets::facts::LiteralSet;
use sets::stack::Stack;
use sets::steps::StepSet;

// Takes step `i` out of the set at `t`.
pub(crate) fn strike(table: &mut [StepSet], t: usize, i: u8)
    requires { t < length table.old }
    ensures { (u k : ℕ) → step_in (slice_index_or table.new u no_steps) k ≡ (step_in (slice_index_or table.old u no_steps) k && not (t == u && i == k)) }
{
    let mut set = table[t];
    set.remove(i);
    table[t] = set;
}

// Takes literal `l` out of the set at `t`.
fn strike_literal(table: &mut [LiteralSet], t: usize, l: usize)
    requires { t < length table.old }
    ensures { (u k : ℕ) → number_in (slice_index_or table.new u no_literals) k ≡ (number_in (slice_index_or table.old u no_literals) k && not (t == u && l == k)) }
{
    let set = table[t].remove(l);
    table[t] = set;
}

impl Marked {
    // Takes the mark out.
    fn strike(&mut self, x: Mark)
        requires { ranged 32 x ≡ true }
        ensures { (y : AMark) → marked_in self.new y ≡ (marked_in self.old y && not (same x y)) }
    {
        match x {
            Mark::Fact(t, l) => strike_literal(&mut self.facts, t as usize, l as usize),
            Mark::Taken(time, step) => self.cells.strike(Cell { time, step }, Side::Taken),
            Mark::LeftOut(time, step) => self.cells.strike(Cell { time, step }, Side::LeftOut),
        }
    }
}

impl Marks {
    // Takes the newest mark back.
    fn pop(&mut self)
        requires some { self.old.head < self.old.len }
        ensures { (self.new.length ≡ self.old.length) × ((self.new.trail ≡ self.old.trail) × ((self.new.len + 1 ≡ self.old.len) × ((self.new.head ≡ self.old.head) × (self.new.conflict ≡ self.old.conflict)))) }
    {
        let mut trail = Stack::resume(&mut self.trail, self.len);
        let top = trail.pop();
        self.len = trail.len();
        let Some(x) = top else {
            return;
        };
        self.marked.strike(x);
    }

    // Goes back to the first `n` marks; with fewer than `n`, nothing changes.
    pub fn retreat(&mut self, n: usize)
        ensures back { n ≤ self.old.len → Retreated self.old n self.new }
        ensures restores { n ≤ self.old.len → Restores self.old n self.new }
        ensures idle { self.old.len < n → self.new ≡ self.old }
    {
        if n <= self.len {
            self.take_back(n);
        }
    }

    fn take_back(&mut self, n: usize)
        requires { n ≤ self.old.len }
        ensures { Retreated self.old n self.new }
    {
        self.head = n;
        self.conflict = false;
        while self.len > n {
            self.pop();
        }
    }
}
