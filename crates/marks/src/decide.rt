// One choice more, and all that follows from it.
ghost use Rattle.std.specs.Prelude.{◌≡◌, ◌<◌, ◌≤◌};
ghost use Rattle.marks.specs.Grows.{Ranged};
ghost use Rattle.marks.specs.Deciding.{mark_of, Decided};

use crate::index::Index;
use crate::mark::Mark;
use crate::tables::Marks;
use model::cell::Cell;
use model::path::Side;

impl Marks {
    // Adds one mark to what is given, and works out all that follows.
    fn assume(&mut self, ix: &Index, x: Mark)
        requires { Ranged self.old x }
        ensures { Decided ix.now self.old x self.new }
    {
        self.add(x);
        self.propagate(ix);
    }

    // Adds one choice to what is given, and works out all that follows; beyond the length nothing changes.
    pub fn decide(&mut self, ix: &Index, cell: Cell, side: Side)
        ensures decided { cell.time < self.old.length → Decided ix.now self.old (mark_of side cell) self.new }
        ensures idle { self.old.length ≤ cell.time → self.new ≡ self.old }
    {
        if (cell.time as usize) < self.length {
            self.assume(ix, Mark::choice(cell, side));
        }
    }
}
