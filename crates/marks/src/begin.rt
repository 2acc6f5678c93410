// Working out, from nothing, the marks of a length under pins.
ghost use Rattle.std.specs.Prelude.{◌≡◌, ℕ, ◌<◌, ◌≤◌, Bool, true, false, MatchOption};
ghost use Rattle.marks.specs.Grows.{on, Added};
ghost use Rattle.marks.specs.Rules.{Pinned, seeds};
ghost use Rattle.marks.specs.Pinning.{pins_of};
ghost use Rattle.marks.specs.Cells.{CellMarksOf, CellsOf};
ghost use Rattle.marks.specs.Deciding.{mark_of, Undecided, Begun};

use crate::cells::{CellMarks, CellSides};
use crate::index::Index;
use crate::mark::Mark;
use crate::marked::Marked;
use crate::pins::Pins;
use crate::tables::Marks;
use model::cell::Cell;
use model::path::Side;

impl Marks {
    // No marks, of length 0.
    pub fn new() -> Marks
        ensures length { result.length ≡ 0 }
        ensures empty { result.len ≡ 0 }
        ensures calm { result.conflict ≡ false }
    {
        Marks {
            length: 0,
            marked: Marked::none(),
            conflict: false,
            trail: [Mark::Fact(0, 0); 10304],
            len: 0,
            head: 0,
        }
    }

    // Whether the marks contradict.
    pub fn contradicts(&self) -> bool
        ensures { result ≡ self.now.conflict }
    {
        self.conflict
    }

    // How many marks there are.
    pub fn count(&self) -> usize
        ensures { result ≡ self.now.len }
    {
        self.len
    }

    // Which mark the cell has, if any.
    pub fn decided(&self, cell: Cell) -> Option<Side>
        ensures { MatchOption result (Undecided self.now cell) (λ s. on self.now (mark_of s cell) ≡ true) }
    {
        self.marked.cells.get(cell)
    }

    // The marks of the cells: their sides, and whether the marks contradict.
    pub fn cells(&self) -> CellMarks
        ensures { CellMarksOf self.now result }
    {
        CellMarks {
            sides: self.marked.cells,
            conflict: self.conflict,
        }
    }

    // The sides of the cells, or none where the marks contradict.
    pub fn calm_cells(&self) -> Option<CellSides>
        ensures { CellsOf self.now result }
    {
        if self.conflict {
            None
        } else {
            Some(self.marked.cells)
        }
    }

    // Takes all marks away, for another length.
    fn wipe(&mut self, length: usize)
        requires { length ≤ 32 }
        ensures length { self.new.length ≡ length }
        ensures empty { self.new.len ≡ 0 }
        ensures head { self.new.head ≡ 0 }
        ensures calm { self.new.conflict ≡ false }
    {
        self.length = length;
        self.marked = Marked::none();
        self.conflict = false;
        self.len = 0;
        self.head = 0;
    }

    // Puts in what is given for the cells of one time.
    fn pin(&mut self, ix: &Index, pins: &Pins, t: usize)
        requires { t < self.old.length }
        ensures { Added self.old (Pinned ix.now pins.now t) self.new }
    {
        self.leave_all(t, ix.closed);
        self.leave_all(t, pins.cells.left[t]);
        self.take_all(t, pins.cells.taken[t]);
    }

    // Puts in what is given for all cells.
    fn pin_all(&mut self, ix: &Index, pins: &Pins)
        ensures { Added self.old (λ y. (t : ℕ) × (t < self.old.length) × Pinned ix.now pins.now t y) self.new }
    {
        let length = self.length;
        for t in 0..length {
            self.pin(ix, pins, t);
        }
    }

    // Puts in the start, the goal, the pins and the closed steps.
    fn plant(&mut self, ix: &Index, pins: &Pins)
        ensures { Added self.old (λ y. seeds ix.now (pins_of pins.now) self.old.length y ≡ true) self.new }
    {
        let length = self.length;
        self.hold_all(0, ix.start);
        self.hold_all(length, ix.goal);
        self.pin_all(ix, pins);
    }

    fn work_out(&mut self, ix: &Index, pins: &Pins, length: usize)
        requires { length ≤ 32 }
        ensures { Begun ix.now (pins_of pins.now) length self.new }
    {
        self.wipe(length);
        self.plant(ix, pins);
        self.propagate(ix);
    }

    // Works out from nothing the marks of a length under pins; with a length above 32 nothing changes.
    pub fn begin(&mut self, ix: &Index, pins: &Pins, length: usize)
        ensures begun { length ≤ 32 → Begun ix.now (pins_of pins.now) length self.new }
        ensures idle { 32 < length → self.new ≡ self.old }
    {
        if length <= 32 {
            self.work_out(ix, pins, length);
        }
    }
}
