// Asking and changing the sides of cells.
ghost use Rattle.std.specs.Prelude.{◌≡◌, ℕ, ◌<◌, Bool, true, false, cond, not, ◌&&◌, ◌||◌, MatchOption, nat_lt};
ghost use Rattle.model.specs.declared.cell.Cell.{Cell as ACell};
ghost use Rattle.model.specs.declared.path.Side.{Side as ASide};
ghost use Rattle.marks.specs.Pinning.{same_cell};
ghost use Rattle.marks.specs.Cells.{table_of, side_in, said, same_side, Unsaid};

use crate::cells::CellSides;
use crate::put::enter;
use crate::undo::strike;
use model::cell::Cell;
use model::path::Side;
use sets::steps::StepSet;

impl CellSides {
    // No cell has a side.
    pub fn none() -> CellSides
        ensures { (c : ACell) → Unsaid result c }
    {
        CellSides {
            taken: [StepSet::empty(); 32],
            left: [StepSet::empty(); 32],
        }
    }

    // By time, the steps that are taken.
    pub fn taken(&self) -> &[StepSet; 32]
        ensures { result.now ≡ self.now.taken }
    {
        &self.taken
    }

    // By time, the steps on a side.
    fn on(&self, side: Side) -> &[StepSet; 32]
        ensures { result.now ≡ table_of self.now side }
    {
        match side {
            Side::Taken => &self.taken,
            Side::LeftOut => &self.left,
        }
    }

    // Whether the cell is on the side; none is at a time from 32 on.
    pub(crate) fn has(&self, cell: Cell, side: Side) -> bool
        ensures { result ≡ said self.now side cell }
    {
        match self.on(side).get(cell.time as usize) {
            Some(steps) => steps.contains(cell.step),
            None => false,
        }
    }

    // Which side the cell is on, if any.
    pub fn get(&self, cell: Cell) -> Option<Side>
        ensures { MatchOption result (Unsaid self.now cell) (λ s. said self.now s cell ≡ true) }
    {
        if self.has(cell, Side::Taken) {
            Some(Side::Taken)
        } else if self.has(cell, Side::LeftOut) {
            Some(Side::LeftOut)
        } else {
            None
        }
    }

    // Puts the cell on the side.
    pub(crate) fn enter(&mut self, cell: Cell, side: Side)
        requires { cell.time < 32 }
        ensures { (s : ASide) (t o : ℕ) → side_in self.new s t o ≡ ((same_side side s && same_cell cell t o) || side_in self.old s t o) }
    {
        match side {
            Side::Taken => enter(&mut self.taken, cell.time as usize, cell.step),
            Side::LeftOut => enter(&mut self.left, cell.time as usize, cell.step),
        }
    }

    // Takes the cell off the side.
    pub(crate) fn strike(&mut self, cell: Cell, side: Side)
        requires { cell.time < 32 }
        ensures { (s : ASide) (t o : ℕ) → side_in self.new s t o ≡ (side_in self.old s t o && not (same_side side s && same_cell cell t o)) }
    {
        match side {
            Side::Taken => strike(&mut self.taken, cell.time as usize, cell.step),
            Side::LeftOut => strike(&mut self.left, cell.time as usize, cell.step),
        }
    }

    // Puts the cell on the side alone; nothing changes for a time from 32 on.
    pub(crate) fn set(&mut self, cell: Cell, side: Side)
        ensures { (s : ASide) (t o : ℕ) → side_in self.new s t o ≡ cond (nat_lt cell.time 32 && same_cell cell t o) (same_side side s) (side_in self.old s t o) }
    {
        if cell.time < 32 {
            match side {
                Side::Taken => self.strike(cell, Side::LeftOut),
                Side::LeftOut => self.strike(cell, Side::Taken),
            }
            self.enter(cell, side);
        }
    }

    // Takes the cell off both sides; nothing changes for a time from 32 on.
    pub(crate) fn clear(&mut self, cell: Cell)
        ensures { (s : ASide) (t o : ℕ) → side_in self.new s t o ≡ cond (nat_lt cell.time 32 && same_cell cell t o) false (side_in self.old s t o) }
    {
        if cell.time < 32 {
            self.strike(cell, Side::Taken);
            self.strike(cell, Side::LeftOut);
        }
    }
}
