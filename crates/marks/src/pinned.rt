// Reading and changing pins.
ghost use Rattle.std.specs.Prelude.{◌≡◌, ℕ, MatchOption};
ghost use Rattle.model.specs.Plans.{unpinned};
ghost use Rattle.marks.specs.Pinning.{pins_of, pin_of, with_pin};

use crate::cells::CellSides;
use crate::pins::Pins;
use model::cell::Cell;
use model::path::Side;

impl Pins {
    // No cell is pinned.
    pub fn none() -> Pins
        ensures { (t o : ℕ) → pins_of result t o ≡ unpinned }
    {
        Pins {
            cells: CellSides::none(),
        }
    }

    // What the cell is pinned to; a time from 32 on has no pins.
    pub fn get(&self, cell: Cell) -> Option<Side>
        ensures { MatchOption result (pins_of self.now cell.time cell.step ≡ unpinned)
            (λ s. pins_of self.now cell.time cell.step ≡ pin_of s) }
    {
        self.cells.get(cell)
    }

    // Pins the cell, whatever it was pinned to; nothing changes for a time from 32 on.
    pub fn set(&mut self, cell: Cell, side: Side)
        ensures { (t o : ℕ) → pins_of self.new t o ≡ with_pin (pins_of self.old) cell (pin_of side) t o }
    {
        self.cells.set(cell, side);
    }

    // Frees the cell; nothing changes for a time from 32 on.
    pub fn clear(&mut self, cell: Cell)
        ensures { (t o : ℕ) → pins_of self.new t o ≡ with_pin (pins_of self.old) cell unpinned t o }
    {
        self.cells.clear(cell);
    }
}
