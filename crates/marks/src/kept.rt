// The marks of the cells set apart: their sides, and whether the marks contradict.
ghost use Rattle.std.specs.Prelude.{◌≡◌, true, false, MatchOption};
ghost use Rattle.model.specs.declared.cell.Cell.{Cell as ACell};
ghost use Rattle.marks.specs.Cells.{said, Unsaid};

use crate::cells::{CellMarks, CellSides};
use model::cell::Cell;
use model::path::Side;
use sets::steps::StepSet;

impl CellMarks {
    // No cell has a mark, and nothing contradicts.
    pub fn none() -> CellMarks
        ensures calm { result.conflict ≡ false }
        ensures members { (c : ACell) → Unsaid result.sides c }
    {
        CellMarks {
            sides: CellSides::none(),
            conflict: false,
        }
    }

    // Whether the marks contradict.
    pub fn contradicts(&self) -> bool
        ensures { result ≡ self.now.conflict }
    {
        self.conflict
    }

    // The sides of the cells.
    pub fn sides(&self) -> &CellSides
        ensures { result.now ≡ self.now.sides }
    {
        &self.sides
    }

    // By time, the steps that are taken.
    pub fn taken(&self) -> &[StepSet; 32]
        ensures { result.now ≡ self.now.sides.taken }
    {
        self.sides.taken()
    }

    // Which mark the cell has, if any; none at a time from 32 on.
    pub fn decided(&self, cell: Cell) -> Option<Side>
        ensures { MatchOption result (Unsaid self.now.sides cell) (λ s. said self.now.sides s cell ≡ true) }
    {
        self.sides.get(cell)
    }
}
