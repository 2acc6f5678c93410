// What a ranking is: an order of the cells for each length and step count.
ghost use Rattle.std.specs.Prelude.{◌≡◌};
ghost use Rattle.model.specs.Rankings.{Order, Undo, cell_answer, place_answer};

use crate::cell::Cell;

// The times and the steps are not one value: an ask gives the times, and the problem has the steps.
pub trait Ranking {
    ghost order: { Self → Order };

    fn cell(&self, times: usize, steps: usize, place: usize) -> Cell
        ensures { result ≡ cell_answer (order self.now) times steps place };

    fn place(&self, times: usize, steps: usize, cell: Cell) -> usize
        ensures { result ≡ place_answer (order self.now) times steps cell };

    ghost undo: { (r : Self) → Undo (order r) };
}
