// What the pins force of a cell.
ghost use Rattle.std.specs.Prelude.{◌<◌};
ghost use Rattle.model.specs.Answers.{forced_number};
ghost use Rattle.model.specs.Forcing.{ForcedSays};
ghost use Rattle.model.specs.Held.{problem_of};
ghost use Rattle.marks.specs.Pinning.{pins_of};

use crate::tables::Search;
use model::answers::Forced;
use model::cell::Cell;
use model::path::Side;

impl Search {
    // The mark that the pins alone force on a cell below the length; what the path adds is not looked at.
    pub fn forced(&self, cell: Cell) -> Forced
        requires { cell.time < self.now.length }
        ensures { ForcedSays (problem_of self.now.problem) self.now.length (pins_of self.now.pins) cell.time cell.step (forced_number result) }
    {
        let Some(cells) = &self.root else {
            return Forced::Contradiction;
        };
        match cells.get(cell) {
            Some(Side::Taken) => Forced::Taken,
            Some(Side::LeftOut) => Forced::LeftOut,
            None => Forced::Undecided,
        }
    }
}
