// The path of a search: which cells were chosen so far, oldest first, and which way.
ghost use Rattle.std.specs.Prelude.{◌≡◌};
ghost use Rattle.model.specs.Paths.{takes};

use crate::cell::Cell;

// Which way a choice went.
#[derive(Clone, Copy, PartialEq, Eq, Debug)]
pub enum Side {
    LeftOut,
    Taken,
}

// The side of a choice that takes its cell, or does not.
impl From<bool> for Side {
    ghost from_gives = { λ taken side. takes side ≡ taken };

    fn from(taken: bool) -> Side {
        if taken { Side::Taken } else { Side::LeftOut }
    }
}

// One choice of the path.
#[derive(Clone, Copy)]
pub struct Entry {
    pub cell: Cell,
    pub side: Side,
}
