// A mark, its opposite, and the mark that a choice puts on a cell.
ghost use Rattle.std.specs.Prelude.{◌≡◌};
ghost use Rattle.marks.specs.Tables.{opp, opp_lit};
ghost use Rattle.marks.specs.Deciding.{mark_of};

use model::cell::Cell;
use model::path::Side;
use sets::facts::flip;

// A literal true at a time, or a cell taken or left out. Literal 2f is fact f true, 2f + 1 fact f false.
// Three cases, not a cell with its side: the rules speak of taken and of left out cells apart.
#[derive(Clone, Copy, PartialEq, Eq, Debug)]
pub enum Mark {
    Fact(u8, u8),
    Taken(u8, u8),
    LeftOut(u8, u8),
}

impl Mark {
    // The mark that a choice puts on a cell.
    pub fn choice(cell: Cell, side: Side) -> Mark
        ensures { result ≡ mark_of side cell }
    {
        match side {
            Side::Taken => Mark::Taken(cell.time, cell.step),
            Side::LeftOut => Mark::LeftOut(cell.time, cell.step),
        }
    }

    // The mark that contradicts it.
    pub fn opposite(self) -> Mark
        ensures { result ≡ opp self }
    {
        match self {
            Mark::Fact(t, l) => Mark::Fact(t, opposite_literal(l)),
            Mark::Taken(t, o) => Mark::LeftOut(t, o),
            Mark::LeftOut(t, o) => Mark::Taken(t, o),
        }
    }
}

// The number of the opposite literal.
pub fn opposite_literal(l: u8) -> u8
    ensures { result ≡ opp_lit l }
{
    flip(l as usize) as u8
}
