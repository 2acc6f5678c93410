// The pins in tables.
ghost use Rattle.marks.specs.Tables.{Disjoint};

use crate::cells::CellSides;

// The cells that are pinned, and the side of each.
#[derive(Drop)]
pub struct Pins {
    pub(crate) cells: CellSides,
    ghost apart: { Disjoint cells },
}
