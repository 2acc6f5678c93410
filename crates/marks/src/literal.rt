// A literal by its number.
ghost use Rattle.std.specs.Prelude.{◌≡◌, ◌<◌};
ghost use Rattle.marks.specs.Tables.{opp_lit};

use crate::mark::opposite_literal;

// Literal 2f is fact f true, 2f + 1 fact f false.
#[derive(Clone, Copy)]
pub(crate) struct Literal {
    pub(crate) number: u8,
    ghost small: { number < 128 },
}

impl Literal {
    pub(crate) fn opposite(self) -> Literal
        ensures { result.number ≡ opp_lit self.number }
    {
        Literal {
            number: opposite_literal(self.number),
        }
    }
}
