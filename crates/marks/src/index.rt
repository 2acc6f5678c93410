// The index: what the rules look up.
ghost use Rattle.marks.specs.Tables.{Transposed};

use sets::facts::LiteralSet;
use sets::steps::StepSet;

// By step its needs, makes and rivals; by literal its makers, its needers and the literals that share a clause with it.
// A table each, not records: transposing and seeking rivals read some tables whole while another is written.
#[derive(Drop)]
pub struct Index {
    pub(crate) needs: [LiteralSet; 256],
    pub(crate) makes: [LiteralSet; 256],
    pub(crate) rivals: [StepSet; 256],
    pub(crate) makers: [StepSet; 128],
    pub(crate) needers: [StepSet; 128],
    pub(crate) clauses: [LiteralSet; 128],
    pub(crate) start: LiteralSet,
    pub(crate) goal: LiteralSet,
    pub(crate) closed: StepSet,
    ghost makers_are: { Transposed makes makers },
}
