// The sides of cells in tables.
ghost use Rattle.std.specs.Prelude.{◌≡◌, length};

use sets::steps::StepSet;

// By time, the steps that are taken and those that are left out.
#[derive(Clone, Copy)]
pub struct CellSides {
    pub(crate) taken: [StepSet; 32],
    pub(crate) left: [StepSet; 32],
    ghost all_taken: { length taken ≡ 32 },
    ghost all_left: { length left ≡ 32 },
}

// The sides of the cells, and whether the marks contradict.
#[derive(Clone, Copy)]
pub struct CellMarks {
    pub(crate) sides: CellSides,
    // a flag beside the sides: after a contradiction the marks stay, until they are taken back, and whoever asks gets both
    pub(crate) conflict: bool,
}
