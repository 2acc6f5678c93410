// A cell of a plan: a time and a step.
#[derive(Clone, Copy, PartialEq, Eq, Debug)]
pub struct Cell {
    pub time: u8,
    pub step: u8,
}
