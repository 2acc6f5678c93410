// A level of the search: one choice of the path.
use model::path::Side;

// The place of the chosen cell in the order, the side it went, and how many marks there were before it.
#[derive(Clone, Copy)]
pub struct Level {
    pub(crate) place: u16,
    pub(crate) side: Side,
    pub(crate) trail: u16,
}
