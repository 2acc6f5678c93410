// What awaits another look while a clause record is made.
ghost use Rattle.std.specs.Prelude.{◌≡◌, ◌≤◌, length};

use sets::facts::LiteralSet;

// The struck pairs that await another look, the newest last.
#[derive(Drop)]
pub struct Waiting {
    pub(crate) pairs: [(u8, u8); 8256],
    pub(crate) len: usize,
    // every step is to be looked at again
    pub(crate) all: bool,
    ghost fits: { len ≤ 8256 },
    ghost sized: { length pairs ≡ 8256 },
}

// What was taken up: the needs whose steps are to be looked at again, or that all are.
#[derive(Clone, Copy)]
pub struct Touched {
    pub(crate) needs: LiteralSet,
    pub(crate) all: bool,
}
