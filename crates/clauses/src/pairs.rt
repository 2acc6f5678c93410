// A table of pairs of literals.
ghost use Rattle.std.specs.Prelude.{◌≡◌, length};

use sets::facts::LiteralSet;

// The row of a literal holds those that it is paired with.
#[derive(Drop)]
pub struct Pairs {
    pub(crate) rows: [LiteralSet; 128],
    ghost sized: { length rows ≡ 128 },
}
