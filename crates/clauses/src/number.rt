// A literal by its number.
ghost use Rattle.std.specs.Prelude.{◌<◌};

#[derive(Clone, Copy)]
pub struct LiteralNumber {
    pub(crate) number: u8,
    ghost small: { number < 128 },
}
