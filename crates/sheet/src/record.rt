// The records that a sheet fills: one for each fact, one for each step.
ghost use Rattle.std.specs.Prelude.{◌≡◌};
ghost use Rattle.model.specs.Tables.{NoOpposites};

use crate::name::Name;
use sets::facts::LiteralSet;

#[derive(Clone, Copy)]
pub struct FactRecord {
    pub name: Name,
}

#[derive(Clone, Copy)]
pub struct StepRecord {
    pub name: Name,
    pub(crate) needs: LiteralSet,
    pub(crate) makes: LiteralSet,
    ghost needs_agree: { NoOpposites needs },
    ghost makes_agree: { NoOpposites makes },
}
