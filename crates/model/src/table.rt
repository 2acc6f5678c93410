// A problem in plain tables of fixed size, within the limits.
ghost use Rattle.std.specs.Prelude.{◌≡◌, ◌≤◌, length};
ghost use Rattle.model.specs.Tables.{FactsBelow, LiteralsBelow, NoOpposites, NeedsBelow, MakesBelow, NeedsAgree, MakesAgree};

use crate::step::Step;
use sets::facts::{FactSet, LiteralSet};

#[derive(Drop)]
pub struct ProblemTable {
    pub(crate) facts: usize,
    // fixed memory: of the steps' places, the first `count` are the problem's
    pub(crate) count: usize,
    pub(crate) steps: [Step; 256],
    pub(crate) start: FactSet,
    pub(crate) goal: LiteralSet,
    ghost some: { 1 ≤ facts },
    ghost few_facts: { facts ≤ 64 },
    ghost few_steps: { count ≤ 256 },
    ghost sized: { length steps ≡ 256 },
    ghost start_in: { FactsBelow facts start },
    ghost goal_in: { LiteralsBelow facts goal },
    ghost goal_agrees: { NoOpposites goal },
    ghost needs_in: { NeedsBelow facts count steps },
    ghost makes_in: { MakesBelow facts count steps },
    ghost needs_agree: { NeedsAgree count steps },
    ghost makes_agree: { MakesAgree count steps },
}
