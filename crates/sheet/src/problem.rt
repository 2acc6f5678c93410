// What a sheet states: the length to ask, the facts and steps as read, the start and the goal.
ghost use Rattle.std.specs.Prelude.{◌≡◌, ◌≤◌, map, length};
ghost use Rattle.model.specs.Tables.{FactsBelow, LiteralsBelow, NoOpposites};
ghost use Rattle.sheet.specs.Records.{NeedsBelow, MakesBelow, job_step};

use crate::record::{FactRecord, StepRecord};
use sets::facts::{FactSet, LiteralSet};

// Fixed tables with a count beside, since there is no heap. The facts from `named` on and the steps from `count` on are not in use.
// With no fact named, one unnamed fact stands.
#[derive(Drop)]
pub struct SheetProblem {
    pub(crate) times: usize,
    pub(crate) facts: [FactRecord; 64],
    pub(crate) named: usize,
    pub(crate) steps: [StepRecord; 256],
    pub(crate) count: usize,
    pub(crate) start: FactSet,
    pub(crate) goal: LiteralSet,
    ghost short: { times ≤ 32 },
    ghost few_facts: { named ≤ 64 },
    ghost few_steps: { count ≤ 256 },
    ghost fact_room: { length facts ≡ 64 },
    ghost step_room: { length steps ≡ 256 },
    ghost start_in: { FactsBelow named start },
    ghost goal_in: { LiteralsBelow named goal },
    ghost goal_agrees: { NoOpposites goal },
    ghost needs_in: { NeedsBelow named (map job_step steps) },
    ghost makes_in: { MakesBelow named (map job_step steps) },
}
