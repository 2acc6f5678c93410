// The planner's state: the search, and how far the calls have come.
ghost use Rattle.planner.specs.Endings.{Ends};

use model::answers::Outcome;
use search::tables::Search;

// What was called so far: nothing, an open, or an ask after it, with how the last run ended.
#[derive(Clone, Copy)]
pub enum Stage {
    New,
    Opened,
    Asked(Outcome),
}

#[derive(Drop)]
pub struct Planner {
    pub(crate) stage: Stage,
    pub(crate) search: Search,
    ghost ended: { ∥ Ends search stage ∥₁ },
}
