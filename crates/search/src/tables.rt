// The tables of a search, all of fixed size.
ghost use Rattle.std.specs.Prelude.{◌≡◌, ◌≤◌, length as size};
ghost use Rattle.model.specs.Held.{problem_of};
ghost use Rattle.clauses.specs.Waiting.{kept_in};
ghost use Rattle.marks.specs.Pinning.{pins_of};
ghost use Rattle.search.specs.Sound.{Sound};

use crate::path::Path;
use clauses::record::ClauseRecord;
use marks::cells::CellSides;
use marks::index::Index;
use marks::pins::Pins;
use marks::tables::Marks;
use model::cell::Cell;
use model::table::ProblemTable;

// One struct: were the marks and the path apart from what is asked, each function that changes them would require and ensure `Sound`.
#[derive(Drop)]
pub struct Search {
    pub(crate) problem: ProblemTable,
    pub(crate) clauses: ClauseRecord,
    pub(crate) index: Index,
    pub(crate) length: usize,
    // by place, the cell; fixed memory, of which the length and the steps say how much is in use
    pub(crate) order: [Cell; 8192],
    pub(crate) pins: Pins,
    // the marks of the cells that the pins alone force, unless these contradict
    pub(crate) root: Option<CellSides>,
    // the marks that the pins and the path force
    pub(crate) marks: Marks,
    pub(crate) path: Path,
    // the marks of the cells of the plan that was found last
    pub(crate) plan: CellSides,
    ghost short: { length ≤ 32 },
    ghost order_sized: { size order ≡ 8192 },
    ghost sound: { ∥ Sound (problem_of problem) (kept_in clauses) index length order (pins_of pins) root marks path.levels path.depth ∥₁ },
}
