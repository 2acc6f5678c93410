// The search that a planner starts with.
ghost use Rattle.model.specs.Problems.{empty_problem};
ghost use Rattle.search.specs.Begins.{Opened};

use crate::begin::work_out;
use crate::path::Path;
use crate::tables::Search;
use clauses::record::ClauseRecord;
use marks::cells::CellSides;
use marks::index::Index;
use marks::pins::Pins;
use marks::tables::Marks;
use model::cell::Cell;
use model::table::ProblemTable;

impl Search {
    // The search of the empty problem, at length 0 and with no pins.
    pub fn new() -> Search
        ensures { Opened empty_problem result }
    {
        let problem = ProblemTable::empty();
        let mut clauses = ClauseRecord::empty();
        clauses.make(&problem);
        let mut index = Index::empty();
        index.build(&problem, &clauses.rows());
        let pins = Pins::none();
        let mut marks = Marks::new();
        let root = work_out(&mut marks, &index, &pins, 0);
        Search {
            problem,
            clauses,
            index,
            length: 0,
            order: [Cell { time: 0, step: 0 }; 8192],
            pins,
            root,
            marks,
            path: Path::empty(),
            plan: CellSides::none(),
        }
    }
}
