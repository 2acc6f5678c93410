// Beginning a search: its problem, its length and order, its pins.
ghost use Rattle.std.specs.Prelude.{◌<◌, ◌≤◌};
ghost use Rattle.model.specs.Problems.{steps as row_count};
ghost use Rattle.model.specs.Plans.{unpinned};
ghost use Rattle.model.specs.Held.{problem_of};
ghost use Rattle.marks.specs.Pinning.{pins_of, pin_of};
ghost use Rattle.marks.specs.Deciding.{Begun};
ghost use Rattle.marks.specs.Cells.{CellsOf};
ghost use Rattle.search.specs.Begins.{Opened, Asked, Repinned};

use crate::tables::Search;
use marks::cells::CellSides;
use marks::index::Index;
use marks::pins::Pins;
use marks::tables::Marks;
use model::cell::Cell;
use model::order::copy_order;
use model::path::Side;
use model::ranking::Ranking;
use model::source::ProblemSource;
use model::table::ProblemTable;

// Works the marks out from the pins alone, and answers those of the cells, unless they contradict.
// Not a method of Search, whose tables fit together again only once the path is empty, too.
pub(crate) fn work_out(
    marks: &mut Marks,
    index: &Index,
    pins: &Pins,
    length: usize,
) -> Option<CellSides>
    requires { length ≤ 32 }
    ensures begun { Begun index.now (pins_of pins.now) length marks.new }
    ensures cells { CellsOf marks.new result }
{
    marks.begin(index, pins, length);
    marks.calm_cells()
}

impl Search {
    // Takes up the problem of a source, at length 0 and with no pins.
    pub fn open<S: ProblemSource>(&mut self, source: &S)
        ensures { Opened (S.meaning source.now) self.new }
    {
        self.problem = ProblemTable::of(source);
        self.clauses.make(&self.problem);
        let rows = self.clauses.rows();
        self.index.build(&self.problem, &rows);
        self.length = 0;
        self.pins = Pins::none();
        self.root = work_out(&mut self.marks, &self.index, &self.pins, 0);
        self.path.clear();
    }

    // Takes up a length, with the ranking's order of the cells, and with no pins.
    pub fn ask<R: Ranking>(&mut self, length: usize, ranking: &R)
        requires { length ≤ 32 }
        ensures { Asked self.old length (R.order ranking.now) self.new }
    {
        // never refused: the table holds the longest order
        let _ = copy_order(ranking, length, self.problem.steps(), &mut self.order);
        self.length = length;
        self.pins = Pins::none();
        self.root = work_out(&mut self.marks, &self.index, &self.pins, length);
        self.path.clear();
    }

    // Pins a cell in range, whatever it was pinned to.
    pub fn pin(&mut self, cell: Cell, side: Side)
        requires { (cell.time < self.old.length) × (cell.step < row_count (problem_of self.old.problem)) }
        ensures { Repinned self.old cell (pin_of side) self.new }
    {
        self.pins.set(cell, side);
        self.root = work_out(&mut self.marks, &self.index, &self.pins, self.length);
        self.path.clear();
    }

    // Frees a cell.
    pub fn unpin(&mut self, cell: Cell)
        ensures { Repinned self.old cell unpinned self.new }
    {
        self.pins.clear(cell);
        self.root = work_out(&mut self.marks, &self.index, &self.pins, self.length);
        self.path.clear();
    }
}
