// What a search tells of itself: what is asked, the pins, the path, and the plan that was found last.
ghost use Rattle.std.specs.Prelude.{◌≡◌, ℕ, ◌<◌, ◌≤◌, length as size, MatchOption, slice_index_or};
ghost use Rattle.model.specs.Problems.{steps as row_count};
ghost use Rattle.model.specs.Plans.{unpinned};
ghost use Rattle.model.specs.Held.{problem_of};
ghost use Rattle.marks.specs.Pinning.{pins_of, pin_of};
ghost use Rattle.search.specs.Looks.{path_of, no_entry};

use crate::tables::Search;
use model::cell::Cell;
use model::path::{Entry, Side};
use model::source::ProblemSource;
use sets::steps::StepSet;

impl Search {
    // The length that is asked.
    pub fn length(&self) -> usize
        ensures value { result ≡ self.now.length }
        ensures short { result ≤ 32 }
    {
        self.length
    }

    // How many steps the problem has.
    pub fn steps(&self) -> usize
        ensures value { result ≡ row_count (problem_of self.now.problem) }
        ensures few { result ≤ 256 }
    {
        self.problem.steps()
    }

    // What the cell is pinned to, if anything.
    pub fn pin_at(&self, cell: Cell) -> Option<Side>
        ensures { MatchOption result (pins_of self.now.pins cell.time cell.step ≡ unpinned)
            (λ s. pins_of self.now.pins cell.time cell.step ≡ pin_of s) }
    {
        self.pins.get(cell)
    }

    // The entry of the path at a place from 0, if there is one.
    pub fn entry(&self, place: usize) -> Option<Entry>
        ensures { MatchOption result (size (path_of self.now) ≤ place)
            (λ e. (place < size (path_of self.now)) × (e ≡ slice_index_or (path_of self.now) place no_entry)) }
    {
        let level = self.path.get(place)?;
        let cell = self.order[level.place as usize];
        Some(Entry {
            cell,
            side: level.side,
        })
    }

    // By time, the steps that the plan found last takes.
    pub fn taken(&self) -> &[StepSet; 32]
        ensures { result.now ≡ self.now.plan.taken }
    {
        self.plan.taken()
    }
}
