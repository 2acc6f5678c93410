// What the marks show of the plans that agree with the path.
ghost use Rattle.std.specs.Prelude.{◌≡◌, ℕ, ◌*◌, ◌<◌, ◌≤◌, true, false, MatchBool};
ghost use Rattle.model.specs.Problems.{steps};
ghost use Rattle.model.specs.Held.{problem_of};
ghost use Rattle.marks.specs.Deciding.{Undecided};
ghost use Rattle.search.specs.Levels.{cell_at, told, Lower};
ghost use Rattle.search.specs.Looks.{asked, cells, Seen, Opens};

use crate::tables::Search;
use model::source::ProblemSource;

// No plan agrees with the path, or just one does, or the cell at this place is to be chosen next.
#[derive(Clone, Copy)]
pub enum Look {
    Contradiction,
    Whole,
    Undecided(u16),
}

impl Search {
    // How many cells there are.
    pub fn cell_count(&self) -> usize
        ensures value { result ≡ cells (asked self.now) }
        ensures bound { result ≤ 8192 }
    {
        self.length * self.problem.steps()
    }

    // Whether the cell at a place has no mark.
    fn is_open(&self, place: usize) -> bool
        requires { place < 8192 }
        ensures { MatchBool result (Undecided self.now.marks (cell_at self.now.order place)) (told self.now.marks (cell_at self.now.order place) ≡ true) }
    {
        self.marks.decided(self.order[place]).is_none()
    }

    // The lowest place from `from` on whose cell has no mark.
    fn next_open(&self, from: usize) -> Option<usize>
        ensures { Opens self.now.marks self.now.order (cells (asked self.now)) from result }
    {
        let count = self.cell_count();
        (from..count).find(|place| self.is_open(*place))
    }

    // The place behind that of the newest choice: every lower cell has a mark.
    fn beyond(&self) -> usize
        ensures { self.now.marks.conflict ≡ false → Lower self.now.marks self.now.order result }
    {
        match self.path.last() {
            Some(level) => level.place as usize + 1,
            None => 0,
        }
    }

    // Looks at the marks.
    pub(crate) fn look(&self) -> Look
        ensures { Seen self.now result }
    {
        if self.marks.contradicts() {
            return Look::Contradiction;
        }
        let from = self.beyond();
        match self.next_open(from) {
            Some(place) => Look::Undecided(place as u16),
            None => Look::Whole,
        }
    }
}
