// Making a choice, and taking the newest one back.
ghost use Rattle.std.specs.Prelude.{◌≡◌, ℕ, ◌+◌, [], ◌∷◌, ◌++◌, MatchOption};
ghost use Rattle.search.specs.Levels.{cell_at};
ghost use Rattle.search.specs.Looks.{asked, path_of, Fits, Undone};

use crate::level::Level;
use crate::tables::Search;
use model::path::Side;

impl Search {
    // Puts a choice on the path, and its mark with all that follows.
    pub(crate) fn choose(&mut self, place: u16, side: Side)
        requires { Fits self.old place side }
        ensures same { asked self.new ≡ asked self.old }
        ensures more { path_of self.new ≡ path_of self.old ++ (record { cell = cell_at self.old.order place; side = side } ∷ []) }
    {
        let trail = self.marks.count() as u16;
        let cell = self.order[place as usize];
        self.path.push(Level { place, side, trail });
        self.marks.decide(&self.index, cell, side);
    }

    // Takes the newest choice back, with all that followed from it.
    pub(crate) fn undo(&mut self) -> Option<Level>
        ensures same { asked self.new ≡ asked self.old }
        ensures plan { self.new.plan ≡ self.old.plan }
        ensures less { Undone self.old result self.new }
        ensures fewer { MatchOption result (self.old.path.depth ≡ 0) (λ _. self.new.path.depth + 1 ≡ self.old.path.depth) }
    {
        let level = self.path.pop()?;
        self.marks.retreat(level.trail as usize);
        Some(level)
    }
}
