// The path of a search: its levels, oldest first.
ghost use Rattle.std.specs.Prelude.{◌≡◌, ◌+◌, ◌-◌, ◌<◌, ◌≤◌, length, MatchOption, slice_index_or, slice_set};
ghost use Rattle.search.specs.Levels.{no_level};

use crate::level::Level;
use model::path::Side;
use sets::stack::Stack;

// The first `depth` levels of the table.
#[derive(Drop)]
pub struct Path {
    pub(crate) levels: [Level; 8192],
    pub(crate) depth: usize,
    ghost sized: { length levels ≡ 8192 },
    ghost deep: { depth ≤ 8192 },
}

impl Path {
    // No choice yet.
    pub(crate) fn empty() -> Path
        ensures { result.depth ≡ 0 }
    {
        Path {
            levels: [Level {
                place: 0,
                side: Side::LeftOut,
                trail: 0,
            }; 8192],
            depth: 0,
        }
    }

    // Takes every level off.
    pub(crate) fn clear(&mut self)
        ensures { self.new.depth ≡ 0 }
    {
        self.depth = 0;
    }

    // Puts a level on; there is room, as a path has no cell twice.
    pub(crate) fn push(&mut self, level: Level)
        requires { self.old.depth < 8192 }
        ensures levels { self.new.levels ≡ slice_set self.old.levels self.old.depth level }
        ensures depth { self.new.depth ≡ self.old.depth + 1 }
    {
        let mut path = Stack::resume(&mut self.levels, self.depth);
        let _ = path.push(level);
        self.depth = path.len();
    }

    // Takes the newest level off.
    pub(crate) fn pop(&mut self) -> Option<Level>
        ensures levels { self.new.levels ≡ self.old.levels }
        ensures depth { self.new.depth ≡ self.old.depth - 1 }
        ensures top { MatchOption result (self.old.depth ≡ 0) (λ l. (0 < self.old.depth) × (l ≡ slice_index_or self.old.levels (self.old.depth - 1) no_level)) }
    {
        let mut path = Stack::resume(&mut self.levels, self.depth);
        let newest = path.pop();
        self.depth = path.len();
        newest
    }

    // The newest level.
    pub(crate) fn last(&self) -> Option<Level>
        ensures { MatchOption result (self.now.depth ≡ 0) (λ l. (0 < self.now.depth) × (l ≡ slice_index_or self.now.levels (self.now.depth - 1) no_level)) }
    {
        self.levels[..self.depth].last().copied()
    }

    // The level at a place from the oldest, 0.
    pub(crate) fn get(&self, place: usize) -> Option<Level>
        ensures { MatchOption result (self.now.depth ≤ place) (λ l. (place < self.now.depth) × (l ≡ slice_index_or self.now.levels place no_level)) }
    {
        self.levels[..self.depth].get(place).copied()
    }
}
