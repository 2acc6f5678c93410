// One choice after another, until the first plan is found, or there is none, or the grant is used up.
ghost use Rattle.std.specs.Prelude.{◌≡◌, ℕ, ◌<◌, ◌≤◌, []};
ghost use Rattle.model.specs.Firsts.{NoneAgrees};
ghost use Rattle.search.specs.Looks.{asked, path_of, Wanted, Turned, Advanced, Ran};

use crate::look::Look;
use crate::tables::Search;
use model::answers::Outcome;
use model::path::Side;

impl Search {
    // Takes choices back until one that was left out is turned to taken; false where there is none.
    fn turn(&mut self) -> bool
        requires { NoneAgrees (Wanted (asked self.old)) (path_of self.old) }
        ensures same { asked self.new ≡ asked self.old }
        ensures turned { Turned self.old result self.new }
    {
        while let Some(level) = self.undo() {
            if level.side == Side::LeftOut {
                self.choose(level.place, Side::Taken);
                return true;
            }
        }
        false
    }

    // Takes every choice back.
    fn rewind(&mut self)
        ensures same { asked self.new ≡ asked self.old }
        ensures empty { path_of self.new ≡ [] }
        ensures plan { self.new.plan ≡ self.old.plan }
    {
        while let Some(_) = self.undo() {}
    }

    // One choice more, or how the search ended.
    fn advance(&mut self) -> Outcome
        ensures same { asked self.new ≡ asked self.old }
        ensures advanced { Advanced self.old result self.new }
    {
        match self.look() {
            Look::Contradiction => {
                if self.turn() {
                    Outcome::NotYet
                } else {
                    Outcome::NoPlan
                }
            }
            Look::Whole => Outcome::Plan,
            Look::Undecided(place) => {
                self.choose(place, Side::LeftOut);
                Outcome::NotYet
            }
        }
    }

    // Keeps the plan that the marks spell, and empties the path.
    fn finish(&mut self)
        ensures same { asked self.new ≡ asked self.old }
        ensures empty { path_of self.new ≡ [] }
        ensures plan { self.new.plan ≡ self.old.marks.marked.cells }
    {
        self.plan = *self.marks.cells().sides();
        self.rewind();
    }

    // At most `grant` choices; after an ending the path is empty.
    pub fn run(&mut self, grant: u32) -> Outcome
        ensures same { asked self.new ≡ asked self.old }
        ensures ran { Ran self.old grant result self.new }
    {
        for done in 0..grant {
            match self.advance() {
                Outcome::NotYet => {}
                Outcome::Plan => {
                    self.finish();
                    return Outcome::Plan;
                }
                Outcome::NoPlan => {
                    return Outcome::NoPlan;
                }
            }
        }
        Outcome::NotYet
    }
}
