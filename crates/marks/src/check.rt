// What follows at one time from the marks on a literal and on its makers.
ghost use Rattle.std.specs.Prelude.{◌≡◌, ◌<◌, true};
ghost use Rattle.marks.specs.Grows.{Ranged, Added};
ghost use Rattle.marks.specs.Rules.{On, Concluded};

use crate::index::Index;
use crate::literal::Literal;
use crate::mark::Mark;
use crate::tables::Marks;

impl Marks {
    // Puts the mark in where `yes` says so.
    fn add_if(&mut self, yes: bool, x: Mark)
        requires { Ranged self.old x }
        ensures { Added self.old (λ y. (yes ≡ true) × (y ≡ x)) self.new }
    {
        if yes {
            self.add(x);
        }
    }

    // Works out what follows at `t` from the marks on the literal and on its makers.
    pub(crate) fn check(&mut self, ix: &Index, t: usize, l: Literal)
        requires { t < self.old.length }
        ensures { Added self.old (Concluded ix.now (On self.old) t l.number) self.new }
    {
        let f = l.opposite();
        let was_false = self.is_on(Mark::Fact(t as u8, f.number));
        let turns_true = self.is_on(Mark::Fact(t as u8 + 1, l.number));
        if !was_false && !turns_true {
            return;
        }
        let rest = ix.makers[l.number as usize].minus(self.marked.cells.left[t]);
        if rest.is_empty() {
            self.add_if(was_false, Mark::Fact(t as u8 + 1, f.number));
            self.add_if(turns_true, Mark::Fact(t as u8, l.number));
        } else if was_false && turns_true {
            if let Some(o) = rest.only() {
                self.add(Mark::Taken(t as u8, o));
            }
        }
    }
}
