// Marks of many steps or literals at one time.
ghost use Rattle.std.specs.Prelude.{◌≡◌, ℕ, ◌<◌, ◌≤◌};
ghost use Rattle.marks.specs.Grows.{Added};
ghost use Rattle.marks.specs.Rules.{LeavesOut, Holds, Takes};

use crate::mark::Mark;
use crate::tables::Marks;
use sets::facts::LiteralSet;
use sets::steps::StepSet;

impl Marks {
    fn leave_each(&mut self, t: usize, set: StepSet)
        requires { t < self.old.length }
        ensures { Added self.old (LeavesOut set t) self.new }
    {
        let mut from = 0;
        while let Some(o) = set.next_from(from) {
            self.add(Mark::LeftOut(t as u8, o as u8));
            from = o + 1;
        }
    }

    fn hold_each(&mut self, t: usize, set: LiteralSet)
        requires { t ≤ self.old.length }
        ensures { Added self.old (Holds set t) self.new }
    {
        let mut from = 0;
        while let Some(l) = set.next_from(from) {
            self.add(Mark::Fact(t as u8, l as u8));
            from = l + 1;
        }
    }

    // Leaves out at `t` every step of the set; those left out already are passed over.
    pub(crate) fn leave_all(&mut self, t: usize, set: StepSet)
        requires { t < self.old.length }
        ensures { Added self.old (LeavesOut set t) self.new }
    {
        let fresh = set.minus(self.marked.cells.left[t]);
        self.leave_each(t, fresh);
    }

    // Marks true at `t` every literal of the set; those marked already are passed over.
    pub(crate) fn hold_all(&mut self, t: usize, set: LiteralSet)
        requires { t ≤ self.old.length }
        ensures { Added self.old (Holds set t) self.new }
    {
        let fresh = set.minus(self.marked.facts[t]);
        self.hold_each(t, fresh);
    }

    // Takes at `t` every step of the set.
    pub(crate) fn take_all(&mut self, t: usize, set: StepSet)
        requires { t < self.old.length }
        ensures { Added self.old (Takes set t) self.new }
    {
        let mut from = 0;
        while let Some(o) = set.next_from(from) {
            self.add(Mark::Taken(t as u8, o as u8));
            from = o + 1;
        }
    }
}
