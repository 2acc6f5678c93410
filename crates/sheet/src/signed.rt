// A fact that a line names: its number, its sign, and where the line names it.
ghost use Rattle.std.specs.Prelude.{◌≡◌, ◌<◌};
ghost use Rattle.sheet.specs.Job.{mentions, literal};
ghost use Rattle.sheet.specs.Joins.{With, Joins};

use crate::fault::{Place, SheetFault};
use sets::facts::LiteralSet;

#[derive(Clone, Copy)]
pub(crate) struct SignedFact {
    pub(crate) fact: usize,
    pub(crate) negative: bool,
    pub(crate) field: Place,
    ghost within: { fact < 64 },
}

impl SignedFact {
    // Whether the fact stands in the list, with either sign.
    fn stands_in(self, list: LiteralSet) -> bool
        ensures { result ≡ mentions list self.fact }
    {
        list.contains(2 * self.fact) || list.contains(2 * self.fact + 1)
    }

    // The list with the fact in it, with its sign.
    fn added_to(self, list: LiteralSet) -> LiteralSet
        ensures { With list (literal self.negative self.fact) result }
    {
        if self.negative {
            list.insert(2 * self.fact + 1)
        } else {
            list.insert(2 * self.fact)
        }
    }

    // Adds its literal to a list, unless its fact stands there with either sign.
    pub(crate) fn join(self, list: &mut LiteralSet) -> Result<(), SheetFault>
        ensures { Joins list.old self.fact self.negative self.field result list.new }
    {
        if self.stands_in(*list) {
            return Err(SheetFault::Repeated(self.field));
        }
        *list = self.added_to(*list);
        Ok(())
    }
}
