// Reporting the outcome as a job card.
ghost use Rattle.std.specs.Prelude.{◌≡◌};
ghost use Rattle.planner.specs.declared.tables.Stage.{Stage};
ghost use Rattle.planner.specs.Calls.{Writes, Reports};
ghost use Rattle.planner.specs.Ledger.{Event.report_call};
ghost use Rattle.planner.specs.Obeys.{Obeys, reply};
ghost use Rattle.planner.specs.Cards.{Writes as WritesCard};

use crate::tables::Planner;
use model::answers::{Decline, Outcome};
use text::card::{write_card, write_none, write_not_yet};

impl Planner {
    // Writes the card into the bytes, if there is room for all of it.
    fn write(&self, outcome: Outcome, out: &mut [u8]) -> Option<usize>
        ensures card { self.now.stage ≡ Stage.Asked outcome → Writes self.now out.old result out.new }
        ensures told { self.now.stage ≡ Stage.Asked outcome → WritesCard self.now out.old result out.new }
    {
        match outcome {
            Outcome::NotYet => write_not_yet(out),
            Outcome::NoPlan => write_none(out),
            Outcome::Plan => write_card(
                self.search.taken(),
                self.search.steps(),
                self.search.length(),
                out,
            ),
        }
    }

    // Writes the card of the outcome into the caller's bytes, and answers how many it wrote.
    pub fn report(&self, out: &mut [u8]) -> Result<usize, Decline>
        ensures says { Reports self.now out.old result out.new }
        ensures obeys { Obeys self.now (report_call out.old (reply (λ n. n) result) out.new) self.now }
    {
        let outcome = self.asked()?;
        self.write(outcome, out).ok_or(Decline::TooShort)
    }
}
