// Pinning cells, and freeing them.
ghost use Rattle.std.specs.Prelude.{◌≡◌, OnErr, OnOk};
ghost use Rattle.model.specs.Plans.{unpinned};
ghost use Rattle.planner.specs.Calls.{declined, pin_declines, unpin_declines, Began, Pins};
ghost use Rattle.planner.specs.Ledger.{pin_for, Event.pin_call, Event.unpin_call};
ghost use Rattle.planner.specs.Obeys.{Obeys, reply};

use crate::tables::{Planner, Stage};
use model::answers::{Decline, Outcome};
use model::path::Side;

impl Planner {
    // Pins a cell as taken or left out.
    pub fn pin(&mut self, time: usize, step: usize, taken: bool) -> Result<(), Decline>
        ensures number { declined result ≡ pin_declines self.old time step }
        ensures kept { OnErr result (self.new ≡ self.old) }
        ensures began { OnOk result (Began self.new × Pins self.old time step (pin_for taken) self.new) }
        ensures obeys { Obeys self.old (pin_call time step taken (reply (λ u. u) result)) self.new }
    {
        let cell = self.cell(time, step)?;
        if self.search.pin_at(cell).is_some() {
            return Err(Decline::Pinned);
        }
        self.search.pin(cell, Side::from(taken));
        self.stage = Stage::Asked(Outcome::NotYet);
        Ok(())
    }

    // Frees a pinned cell.
    pub fn unpin(&mut self, time: usize, step: usize) -> Result<(), Decline>
        ensures number { declined result ≡ unpin_declines self.old time step }
        ensures kept { OnErr result (self.new ≡ self.old) }
        ensures began { OnOk result (Began self.new × Pins self.old time step unpinned self.new) }
        ensures obeys { Obeys self.old (unpin_call time step (reply (λ u. u) result)) self.new }
    {
        let freed = self.cell(time, step)?;
        if self.search.pin_at(freed).is_none() {
            return Err(Decline::Unpinned);
        }
        self.search.unpin(freed);
        self.stage = Stage::Asked(Outcome::NotYet);
        Ok(())
    }
}
