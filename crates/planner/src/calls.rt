// The calls that change a planner, and those that look at it.
ghost use Rattle.std.specs.Prelude.{◌≡◌, ◌<◌, ◌≤◌, length as size, IfOk, None, MatchOption, OnErr, OnOk, slice_index_or};
ghost use Rattle.model.specs.Problems.{steps as row_count};
ghost use Rattle.model.specs.Held.{problem_of};
ghost use Rattle.search.specs.Begins.{Opened as OpenedOver, Asked as AskedFor};
ghost use Rattle.search.specs.Looks.{asked as asked_of, path_of, no_entry};
ghost use Rattle.planner.specs.Calls.{declined, unless_asked, unless_out, ask_declines, run_declines, look_declines, unopened, unasked, Began, RunSays};
ghost use Rattle.model.specs.Answers.{outcome_number, forced_number};
ghost use Rattle.planner.specs.Ledger.{Event.open_call, Event.ask_call, Event.run_call, Event.forced_call, Event.path_call};
ghost use Rattle.planner.specs.Obeys.{Obeys, Fresh, reply};
ghost use Rattle.planner.specs.Checks.{Checked, InRange, open_rows, ask_rows, cell_rows};

use crate::tables::{Planner, Stage};
use model::answers::{Decline, Forced, Outcome};
use model::cell::Cell;
use model::path::Entry;
use model::ranking::Ranking;
use model::source::ProblemSource;
use search::tables::Search;

// The most choices that a run may be granted.
const MOST_CHOICES: u32 = 1000000;

// Each call that may be declined says `kept` itself: it relates the planner before and after the call, which no type's invariant states.
impl Planner {
    // A planner that nothing was opened in.
    pub fn new() -> Planner
        ensures stage { result.stage ≡ Stage.New }
        ensures fresh { Fresh result }
    {
        Planner {
            stage: Stage::New,
            search: Search::new(),
        }
    }

    // How many bytes a planner has: at most half of the box's 512 KiB.
    pub fn bytes() -> usize
        ensures { result ≤ 262144 }
    {
        std::mem::size_of::<Planner>()
    }

    // Copies a source's problem, and forgets any ask.
    pub fn open<S: ProblemSource>(&mut self, source: &S)
        ensures stage { self.new.stage ≡ Stage.Opened }
        ensures opened { OpenedOver (S.meaning source.now) self.new.search }
        ensures obeys { Obeys self.old (open_call (S.meaning source.now)) self.new }
    {
        self.search.open(source);
        self.stage = Stage::Opened;
    }

    // Declines where nothing was opened.
    fn opened(&self) -> Result<(), Decline>
        ensures number { declined result ≡ ask_declines self.now 0 }
        ensures checked { Checked (open_rows self.now) (λ _. Unit {0}) result }
    {
        match self.stage {
            Stage::New => Err(Decline::Unopened),
            Stage::Opened | Stage::Asked(_) => Ok(()),
        }
    }

    // How the last run ended; declines where nothing was opened, or nothing asked.
    pub(crate) fn asked(&self) -> Result<Outcome, Decline>
        ensures number { declined result ≡ look_declines self.now }
        ensures checked { Checked (ask_rows self.now) (λ o. self.now.stage ≡ Stage.Asked o) result }
    {
        match self.stage {
            Stage::New => Err(Decline::Unopened),
            Stage::Opened => Err(Decline::Unasked),
            Stage::Asked(last) => Ok(last),
        }
    }

    // Takes up a length and the ranking's order of the cells, with no pins.
    pub fn ask<R: Ranking>(&mut self, length: usize, ranking: &R) -> Result<(), Decline>
        ensures number { declined result ≡ ask_declines self.old length }
        ensures kept { OnErr result (self.new ≡ self.old) }
        ensures began { OnOk result (Began self.new × AskedFor self.old.search length (R.order ranking.now) self.new.search) }
        ensures obeys { Obeys self.old (ask_call length (R.order ranking.now) (reply (λ u. u) result)) self.new }
    {
        self.opened()?;
        if length > 32 {
            return Err(Decline::TooLong);
        }
        self.search.ask(length, ranking);
        self.stage = Stage::Asked(Outcome::NotYet);
        Ok(())
    }

    // The cell of a time and a step in range.
    pub(crate) fn cell(&self, time: usize, step: usize) -> Result<Cell, Decline>
        ensures number { declined result ≡ unless_asked self.now (unless_out self.now time step None) }
        ensures cell { IfOk result (λ c. (c.time ≡ time) × (c.step ≡ step) × (time < self.now.search.length) × (step < row_count (problem_of self.now.search.problem))) }
        ensures checked { Checked (cell_rows self.now time step) (InRange self.now time step) result }
    {
        self.asked()?;
        if time >= self.search.length() || step >= self.search.steps() {
            return Err(Decline::OutOfRange);
        }
        Ok(Cell {
            time: time as u8,
            step: step as u8,
        })
    }

    // Up to so many choices: a plan, none, or not yet. After an ending it answers the same again.
    pub fn run(&mut self, choices: u32) -> Result<Outcome, Decline>
        ensures number { declined result ≡ run_declines self.old choices }
        ensures kept { OnErr result (self.new ≡ self.old) }
        ensures says { IfOk result (λ o. RunSays self.old choices o self.new) }
        ensures after { IfOk result (λ o. self.new.stage ≡ Stage.Asked o) }
        ensures same { (asked_of self.new.search ≡ asked_of self.old.search) × (unopened self.new.stage ≡ unopened self.old.stage) × (unasked self.new.stage ≡ unasked self.old.stage) }
        ensures obeys { Obeys self.old (run_call choices (reply outcome_number result)) self.new }
    {
        let last = self.asked()?;
        if choices == 0 || choices > MOST_CHOICES {
            return Err(Decline::Grant);
        }
        match last {
            Outcome::NotYet => {}
            ended => return Ok(ended),
        }
        let outcome = self.search.run(choices);
        self.stage = Stage::Asked(outcome);
        Ok(outcome)
    }

    // What the pins force of a cell.
    pub fn forced(&self, time: usize, step: usize) -> Result<Forced, Decline>
        ensures { Obeys self.now (forced_call time step (reply forced_number result)) self.now }
    {
        let cell = self.cell(time, step)?;
        Ok(self.search.forced(cell))
    }

    // The entry of the path at a place from 0, if there is one.
    pub fn path(&self, place: usize) -> Result<Option<Entry>, Decline>
        ensures number { declined result ≡ look_declines self.now }
        ensures entry { IfOk result (λ x. MatchOption x (size (path_of self.now.search) ≤ place)
            (λ e. (place < size (path_of self.now.search)) × (e ≡ slice_index_or (path_of self.now.search) place no_entry))) }
        ensures obeys { Obeys self.now (path_call place (reply (λ x. x) result)) self.now }
    {
        self.asked()?;
        Ok(self.search.entry(place))
    }
}
