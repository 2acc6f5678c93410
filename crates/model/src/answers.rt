// What the planner's calls answer, how that is printed, and why one is declined.
ghost use Rattle.std.specs.Prelude.{◌≡◌, Some};
ghost use Rattle.model.specs.Answers.{outcome_text, forced_text, side_text, entry_text, decline_number};

use crate::path::{Entry, Side};
use std::fmt;

// What a run says: 0 not yet, 1 a plan, 2 there is none.
#[derive(Clone, Copy, PartialEq, Eq, Debug)]
pub enum Outcome {
    NotYet,
    Plan,
    NoPlan,
}

impl fmt::Display for Outcome {
    ghost output = { λ o. Some (outcome_text o) };

    fn fmt<W: fmt::Write>(&self, f: &mut fmt::Formatter<W>) -> fmt::Result {
        f.write_str(match self {
            Outcome::NotYet => "not yet",
            Outcome::Plan => "plan",
            Outcome::NoPlan => "none",
        })
    }
}

// Why a call is declined; each has its number.
#[derive(Clone, Copy, PartialEq, Eq, Debug)]
pub enum Decline {
    // nothing was opened
    Unopened = 21,
    // nothing was asked
    Unasked = 22,
    // the length is over 32
    TooLong = 23,
    // a time, a step or a literal is out of range
    OutOfRange = 24,
    // the cell has a pin
    Pinned = 25,
    // the cell has no pin
    Unpinned = 26,
    // no choices, or over a million
    Grant = 27,
    // the bytes are too few
    TooShort = 28,
}

impl From<Decline> for u8 {
    ghost from_gives = { λ d n. n ≡ decline_number d };

    fn from(decline: Decline) -> u8 {
        decline as u8
    }
}

// What forced answers of a cell: 0 undecided, 1 taken, 2 left out, 3 the marks contradict.
#[derive(Clone, Copy, PartialEq, Eq, Debug)]
pub enum Forced {
    Undecided,
    Taken,
    LeftOut,
    Contradiction,
}

impl fmt::Display for Forced {
    ghost output = { λ a. Some (forced_text a) };

    fn fmt<W: fmt::Write>(&self, f: &mut fmt::Formatter<W>) -> fmt::Result {
        f.write_str(match self {
            Forced::Undecided => "undecided",
            Forced::Taken => "taken",
            Forced::LeftOut => "left out",
            Forced::Contradiction => "contradiction",
        })
    }
}

impl fmt::Display for Side {
    ghost output = { λ s. Some (side_text s) };

    fn fmt<W: fmt::Write>(&self, f: &mut fmt::Formatter<W>) -> fmt::Result {
        f.write_str(match self {
            Side::LeftOut => "left out",
            Side::Taken => "taken",
        })
    }
}

impl fmt::Display for Entry {
    ghost output = { λ e. Some (entry_text e) };

    fn fmt<W: fmt::Write>(&self, f: &mut fmt::Formatter<W>) -> fmt::Result {
        let Entry { cell, side } = *self;
        write!(f, "{} {} {side}", cell.time, cell.step)
    }
}
