// A call as a value, and what it answers.
use model::answers::{Forced, Outcome};
use model::path::Entry;

// One of the eight calls. What open copies, what ask orders by and what a report writes into goes along with it.
#[derive(Clone, Copy)]
pub enum Call {
    Open,
    Ask {
        length: usize,
    },
    Pin {
        time: usize,
        step: usize,
        taken: bool,
    },
    Unpin {
        time: usize,
        step: usize,
    },
    Run(u32),
    Forced {
        time: usize,
        step: usize,
    },
    Path(usize),
    Report,
}

// What a call answers that is not declined: that it was done, or what it was asked for.
#[derive(Clone, Copy)]
pub enum Answer {
    Done,
    Ran(Outcome),
    Forced(Forced),
    Entry(Option<Entry>),
    Wrote(usize),
}
