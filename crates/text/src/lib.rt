// Text written into a caller's bytes, exactly, and the job card.
#![tactic(auto)]

pub mod card;
pub mod write;
