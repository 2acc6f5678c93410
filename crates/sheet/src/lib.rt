// The sheet reader: from the bytes of a job sheet to a problem source, or to the first fault and its place.
#![tactic(auto)]

pub mod adds;
pub mod class;
pub mod cut;
pub mod entry;
pub mod fault;
pub mod fault_line;
pub mod field;
pub mod kind;
pub mod line;
pub mod name;
pub mod problem;
pub mod reader;
pub mod record;
pub(crate) mod signed;
pub mod source;
