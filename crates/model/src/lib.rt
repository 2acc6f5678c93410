// The words of planning: problems and what they mean, plans, rankings, marks, clauses and paths, and the theorems about them.
#![tactic(auto)]

pub mod answers;
pub mod cell;
pub mod holds;
pub mod order;
pub mod path;
pub mod ranking;
pub mod source;
pub mod step;
pub mod table;
pub mod theorems;
