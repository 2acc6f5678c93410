// The clause record: the pairs of literals of which at least one holds in every state that a problem's steps can bring about.
#![tactic(auto)]

pub mod asking;
mod making;
mod noting;
pub mod number;
pub mod pairs;
pub mod record;
mod rows;
mod striking;
pub mod waiting;
