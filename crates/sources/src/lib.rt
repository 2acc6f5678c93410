// Rankings and problem sources, each lawful: two orders of the cells, the water line, and the filter by what can be reached.
#![tactic(auto)]

pub mod by_step;
pub mod filter;
pub mod forward;
mod limits;
mod reach;
pub mod water;
