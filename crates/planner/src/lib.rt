// The planner: from a problem and a length to the first plan in a ranking, by the calls that its users make.
#![tactic(auto)]

pub mod call;
pub mod calls;
pub mod carry;
pub mod histories;
pub mod pins;
pub mod report;
pub mod tables;
