// The search of one problem for the first plan in an order: its tables, its path, and one choice after another.
#![tactic(auto)]

pub mod begin;
pub mod choose;
pub mod forced;
pub mod fresh;
pub mod level;
pub mod look;
pub mod path;
pub mod run;
pub mod tables;
pub mod tells;
