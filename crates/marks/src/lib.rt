// Marks: what a problem, its pins and its clauses force of each fact and cell, worked out and taken back.
#![tactic(auto)]

pub mod begin;
pub mod build;
pub mod cells;
pub mod check;
pub mod decide;
pub mod index;
pub mod kept;
mod literal;
pub mod mark;
pub mod marked;
pub mod pinned;
pub mod pins;
pub mod process;
pub mod put;
pub mod sets_of;
pub mod sides;
pub mod tables;
pub mod theorems;
pub mod undo;
