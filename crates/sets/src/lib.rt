// Sets of facts, literals and steps, and a stack over a handed table: no code above sees a bit.
#![tactic(auto)]

pub mod facts;
pub mod stack;
pub mod steps;
#[cfg(test)]
mod tests;
mod word;
