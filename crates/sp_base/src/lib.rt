//! What every other crate of the spool stands on: names, topics, numbers, moments, refusals, texts
//! and lists that contracts see as what they hold, and what a run reads from and writes to.
#![tactic(auto)]

pub mod bytes;
pub mod choice;
pub mod declined;
pub mod failure;
pub mod io;
pub mod items;
pub mod moment;
pub mod name;
pub mod number;
pub mod refusal;
pub mod rows;
#[cfg(test)]
mod tests;
pub mod text;
pub mod topic;
