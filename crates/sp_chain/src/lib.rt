//! Containers for many values that take memory only where room is reserved, and in which no step walks
//! over the other values or shifts them.
#![tactic(auto)]

pub mod chains;
pub mod deadline;
pub mod deadlines;
mod links;
pub mod node;
pub mod numbers;
#[cfg(test)]
mod tests;
mod tournament;
