//! The state machine of the spool: it decides a unit of events and takes all memory for it, then
//! carries it out, and it answers queries.
#![tactic(auto)]

pub mod numbers;
pub mod ready;
#[cfg(test)]
mod restart_tests;
pub mod state;
#[cfg(test)]
mod tests;
