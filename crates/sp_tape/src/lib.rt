//! Tapes of requests: their grammar, and a run that answers one entry by entry.
#![tactic(auto)]

mod body;
pub mod check;
#[cfg(test)]
mod disk_tests;
#[cfg(test)]
mod ending_tests;
pub mod entry;
#[cfg(test)]
mod flow_tests;
mod head;
pub mod laws;
mod numeral;
pub mod parse;
pub mod reader;
pub mod reopen;
pub mod run_tape;
#[cfg(test)]
mod selector_tests;
#[cfg(test)]
mod sharing_tests;
pub mod status;
#[cfg(test)]
mod tests;
#[cfg(test)]
mod topic_tests;
pub mod turn;
pub mod words;
