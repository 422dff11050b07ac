//! The journal: units on a disk, each behind a gate of its own.
#![tactic(auto)]

mod birth;
mod body;
mod device;
#[cfg(test)]
mod fault_tests;
mod gates;
pub mod journal;
pub mod laws;
mod survey;
#[cfg(test)]
mod tests;
