//! The replay log: the latest messages that fit its size, and the replays that run over it.
#![tactic(auto)]

mod entries;
pub mod entry;
pub mod laws;
pub mod log;
mod look;
pub mod replay;
pub mod replays;
#[cfg(test)]
mod tests;
