//! Sources and sinks: in memory, with the calls of them that fail, steady ones, and over the
//! streams of the operating system.
#![tactic(auto)]

pub mod memory;
pub mod real;
pub mod steady;
#[cfg(test)]
mod tests;
