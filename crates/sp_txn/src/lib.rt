//! The sheet on which a list of changes is decided before any of them is made.
#![tactic(auto)]

pub mod note;
pub mod sheet;
mod sums;
#[cfg(test)]
mod tests;
