//! The patterns of LIKE: how a text spells one, and which texts match it.
#![tactic(auto)]

pub mod item;
pub mod like;
pub mod pattern;
#[cfg(test)]
mod tests;
