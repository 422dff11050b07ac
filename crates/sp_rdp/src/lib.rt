//! Delivery points: a copy is posted to a REST consumer, and its response settles the copy.
#![tactic(auto)]

pub mod outcome;
pub mod post;
pub mod response;
#[cfg(test)]
mod tests;
