//! How a copy ends: the questions that are asked of it, and of the queue that takes dead messages.
#![tactic(auto)]

pub mod questions;
#[cfg(test)]
mod tests;
