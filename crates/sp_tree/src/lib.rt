//! The subscriptions of all endpoints as a tree of levels, from which the endpoints that take a topic
//! are found.
#![tactic(auto)]

mod children;
mod ending;
mod node;
#[cfg(test)]
mod tests;
pub mod tree;
