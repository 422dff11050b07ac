//! The endpoints that are there, and which of them take a message.
#![tactic(auto)]

pub mod endpoint;
pub mod endpoints;
mod index;
mod renewal;
mod takers;
#[cfg(test)]
mod tests;
