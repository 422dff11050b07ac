//! The store: a ledger whose units are on a disk before they are answered.
#![tactic(auto)]

mod fold;
pub mod laws;
mod opening;
mod put;
pub mod receipt;
pub mod store;
#[cfg(test)]
mod tests;
