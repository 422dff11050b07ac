//! The flows that callers have bound to endpoints.
#![tactic(auto)]

pub mod activity;
pub mod flow;
pub mod flows;
#[cfg(test)]
mod tests;
