//! Subscriptions to topics: which topics a subscription matches, and which ones the subscriptions of
//! an endpoint take.
#![tactic(auto)]

pub mod cut;
mod matching;
pub mod subscription;
pub mod subscriptions;
#[cfg(test)]
mod tests;
