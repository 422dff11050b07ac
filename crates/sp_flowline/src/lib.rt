//! The line protocol: a request is read from a line, and an answer is written as one. Both are
//! JSON, as `serde_json` reads and writes it.
#![tactic(auto)]

mod asks;
mod endpoint_events;
mod flow_events;
mod flow_replies;
pub mod laws;
pub mod line;
mod mode;
pub mod op;
mod publishes;
pub mod read;
mod replies;
#[cfg(test)]
mod tests;
