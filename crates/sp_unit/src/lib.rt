//! Units as bytes: what is kept of each accepted request.
#![tactic(auto)]

pub mod event_codec;
pub mod laws;
pub mod numbers;
pub mod settings_codec;
#[cfg(test)]
mod tests;
pub mod texts;
pub mod unit;
