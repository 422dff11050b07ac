//! Messages with their properties, and what a copy of one counts against a quota.
#![tactic(auto)]

pub mod codec;
pub mod decimal;
pub mod laws;
pub mod message;
pub mod message_codec;
pub mod partition;
pub mod payload;
pub mod property;
mod property_codec;
#[cfg(test)]
mod tests;
pub mod texts;
pub mod value;
