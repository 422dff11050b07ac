//! What requests and replies have in common in JSON, whoever sends them: the fields of an object,
//! by kind and range, and the members that show payloads, fates, refusals and parts of replies.
#![tactic(auto)]

pub mod attributes;
pub mod deliveries;
pub mod fates;
pub mod fields;
pub mod flows;
pub mod members;
pub mod names;
pub mod parts;
pub mod payloads;
pub mod properties;
pub mod refusals;
pub mod selectors;
pub mod subscriptions;
pub mod told;
