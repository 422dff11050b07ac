//! The attributes of an endpoint: their names, the values that they may have, their defaults, and
//! what follows from them for a copy.
#![tactic(auto)]

pub mod access_type;
pub mod attr;
pub mod attributes;
pub mod discard;
pub mod kind;
pub mod range;
pub mod setting;
pub mod settings;
#[cfg(test)]
mod tests;
pub mod value;
