//! Several copies end, or are given back, one after another, before anything is applied: each by
//! what the ones before it left.
#![tactic(auto)]

mod asking;
mod draft;
pub mod ended;
mod ending;
pub mod plans;
