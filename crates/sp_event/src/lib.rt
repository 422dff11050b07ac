//! What can be asked of the spool, and what it answers.
#![tactic(auto)]

pub mod answer;
pub mod request;
