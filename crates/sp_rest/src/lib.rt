//! Requests over HTTP/1.1 are cut from bytes, and answers are written as responses.
//!
//! `wire` has the bytes alone. `status` says which status code an answer has, and it alone knows answers.
#![tactic(auto)]

pub mod publish;
pub mod status;
#[cfg(test)]
mod tests;
pub mod wire;
