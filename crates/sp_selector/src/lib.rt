//! Selectors: conditions over a message's properties, read from a text, that take it or not.
#![tactic(auto)]

mod datum;
mod evaluate;
mod follow;
mod number;
mod parse;
mod scan;
mod scanned;
pub mod selector;
#[cfg(test)]
mod tests;
mod token;
mod tree;
