//! A disk of a few files that can crash, fail and stop, and three such disks.
#![tactic(auto)]

pub mod call;
mod contents;
mod crash;
pub mod disk;
pub mod flat;
pub mod folder;
mod locked_files;
pub mod memory;
mod named_file;
#[cfg(test)]
mod tests;
