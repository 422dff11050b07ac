//! One object, shared by turns among threads.
//!
//! A hall holds an object. Whoever has a pass of the hall calls the object by it: the call draws a ticket, waits for
//! its turn, acts alone on the object and gives the turn on. A pass keeps what it has seen of the object and by how much
//! its own calls raised the object's count. It can be split in two, and two can meet, so that each thread calls by a pass
//! of its own. Once all passes are there, the hall can be closed, and the object comes back with all that was done.
//!
//! Nothing promises that a turn comes, whose turn is first, or an order between calls whose passes never met.
#![tactic(auto)]

pub mod hall;
pub mod object;
pub mod pass;
mod seat;
#[cfg(test)]
mod tests;
mod turns;
