ghost use Rattle.std.specs.Prelude.{◌≡◌, ◌≤◌, ◌<◌, ℕ, [], length, slice_set, Option, Some, None, IsOk, OnOk};
ghost use Rattle.sp_chain.specs.Deadlines.{IsFirst, at};

use crate::deadline::Deadline;
use crate::tournament::{build, leaf, mend, node};
use std::alloc::{AllocError, Global};
use std::marker::Model;

/// The deadlines of values by place, of which the first is known. A place may be the key of a value
/// in chains, so that a value's deadline is found without a search. Only `reserve` takes memory; a
/// change takes a step for each time that the number of places can be halved.
#[derive(Drop)]
pub struct Deadlines {
    // By place.
    leaves: Vec<Option<Deadline>>,
    // A tree over the places: the earlier of what its two children have. The root is the first row, a
    // node's children are at twice its place and behind it, and the rows end where the leaves begin.
    // The row at 0 plays no part.
    inner: Vec<Option<Deadline>>,
}

impl Model for Deadlines {
    ghost use Rattle.std.specs.Prelude.{List, Option};
    ghost use Rattle.sp_chain.specs.declared.deadline.Deadline.{Deadline as Seen};
    ghost use Rattle.sp_chain.specs.Tournament.{IsTournament};

    ghost Value = { List (Option Seen) };

    ghost view = { λ d. d.leaves.items };

    ghost invariant = { λ d. IsTournament d.inner.items d.leaves.items };
}

impl Deadlines {
    /// No places.
    pub fn new(alloc: Global) -> Deadlines
        ensures { result ≡ [] }
    {
        Deadlines {
            leaves: Vec::new(alloc),
            inner: Vec::new(alloc),
        }
    }

    /// How many places there are: they are the numbers below it.
    pub fn places(&self) -> usize
        ensures { result ≡ length self.now }
    {
        self.leaves.len()
    }

    /// The deadline at a place.
    pub fn get(&self, place: usize) -> Option<Deadline>
        ensures { result ≡ at self.now place }
    {
        leaf(self.leaves.as_slice(), place)
    }

    /// The first of all deadlines: the earliest, and of several at one moment that of the least number.
    pub fn first(&self) -> Option<Deadline>
        ensures { IsFirst self.now result }
    {
        node(self.inner.as_slice(), self.leaves.as_slice(), 1)
    }

    /// Makes places of the numbers below `places`. The deadlines stay as they were, also without
    /// memory. Where places are made, they become at least twice as many as they were, and it takes
    /// the time of a step for each of them.
    pub fn reserve(&mut self, places: usize) -> Result<(), AllocError>
        ensures deadlines { (place : ℕ) → at self.new place ≡ at self.old place }
        ensures places { OnOk result (places ≤ length self.new) }
        ensures kept { length self.old ≤ length self.new }
        ensures prepared { places ≤ length self.old → IsOk result }
    {
        let old = self.leaves.len();
        if places <= old {
            return Ok(());
        }
        let new = places.max(old.saturating_mul(2));
        self.inner.reserve(new - old)?;
        self.leaves.reserve(new - old)?;
        self.inner.resize(new, None)?;
        self.leaves.resize(new, None)?;
        build(&mut self.inner, self.leaves.as_slice());
        Ok(())
    }

    /// Gives a place its deadline.
    pub fn insert(&mut self, place: usize, deadline: Deadline)
        requires { place < length self.old }
        ensures { self.new ≡ slice_set self.old place (Some deadline) }
    {
        self.set(place, Some(deadline));
    }

    /// Takes the deadline at a place away, if there is one.
    pub fn remove(&mut self, place: usize)
        requires { place < length self.old }
        ensures { self.new ≡ slice_set self.old place None }
    {
        self.set(place, None);
    }

    fn set(&mut self, place: usize, deadline: Option<Deadline>)
        requires { place < length self.old }
        ensures { self.new ≡ slice_set self.old place deadline }
    {
        self.leaves[place] = deadline;
        let above = (self.leaves.len() + place) / 2;
        mend(&mut self.inner, self.leaves.as_slice(), above);
    }
}
