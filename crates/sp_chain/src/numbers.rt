ghost use Rattle.std.specs.Prelude.{◌≡◌, ◌≤◌, ◌<◌, ◌+◌, ◌==◌, ℕ, None, Some, OnOk, OnErr, if◌then◌else◌};
ghost use Rattle.sp_chain.specs.Numbers.{key_of, SameKeys};

use crate::node::Key;
use std::alloc::{AllocError, Global};
use std::collections::HashMap;
use std::marker::Model;

/// The keys of numbered values, by number. Only `reserve` takes memory, and no other call's time
/// depends on how many numbers there are or on the order in which they come and go: a number that
/// stays for long costs no more than its own entry.
#[derive(Drop)]
pub struct Numbers {
    keys: HashMap<u64, Key>,
}

impl Model for Numbers {
    ghost use Rattle.std.specs.HashMap.{spare};
    ghost use Rattle.sp_chain.specs.Numbers.{Numbered};

    ghost Value = { Numbered };

    ghost view = { λ n. record { entries = n.keys.entries; room = spare n.keys } };
}

impl Numbers {
    /// No numbers, and no room.
    pub fn new(alloc: Global) -> Numbers
        ensures { (number : ℕ) → key_of result number ≡ None }
    {
        Numbers {
            keys: HashMap::new(alloc),
        }
    }

    /// How many numbers can be inserted without memory.
    pub fn room(&self) -> usize
        ensures { result ≡ self.now.room }
    {
        self.keys.capacity() - self.keys.len()
    }

    /// The key of a number. None where the number isn't there.
    pub fn get(&self, number: u64) -> Option<Key>
        ensures { result ≡ key_of self.now number }
    {
        self.keys.get(&number).copied()
    }

    /// Makes room for `more` numbers. The numbers stay as they were, also without memory.
    pub fn reserve(&mut self, more: usize) -> Result<(), AllocError>
        ensures keys { SameKeys self.old self.new }
        ensures room { OnOk result (more ≤ self.new.room) }
        ensures memory { OnErr result (self.old.room < more) }
        ensures kept { self.old.room ≤ self.new.room }
    {
        self.keys.reserve(more)
    }

    /// Gives a number its key, where room is reserved.
    pub fn insert(&mut self, number: u64, key: Key)
        requires { 0 < self.old.room }
        ensures keys { (n : ℕ) → key_of self.new n ≡ if number == n then Some key else key_of self.old n }
        ensures room { self.old.room ≤ self.new.room + 1 }
    {
        match self.keys.insert(number, key) {
            Ok(_) => {}
            Err(_) => unreachable!(),
        }
    }

    /// Takes a number out, and gives the key that it had. None where the number isn't there; then
    /// nothing changes. The room that it took may not come back before the next `reserve`.
    pub fn remove(&mut self, number: u64) -> Option<Key>
        ensures key { result ≡ key_of self.old number }
        ensures keys { (n : ℕ) → key_of self.new n ≡ if number == n then None else key_of self.old n }
        ensures room { self.old.room ≤ self.new.room }
    {
        self.keys.remove(&number)
    }
}
