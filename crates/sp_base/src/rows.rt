ghost use Rattle.std.specs.Prelude.{◌≡◌, ◌≤◌, ◌<◌, ◌+◌, ◌++◌, ◌∷◌, [], ℕ, length, slice_set, OnOk, OnErr};
ghost use Rattle.std.specs.Fn.{CalledAt, ComputesKey};
ghost use Rattle.std.specs.List.Retain.{IsFiltered};
ghost use Rattle.sp_base.specs.Rows.{IsPlace};

use std::alloc::{AllocError, Global};
use std::marker::Model;

/// A vector that contracts see as its elements and the room that is reserved for more: whoever
/// reserves room before a change can make the change without memory.
#[derive(Debug, Drop)]
pub struct Rows<T> {
    rows: Vec<T>,
}

impl<T> Model for Rows<T> {
    ghost use Rattle.std.specs.Prelude.{ℕ, ◌-◌, vec_len};
    ghost use Rattle.std.specs.Vec.{vec_capacity};
    ghost use Rattle.sp_base.specs.Rows.{Roomy};

    ghost Value = { Roomy T };

    ghost view = { λ r. record { items = r.rows.items; room = vec_capacity r.rows - vec_len r.rows } };
}

impl<T> Rows<T> {
    ghost use Rattle.std.specs.Borrow.{sem};
    ghost use Rattle.sp_base.specs.RowsLent.{lends_rows};

    /// No rows, and no room.
    pub fn new(alloc: Global) -> Rows<T>
        ensures { result.items ≡ [] }
    {
        Rows {
            rows: Vec::new(alloc),
        }
    }

    /// The rows in order.
    pub fn as_slice(&self) -> &[T]
        ensures { result.now ≡ self.now.items }
    {
        self.rows.as_slice()
    }

    /// How many rows there are.
    pub fn len(&self) -> usize
        ensures { result ≡ length self.now.items }
    {
        self.rows.len()
    }

    /// How many rows can be appended without memory.
    pub fn room(&self) -> usize
        ensures { result ≡ self.now.room }
    {
        self.rows.capacity() - self.rows.len()
    }

    /// Makes room for `more` rows; where the room is there, it takes no memory. Without memory the
    /// rows stay as they were.
    pub fn reserve(&mut self, more: usize) -> Result<(), AllocError>
        ensures items { self.new.items ≡ self.old.items }
        ensures room { OnOk result (more ≤ self.new.room) }
        ensures memory { OnErr result (self.old.room < more) }
        ensures kept { self.old.room ≤ self.new.room }
    {
        if more <= self.room() {
            return Ok(());
        }
        self.rows.reserve(more)
    }

    /// Appends a row where room is reserved, and takes no memory.
    pub fn add(&mut self, row: T)
    where
        T: Drop,
        requires { 0 < self.old.room }
        ensures items { self.new.items ≡ self.old.items ++ row ∷ [] }
        ensures room { self.old.room ≤ self.new.room + 1 }
    {
        match self.rows.push(row) {
            Ok(()) => {}
            Err(_) => unreachable!(),
        }
    }

    /// Keeps the rows at which the test gives true, in their order, and their room. Takes no memory.
    pub fn retain<F: FnMut(&T) -> bool>(&mut self, keep: F)
    where
        T: Drop,
        requires { F.IsAlwaysCallable keep }
        ensures items { IsFiltered (CalledAt F.FnMut) keep self.old.items self.new.items }
        ensures room { self.old.room + length self.old.items ≡ self.new.room + length self.new.items }
        ensures kept { self.old.room ≤ self.new.room }
    {
        self.rows.retain(keep);
    }

    /// Puts a row in the place of the one that stands there. Takes no memory.
    pub fn replace(&mut self, place: usize, row: T)
    where
        T: Drop,
        requires { place < length self.old.items }
        ensures items { self.new.items ≡ slice_set self.old.items place row }
        ensures room { self.new.room ≡ self.old.room }
    {
        self.rows[place] = row;
    }

    /// The rows, to be changed where they stand.
    pub fn as_mut_slice(&mut self) -> &mut [T]
        ensures* writes_back { sem 𝓛 (lends_rows T.row self.entry result) }
        ensures rows { result.now ≡ self.old.items }
    {
        self.rows.as_mut_slice()
    }

    /// The place of the row with a key, where the keys rise strictly: the row there has the key, or
    /// none has it. It looks at few rows, as one looks a word up.
    pub fn place_of<F: FnMut(&T) -> u64>(&self, key: u64, of: F) -> Option<usize>
        requires { F.IsAlwaysCallable of }
        ensures { (keys : T → ℕ) → ComputesKey F.FnMut keys of → IsPlace keys self.now.items key result }
    {
        self.rows.binary_search_by_key(&key, of).ok()
    }

    /// The vector with the rows.
    pub fn into_vec(self) -> Vec<T>
        ensures { result.items ≡ self.items }
    {
        let Rows { rows } = self;
        rows
    }
}
