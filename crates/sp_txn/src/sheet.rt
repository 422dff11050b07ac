ghost use Rattle.std.specs.Prelude.{◌≡◌, ◌≤◌, ◌<◌, ◌+◌, ◌^◌, ◌++◌, ◌∷◌, [], OnErr, OnOk};
ghost use Rattle.sp_txn.specs.Notes.{added_in, all_added, all_after, all_taken, is_closed, taken_in, used_after};
ghost use Rattle.sp_txn.specs.declared.note.Note.TheVariants.{Added, Closed, Taken};

use crate::note::Note;
use crate::sums::{added_in, all_added, all_taken, taken_in};
use sp_base::number::{CopyNo, EndpointNo};
use sp_base::rows::Rows;
use std::alloc::{AllocError, Global};
use std::marker::Model;

/// The notes of what was decided so far. Contracts see them in order, and the room that is reserved
/// for more. The bytes added, and the bytes taken, are at most 2^50 in all.
#[derive(Drop)]
pub struct Sheet {
    notes: Rows<Note>,
}

impl Model for Sheet {
    ghost use Rattle.sp_txn.specs.Inside.{IsSheet, sheet_view};
    ghost use Rattle.sp_txn.specs.Notes.{SheetView};

    ghost Value = { SheetView };

    ghost view = { sheet_view };

    ghost invariant = { IsSheet };
}

impl Sheet {
    /// No notes. Takes no memory.
    pub fn new(alloc: Global) -> Sheet
        ensures { result.notes ≡ [] }
    {
        Sheet {
            notes: Rows::new(alloc),
        }
    }

    /// Makes room for `more` notes; where the room is there, it takes no memory. Without memory the
    /// sheet stays as it was.
    pub fn reserve(&mut self, more: usize) -> Result<(), AllocError>
        ensures notes { self.new.notes ≡ self.old.notes }
        ensures room { OnOk result (more ≤ self.new.room) }
        ensures kept { self.old.room ≤ self.new.room }
        ensures memory { OnErr result (self.old.room < more) }
    {
        self.notes.reserve(more)
    }

    /// Notes that bytes come to an endpoint. Takes no memory.
    pub fn add(&mut self, endpoint: EndpointNo, bytes: u64)
        requires room { 0 < self.old.room }
        requires sum { all_added self.old.notes + bytes ≤ 2 ^ 50 }
        ensures notes { self.new.notes ≡ self.old.notes ++ Added endpoint bytes ∷ [] }
        ensures room { self.old.room ≤ self.new.room + 1 }
    {
        self.notes.add(Note::Added(endpoint, bytes));
    }

    /// Notes that bytes leave an endpoint. Takes no memory.
    pub fn take(&mut self, endpoint: EndpointNo, bytes: u64)
        requires room { 0 < self.old.room }
        requires sum { all_taken self.old.notes + bytes ≤ 2 ^ 50 }
        ensures notes { self.new.notes ≡ self.old.notes ++ Taken endpoint bytes ∷ [] }
        ensures room { self.old.room ≤ self.new.room + 1 }
    {
        self.notes.add(Note::Taken(endpoint, bytes));
    }

    /// Notes that a copy is closed, or no longer held by its flow. Takes no memory.
    pub fn close(&mut self, copy: CopyNo)
        requires { 0 < self.old.room }
        ensures notes { self.new.notes ≡ self.old.notes ++ Closed copy ∷ [] }
        ensures room { self.old.room ≤ self.new.room + 1 }
    {
        self.notes.add(Note::Closed(copy));
    }

    /// Whether a copy is noted as closed.
    pub fn closed(&self, copy: CopyNo) -> bool
        ensures { result ≡ is_closed self.now.notes copy }
    {
        self.notes.as_slice().iter().any(|note| note.closes(copy))
    }

    /// The bytes that an endpoint uses after all notes, where it used `before` bytes.
    pub fn used(&self, endpoint: EndpointNo, before: u64) -> u64
        requires before { before ≤ 2 ^ 50 }
        requires taken { taken_in self.now.notes endpoint ≤ before + added_in self.now.notes endpoint }
        ensures { result ≡ used_after before self.now.notes endpoint }
    {
        let notes = self.notes.as_slice();
        before + added_in(notes, endpoint) - taken_in(notes, endpoint)
    }

    /// The bytes that all endpoints use after all notes, where they used `before` bytes.
    pub fn all(&self, before: u64) -> u64
        requires before { before ≤ 2 ^ 50 }
        requires taken { all_taken self.now.notes ≤ before + all_added self.now.notes }
        ensures { result ≡ all_after before self.now.notes }
    {
        let notes = self.notes.as_slice();
        before + all_added(notes) - all_taken(notes)
    }
}
