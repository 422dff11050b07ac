ghost use Rattle.std.specs.Prelude.{◌≡◌, ◌≤◌, ◌<◌, ◌==◌, [], true, false, Some, is_err, length, IfOk, OnOk};
ghost use Rattle.std.specs.List.{list_any};
ghost use Rattle.std.specs.Io.{ReadsAtMost, WritesAtMost};
ghost use Rattle.std.specs.Io.KnownBytes.{ReadConsumes, WriteAppends, Keeps};
ghost use Rattle.sp_base.specs.Causes.{HasCause, Rose};
ghost use Rattle.sp_stream.specs.Streams.{fails_next, one_more};

use crate::steady::fill;
use sp_base::failure::Failed;
use sp_base::io::{Sink, Source};
use std::alloc::Global;
use std::marker::Model;

/// The calls of a device in memory: how many there were, which of them fail by their numbers,
/// counted from 1, and how many have failed.
#[derive(Debug, Drop)]
struct Calls {
    made: u64,
    failing: Vec<u64>,
    faults: u64,
}

impl Calls {
    fn new(failing: Vec<u64>) -> Calls
        ensures made { result.made ≡ 0 }
        ensures failing { result.failing.items ≡ failing.items }
        ensures faults { result.faults ≡ 0 }
    {
        Calls {
            made: 0,
            failing,
            faults: 0,
        }
    }

    // Counts a call, and a fault where it is one that fails.
    fn next(&mut self) -> Result<(), Failed>
        ensures cause { HasCause self.old.faults self.new.faults result }
        ensures made { self.new.made ≡ one_more self.old.made }
        ensures failing { self.new.failing.items ≡ self.old.failing.items }
        ensures fails { is_err result ≡ list_any (λ n. n == one_more self.old.made) self.old.failing.items }
    {
        self.made = self.made.saturating_add(1);
        if self.is_failing() {
            return Err(self.fail());
        }
        Ok(())
    }

    fn is_failing(&self) -> bool
        ensures { result ≡ list_any (λ n. n == self.now.made) self.now.failing.items }
    {
        self.failing.iter().any(|n| *n == self.made)
    }

    fn fail(&mut self) -> Failed
        ensures rose { Rose self.old.faults self.new.faults }
        ensures later { self.old.faults ≤ self.new.faults }
        ensures made { self.new.made ≡ self.old.made }
        ensures failing { self.new.failing.items ≡ self.old.failing.items }
    {
        self.faults = self.faults.saturating_add(1);
        Failed
    }
}

/// A source of bytes in memory, which it gives in pieces of a bounded length. The calls of a list
/// fail.
#[derive(Debug, Drop)]
pub struct MemorySource {
    bytes: Vec<u8>,
    at: usize,
    piece: usize,
    calls: Calls,
}

impl Model for MemorySource {
    ghost use Rattle.std.specs.Prelude.{◌<◌, ◌≤◌, drop, vec_len};
    ghost use Rattle.sp_stream.specs.Streams.{Stream};

    ghost Value = { Stream };

    ghost view = { λ s. record { bytes = drop s.at s.bytes.items; faults = s.calls.faults; calls = s.calls.made; failing = s.calls.failing.items } };

    ghost invariant = { λ s. (s.at ≤ vec_len s.bytes) × (0 < s.piece) };
}

impl MemorySource {
    /// A source of these bytes that gives at most `piece` of them at a time, or one where `piece`
    /// is 0. Its calls whose numbers, from 1, stand in `failing` fail.
    pub fn new(bytes: Vec<u8>, piece: usize, failing: Vec<u64>) -> MemorySource
        ensures { result ≡ record { bytes = bytes.items; faults = 0; calls = 0; failing = failing.items } }
    {
        MemorySource {
            bytes,
            at: 0,
            piece: piece.max(1),
            calls: Calls::new(failing),
        }
    }
}

impl Source for MemorySource {
    ghost left = { λ s. Some s.bytes };

    ghost faults = { λ s. s.faults };

    /// It fails exactly where the call's number is in the list.
    fn read(&mut self, into: &mut [u8]) -> Result<usize, Failed>
        ensures within { ReadsAtMost result into.new }
        ensures bytes { ReadConsumes (Some self.old.bytes) (Some self.new.bytes) result into.new }
        ensures cause { HasCause self.old.faults self.new.faults result }
        ensures fails { is_err result ≡ fails_next self.old }
        ensures calls { self.new.calls ≡ one_more self.old.calls }
        ensures failing { self.new.failing ≡ self.old.failing }
    {
        self.calls.next()?;
        let count = fill(into, &self.bytes[self.at..], self.piece);
        self.at += count;
        Ok(count)
    }
}

/// A sink in memory, which takes pieces of a bounded length. The calls of a list fail, and so
/// does one for whose bytes there is no memory.
#[derive(Debug, Drop)]
pub struct MemorySink {
    bytes: Vec<u8>,
    piece: usize,
    calls: Calls,
}

impl Model for MemorySink {
    ghost use Rattle.std.specs.Prelude.{◌<◌};
    ghost use Rattle.sp_stream.specs.Streams.{Stream};

    ghost Value = { Stream };

    ghost view = { λ s. record { bytes = s.bytes.items; faults = s.calls.faults; calls = s.calls.made; failing = s.calls.failing.items } };

    ghost invariant = { λ s. 0 < s.piece };
}

impl MemorySink {
    /// An empty sink that takes at most `piece` bytes at a time, or one where `piece` is 0. Its
    /// calls whose numbers, from 1, stand in `failing` fail.
    pub fn new(alloc: Global, piece: usize, failing: Vec<u64>) -> MemorySink
        ensures { result ≡ record { bytes = []; faults = 0; calls = 0; failing = failing.items } }
    {
        MemorySink {
            bytes: Vec::new(alloc),
            piece: piece.max(1),
            calls: Calls::new(failing),
        }
    }

    /// What was written.
    pub fn as_slice(&self) -> &[u8]
        ensures { result.now ≡ self.now.bytes }
    {
        self.bytes.as_slice()
    }
}

impl Sink for MemorySink {
    ghost written = { λ s. Some s.bytes };

    ghost faults = { λ s. s.faults };

    /// It fails where the call's number is in the list, and where there is no memory for the bytes.
    fn write(&mut self, bytes: &[u8]) -> Result<usize, Failed>
        ensures within { WritesAtMost result bytes.now }
        ensures some { IfOk result (λ n. 0 < length bytes.now → 0 < n) }
        ensures bytes { WriteAppends (Some self.old.bytes) (Some self.new.bytes) result bytes.now }
        ensures cause { HasCause self.old.faults self.new.faults result }
        ensures fails { OnOk result (fails_next self.old ≡ false) }
        ensures calls { self.new.calls ≡ one_more self.old.calls }
        ensures failing { self.new.failing ≡ self.old.failing }
    {
        self.calls.next()?;
        let count = bytes.len().min(self.piece);
        match self.bytes.extend_from_slice(&bytes[..count]) {
            Ok(()) => Ok(count),
            Err(_) => Err(self.calls.fail()),
        }
    }

    /// It fails exactly where the call's number is in the list.
    fn flush(&mut self) -> Result<(), Failed>
        ensures bytes { Keeps (Some self.old.bytes) (Some self.new.bytes) }
        ensures cause { HasCause self.old.faults self.new.faults result }
        ensures fails { is_err result ≡ fails_next self.old }
        ensures calls { self.new.calls ≡ one_more self.old.calls }
        ensures failing { self.new.failing ≡ self.old.failing }
    {
        self.calls.next()
    }
}
