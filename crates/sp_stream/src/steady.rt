ghost use Rattle.std.specs.Prelude.{◌≡◌, Some, None, min, take, length};

use sp_base::failure::Failed;
use sp_base::io::{Sink, Source};
use std::marker::Model;

/// A source of bytes in memory that never fails.
#[derive(Debug, Drop)]
pub struct SteadySource {
    bytes: Vec<u8>,
    at: usize,
}

impl Model for SteadySource {
    ghost use Rattle.std.specs.Prelude.{List, ℕ, ◌≤◌, drop, vec_len};

    ghost Value = { List ℕ };

    ghost view = { λ s. drop s.at s.bytes.items };

    ghost invariant = { λ s. s.at ≤ vec_len s.bytes };
}

impl SteadySource {
    /// A source of these bytes.
    pub fn new(bytes: Vec<u8>) -> SteadySource
        ensures { result ≡ bytes.items }
    {
        SteadySource { bytes, at: 0 }
    }
}

impl Source for SteadySource {
    ghost left = { λ s. Some s };

    ghost faults = { λ _. 0 };

    fn read(&mut self, into: &mut [u8]) -> Result<usize, Failed> {
        let count = fill(into, &self.bytes[self.at..], usize::MAX);
        self.at += count;
        Ok(count)
    }
}

/// Copies the front of `bytes` into `into`, as much as fits and at most `most` bytes, and says how
/// much that is.
pub fn fill(into: &mut [u8], bytes: &[u8], most: usize) -> usize
    ensures count { result ≡ min (min (length into.old) (length bytes.now)) most }
    ensures front { take result into.new ≡ take result bytes.now }
{
    let count = into.len().min(bytes.len()).min(most);
    into[..count].copy_from_slice(&bytes[..count]);
    count
}

/// A sink that takes all and keeps nothing. It never fails, and tells nothing of what it took.
#[derive(Clone, Copy, Debug, PartialEq, Eq)]
pub struct NullSink;

impl Sink for NullSink {
    ghost written = { λ _. None };

    ghost faults = { λ _. 0 };

    fn write(&mut self, bytes: &[u8]) -> Result<usize, Failed> {
        Ok(bytes.len())
    }

    fn flush(&mut self) -> Result<(), Failed> {
        Ok(())
    }
}
