ghost use Rattle.std.specs.Prelude.{◌≡◌, ◌<◌, List, ℕ, length, IfOk};
ghost use Rattle.std.specs.declared.option.Option.{Option};
ghost use Rattle.std.specs.Io.{ReadsAtMost, WritesAtMost};
ghost use Rattle.std.specs.Io.KnownBytes.{ReadConsumes, WriteAppends, Keeps};
ghost use Rattle.sp_base.specs.Causes.{HasCause};

use crate::failure::Failed;

/// What a run reads from.
pub trait Source {
    /// What is left to be read, where the source tells it.
    ghost left: { Self → Option (List ℕ) };

    /// How often the source has failed. At the greatest u64 the count stands.
    ghost faults: { Self → ℕ };

    /// Puts the next bytes at the front of `into`, and says how many they are: none only at the
    /// end of the input, or where `into` has no room. Where it fails, nothing is taken, and the
    /// count of faults rises; else the count stands.
    fn read(&mut self, into: &mut [u8]) -> Result<usize, Failed>
        ensures within { ReadsAtMost result into.new }
        ensures bytes { ReadConsumes (left self.old) (left self.new) result into.new }
        ensures cause { HasCause (faults self.old) (faults self.new) result };
}

/// What a run writes to.
pub trait Sink {
    /// What was written, where the sink tells it.
    ghost written: { Self → Option (List ℕ) };

    /// How often the sink has failed. At the greatest u64 the count stands.
    ghost faults: { Self → ℕ };

    /// Takes bytes from the front of a piece, and says how many: at least one of a piece that
    /// isn't empty. Where it fails, nothing is taken, and the count of faults rises; else the
    /// count stands.
    fn write(&mut self, bytes: &[u8]) -> Result<usize, Failed>
        ensures within { WritesAtMost result bytes.now }
        ensures some { IfOk result (λ n. 0 < length bytes.now → 0 < n) }
        ensures bytes { WriteAppends (written self.old) (written self.new) result bytes.now }
        ensures cause { HasCause (faults self.old) (faults self.new) result };

    /// Passes on what was taken. What was written stays, and the count of faults rises exactly
    /// where it fails.
    fn flush(&mut self) -> Result<(), Failed>
        ensures bytes { Keeps (written self.old) (written self.new) }
        ensures cause { HasCause (faults self.old) (faults self.new) result };
}
