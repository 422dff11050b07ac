ghost use Rattle.std.specs.Prelude.{◌≡◌, ◌≤◌, length, IfOk};

use sp_base::bytes::Bytes;
use std::alloc::{AllocError, Global};
use std::marker::Model;

/// The most bytes that a payload has.
pub const LONGEST_PAYLOAD: usize = 8_388_608;

/// What a message carries: at most 8,388,608 bytes.
#[derive(Debug, Drop)]
pub struct Payload {
    bytes: Bytes,
}

impl Model for Payload {
    ghost use Rattle.std.specs.Prelude.{List, ℕ, length, ◌≤◌};

    ghost Value = { List ℕ };

    ghost view = { λ p. p.bytes };

    ghost invariant = { λ p. length p.bytes ≤ 8388608 };
}

impl Payload {
    /// The payload of these bytes.
    pub fn from_bytes(bytes: Bytes) -> Payload
        requires { length bytes ≤ 8388608 }
        ensures { result ≡ bytes }
    {
        Payload { bytes }
    }

    /// The bytes.
    pub fn as_slice(&self) -> &[u8]
        ensures value { result.now ≡ self.now }
        ensures bound { length self.now ≤ 8388608 }
    {
        self.bytes.as_slice()
    }

    /// A second payload of the same bytes.
    pub fn copy(&self, alloc: Global) -> Result<Payload, AllocError>
        ensures { IfOk result (λ p. p ≡ self.now) }
    {
        Ok(Payload {
            bytes: self.bytes.copy(alloc)?,
        })
    }
}
