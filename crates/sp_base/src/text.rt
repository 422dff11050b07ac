ghost use Rattle.std.specs.Prelude.{◌≡◌, bytes_eq, length, IfOk, IsUtf8};

use std::alloc::{AllocError, Global};
use std::marker::Model;

/// A UTF-8 text that contracts see as its bytes.
#[derive(Debug, Drop)]
pub struct Str {
    text: String,
}

impl Model for Str {
    ghost use Rattle.std.specs.Prelude.{List, ℕ, string_bytes};

    ghost Value = { List ℕ };

    ghost view = { λ s. string_bytes s.text };
}

impl Str {
    /// A text of one's own with the same bytes.
    pub fn copy_of(alloc: Global, text: &str) -> Result<Str, AllocError>
        ensures { IfOk result (λ s. s ≡ text.now) }
    {
        Ok(Str {
            text: String::from_str(alloc, text)?,
        })
    }

    /// The text.
    pub fn as_str(&self) -> &str
        ensures { result.now ≡ self.now }
    {
        self.text.as_str()
    }

    /// The text's bytes.
    pub fn as_bytes(&self) -> &[u8]
        ensures { result.now ≡ self.now }
    {
        self.text.as_str().as_bytes()
    }

    /// How many bytes the text has.
    pub fn len(&self) -> usize
        ensures { result ≡ length self.now }
    {
        self.text.len()
    }

    /// Whether both texts have the same bytes.
    pub fn same(&self, other: &Str) -> bool
        ensures { result ≡ bytes_eq self.now other.now }
    {
        self.text.as_str() == other.text.as_str()
    }

    /// A second text with the same bytes.
    pub fn copy(&self, alloc: Global) -> Result<Str, AllocError>
        ensures { IfOk result (λ s. s ≡ self.now) }
    {
        Str::copy_of(alloc, self.text.as_str())
    }
}
