ghost use Rattle.std.specs.Prelude.{◌≡◌, ◌≤◌, ◌↔◌, ℕ, length, nat_le, bytes_eq, true, false, IfOk, OnOk, IsErrOf};
ghost use Rattle.std.specs.List.{list_all};
ghost use Rattle.sp_base.specs.Name.{is_name, is_name_byte, is_caller};

use crate::text::Str;
use std::alloc::{AllocError, Global};
use std::marker::Model;
use thiserror::Error;

/// Why no name was read.
#[derive(Debug, Drop, Error)]
pub enum NameError {
    #[error("no name: a name has 1 to 200 letters, digits and _ - . / #")]
    BadName,
    #[error("want of memory")]
    Memory,
}

impl From<AllocError> for NameError {
    ghost use Rattle.sp_base.specs.declared.name.NameError.TheVariants.{Memory};
    ghost use Rattle.std.specs.Prelude.{◌≡◌};

    ghost from_gives = { λ _ e. e ≡ Memory };

    fn from(_: AllocError) -> Self {
        NameError::Memory
    }
}

/// The name of an endpoint or a caller: 1 to 200 letters, digits and `_ - . / #`, all ASCII. A
/// caller's name has at most 64.
#[derive(Debug, Drop)]
pub struct Name {
    text: String,
}

impl Model for Name {
    ghost use Rattle.std.specs.Prelude.{◌≡◌, true, List, ℕ, string_bytes};
    ghost use Rattle.sp_base.specs.Name.{is_name, is_name_byte};

    ghost Value = { List ℕ };

    ghost view = { λ n. string_bytes n.text };

    ghost invariant = { λ n. is_name (string_bytes n.text) ≡ true };
}

impl Name {
    /// The name that the bytes are. BadName exactly where they break the rule above.
    pub fn read(alloc: Global, bytes: &[u8]) -> Result<Name, NameError>
        ensures ok { IfOk result (λ n. n ≡ bytes.now) }
        ensures form { OnOk result (is_name bytes.now ≡ true) }
        ensures bad { IsErrOf result NameError.BadName ↔ (is_name bytes.now ≡ false) }
    {
        if !may_be_name(bytes) {
            return Err(NameError::BadName);
        }
        let text = ascii_text(bytes);
        Ok(Name {
            text: String::from_str(alloc, text)?,
        })
    }

    /// A second name with the same bytes.
    pub fn copy(&self, alloc: Global) -> Result<Name, AllocError>
        ensures { IfOk result (λ n. n ≡ self.now) }
    {
        Ok(Name {
            text: String::from_str(alloc, self.text.as_str())?,
        })
    }

    /// The name as a text of its own.
    pub fn text(&self, alloc: Global) -> Result<Str, AllocError>
        ensures { IfOk result (λ s. s ≡ self.now) }
    {
        Str::copy_of(alloc, self.text.as_str())
    }

    /// The name.
    pub fn as_str(&self) -> &str
        ensures { result.now ≡ self.now }
    {
        self.text.as_str()
    }

    /// The name's bytes, which keep the rule.
    pub fn as_bytes(&self) -> &[u8]
        ensures value { result.now ≡ self.now }
        ensures form { is_name self.now ≡ true }
    {
        self.text.as_str().as_bytes()
    }

    /// Whether it is short enough to be a caller's.
    pub fn is_caller(&self) -> bool
        ensures { result ≡ is_caller self.now }
    {
        self.text.len() <= 64
    }

    /// Whether both names have the same bytes.
    pub fn same(&self, other: &Name) -> bool
        ensures { result ≡ bytes_eq self.now other.now }
    {
        self.text.as_str() == other.text.as_str()
    }
}

fn may_be_name(bytes: &[u8]) -> bool
    ensures { result ≡ is_name bytes.now }
{
    if bytes.is_empty() || bytes.len() > 200 {
        return false;
    }
    all_may_stand(bytes)
}

fn all_may_stand(bytes: &[u8]) -> bool
    ensures { result ≡ list_all is_name_byte bytes.now }
{
    bytes.iter().all(|b| may_stand(*b))
}

fn ascii_text(bytes: &[u8]) -> &str
    requires { is_name bytes.now ≡ true }
    ensures { result.now ≡ bytes.now }
{
    match str::from_utf8(bytes) {
        Ok(text) => text,
        Err(_) => unreachable!(),
    }
}

fn may_stand(b: u8) -> bool
    ensures { result ≡ is_name_byte b }
{
    b.is_ascii_alphanumeric() || b == b'_' || b == b'-' || b == b'.' || b == b'/' || b == b'#'
}
