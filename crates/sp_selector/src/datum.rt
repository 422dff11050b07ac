ghost use Rattle.std.specs.Prelude.{◌≡◌};

use sp_message::value::Fixed;
use std::marker::Model;

/// A text that is lent, which contracts see as its bytes.
#[derive(Debug, Drop)]
pub struct Lent<'a> {
    text: &'a str,
}

impl<'a> Model for Lent<'a> {
    ghost use Rattle.std.specs.Prelude.{List, ℕ};

    ghost Value = { List ℕ };

    ghost view = { λ t. t.text.now };
}

impl<'a> Lent<'a> {
    /// A text.
    pub fn new(text: &'a str) -> Lent<'a>
        ensures { result ≡ text.now }
    {
        Lent { text }
    }

    /// The text.
    pub fn as_str(&self) -> &'a str
        ensures { result.now ≡ self.now }
    {
        self.text
    }
}

/// The value of a tree or of a part of one.
#[derive(Drop)]
pub enum Datum<'a> {
    /// No value; as a truth value UNKNOWN.
    Null,
    Truth(bool),
    Number(Fixed),
    Text(Lent<'a>),
}
