ghost use Rattle.std.specs.Prelude.{◌≡◌};

use crate::value::AttrValue;

/// Which values an attribute may have.
#[derive(Clone, Copy, Debug, PartialEq, Eq)]
pub enum Range {
    /// A whole number from `least` to `most`.
    Between { least: u64, most: u64 },
    /// True or false.
    TrueOrFalse,
    /// One of so many words.
    OneOf { words: u8 },
    /// A name.
    SomeName,
    /// A name, or the empty text.
    NameOrEmpty,
}

impl Range {
    ghost use Rattle.sp_config.specs.Ranges.{is_within};

    /// Whether the value is of the range's kind and within it.
    pub fn has(self, value: &AttrValue) -> bool
        ensures { result ≡ is_within self value.now }
    {
        match (self, value) {
            (Range::Between { least, most }, AttrValue::Whole(n)) => least <= *n && *n <= most,
            (Range::TrueOrFalse, AttrValue::Flag(_)) => true,
            (Range::OneOf { words }, AttrValue::Word(place)) => *place < words,
            (Range::SomeName, AttrValue::Text(name)) => name.is_some(),
            (Range::NameOrEmpty, AttrValue::Text(_)) => true,
            _ => false,
        }
    }
}
