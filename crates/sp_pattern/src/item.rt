/// A part of a pattern.
#[derive(Clone, Copy, Debug, PartialEq, Eq)]
pub enum PatternItem {
    /// `%`: any characters, or none.
    Any,
    /// `_`: one character.
    One,
    /// The character itself.
    Exactly(char),
}
