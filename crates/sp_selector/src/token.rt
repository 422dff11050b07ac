use crate::tree::Operator;
use sp_base::text::Str;
use sp_message::value::Fixed;

/// A parenthesis, a comma or a keyword that is no operator.
#[derive(Clone, Copy, Debug, PartialEq, Eq)]
pub enum Mark {
    Open,
    Close,
    Comma,
    Not,
    Between,
    In,
    Like,
    Escape,
    Is,
    Null,
    True,
    False,
}

/// A token of a selector's text.
#[derive(Drop)]
pub enum Token {
    /// `OR`, `AND`, a comparison or an arithmetic operator. `+` and `-` may also be signs.
    Infix(Operator),
    Mark(Mark),
    /// An identifier, the name of a property.
    Name(Str),
    Number(Fixed),
    /// What a text in `'` says, each `''` in it as one `'`.
    Text(Str),
}
