use sp_base::items::Items;
use sp_base::text::Str;
use sp_message::value::Fixed;
use sp_pattern::item::PatternItem;

/// What stands between two operands.
#[derive(Clone, Copy, Debug, PartialEq, Eq)]
pub enum Operator {
    Or,
    And,
    Equal,
    NotEqual,
    Less,
    AtMost,
    Greater,
    AtLeast,
    Add,
    Subtract,
    Multiply,
    Divide,
}

/// A sign before an operand.
#[derive(Clone, Copy, Debug, PartialEq, Eq)]
pub enum Sign {
    Plus,
    Minus,
}

/// A selector's tree.
#[derive(Drop)]
pub enum Tree {
    Number(Fixed),
    Text(Str),
    Truth(bool),
    /// The value of the property of this name.
    Property(Str),
    Not(Box<Tree>),
    Signed(Sign, Box<Tree>),
    Binary(Operator, Box<Tree>, Box<Tree>),
    /// The first operand lies between the other two, or equals one of them.
    Between(Box<Tree>, Box<Tree>, Box<Tree>),
    /// The operand is one of the texts.
    In(Box<Tree>, Items<Str>),
    /// The operand matches the pattern.
    Like(Box<Tree>, Items<PatternItem>),
    IsNull(Box<Tree>),
}
