ghost use Rattle.std.specs.Str.{is_utf8};
ghost use Rattle.std.specs.Prelude.{◌≡◌, ◌&&◌, length, nat_le, ◌≤◌, ◌/◌, ◌%◌, ◌++◌, ◌∷◌, ◌<◌, neg_ℤ, unsigned_abs, string_bytes, IfOk, OnOk, SomeIff};
ghost use Rattle.std.specs.Fmt.{decimal};
ghost use Rattle.sp_message.specs.Decimal.{fixed_of, fixed_text, bounded, has_minus, places_of, unsigned_fixed_of};
ghost use Rattle.sp_message.specs.Value.{is_in_range, text_len};

use crate::decimal::{decimal_part, millionths, push_places, whole, whole_part};
use sp_base::text::Str;
use std::alloc::{AllocError, Global};
use std::fmt::Write;
use std::marker::Model;

/// The greatest magnitude of a fixed number, in millionths: (2^63 - 1) million.
pub const GREATEST_FIXED: u128 = 9_223_372_036_854_775_807_000_000;

/// The most bytes that a text value has.
pub const LONGEST_TEXT: usize = 8_192;

/// A number with six decimals, which contracts see as its number of millionths. Its magnitude is at
/// most (2^63 - 1) million millionths.
#[derive(Clone, Copy, Debug, PartialEq, Eq, PartialOrd, Ord)]
pub struct Fixed {
    millionths: i128,
}

impl Model for Fixed {
    ghost use Rattle.std.specs.Prelude.{◌≤◌, ℤ, unsigned_abs};

    ghost Value = { ℤ };

    ghost view = { λ f. f.millionths };

    ghost invariant = { λ f. unsigned_abs f.millionths ≤ 9223372036854775807000000 };

    ghost inverse = { λ z. record { millionths = z } };
}

impl Fixed {
    /// The number of so many millionths. None exactly above the greatest magnitude.
    pub fn new(millionths: i128) -> Option<Fixed>
        ensures { SomeIff result (unsigned_abs millionths ≤ GREATEST_FIXED) millionths }
    {
        if millionths.unsigned_abs() <= GREATEST_FIXED {
            Some(Fixed { millionths })
        } else {
            None
        }
    }

    /// The number that a text is: an optional `-`, digits, a point, one to six digits. None exactly
    /// for another text, or above the greatest magnitude. It takes no memory.
    pub fn read(text: &[u8]) -> Option<Fixed>
        ensures { result ≡ fixed_of text.now }
    {
        if !has_minus(text) {
            return unsigned(text);
        }
        match unsigned(&text[1..]) {
            Some(fixed) => Some(fixed.negated()),
            None => None,
        }
    }

    /// The number of the other sign.
    pub fn negated(self) -> Fixed
        ensures { result ≡ neg_ℤ self }
    {
        Fixed {
            millionths: -self.millionths,
        }
    }

    /// The canonical text: no zeros at the front but one digit before the point, none at the end but
    /// one digit after it, and zero without a sign.
    pub fn text(self, alloc: Global) -> Result<String, AllocError>
        ensures { IfOk result (λ text. string_bytes text ≡ fixed_text self) }
    {
        let mut text = String::new(alloc);
        if self.millionths < 0 {
            text.push('-')?;
        }
        push_magnitude(&mut text, self.millionths.unsigned_abs())?;
        Ok(text)
    }

    /// How many millionths it is.
    pub fn millionths(self) -> i128
        ensures value { result ≡ self }
        ensures range { unsigned_abs self ≤ 9223372036854775807000000 }
    {
        self.millionths
    }
}

/// What a property of a message may be.
#[derive(Debug, Drop)]
pub enum Value {
    /// A whole number of magnitude at most 2^63 - 1.
    Whole(i64),
    Fixed(Fixed),
    /// A text of at most 8,192 bytes.
    Text(Str),
    Bool(bool),
}

impl Value {
    /// Whether a number or a text keeps its bound. A fixed number always does, and a text is UTF-8 by its
    /// type.
    pub fn is_in_range(&self) -> bool
        ensures { result ≡ is_in_range self.now }
    {
        match self {
            Value::Whole(n) => *n != i64::MIN,
            Value::Text(text) => is_short(text),
            Value::Fixed(fixed) => fixed.millionths().unsigned_abs() <= GREATEST_FIXED,
            Value::Bool(_) => true,
        }
    }

    /// The bytes of a text, and 0 for the other kinds.
    pub fn text_len(&self) -> usize
        ensures { result ≡ text_len self.now }
    {
        match self {
            Value::Text(text) => text.len(),
            Value::Whole(_) | Value::Fixed(_) | Value::Bool(_) => 0,
        }
    }

    /// A second value that equals this one.
    pub fn copy(&self, alloc: Global) -> Result<Value, AllocError>
        ensures { IfOk result (λ v. v ≡ self.now) }
    {
        match self {
            Value::Whole(n) => Ok(Value::Whole(*n)),
            Value::Fixed(f) => Ok(Value::Fixed(*f)),
            Value::Text(text) => Ok(Value::Text(text.copy(alloc)?)),
            Value::Bool(b) => Ok(Value::Bool(*b)),
        }
    }
}

fn is_short(text: &Str) -> bool
    ensures { result ≡ (nat_le (length text.now) LONGEST_TEXT && is_utf8 text.now) }
{
    text.as_str().len() <= LONGEST_TEXT
}

/// The number of millionths that a text without a sign stands for: digits, a point and one to six
/// digits. None exactly for another text, or above the greatest magnitude.
fn unsigned(text: &[u8]) -> Option<Fixed>
    ensures value { result ≡ unsigned_fixed_of text.now }
{
    let Some(whole) = whole(whole_part(text)) else {
        return None;
    };
    let Some(millionths) = millionths(decimal_part(text)) else {
        return None;
    };
    bounded(whole, millionths)
}

/// Whole and millionths together, which are fewer than a million. None exactly above the greatest
/// magnitude.
pub fn bounded(whole: u64, millionths: u64) -> Option<Fixed>
    requires { millionths < 1000000 }
    ensures { result ≡ bounded whole millionths }
{
    let magnitude = u128::from(whole) * 1_000_000 + u128::from(millionths);
    if magnitude > GREATEST_FIXED {
        return None;
    }
    Some(Fixed {
        millionths: magnitude as i128,
    })
}

fn has_minus(text: &[u8]) -> bool
    ensures { result ≡ has_minus text.now }
{
    match text.first() {
        Some(b) => *b == b'-',
        None => false,
    }
}

/// Appends the digits of a number of millionths, with its point.
fn push_magnitude(text: &mut String, millionths: u128) -> Result<(), AllocError>
    requires { millionths ≤ GREATEST_FIXED }
    ensures { OnOk result (string_bytes text.new ≡ string_bytes text.old ++ (decimal (millionths / 1000000) ++ 46 ∷ places_of 6 (millionths % 1000000))) }
{
    let whole = (millionths / 1_000_000) as u64;
    write!(text, "{whole}.")?;
    push_places(text, 6, (millionths % 1_000_000) as u32)
}
