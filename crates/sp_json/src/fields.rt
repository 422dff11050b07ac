// The fields of a JSON object, and the values that they give.
ghost use Rattle.std.specs.Prelude.{◌≡◌, option_map, IfOk};
ghost use Rattle.serde_json.specs.View.{view};
ghost use Rattle.sp_json.specs.Fields.{has_key, text_at, optional_text_at, choice_at, choice_or, name_from, name_at, optional_name_at, flag_at, flag_or, whole_at, ranged_at, ranged_or, optional_ranged_at};

use serde_json::Value;
use sp_base::choice::{Choice, named};
use sp_base::name::{Name, NameError};
use sp_base::number::Ranged;
use std::alloc::{AllocError, Global};

/// Whether there is a field of this name.
pub fn has_key(value: &Value, key: &str) -> bool
    ensures { result ≡ has_key key.now (view value.now) }
{
    value.get(key).is_some()
}

/// The text in a field.
pub fn text_at<'a>(value: &'a Value, key: &str) -> Option<&'a str>
    ensures { option_map (λ s. s.now) result ≡ text_at key.now (view value.now) }
{
    value.get(key).and_then(Value::as_str)
}

/// The text in a field that may be absent. None where the field is there and is no text.
pub fn optional_text_at<'a>(value: &'a Value, key: &str) -> Option<Option<&'a str>>
    ensures { option_map (option_map (λ s. s.now)) result ≡ optional_text_at key.now (view value.now) }
{
    if !has_key(value, key) {
        return Some(None);
    }
    text_at(value, key).map(Some)
}

/// The choice that a field names. None where the field is no word for one.
pub fn choice_at<C: Choice>(value: &Value, key: &str) -> Option<C>
    ensures { result ≡ choice_at C.word_of C.choices key.now (view value.now) }
{
    let word = text_at(value, key)?;
    named(word)
}

/// The choice that a field names, or this one where the field is absent. None where the field is
/// there and is no word for a choice.
pub fn choice_or<C: Choice>(value: &Value, key: &str, absent: C) -> Option<C>
    ensures { result ≡ choice_or C.word_of C.choices absent key.now (view value.now) }
{
    if !has_key(value, key) {
        return Some(absent);
    }
    choice_at(value, key)
}

/// The name in a field. None where the field is no name.
pub fn name_at(alloc: Global, value: &Value, key: &str) -> Result<Option<Name>, AllocError>
    ensures { IfOk result (λ r. r ≡ name_at key.now (view value.now)) }
{
    let Some(text) = text_at(value, key) else {
        return Ok(None);
    };
    name_from(alloc, text)
}

/// The name that a text is. None where it is none.
pub fn name_from(alloc: Global, text: &str) -> Result<Option<Name>, AllocError>
    ensures { IfOk result (λ r. r ≡ name_from text.now) }
{
    match Name::read(alloc, text.as_bytes()) {
        Ok(name) => Ok(Some(name)),
        Err(NameError::BadName) => Ok(None),
        Err(NameError::Memory) => Err(AllocError),
    }
}

/// The name in a field that may be absent. None where the field is there and is no name.
pub fn optional_name_at(
    alloc: Global,
    value: &Value,
    key: &str,
) -> Result<Option<Option<Name>>, AllocError>
    ensures { IfOk result (λ r. r ≡ optional_name_at key.now (view value.now)) }
{
    if !has_key(value, key) {
        return Ok(Some(None));
    }
    match name_at(alloc, value, key)? {
        Some(name) => Ok(Some(Some(name))),
        None => Ok(None),
    }
}

fn flag_at(value: &Value, key: &str) -> Option<bool>
    ensures { result ≡ flag_at key.now (view value.now) }
{
    value.get(key).and_then(Value::as_bool)
}

/// The truth value in a field, or this one where the field is absent. None where the field is there
/// and is neither `true` nor `false`.
pub fn flag_or(value: &Value, key: &str, absent: bool) -> Option<bool>
    ensures { result ≡ flag_or absent key.now (view value.now) }
{
    if !has_key(value, key) {
        return Some(absent);
    }
    flag_at(value, key)
}

// The whole number in a field, which is an integer from 0 to 2^64 - 1.
fn whole_at(value: &Value, key: &str) -> Option<u64>
    ensures { result ≡ whole_at key.now (view value.now) }
{
    value.get(key).and_then(Value::as_u64)
}

/// The number in a field. None where the field is no whole number in the range.
pub fn ranged_at<K, const LEAST: u64, const MOST: u64>(
    value: &Value,
    key: &str,
) -> Option<Ranged<K, LEAST, MOST>>
    ensures { result ≡ ranged_at LEAST MOST key.now (view value.now) }
{
    let number = whole_at(value, key)?;
    Ranged::new(number)
}

/// The number in a field, or this one where the field is absent. None where the field is there and
/// is no whole number in the range.
pub fn ranged_or<K, const LEAST: u64, const MOST: u64>(
    value: &Value,
    key: &str,
    absent: Ranged<K, LEAST, MOST>,
) -> Option<Ranged<K, LEAST, MOST>>
    ensures { result ≡ ranged_or LEAST MOST absent key.now (view value.now) }
{
    if !has_key(value, key) {
        return Some(absent);
    }
    ranged_at(value, key)
}

/// The number in a field that may be absent. None where the field is there and is no whole number in
/// the range.
pub fn optional_ranged_at<K, const LEAST: u64, const MOST: u64>(
    value: &Value,
    key: &str,
) -> Option<Option<Ranged<K, LEAST, MOST>>>
    ensures { result ≡ optional_ranged_at LEAST MOST key.now (view value.now) }
{
    if !has_key(value, key) {
        return Some(None);
    }
    ranged_at(value, key).map(Some)
}
