// The properties that the fields of a request give a message.
ghost use Rattle.std.specs.Prelude.{◌≡◌, ◌≤◌, length, take, drop, position, IfOk, IfSome, IfNone, OnOk, Some, [], option_map, true, false};
ghost use Rattle.std.specs.Str.{is_utf8, str_eq_ignore_ascii_case};
ghost use Rattle.std.specs.List.{filter, fold, position_or_len};
ghost use Rattle.sp_message.specs.Decimal.{has_minus};
ghost use Rattle.sp_message.specs.Property.{comes_before};
ghost use Rattle.sp_rest.specs.Publish.UserProperties.{text_in, whole_in, truth_in, value_as, value_in, is_user_property, property_in, placed, with_field, properties_in};

use crate::publish::suffix::{ValueKind, bare_of, has_suffix, kind_named, word_of};
use crate::wire::request::Field;
use sp_base::text::Str;
use sp_message::decimal::whole;
use sp_message::property::{Properties, Property};
use sp_message::value::{Fixed, Value};
use std::alloc::{AllocError, Global};

/// What the name of a field begins with that gives a property.
const PREFIX: &str = "Solace-User-Property-";

/// The properties that the fields give, in the order of their names. None where one has a name or a
/// value outside its form.
pub fn properties_in(alloc: Global, fields: &[Field]) -> Result<Option<Properties>, AllocError>
    ensures { IfOk result (λ r. r ≡ properties_in fields.now) }
{
    let Some(rows) = rows_in(alloc, fields)? else {
        return Ok(None);
    };
    Ok(Properties::from_vec(rows))
}

fn rows_in(alloc: Global, fields: &[Field]) -> Result<Option<Vec<Property>>, AllocError>
    ensures { IfOk result (λ r. option_map (λ rows. rows.items) r ≡ fold with_field (Some []) (filter is_user_property fields.now)) }
{
    let mut rows = Vec::new(alloc);
    for field in fields {
        if is_user_property(field) {
            match property_in(alloc, field)? {
                Some(property) => place(&mut rows, property)?,
                None => return Ok(None),
            }
        }
    }
    Ok(Some(rows))
}

fn place(rows: &mut Vec<Property>, property: Property) -> Result<(), AllocError>
    ensures { OnOk result (rows.new.items ≡ placed property rows.old.items) }
{
    let at = place_of(rows.as_slice(), &property);
    match rows.insert(at, property) {
        Ok(()) => Ok(()),
        Err(_) => Err(AllocError),
    }
}

fn place_of(rows: &[Property], property: &Property) -> usize
    ensures value { result ≡ position_or_len (comes_before property.now) rows.now }
    ensures bound { result ≤ length rows.now }
{
    match first_after(rows, property) {
        Some(at) => at,
        None => rows.len(),
    }
}

fn first_after(rows: &[Property], property: &Property) -> Option<usize>
    ensures { result ≡ position (comes_before property.now) rows.now }
{
    rows.iter().position(|row| comes_before(property, row))
}

fn comes_before(first: &Property, second: &Property) -> bool
    ensures { result ≡ comes_before first.now second.now }
{
    first.name.as_bytes().cmp(second.name.as_bytes()).is_lt()
}

/// Whether a field gives a property, by its name.
pub fn is_user_property(field: &Field) -> bool
    ensures { result ≡ is_user_property field.now }
{
    is_same(front_of(field.name.as_slice()), PREFIX)
}

fn is_same(bytes: &[u8], text: &str) -> bool
    ensures { result ≡ str_eq_ignore_ascii_case bytes.now text.now }
{
    bytes.eq_ignore_ascii_case(text.as_bytes())
}

// As many bytes as the prefix has, or all of fewer.
#[tactic(auto, using(crate::proofs::Prefixes::taken))]
fn front_of(name: &[u8]) -> &[u8]
    ensures { result.now ≡ take 21 name.now }
{
    if name.len() < 21 { name } else { &name[..21] }
}

// What stands behind that front.
#[tactic(auto, using(crate::proofs::Prefixes::dropped))]
fn behind_front(name: &[u8]) -> &[u8]
    ensures { result.now ≡ drop 21 name.now }
{
    if name.len() < 21 { &[] } else { &name[21..] }
}

fn property_in(alloc: Global, field: &Field) -> Result<Option<Property>, AllocError>
    ensures { IfOk result (λ r. r ≡ property_in field.now) }
{
    let Some(name) = text_in(alloc, behind_front(field.name.as_slice()))? else {
        return Ok(None);
    };
    let Some(value) = value_in(alloc, field.value.as_slice())? else {
        return Ok(None);
    };
    Ok(Some(Property { name, value }))
}

fn value_in(alloc: Global, value: &[u8]) -> Result<Option<Value>, AllocError>
    ensures { IfOk result (λ r. r ≡ value_in value.now) }
{
    if has_suffix(value) {
        return match kind_named(word_of(value)) {
            Some(kind) => value_as(alloc, kind, bare_of(value)),
            None => Ok(None),
        };
    }
    value_as(alloc, ValueKind::Text, value)
}

fn value_as(alloc: Global, kind: ValueKind, text: &[u8]) -> Result<Option<Value>, AllocError>
    ensures { IfOk result (λ r. r ≡ value_as kind text.now) }
{
    match kind {
        ValueKind::Text => Ok(text_in(alloc, text)?.map(Value::Text)),
        ValueKind::Whole => Ok(whole_in(text).map(Value::Whole)),
        ValueKind::Bool => Ok(truth_in(text).map(Value::Bool)),
        ValueKind::Fixed => Ok(Fixed::read(text).map(Value::Fixed)),
    }
}

fn text_in(alloc: Global, bytes: &[u8]) -> Result<Option<Str>, AllocError>
    ensures { IfOk result (λ r. r ≡ text_in bytes.now) }
{
    match as_text(bytes) {
        Some(text) => Ok(Some(Str::copy_of(alloc, text)?)),
        None => Ok(None),
    }
}

// The text that bytes are, where they are UTF-8.
fn as_text(bytes: &[u8]) -> Option<&str>
    ensures text { IfSome result (λ text. text.now ≡ bytes.now) }
    ensures some { IfSome result (λ text. is_utf8 bytes.now ≡ true) }
    ensures none { IfNone result (is_utf8 bytes.now ≡ false) }
{
    match str::from_utf8(bytes) {
        Ok(text) => Some(text),
        Err(_) => None,
    }
}

fn whole_in(text: &[u8]) -> Option<i64>
    ensures { result ≡ whole_in text.now }
{
    if has_minus(text) {
        return match whole(&text[1..]) {
            Some(n) => Some(-(n as i64)),
            None => None,
        };
    }
    match whole(text) {
        Some(n) => Some(n as i64),
        None => None,
    }
}

fn has_minus(text: &[u8]) -> bool
    ensures { result ≡ has_minus text.now }
{
    match text.first() {
        Some(b) => *b == b'-',
        None => false,
    }
}

fn truth_in(text: &[u8]) -> Option<bool>
    ensures { result ≡ truth_in text.now }
{
    if text == b"true".as_slice() {
        return Some(true);
    }
    if text == b"false".as_slice() {
        return Some(false);
    }
    None
}
