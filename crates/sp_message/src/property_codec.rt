ghost use Rattle.std.specs.Prelude.{◌≡◌, ◌++◌, true, OnOk};
ghost use Rattle.sp_message.specs.Decoding.{Gives};
ghost use Rattle.sp_message.specs.Encoding.{list_bytes, wide_bytes};
ghost use Rattle.std.specs.Int.{cast_unsigned, w128};
ghost use Rattle.sp_message.specs.MessageBytes.{property_bytes, value_bytes};
ghost use Rattle.sp_message.specs.MessageReading.{fixed_at, properties_at, property_at, value_at, whole_at};
ghost use Rattle.sp_message.specs.Property.{are_properties, is_property};
ghost use Rattle.sp_message.specs.Value.{is_in_range};

use crate::codec::{
    Codec, ReadError, read_list, read_number, read_truth, read_wide, write_list, write_number,
    write_text, write_truth, write_wide,
};
use crate::property::{Properties, Property, is_property};
use crate::texts::read_str;
use crate::value::{Fixed, Value};
use std::alloc::{AllocError, Global};

/// Properties as bytes: the name's text, and the value.
pub struct PropertyCodec;

impl Codec for PropertyCodec {
    ghost use Rattle.std.specs.Prelude.{◌≡◌, true};
    ghost use Rattle.sp_message.specs.MessageBytes.{property_bytes};
    ghost use Rattle.sp_message.specs.MessageReading.{property_at};
    ghost use Rattle.sp_message.specs.Property.{is_property};

    type Item = Property;

    ghost fits = { λ p. is_property p ≡ true };

    ghost valid = { λ p. is_property p ≡ true };

    ghost bytes_of = { property_bytes };

    ghost read_at = { property_at };

    #[tactic(auto, unfolding(crate::specs::MessageReading::property_at))]
    fn read(alloc: Global, bytes: &[u8]) -> Result<(Property, &[u8]), ReadError> {
        let (name, rest) = read_str(alloc, bytes)?;
        let (value, rest) = read_value(alloc, rest)?;
        let property = Property { name, value };
        if !is_property(&property) {
            return Err(ReadError::NotOne);
        }
        Ok((property, rest))
    }

    fn write(property: &Property, into: &mut Vec<u8>) -> Result<(), AllocError> {
        write_text(property.name.as_bytes(), into)?;
        write_value(&property.value, into)
    }
}

fn write_value(value: &Value, into: &mut Vec<u8>) -> Result<(), AllocError>
    requires { is_in_range value.now ≡ true }
    ensures { OnOk result (into.new.items ≡ into.old.items ++ value_bytes value.now) }
{
    match value {
        Value::Whole(n) => {
            into.push(0)?;
            write_number(n.cast_unsigned(), into)
        }
        Value::Fixed(fixed) => {
            into.push(1)?;
            write_fixed(*fixed, into)
        }
        Value::Text(text) => {
            into.push(2)?;
            write_text(text.as_bytes(), into)
        }
        Value::Bool(truth) => {
            into.push(3)?;
            write_truth(*truth, into)
        }
    }
}

fn write_fixed(fixed: Fixed, into: &mut Vec<u8>) -> Result<(), AllocError>
    ensures { OnOk result (into.new.items ≡ into.old.items ++ wide_bytes (cast_unsigned w128 fixed)) }
{
    write_wide(fixed.millionths().cast_unsigned(), into)
}

#[tactic(auto, unfolding(crate::specs::MessageReading::value_at))]
fn read_value(alloc: Global, bytes: &[u8]) -> Result<(Value, &[u8]), ReadError>
    ensures { Gives (λ x. (x.0, x.1.now)) result (value_at bytes.now) }
{
    match bytes {
        [0, rest @ ..] => read_whole(rest),
        [1, rest @ ..] => read_fixed(rest),
        [2, rest @ ..] => {
            let (text, rest) = read_str(alloc, rest)?;
            Ok((Value::Text(text), rest))
        }
        [3, rest @ ..] => {
            let (truth, rest) = read_truth(rest)?;
            Ok((Value::Bool(truth), rest))
        }
        _ => Err(ReadError::NotOne),
    }
}

#[tactic(auto, unfolding(crate::specs::MessageReading::whole_at))]
fn read_whole(bytes: &[u8]) -> Result<(Value, &[u8]), ReadError>
    ensures { Gives (λ x. (x.0, x.1.now)) result (whole_at bytes.now) }
{
    let (n, rest) = read_number(bytes)?;
    Ok((Value::Whole(n.cast_signed()), rest))
}

#[tactic(auto, unfolding(crate::specs::MessageReading::fixed_at))]
fn read_fixed(bytes: &[u8]) -> Result<(Value, &[u8]), ReadError>
    ensures { Gives (λ x. (x.0, x.1.now)) result (fixed_at bytes.now) }
{
    let (n, rest) = read_wide(bytes)?;
    match Fixed::new(n.cast_signed()) {
        Some(fixed) => Ok((Value::Fixed(fixed), rest)),
        None => Err(ReadError::NotOne),
    }
}

/// Appends properties: one byte with their number, and each of them.
pub fn write_properties(properties: &Properties, into: &mut Vec<u8>) -> Result<(), AllocError>
    ensures rule { are_properties properties.now ≡ true }
    ensures bytes { OnOk result (into.new.items ≡ into.old.items ++ list_bytes property_bytes properties.now) }
{
    write_list::<PropertyCodec>(properties.as_slice(), into)
}

/// Reads properties.
#[tactic(auto, unfolding(crate::specs::MessageReading::properties_at))]
pub fn read_properties(alloc: Global, bytes: &[u8]) -> Result<(Properties, &[u8]), ReadError>
    ensures { Gives (λ x. (x.0, x.1.now)) result (properties_at bytes.now) }
{
    let (rows, rest) = read_list::<PropertyCodec>(alloc, bytes)?;
    match Properties::from_vec(rows) {
        Some(properties) => Ok((properties, rest)),
        None => Err(ReadError::NotOne),
    }
}
