ghost use Rattle.std.specs.Prelude.{◌≡◌, ◌++◌, ◌^◌, ◌<◌, ◌≤◌, ℕ, List, length, All, Option, IfOk, IfSome, OnOk};
ghost use Rattle.std.specs.Int.{w32, w64};
ghost use Rattle.sp_message.specs.Encoding.{list_bytes, number_bytes, option_bytes, text_bytes, truth_bytes, wide_bytes};
ghost use Rattle.sp_message.specs.Decoding.{Gives, byte_at, items_at, list_at, number_at, number_within_at, option_at, text_at, truth_at, wide_at};

use std::alloc::{AllocError, AllocFailed, Global};
use thiserror::Error;

/// Why no value was read from bytes.
#[derive(Debug, Drop, Error)]
pub enum ReadError {
    /// The bytes spell no value: they end too early, or a part is outside its form or range.
    #[error("the bytes spell no value")]
    NotOne,
    #[error("want of memory")]
    Memory,
}

impl From<AllocError> for ReadError {
    ghost use Rattle.sp_message.specs.declared.codec.ReadError.TheVariants.{Memory};
    ghost use Rattle.std.specs.Prelude.{◌≡◌};

    ghost from_gives = { λ _ e. e ≡ Memory };

    fn from(_: AllocError) -> Self {
        ReadError::Memory
    }
}

impl<T: Drop> From<AllocFailed<T>> for ReadError {
    ghost use Rattle.sp_message.specs.declared.codec.ReadError.TheVariants.{Memory};
    ghost use Rattle.std.specs.Prelude.{◌≡◌};

    ghost from_gives = { λ _ e. e ≡ Memory };

    fn from(_: AllocFailed<T>) -> Self {
        ReadError::Memory
    }
}

/// A way to spell values as bytes. Options and lists of values are spelled by it too.
pub trait Codec {
    /// What is written and read.
    type Item: Drop;

    /// What is asked of a value that is written.
    ghost fits: { Self.Item → Type 0 };

    /// What holds of each value that is written or read.
    ghost valid: { Self.Item → Type 0 };

    /// The spelling of a value.
    ghost bytes_of: { Self.Item → List ℕ };

    /// The value at the front of bytes, and the bytes after it.
    ghost read_at: { List ℕ → Option (Self.Item × List ℕ) };

    /// The value at the front of the bytes, and the bytes after it.
    fn read(alloc: Global, bytes: &[u8]) -> Result<(Self::Item, &[u8]), ReadError>
        ensures { Gives (λ x. (x.0, x.1.now)) result (read_at bytes.now) };

    /// Appends the spelling of a value.
    fn write(item: &Self::Item, into: &mut Vec<u8>) -> Result<(), AllocError>
        requires { fits item.now }
        ensures bytes { OnOk result (into.new.items ≡ into.old.items ++ bytes_of item.now) }
        ensures valid { OnOk result (valid item.now) };
}

/// Reads a byte.
pub fn read_byte(bytes: &[u8]) -> Result<(u8, &[u8]), ReadError>
    ensures { Gives (λ x. (x.0, x.1.now)) result (byte_at bytes.now) }
{
    match bytes {
        [] => Err(ReadError::NotOne),
        [byte, rest @ ..] => Ok((*byte, rest)),
    }
}

/// Appends a number: 8 bytes, the lowest first.
pub fn write_number(n: u64, into: &mut Vec<u8>) -> Result<(), AllocError>
    ensures { OnOk result (into.new.items ≡ into.old.items ++ number_bytes n) }
{
    into.extend_from_slice(&n.to_le_bytes())
}

/// Reads a number of 8 bytes.
pub fn read_number(bytes: &[u8]) -> Result<(u64, &[u8]), ReadError>
    ensures { Gives (λ x. (x.0, x.1.now)) result (number_at w64 bytes.now) }
{
    if bytes.len() < 8 {
        return Err(ReadError::NotOne);
    }
    let (front, rest) = bytes.split_at(8);
    let n = u64::from_le_bytes([
        front[0], front[1], front[2], front[3], front[4], front[5], front[6], front[7],
    ]);
    Ok((n, rest))
}

/// Reads a number of 8 bytes that is from `least` to `most`.
#[tactic(auto, unfolding(crate::specs::Decoding::number_within_at))]
pub fn read_number_within(bytes: &[u8], least: u64, most: u64) -> Result<(u64, &[u8]), ReadError>
    ensures read { Gives (λ x. (x.0, x.1.now)) result (number_within_at least most bytes.now) }
    ensures least { IfOk result (λ x. least ≤ x.0) }
    ensures most { IfOk result (λ x. x.0 ≤ most) }
{
    let (n, rest) = read_number(bytes)?;
    if n < least || n > most {
        return Err(ReadError::NotOne);
    }
    Ok((n, rest))
}

/// Appends a number of 16 bytes, the lowest first.
pub fn write_wide(n: u128, into: &mut Vec<u8>) -> Result<(), AllocError>
    ensures { OnOk result (into.new.items ≡ into.old.items ++ wide_bytes n) }
{
    let half = 1 << 64;
    write_number((n % half) as u64, into)?;
    write_number((n / half) as u64, into)
}

/// Reads a number of 16 bytes.
#[tactic(auto, unfolding(crate::specs::Decoding::wide_at))]
pub fn read_wide(bytes: &[u8]) -> Result<(u128, &[u8]), ReadError>
    ensures { Gives (λ x. (x.0, x.1.now)) result (wide_at bytes.now) }
{
    let (low, rest) = read_number(bytes)?;
    let (high, rest) = read_number(rest)?;
    Ok((u128::from(low) + u128::from(high) * (1 << 64), rest))
}

/// Appends a text or a payload: its length in 4 bytes, the lowest first, and its own bytes.
pub fn write_text(text: &[u8], into: &mut Vec<u8>) -> Result<(), AllocError>
    requires { length text.now < 2 ^ 32 }
    ensures { OnOk result (into.new.items ≡ into.old.items ++ text_bytes text.now) }
{
    into.extend_from_slice(&(text.len() as u32).to_le_bytes())?;
    into.extend_from_slice(text)
}

fn read_length(bytes: &[u8]) -> Result<(u32, &[u8]), ReadError>
    ensures { Gives (λ x. (x.0, x.1.now)) result (number_at w32 bytes.now) }
{
    if bytes.len() < 4 {
        return Err(ReadError::NotOne);
    }
    let (front, rest) = bytes.split_at(4);
    let n = u32::from_le_bytes([front[0], front[1], front[2], front[3]]);
    Ok((n, rest))
}

/// Reads a text or a payload.
#[tactic(auto, unfolding(crate::specs::Decoding::text_at))]
pub fn read_text(bytes: &[u8]) -> Result<(&[u8], &[u8]), ReadError>
    ensures { Gives (λ x. (x.0.now, x.1.now)) result (text_at bytes.now) }
{
    let (len, rest) = read_length(bytes)?;
    let len = len as usize;
    if rest.len() < len {
        return Err(ReadError::NotOne);
    }
    Ok(rest.split_at(len))
}

/// Appends a truth value: one byte, 0 or 1.
pub fn write_truth(truth: bool, into: &mut Vec<u8>) -> Result<(), AllocError>
    ensures { OnOk result (into.new.items ≡ into.old.items ++ truth_bytes truth) }
{
    if truth {
        into.push(1)?;
    } else {
        into.push(0)?;
    }
    Ok(())
}

/// Reads a truth value.
#[tactic(auto, unfolding(crate::specs::Decoding::truth_at))]
pub fn read_truth(bytes: &[u8]) -> Result<(bool, &[u8]), ReadError>
    ensures { Gives (λ x. (x.0, x.1.now)) result (truth_at bytes.now) }
{
    match bytes {
        [0, rest @ ..] => Ok((false, rest)),
        [1, rest @ ..] => Ok((true, rest)),
        _ => Err(ReadError::NotOne),
    }
}

/// Appends an option: 0, or 1 and the value.
pub fn write_option<C: Codec>(item: &Option<C::Item>, into: &mut Vec<u8>) -> Result<(), AllocError>
    requires { IfSome item.now C.fits }
    ensures bytes { OnOk result (into.new.items ≡ into.old.items ++ option_bytes C.bytes_of item.now) }
    ensures valid { OnOk result (IfSome item.now C.valid) }
{
    match item {
        None => {
            into.push(0)?;
            Ok(())
        }
        Some(item) => {
            into.push(1)?;
            C::write(item, into)
        }
    }
}

/// Reads an option.
#[tactic(auto, unfolding(crate::specs::Decoding::option_at))]
pub fn read_option<C: Codec>(
    alloc: Global,
    bytes: &[u8],
) -> Result<(Option<C::Item>, &[u8]), ReadError>
    ensures { Gives (λ x. (x.0, x.1.now)) result (option_at C.read_at bytes.now) }
{
    match bytes {
        [0, rest @ ..] => Ok((None, rest)),
        [1, rest @ ..] => {
            let (item, rest) = C::read(alloc, rest)?;
            Ok((Some(item), rest))
        }
        _ => Err(ReadError::NotOne),
    }
}

/// Appends a list: one byte with the number of its elements, and each of them.
pub fn write_list<C: Codec>(items: &[C::Item], into: &mut Vec<u8>) -> Result<(), AllocError>
    requires few { length items.now < 256 }
    requires each { All C.fits items.now }
    ensures bytes { OnOk result (into.new.items ≡ into.old.items ++ list_bytes C.bytes_of items.now) }
    ensures valid { OnOk result (All C.valid items.now) }
{
    into.push(items.len() as u8)?;
    for item in items {
        C::write(item, into)?;
    }
    Ok(())
}

/// Reads a list.
#[tactic(auto, unfolding(crate::specs::Decoding::list_at))]
pub fn read_list<C: Codec>(alloc: Global, bytes: &[u8]) -> Result<(Vec<C::Item>, &[u8]), ReadError>
    ensures { Gives (λ x. (x.0.items, x.1.now)) result (list_at C.read_at bytes.now) }
{
    let (count, rest) = read_byte(bytes)?;
    read_items::<C>(alloc, count, rest)
}

fn read_items<C: Codec>(
    alloc: Global,
    count: u8,
    bytes: &[u8],
) -> Result<(Vec<C::Item>, &[u8]), ReadError>
    ensures { Gives (λ x. (x.0.items, x.1.now)) result (items_at C.read_at count bytes.now) }
{
    let mut items = Vec::new(alloc);
    let mut rest = bytes;
    for _ in 0..count {
        let (item, after) = C::read(alloc, rest)?;
        items.push(item)?;
        rest = after;
    }
    Ok((items, rest))
}
