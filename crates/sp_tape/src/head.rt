// The first line of an entry.
ghost use Rattle.std.specs.Prelude.{◌≡◌, ◌==◌, ◌<◌, ◌+◌, length, option_map, position, IfOk, IfSome};
ghost use Rattle.sp_tape.specs.Cut.{cut};
ghost use Rattle.sp_tape.specs.Head.{after_at, head_of, head_from, moment_from, length_from, caller_from};

use crate::entry::Kind;
use crate::numeral::number_from;
use sp_base::moment::Moment;
use sp_base::name::{Name, NameError};
use std::alloc::{AllocError, Global};

/// The most bytes that an entry has behind its first line.
pub const LONGEST_BODY: u64 = 8_388_608;

/// What the first line of an entry says.
#[derive(Debug, Drop)]
pub struct Head {
    pub caller: Name,
    pub kind: Kind,
    pub moment: Moment,
    /// How many bytes follow the line, without the line feed behind them.
    pub len: u64,
}

/// What a line says, where it is the first of an entry. The line is without its line feed.
pub fn read_head(alloc: Global, line: &[u8]) -> Result<Option<Head>, AllocError>
    ensures { IfOk result (λ r. r ≡ head_of line.now) }
{
    let Some(rest) = after_at(line) else {
        return Ok(None);
    };
    let Some((caller, rest)) = cut(rest, b' ') else {
        return Ok(None);
    };
    let Some((kind, rest)) = cut(rest, b' ') else {
        return Ok(None);
    };
    let Some((moment, len)) = cut(rest, b' ') else {
        return Ok(None);
    };
    read_fields(alloc, caller, kind, moment, len)
}

fn after_at(line: &[u8]) -> Option<&[u8]>
    ensures { option_map (λ rest. rest.now) result ≡ after_at line.now }
{
    match line {
        [b'@', rest @ ..] => Some(rest),
        _ => None,
    }
}

/// Both sides of the first such byte.
#[tactic(auto, using(std::proofs::lemmas::List::take_rest, crate::proofs::Cuts::cut_by_position))]
pub fn cut(bytes: &[u8], byte: u8) -> Option<(&[u8], &[u8])>
    ensures { option_map (λ p. (p.0.now, p.1.now)) result ≡ cut byte bytes.now }
{
    match find(bytes, byte) {
        Some(at) => Some((&bytes[..at], &bytes[at + 1..])),
        None => None,
    }
}

fn find(bytes: &[u8], byte: u8) -> Option<usize>
    ensures at { result ≡ position (λ x. x == byte) bytes.now }
    ensures within { IfSome result (λ i. i < length bytes.now) }
{
    bytes.iter().position(|b| *b == byte)
}

fn read_fields(
    alloc: Global,
    caller: &[u8],
    kind: &[u8],
    moment: &[u8],
    len: &[u8],
) -> Result<Option<Head>, AllocError>
    ensures { IfOk result (λ r. r ≡ head_from caller.now kind.now moment.now len.now) }
{
    let Some(caller) = caller_from(alloc, caller)? else {
        return Ok(None);
    };
    let Some(kind) = Kind::named(kind) else {
        return Ok(None);
    };
    let Some(moment) = moment_from(moment) else {
        return Ok(None);
    };
    let Some(len) = length_from(kind, len) else {
        return Ok(None);
    };
    Ok(Some(Head {
        caller,
        kind,
        moment,
        len,
    }))
}

fn caller_from(alloc: Global, text: &[u8]) -> Result<Option<Name>, AllocError>
    ensures { IfOk result (λ r. r ≡ caller_from text.now) }
{
    match Name::read(alloc, text) {
        Ok(name) => {
            if name.is_caller() {
                Ok(Some(name))
            } else {
                Ok(None)
            }
        }
        Err(NameError::BadName) => Ok(None),
        Err(NameError::Memory) => Err(AllocError),
    }
}

fn moment_from(text: &[u8]) -> Option<Moment>
    ensures { result ≡ moment_from text.now }
{
    let value = number_from(text)?;
    Moment::new(value)
}

// A restart has no bytes.
fn length_from(kind: Kind, text: &[u8]) -> Option<u64>
    ensures { result ≡ length_from kind text.now }
{
    let len = number_from(text)?;
    let most = match kind {
        Kind::Restart => 0,
        _ => LONGEST_BODY,
    };
    if len > most { None } else { Some(len) }
}
