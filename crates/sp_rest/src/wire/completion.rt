// Whether more bytes can make a request of those that are there. Where any bytes make a head of
// them, one of a few short texts does, so each of these is tried through the whole test.
ghost use Rattle.std.specs.Prelude.{◌≡◌, ◌<◌, IfOk, length};
ghost use Rattle.std.specs.Bool.{MatchBool};
ghost use Rattle.std.specs.List.{list_all};
ghost use Rattle.httparse.specs.Grammar.{HasNoRequest, MayBecomeRequest, is_uri_byte};
ghost use Rattle.sp_rest.specs.Wire.Completions.{HasHead, IsUnserved, NoFieldsEnd, NoVersionEnd, NoTarget};
ghost use Rattle.sp_rest.specs.Wire.Request.{MayBecome, NeverRequest};
ghost use Rattle.sp_rest.specs.Wire.Targets.{is_in_target};

use crate::wire::head::{Front, read_head};
use httparse::spans::EMPTY_HEADER_SPAN;
use std::alloc::{AllocError, Global};

/// Whether more bytes can make a request of bytes that have no whole head, and are fewer than a head
/// may have. Where they end within the target they may also be none for ever, as text that isn't UTF-8.
pub fn may_become(alloc: Global, bytes: &[u8]) -> Result<bool, AllocError>
    requires unread { HasNoRequest bytes.now }
    requires open_yet { MayBecomeRequest bytes.now }
    requires short { length bytes.now < 8192 }
    ensures { IfOk result (λ b. MatchBool b (MayBecome bytes.now) (NeverRequest bytes.now)) }
{
    if ends_in_target(bytes) {
        return Ok(true);
    }
    if fields_can_end(alloc, bytes)? {
        return Ok(true);
    }
    if version_can_end(alloc, bytes)? {
        return Ok(true);
    }
    if target_can_come(alloc, bytes)? {
        return Ok(true);
    }
    Ok(false)
}

/// Within the fields, or behind the version.
fn fields_can_end(alloc: Global, bytes: &[u8]) -> Result<bool, AllocError>
    ensures { IfOk result (λ b. MatchBool b (MayBecome bytes.now) (NoFieldsEnd bytes.now)) }
{
    if serves(alloc, bytes, "\n")? {
        return Ok(true);
    }
    if serves(alloc, bytes, "\n\n")? {
        return Ok(true);
    }
    if serves(alloc, bytes, "0\n\n")? {
        return Ok(true);
    }
    if serves(alloc, bytes, ":\n\n")? {
        return Ok(true);
    }
    if serves(alloc, bytes, "x:\n\n")? {
        return Ok(true);
    }
    Ok(false)
}

/// Within the version.
fn version_can_end(alloc: Global, bytes: &[u8]) -> Result<bool, AllocError>
    ensures { IfOk result (λ b. MatchBool b (MayBecome bytes.now) (NoVersionEnd bytes.now)) }
{
    if serves(alloc, bytes, "HTTP/1.1\n\n")? {
        return Ok(true);
    }
    if serves(alloc, bytes, "TTP/1.1\n\n")? {
        return Ok(true);
    }
    if serves(alloc, bytes, "TP/1.1\n\n")? {
        return Ok(true);
    }
    if serves(alloc, bytes, "P/1.1\n\n")? {
        return Ok(true);
    }
    if serves(alloc, bytes, "/1.1\n\n")? {
        return Ok(true);
    }
    if serves(alloc, bytes, "1.1\n\n")? {
        return Ok(true);
    }
    if serves(alloc, bytes, ".1\n\n")? {
        return Ok(true);
    }
    if serves(alloc, bytes, "1\n\n")? {
        return Ok(true);
    }
    Ok(false)
}

/// Before the target.
fn target_can_come(alloc: Global, bytes: &[u8]) -> Result<bool, AllocError>
    ensures { IfOk result (λ b. MatchBool b (MayBecome bytes.now) (NoTarget bytes.now)) }
{
    if serves(alloc, bytes, " / HTTP/1.1\n\n")? {
        return Ok(true);
    }
    if serves(alloc, bytes, "A / HTTP/1.1\n\n")? {
        return Ok(true);
    }
    if serves(alloc, bytes, "\nA / HTTP/1.1\n\n")? {
        return Ok(true);
    }
    Ok(false)
}

/// Whether a head within the limits is there with this text behind the bytes.
fn serves(alloc: Global, bytes: &[u8], text: &str) -> Result<bool, AllocError>
    ensures { IfOk result (λ b. MatchBool b (MayBecome bytes.now) (IsUnserved bytes.now text.now)) }
{
    let mut whole = Vec::from_slice(alloc, bytes)?;
    whole.extend_from_slice(text.as_bytes())?;
    Ok(has_head(whole.as_slice()))
}

fn has_head(bytes: &[u8]) -> bool
    ensures { MatchBool result (HasHead bytes.now) (¬ (HasHead bytes.now)) }
{
    let mut room = [EMPTY_HEADER_SPAN; 64];
    match read_head(bytes, &mut room) {
        Front::Head { .. } => true,
        Front::Unfinished => false,
        Front::Never => false,
    }
}

/// Whether the bytes end within a request's target.
fn ends_in_target(bytes: &[u8]) -> bool
    ensures { result ≡ is_in_target bytes.now }
{
    for i in 0..bytes.len() {
        if bytes[i] == b' ' {
            return is_target(&bytes[i + 1..]);
        }
    }
    false
}

fn is_target(bytes: &[u8]) -> bool
    ensures { result ≡ list_all is_uri_byte bytes.now }
{
    for byte in bytes {
        if !(*byte > b' ' && *byte != 127) {
            return false;
        }
    }
    true
}
