// Payloads in JSON: as text, or as base64.
ghost use Rattle.std.specs.Prelude.{◌≡◌, true, false, string_bytes, IfOk, IfSome, IfNone, OnOk};
ghost use Rattle.std.specs.Str.{is_utf8};
ghost use Rattle.serde_json.specs.View.{view, members_view};
ghost use Rattle.sp_json.specs.Payloads.{base64_of, from_base64, payload_from, payload_from64, payload_in, with_payload};

use crate::fields::{has_key, text_at};
use crate::members::{Members, put_text};
use base64::DecodeAllocError;
use base64::engine::general_purpose::STANDARD;
use serde_json::Value;
use sp_base::bytes::Bytes;
use sp_message::payload::{LONGEST_PAYLOAD, Payload};
use std::alloc::{AllocError, Global};

/// The payload that the fields `payload` or `payload64` give, empty where both are absent. None
/// where one is no payload.
pub fn payload_in(alloc: Global, value: &Value) -> Result<Option<Payload>, AllocError>
    ensures { IfOk result (λ r. r ≡ payload_in (view value.now)) }
{
    if has_key(value, "payload") {
        return match text_at(value, "payload") {
            Some(text) => payload_from(alloc, text.as_bytes()),
            None => Ok(None),
        };
    }
    if has_key(value, "payload64") {
        return match text_at(value, "payload64") {
            Some(text) => payload_from64(alloc, text.as_bytes()),
            None => Ok(None),
        };
    }
    Ok(Some(Payload::from_bytes(Bytes::from_vec(Vec::new(alloc)))))
}

fn payload_from(alloc: Global, bytes: &[u8]) -> Result<Option<Payload>, AllocError>
    ensures { IfOk result (λ r. r ≡ payload_from bytes.now) }
{
    if bytes.len() > LONGEST_PAYLOAD {
        return Ok(None);
    }
    let bytes = Bytes::copy_of(alloc, bytes)?;
    Ok(Some(Payload::from_bytes(bytes)))
}

fn payload_from64(alloc: Global, text: &[u8]) -> Result<Option<Payload>, AllocError>
    ensures { IfOk result (λ r. r ≡ payload_from64 text.now) }
{
    let Some(bytes) = from_base64(alloc, text)? else {
        return Ok(None);
    };
    if bytes.len() > LONGEST_PAYLOAD {
        return Ok(None);
    }
    Ok(Some(Payload::from_bytes(bytes)))
}

fn from_base64(alloc: Global, text: &[u8]) -> Result<Option<Bytes>, AllocError>
    ensures { IfOk result (λ r. r ≡ from_base64 text.now) }
{
    match STANDARD.decode(alloc, text) {
        Ok(bytes) => Ok(Some(Bytes::from_vec(bytes))),
        Err(DecodeAllocError::OutOfMemory) => Err(AllocError),
        Err(DecodeAllocError::DecodeError(_)) => Ok(None),
    }
}

/// Adds a payload to the fields of an object: as text where it is UTF-8, and else as base64.
pub fn put_payload(map: &mut Members, alloc: Global, payload: &[u8]) -> Result<(), AllocError>
    ensures { OnOk result (members_view map.new.entries ≡ with_payload payload.now (members_view map.old.entries)) }
{
    if let Some(text) = as_text(payload) {
        return put_text(map, alloc, "payload", text);
    }
    let text = to_base64(alloc, payload)?;
    put_text(map, alloc, "payload64", text.as_str())
}

// The text that bytes are, where they are UTF-8.
fn as_text(bytes: &[u8]) -> Option<&str>
    ensures text { IfSome result (λ s. (s.now ≡ bytes.now) × (is_utf8 bytes.now ≡ true)) }
    ensures none { IfNone result (is_utf8 bytes.now ≡ false) }
{
    match str::from_utf8(bytes) {
        Ok(text) => Some(text),
        Err(_) => None,
    }
}

fn to_base64(alloc: Global, bytes: &[u8]) -> Result<String, AllocError>
    ensures { IfOk result (λ text. string_bytes text ≡ base64_of bytes.now) }
{
    STANDARD.encode(alloc, bytes)
}
