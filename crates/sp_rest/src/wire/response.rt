ghost use Rattle.std.specs.Prelude.{◌≡◌, ◌++◌, IfOk, OnOk, OnErr, IsTrue, string_bytes, decimal};
ghost use Rattle.sp_rest.specs.Wire.Codes.{is_response_code};
ghost use Rattle.sp_rest.specs.Wire.Response.{head_of, phrase_of, response};

use http::StatusCode;
use sp_base::failure::Memory;
use std::alloc::{AllocError, Global};

/// Appends a response with a body of JSON. The status is one of those that responses have, and its
/// phrase is the one that HTTP's registry gives. Without memory `into` stays as it was.
pub fn answer(alloc: Global, status: u16, body: &[u8], into: &mut Vec<u8>) -> Result<(), Memory>
    requires { IsTrue (is_response_code status) }
    ensures ok { OnOk result (into.new.items ≡ into.old.items ++ response status body.now) }
    ensures err { OnErr result (into.new.items ≡ into.old.items) }
{
    match append(alloc, status, body, into) {
        Ok(()) => Ok(()),
        Err(_) => Err(Memory),
    }
}

fn append(alloc: Global, status: u16, body: &[u8], into: &mut Vec<u8>) -> Result<(), AllocError>
    requires { IsTrue (is_response_code status) }
    ensures ok { OnOk result (into.new.items ≡ into.old.items ++ response status body.now) }
    ensures err { OnErr result (into.new.items ≡ into.old.items) }
{
    let head = head(alloc, status, phrase(status), body.len())?;
    into.reserve(head.len().saturating_add(body.len()))?;
    into.extend_from_slice(head.as_bytes())?;
    into.extend_from_slice(body)?;
    Ok(())
}

fn head(alloc: Global, status: u16, phrase: &str, len: usize) -> Result<String, AllocError>
    ensures { IfOk result (λ s. string_bytes s ≡ head_of status phrase.now len) }
{
    let status = number(alloc, status as u64)?;
    let len = number(alloc, len as u64)?;
    let mut head = String::from_str(alloc, "HTTP/1.1 ")?;
    head.push_str(status.as_str())?;
    head.push_str(" ")?;
    head.push_str(phrase)?;
    head.push_str("\r\nContent-Type: application/json\r\nContent-Length: ")?;
    head.push_str(len.as_str())?;
    head.push_str("\r\n\r\n")?;
    Ok(head)
}

fn number(alloc: Global, n: u64) -> Result<String, AllocError>
    ensures { IfOk result (λ s. string_bytes s ≡ decimal n) }
{
    format!(in alloc; "{n}")
}

fn phrase(status: u16) -> &'static str
    requires { IsTrue (is_response_code status) }
    ensures { result.now ≡ phrase_of status }
{
    match StatusCode::from_u16(status) {
        Ok(code) => code.canonical_reason().unwrap_or(""),
        Err(_) => "",
    }
}
