ghost use Rattle.std.specs.Prelude.{◌≡◌, ◌++◌, All, List, ℕ, IfOk, OnOk, OnErr, string_bytes, decimal};
ghost use Rattle.std.specs.List.{flat_map};
ghost use Rattle.sp_rdp.specs.Post.{escaped, value_text, kind_word, property_line, before_host, after_host, head_of, post_of};
ghost use Rattle.sp_rdp.specs.ReadBack.{IsShort, ReadsAs, ReadsValue};

use percent_encoding::{AsciiSet, CONTROLS, ascii_set, percent_encode};
use sp_base::failure::Memory;
use sp_message::payload::Payload;
use sp_message::property::{Properties, Property};
use sp_message::value::Value;
use std::alloc::{AllocError, Global};

/// What is escaped in a text, beside what isn't ASCII.
pub const ESCAPED: AsciiSet = ascii_set!(CONTROLS.add(b' ').add(b'%').add(b';'));

/// Appends the POST that carries a payload and its properties to a target of a host. Without memory
/// `into` stays as it was. The POST is read as what it was made of and nothing else, where the host
/// and the target are of their forms and the head keeps the limits of a request: at most 60
/// properties, and 8,192 bytes. Each property's field is read as its value, whatever the limits, by
/// a reader that undoes the percent-escapes of texts.
#[tactic(auto, using(crate::proofs::ValuesRead::values_read))]
pub fn post(
    alloc: Global,
    payload: &Payload,
    properties: &Properties,
    host: &[u8],
    target: &[u8],
    into: &mut Vec<u8>,
) -> Result<(), Memory>
    ensures ok { OnOk result (into.new.items ≡ into.old.items ++ post_of target.now host.now properties.now payload.now) }
    ensures err { OnErr result (into.new.items ≡ into.old.items) }
    ensures read_back { IsShort target.now host.now properties.now payload.now → (more : List ℕ) → ReadsAs (post_of target.now host.now properties.now payload.now ++ more) target.now host.now properties.now payload.now }
    ensures values { All ReadsValue properties.now }
{
    match append(
        alloc,
        payload.as_slice(),
        properties.as_slice(),
        host,
        target,
        into,
    ) {
        Ok(()) => Ok(()),
        Err(_) => Err(Memory),
    }
}

fn append(
    alloc: Global,
    payload: &[u8],
    properties: &[Property],
    host: &[u8],
    target: &[u8],
    into: &mut Vec<u8>,
) -> Result<(), AllocError>
    ensures ok { OnOk result (into.new.items ≡ into.old.items ++ post_of target.now host.now properties.now payload.now) }
    ensures err { OnErr result (into.new.items ≡ into.old.items) }
{
    let head = head(alloc, target, host, payload.len(), properties)?;
    into.reserve(head.len().saturating_add(payload.len()))?;
    into.extend_from_slice(head.as_slice())?;
    into.extend_from_slice(payload)?;
    Ok(())
}

fn head(
    alloc: Global,
    target: &[u8],
    host: &[u8],
    len: usize,
    properties: &[Property],
) -> Result<Vec<u8>, AllocError>
    ensures { IfOk result (λ head. head.items ≡ head_of target.now host.now len properties.now) }
{
    let lines = lines(alloc, properties)?;
    let rest = after_host(alloc, len as u64, lines.as_str())?;
    let mut head = Vec::new(alloc);
    put_target(&mut head, target)?;
    head.extend_from_slice(host)?;
    put_text(&mut head, rest.as_str())?;
    Ok(head)
}

fn put_target(bytes: &mut Vec<u8>, target: &[u8]) -> Result<(), AllocError>
    ensures { OnOk result (bytes.new.items ≡ bytes.old.items ++ before_host target.now) }
{
    put_text(bytes, "POST ")?;
    bytes.extend_from_slice(target)?;
    put_text(bytes, " HTTP/1.1\r\nHost: ")
}

fn put_text(bytes: &mut Vec<u8>, text: &str) -> Result<(), AllocError>
    ensures { OnOk result (bytes.new.items ≡ bytes.old.items ++ text.now) }
{
    bytes.extend_from_slice(text.as_bytes())
}

fn after_host(alloc: Global, len: u64, lines: &str) -> Result<String, AllocError>
    ensures { IfOk result (λ rest. string_bytes rest ≡ after_host len lines.now) }
{
    let len = number(alloc, len)?;
    let mut rest = String::from_str(
        alloc,
        "\r\nContent-Type: application/octet-stream\r\nContent-Length: ",
    )?;
    rest.push_str(len.as_str())?;
    rest.push_str("\r\nSolace-Delivery-Mode: Persistent\r\n")?;
    rest.push_str(lines)?;
    rest.push_str("\r\n")?;
    Ok(rest)
}

fn number(alloc: Global, n: u64) -> Result<String, AllocError>
    ensures { IfOk result (λ text. string_bytes text ≡ decimal n) }
{
    format!(in alloc; "{n}")
}

fn lines(alloc: Global, properties: &[Property]) -> Result<String, AllocError>
    ensures { IfOk result (λ lines. string_bytes lines ≡ flat_map property_line properties.now) }
{
    let mut lines = String::new(alloc);
    for property in properties {
        let line = line(alloc, property)?;
        lines.push_str(line.as_str())?;
    }
    Ok(lines)
}

fn line(alloc: Global, property: &Property) -> Result<String, AllocError>
    ensures { IfOk result (λ line. string_bytes line ≡ property_line property.now) }
{
    let value = value_text(alloc, &property.value)?;
    let mut line = String::from_str(alloc, "Solace-User-Property-")?;
    line.push_str(property.name.as_str())?;
    line.push_str(": ")?;
    line.push_str(value.as_str())?;
    line.push_str("; type=")?;
    line.push_str(kind_word(&property.value))?;
    line.push_str("\r\n")?;
    Ok(line)
}

fn kind_word(value: &Value) -> &'static str
    ensures { result.now ≡ kind_word value.now }
{
    match value {
        Value::Whole(_) => "int64",
        Value::Fixed(_) => "fixed",
        Value::Text(_) => "string",
        Value::Bool(_) => "bool",
    }
}

fn value_text(alloc: Global, value: &Value) -> Result<String, AllocError>
    ensures { IfOk result (λ text. string_bytes text ≡ value_text value.now) }
{
    match value {
        Value::Whole(n) => format!(in alloc; "{n}"),
        Value::Fixed(fixed) => fixed.text(alloc),
        Value::Text(text) => escaped(alloc, text.as_bytes()),
        Value::Bool(true) => String::from_str(alloc, "true"),
        Value::Bool(false) => String::from_str(alloc, "false"),
    }
}

#[tactic(auto, using(crate::proofs::Escapes::escapes))]
fn escaped(alloc: Global, text: &[u8]) -> Result<String, AllocError>
    ensures { IfOk result (λ out. string_bytes out ≡ escaped text.now) }
{
    let mut out = String::new(alloc);
    percent_encode(text, ESCAPED).append_to(&mut out)?;
    Ok(out)
}
