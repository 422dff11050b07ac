// What the fields of a request say of the message.
ghost use Rattle.std.specs.Prelude.{◌≡◌, false, IfOk, option_map};
ghost use Rattle.std.specs.List.{list_any};
ghost use Rattle.sp_rest.specs.Publish.Headers.{is_called, is_read, has_twice, value_of, is_text, read_or, direct_in, ttl_in, eligible_in, headers_in};

use crate::publish::user_properties::{is_user_property, properties_in};
use crate::wire::request::Field;
use sp_message::decimal::whole;
use sp_message::message::TimeToLive;
use sp_message::property::Properties;
use std::alloc::{AllocError, Global};

const DELIVERY_MODE: &str = "Solace-Delivery-Mode";

const TIME_TO_LIVE: &str = "Solace-Time-To-Live-In-ms";

const ELIGIBLE: &str = "Solace-DMQ-Eligible";

/// What the fields of a request say of the message.
#[derive(Debug, Drop)]
pub struct Headers {
    /// Whether it would pass by without being spooled.
    pub direct: bool,
    pub ttl: TimeToLive,
    /// Whether a dead copy may be moved to a dead-message queue.
    pub eligible: bool,
    pub properties: Properties,
}

/// What the fields say. None where a value or the name of a property is outside its form, or a field
/// that is read here is given twice.
pub fn headers_in(alloc: Global, fields: &[Field]) -> Result<Option<Headers>, AllocError>
    ensures { IfOk result (λ r. r ≡ headers_in fields.now) }
{
    if has_twice(fields) {
        return Ok(None);
    }
    let Some(direct) = direct_or(value_of(fields, DELIVERY_MODE)) else {
        return Ok(None);
    };
    let Some(ttl) = ttl_or(value_of(fields, TIME_TO_LIVE)) else {
        return Ok(None);
    };
    let Some(eligible) = eligible_or(value_of(fields, ELIGIBLE)) else {
        return Ok(None);
    };
    let Some(properties) = properties_in(alloc, fields)? else {
        return Ok(None);
    };
    Ok(Some(Headers {
        direct,
        ttl,
        eligible,
        properties,
    }))
}

fn has_twice(fields: &[Field]) -> bool
    ensures { result ≡ has_twice fields.now }
{
    for i in 0..fields.len() {
        if is_read(&fields[i]) && has_called(&fields[i + 1..], fields[i].name.as_slice()) {
            return true;
        }
    }
    false
}

fn has_called(fields: &[Field], name: &[u8]) -> bool
    ensures { result ≡ list_any (is_called name.now) fields.now }
{
    fields.iter().any(|field| is_called(field, name))
}

fn is_called(field: &Field, name: &[u8]) -> bool
    ensures { result ≡ is_called name.now field.now }
{
    field.name.as_slice().eq_ignore_ascii_case(name)
}

fn is_read(field: &Field) -> bool
    ensures { result ≡ is_read field.now }
{
    is_called(field, DELIVERY_MODE.as_bytes())
        || is_called(field, TIME_TO_LIVE.as_bytes())
        || is_called(field, ELIGIBLE.as_bytes())
        || is_user_property(field)
}

fn value_of<'a>(fields: &'a [Field], name: &str) -> Option<&'a [u8]>
    ensures { option_map (λ value. value.now) result ≡ value_of name.now fields.now }
{
    fields
        .iter()
        .find(|field| is_called(field, name.as_bytes()))
        .map(|field| field.value.as_slice())
}

fn direct_or(value: Option<&[u8]>) -> Option<bool>
    ensures { result ≡ read_or false direct_in (option_map (λ v. v.now) value.entry) }
{
    match value {
        Some(value) => direct_in(value),
        None => Some(false),
    }
}

fn ttl_or(value: Option<&[u8]>) -> Option<TimeToLive>
    ensures { result ≡ read_or 0 ttl_in (option_map (λ v. v.now) value.entry) }
{
    match value {
        Some(value) => ttl_in(value),
        None => Some(TimeToLive::of(0)),
    }
}

fn eligible_or(value: Option<&[u8]>) -> Option<bool>
    ensures { result ≡ read_or false eligible_in (option_map (λ v. v.now) value.entry) }
{
    match value {
        Some(value) => eligible_in(value),
        None => Some(false),
    }
}

fn is_text(value: &[u8], text: &str) -> bool
    ensures { result ≡ is_text text.now value.now }
{
    value.eq_ignore_ascii_case(text.as_bytes())
}

fn direct_in(value: &[u8]) -> Option<bool>
    ensures { result ≡ direct_in value.now }
{
    if is_text(value, "Direct") {
        return Some(true);
    }
    if is_text(value, "Non-Persistent") || is_text(value, "Persistent") {
        return Some(false);
    }
    None
}

fn ttl_in(value: &[u8]) -> Option<TimeToLive>
    ensures { result ≡ ttl_in value.now }
{
    match whole(value) {
        Some(n) => TimeToLive::new(n),
        None => None,
    }
}

fn eligible_in(value: &[u8]) -> Option<bool>
    ensures { result ≡ eligible_in value.now }
{
    if is_text(value, "true") {
        return Some(true);
    }
    if is_text(value, "false") {
        return Some(false);
    }
    None
}
