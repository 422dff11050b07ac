use crate::outcome::Outcome;
use crate::post::post;
use crate::response::outcome;
use sp_base::bytes::Bytes;
use sp_base::text::Str;
use sp_message::payload::Payload;
use sp_message::property::{Properties, Property};
use sp_message::value::Value;
use std::alloc::{AllocError, Global};
use std::test::Fail;

#[test]
fn which_responses_accept(rt: HostRuntime) -> Result<(), Fail> {
    for (response, want) in [
        (&b"HTTP/1.1 200 OK\r\n\r\n"[..], Outcome::Accepted),
        (&b"HTTP/1.1 204 No Content\r\n\r\n"[..], Outcome::Accepted),
        (&b"HTTP/1.0 299 \r\n\r\n"[..], Outcome::Accepted),
        (&b"HTTP/1.1 200 OK\nA: b\n\nbody"[..], Outcome::Accepted),
        (&b"HTTP/1.1 199 Early\r\n\r\n"[..], Outcome::Failed),
        (&b"HTTP/1.1 300 Choices\r\n\r\n"[..], Outcome::Failed),
        (&b"HTTP/1.1 404 Not Found\r\n\r\n"[..], Outcome::Failed),
        (&b"HTTP/1.1 500 Broken\r\n\r\n"[..], Outcome::Failed),
        (&b"HTTP/2 200 OK\r\n\r\n"[..], Outcome::Failed),
        (&b"200 OK\r\n\r\n"[..], Outcome::Failed),
        (&b""[..], Outcome::Failed),
    ] {
        assert_eq!(rt; outcome(response), want);
    }
    Ok(())
}

#[test]
fn a_response_that_is_cut_anywhere_in_its_head_accepts_nothing(
    rt: HostRuntime,
) -> Result<(), Fail> {
    let whole = b"HTTP/1.1 204 No Content\r\nServer: x\r\n\r\nbody";
    let head = whole.len() - 4;
    for n in 0..whole.len() + 1 {
        let want = if n < head {
            Outcome::Failed
        } else {
            Outcome::Accepted
        };
        assert_eq!(rt; outcome(&whole[..n]), want);
    }
    Ok(())
}

#[test]
fn a_response_has_at_most_64_fields(rt: HostRuntime) -> Result<(), Fail> {
    let alloc = rt.alloc();
    for (fields, want) in [(64, Outcome::Accepted), (65, Outcome::Failed)] {
        let mut response = Vec::from_slice(alloc, b"HTTP/1.1 200 OK\r\n")?;
        for _ in 0..fields {
            response.extend_from_slice(b"A: 1\r\n")?;
        }
        response.extend_from_slice(b"\r\n")?;
        assert_eq!(rt; outcome(response.as_slice()), want);
    }
    Ok(())
}

#[test]
fn a_delivery_is_posted(rt: HostRuntime) -> Result<(), Fail> {
    let alloc = rt.alloc();
    let payload = Payload::from_bytes(Bytes::copy_of(alloc, b"hello")?);
    let mut out = Vec::new(alloc);
    post(
        alloc,
        &payload,
        &Properties::none(alloc),
        b"127.0.0.1:9000",
        b"/in",
        &mut out,
    )?;
    assert_eq!(rt;
        out.as_slice(),
        b"POST /in HTTP/1.1\r\nHost: 127.0.0.1:9000\r\nContent-Type: application/octet-stream\r\nContent-Length: 5\r\nSolace-Delivery-Mode: Persistent\r\n\r\nhello".as_slice()
    );
    Ok(())
}

fn named(alloc: Global, name: &str, value: Value) -> Result<Property, AllocError> {
    Ok(Property {
        name: Str::copy_of(alloc, name)?,
        value,
    })
}

#[test]
fn each_property_is_a_line(rt: HostRuntime) -> Result<(), Fail> {
    let alloc = rt.alloc();
    let rows = vec![in alloc;
        named(
            alloc,
            "A",
            Value::Text(Str::copy_of(alloc, "a b;%\r\nX: \u{e9}\u{7f}~")?)
        )?,
        named(alloc, "b", Value::Whole(-7))?,
        named(alloc, "c", Value::Bool(true))?,
        named(alloc, "d", Value::Bool(false))?,
    ]?;
    let Some(properties) = Properties::from_vec(rows) else {
        assert!(rt; false);
        return Ok(());
    };
    let payload = Payload::from_bytes(Bytes::copy_of(alloc, b"")?);
    let mut out = Vec::from_slice(alloc, b"before ")?;
    post(alloc, &payload, &properties, b"h", b"/", &mut out)?;
    assert_eq!(rt;
        out.as_slice(),
        b"before POST / HTTP/1.1\r\nHost: h\r\nContent-Type: application/octet-stream\r\nContent-Length: 0\r\nSolace-Delivery-Mode: Persistent\r\nSolace-User-Property-A: a%20b%3B%25%0D%0AX:%20%C3%A9%7F~; type=string\r\nSolace-User-Property-b: -7; type=int64\r\nSolace-User-Property-c: true; type=bool\r\nSolace-User-Property-d: false; type=bool\r\n\r\n".as_slice()
    );
    Ok(())
}
