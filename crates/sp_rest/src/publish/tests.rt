use crate::publish::publish;
use crate::wire::cut::cut;
use crate::wire::request::Cut;
use sp_base::declined::Declined;
use sp_base::failure::Memory;
use sp_base::refusal::Refusal;
use sp_event::request::Event;
use sp_message::message::{Dest, Message};
use sp_message::value::Value;
use std::alloc::Global;
use std::test::Fail;

/// What a request was read as: the message, the refusal, or nothing but want of memory.
#[derive(Debug, Drop)]
enum Reading {
    Message(Message),
    Refused(Refusal),
    Nothing,
}

fn read(alloc: Global, bytes: &[u8]) -> Reading {
    let Ok(Cut::Whole { request, used: _ }) = cut(alloc, bytes) else {
        return Reading::Nothing;
    };
    match publish(alloc, &request) {
        Ok(Event::Publish { message }) => Reading::Message(message),
        Ok(_) => Reading::Nothing,
        Err(Declined::Refused(refusal)) => Reading::Refused(refusal),
        Err(Declined::Memory) => Reading::Nothing,
    }
}

/// A request to a path, with these fields and without a body.
fn request(alloc: Global, path: &[u8], fields: &[u8]) -> Result<Vec<u8>, Memory> {
    let mut bytes = Vec::new(alloc);
    for part in [
        b"POST ".as_slice(),
        path,
        b" HTTP/1.1\r\n".as_slice(),
        fields,
        b"\r\n".as_slice(),
    ] {
        if bytes.extend_from_slice(part).is_err() {
            return Err(Memory);
        }
    }
    Ok(bytes)
}

fn bad_at(read: &Reading) -> Option<u64> {
    match read {
        Reading::Refused(Refusal::BadRequest { at }) => Some(*at),
        _ => None,
    }
}

#[test]
fn a_request_publishes_a_message(rt: HostRuntime) -> Result<(), Fail> {
    let read = read(
        rt.alloc(),
        b"POST /TOPIC/orders/new HTTP/1.1\r\nSolace-Delivery-Mode: Persistent\r\nSolace-User-Property-region: eu\r\nContent-Length: 2\r\n\r\nhi",
    );
    match &read {
        Reading::Message(message) => {
            match &message.dest {
                Dest::Topic(topic) => assert_eq!(rt; topic.as_str(), "orders/new"),
                Dest::Queue(_) => assert!(rt; false),
            }
            assert_eq!(rt; message.payload.as_slice(), b"hi".as_slice());
            assert_eq!(rt; message.ttl.value(), 0);
            assert!(rt; !message.eligible);
            let properties = message.properties.as_slice();
            assert_eq!(rt; properties.len(), 1);
            assert_eq!(rt; properties[0].name.as_str(), "region");
            match &properties[0].value {
                Value::Text(text) => assert_eq!(rt; text.as_str(), "eu"),
                _ => assert!(rt; false),
            }
        }
        _ => assert!(rt; false),
    }
    Ok(())
}

#[test]
fn which_paths_lead_where(rt: HostRuntime) -> Result<(), Fail> {
    let alloc = rt.alloc();
    for (path, want) in [
        (&b"/TOPIC/a/b"[..], "a/b"),
        (&b"/TOPIC/a%2Fb"[..], "a/b"),
        (&b"/TOPIC/a%2"[..], "a%2"),
        (&b"/TOPIC/%zz?"[..], "%zz"),
        (&b"/TOPIC//"[..], "/"),
        (&b"/QUEUE/q%231"[..], "q#1"),
        (&b"/QUEUE/a/b?"[..], "a/b"),
    ] {
        let bytes = request(alloc, path, b"")?;
        match read(alloc, bytes.as_slice()) {
            Reading::Message(message) => {
                assert_eq!(rt; message.dest.as_bytes(), want.as_bytes());
            }
            _ => assert!(rt; false),
        }
    }
    Ok(())
}

#[test]
fn which_requests_are_bad(rt: HostRuntime) -> Result<(), Fail> {
    let alloc = rt.alloc();
    for (path, fields, at) in [
        (&b"/TOPIC"[..], &b""[..], 5),
        (&b"/topic/a"[..], &b""[..], 5),
        (&b"/QUEUE/"[..], &b""[..], 5),
        (&b"/QUEUE/a%20b"[..], &b""[..], 5),
        (&b"/SEMP/v2"[..], &b""[..], 5),
        (&b"http://x/TOPIC/a"[..], &b""[..], 5),
        (&b"*"[..], &b""[..], 5),
        (
            &b"/QUEUE/?a"[..],
            &b"Solace-Delivery-Mode: Direct\r\n"[..],
            5,
        ),
        (
            &b"/TOPIC/a?b"[..],
            &b"Solace-Time-To-Live-In-ms: x\r\n"[..],
            6,
        ),
        (
            &b"/TOPIC/a?b=c"[..],
            &b"Solace-Delivery-Mode: Direct\r\n"[..],
            6,
        ),
        (
            &b"/TOPIC/"[..],
            &b"Solace-Delivery-Mode: direct\r\nSolace-DMQ-Eligible: no\r\n"[..],
            7,
        ),
        (&b"/TOPIC/a"[..], &b"Solace-Delivery-Mode: Fast\r\n"[..], 7),
        (&b"/TOPIC/a"[..], &b"Solace-Delivery-Mode: \r\n"[..], 7),
        (
            &b"/TOPIC/a"[..],
            &b"Solace-Time-To-Live-In-ms: 4294967295001\r\n"[..],
            7,
        ),
        (
            &b"/TOPIC/a"[..],
            &b"Solace-Time-To-Live-In-ms: +1\r\n"[..],
            7,
        ),
        (
            &b"/TOPIC/a"[..],
            &b"Solace-DMQ-Eligible: true\r\nsolace-dmq-eligible: true\r\n"[..],
            7,
        ),
        (&b"/TOPIC/a"[..], &b"Solace-User-Property-: x\r\n"[..], 7),
        (&b"/TOPIC/a"[..], &b"Solace-User-Property-a~: x\r\n"[..], 7),
        (
            &b"/TOPIC/a"[..],
            &b"Solace-User-Property-a: x\r\nSolace-User-Property-A: y\r\n"[..],
            7,
        ),
    ] {
        let bytes = request(alloc, path, fields)?;
        assert_eq!(rt; bad_at(&read(alloc, bytes.as_slice())), Some(at));
    }
    let get = b"GET /TOPIC/a HTTP/1.1\r\n\r\n";
    assert_eq!(rt; bad_at(&read(alloc, get)), Some(5));
    Ok(())
}

#[test]
fn the_direct_mode_is_told_before_a_bad_topic(rt: HostRuntime) -> Result<(), Fail> {
    let alloc = rt.alloc();
    let direct = request(alloc, b"/TOPIC/", b"SOLACE-delivery-mode: DIRECT\r\n")?;
    match read(alloc, direct.as_slice()) {
        Reading::Refused(Refusal::DirectMode) => {}
        _ => assert!(rt; false),
    }
    let empty = request(
        alloc,
        b"/TOPIC/",
        b"Solace-Delivery-Mode: non-persistent\r\n",
    )?;
    match read(alloc, empty.as_slice()) {
        Reading::Refused(Refusal::BadTopic { at }) => assert_eq!(rt; at, 0),
        _ => assert!(rt; false),
    }
    Ok(())
}

#[test]
fn what_fields_say(rt: HostRuntime) -> Result<(), Fail> {
    let alloc = rt.alloc();
    let bytes = request(
        alloc,
        b"/QUEUE/q",
        b"Solace-Time-To-Live-In-ms: 004294967295000\r\nSolace-DMQ-Eligible: TRUE\r\nsolace-user-property-b: 1\r\nSolace-User-Property-a: 2\r\nX: y\r\nX: z\r\n",
    )?;
    match read(alloc, bytes.as_slice()) {
        Reading::Message(message) => {
            assert_eq!(rt; message.ttl.value(), 4_294_967_295_000);
            assert!(rt; message.eligible);
            let properties = message.properties.as_slice();
            assert_eq!(rt; properties.len(), 2);
            assert_eq!(rt; properties[0].name.as_str(), "a");
            assert_eq!(rt; properties[1].name.as_str(), "b");
        }
        _ => assert!(rt; false),
    }
    Ok(())
}

#[derive(Clone, Copy, Debug, PartialEq)]
enum Want {
    Text(&'static str),
    Whole(i64),
    Millionths(i128),
    Bool(bool),
    Bad,
}

fn is_wanted(value: &Value, want: Want) -> bool {
    match (value, want) {
        (Value::Text(text), Want::Text(other)) => text.as_str() == other,
        (Value::Whole(n), Want::Whole(other)) => *n == other,
        (Value::Fixed(fixed), Want::Millionths(other)) => fixed.millionths() == other,
        (Value::Bool(b), Want::Bool(other)) => *b == other,
        _ => false,
    }
}

#[test]
fn which_values_properties_have(rt: HostRuntime) -> Result<(), Fail> {
    let alloc = rt.alloc();
    for (value, want) in [
        (&b"eu"[..], Want::Text("eu")),
        (&b""[..], Want::Text("")),
        (&b"a%20b ; type=string"[..], Want::Text("a%20b ")),
        (&b"a;type=text"[..], Want::Text("a")),
        (&b"a;   type=text"[..], Want::Text("a")),
        (&b"a; type="[..], Want::Text("a; type=")),
        (&b"a; type=x y"[..], Want::Text("a; type=x y")),
        (&b"a;\ttype=text"[..], Want::Text("a;\ttype=text")),
        (&b"type=int8"[..], Want::Text("type=int8")),
        (
            &b"1; type=int8; type=string"[..],
            Want::Text("1; type=int8"),
        ),
        (&b"007; type=int8"[..], Want::Whole(7)),
        (
            &b"-9223372036854775807; type=whole"[..],
            Want::Whole(-9_223_372_036_854_775_807),
        ),
        (&b"-9223372036854775808; type=int64"[..], Want::Bad),
        (&b"-0; type=int16"[..], Want::Whole(0)),
        (&b"+1; type=int32"[..], Want::Bad),
        (&b"1 ; type=int32"[..], Want::Bad),
        (&b"true; type=bool"[..], Want::Bool(true)),
        (&b"false; type=boolean"[..], Want::Bool(false)),
        (&b"True; type=bool"[..], Want::Bad),
        (&b"-01.50; type=fixed"[..], Want::Millionths(-1_500_000)),
        (&b"1; type=fixed"[..], Want::Bad),
        (&b"1; type=Int8"[..], Want::Bad),
        (&b"1; type=int"[..], Want::Bad),
        (&b"\xc3\xa9"[..], Want::Text("\u{e9}")),
        (&b"\xc3; type=string"[..], Want::Bad),
    ] {
        let mut field = Vec::from_slice(alloc, b"Solace-User-Property-p:")?;
        field.extend_from_slice(value)?;
        field.extend_from_slice(b"\r\n")?;
        let bytes = request(alloc, b"/QUEUE/q", field.as_slice())?;
        match read(alloc, bytes.as_slice()) {
            Reading::Message(message) => {
                let properties = message.properties.as_slice();
                assert_eq!(rt; properties.len(), 1);
                assert!(rt; is_wanted(&properties[0].value, want), "{value:?}");
            }
            refused => {
                assert_eq!(rt; bad_at(&refused), Some(7));
                assert_eq!(rt; want, Want::Bad);
            }
        }
    }
    Ok(())
}
