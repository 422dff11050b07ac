use crate::unit::Unit;
use sp_base::items::Items;
use sp_base::moment::Moment;
use sp_base::name::Name;
use sp_config::kind::EndpointKind;
use sp_config::settings::Settings;
use sp_event::request::Event;
use sp_message::codec::ReadError;
use std::alloc::Global;
use std::test::Fail;

// Where nothing else is said, each begins with the moment 0, the caller `ann` and the number 1 of
// the events.
const UNITS: [&[u8]; 21] = [
    // The provision of the queue q1.
    b"\0\0\0\0\0\0\0\0\x03ann\x01\x01\x02\0\0\0q1\0\0",
    // The provision of a topic endpoint with a word, a name, a truth value, a number, the empty
    // owner, and another word.
    b"\0\0\0\0\0\0\0\0\x03ann\x01\x01\x02\0\0\0te\x01\x06\x01\0\x02\x01\0\0\0d\x03\0\x05\x10\x27\0\0\0\0\0\0\x0b\0\0\0\0\x0d\x04",
    b"\0\0\0\0\0\0\0\0\x03ann\x01\x02\x02\0\0\0q1",
    // The owner is bob.
    b"\0\0\0\0\0\0\0\0\x03ann\x01\x03\x02\0\0\0q1\x01\x0b\x03\0\0\0bob",
    b"\0\0\0\0\0\0\0\0\x03ann\x01\x04\x02\0\0\0q1\x03\0\0\0a/>",
    b"\0\0\0\0\0\0\0\0\x03ann\x01\x05\x02\0\0\0q1\x04\0\0\0!a/*",
    // `hello` to the queue q1.
    b"\0\0\0\0\0\0\0\0\x03ann\x01\x06\x01\x02\0\0\0q1\x05\0\0\0hello\0\0\0\0\0\0\0\0\0\0",
    // Nothing on the topic t, for 1,000 milliseconds, eligible, with a -1, b 10.5, c `eu` and d true.
    b"\0\0\0\0\0\0\0\0\x03ann\x01\x06\0\x01\0\0\0t\0\0\0\0\xe8\x03\0\0\0\0\0\0\x01\x04\x01\0\0\0a\0\xff\xff\xff\xff\xff\xff\xff\xff\x01\0\0\0b\x01\xa0\x37\xa0\0\0\0\0\0\0\0\0\0\0\0\0\0\x01\0\0\0c\x02\x02\0\0\0eu\x01\0\0\0d\x03\x01",
    b"\0\0\0\0\0\0\0\0\x03ann\x01\x07\x02\0\0\0q1\0\0",
    // A bind with the selector `a = 1` and the topic t.
    b"\0\0\0\0\0\0\0\0\x03ann\x01\x07\x02\0\0\0te\x01\x05\0\0\0a = 1\x01\x01\0\0\0t",
    b"\0\0\0\0\0\0\0\0\x03ann\x01\x08\x01\0\0\0\0\0\0\0",
    b"\0\0\0\0\0\0\0\0\x03ann\x01\x09\x01\0\0\0\0\0\0\0\x40\0\0\0\0\0\0\0",
    // The outcomes accepted, failed and rejected.
    b"\0\0\0\0\0\0\0\0\x03ann\x01\x0a\x01\0\0\0\0\0\0\0\x02\0\0\0\0\0\0\0\0",
    b"\0\0\0\0\0\0\0\0\x03ann\x01\x0a\x01\0\0\0\0\0\0\0\x02\0\0\0\0\0\0\0\x01",
    b"\0\0\0\0\0\0\0\0\x03ann\x01\x0a\x01\0\0\0\0\0\0\0\x02\0\0\0\0\0\0\0\x02",
    // A tick.
    b"\0\0\0\0\0\0\0\0\x03ann\x01\x0b",
    // The copies of q1 are deleted, and of them the copy 2^62.
    b"\0\0\0\0\0\0\0\0\x03ann\x01\x0c\x02\0\0\0q1\0",
    b"\0\0\0\0\0\0\0\0\x03ann\x01\x0c\x02\0\0\0q1\x01\0\0\0\0\0\0\0\x40",
    // The restart of an opening: the moment 0 and the caller `#system`. That of another caller at
    // the moment 7 is one too.
    b"\0\0\0\0\0\0\0\0\x07#system\x01\x11",
    b"\x07\0\0\0\0\0\0\0\x03ann\x01\x11",
    // The last moment.
    b"\xff\xff\xff\xff\xff\xff\x1f\0\x03ann\x01\x02\x02\0\0\0q1",
];

// Each breaks one rule.
const NO_UNITS: [(&str, &[u8]); 18] = [
    ("nothing", b""),
    (
        "a byte behind it",
        b"\0\0\0\0\0\0\0\0\x03ann\x01\x02\x02\0\0\0q1\0",
    ),
    ("no event", b"\0\0\0\0\0\0\0\0\x03ann\0"),
    (
        "two events",
        b"\0\0\0\0\0\0\0\0\x03ann\x02\x02\x02\0\0\0q1\x02\x02\0\0\0q1",
    ),
    (
        "a moment past the last",
        b"\0\0\0\0\0\0\x20\0\x03ann\x01\x02\x02\0\0\0q1",
    ),
    ("no caller", b"\0\0\0\0\0\0\0\0\0\x01\x02\x02\0\0\0q1"),
    (
        "a caller of 65 bytes",
        b"\0\0\0\0\0\0\0\0\x41aaaaaaaaaaaaaaaaaaaaaaaaaaaaaaaaaaaaaaaaaaaaaaaaaaaaaaaaaaaaaaaaa\x01\x02\x02\0\0\0q1",
    ),
    (
        "a length with the highest byte first",
        b"\0\0\0\0\0\0\0\0\x03ann\x01\x02\0\0\0\x02q1",
    ),
    (
        "a name with a space",
        b"\0\0\0\0\0\0\0\0\x03ann\x01\x02\x02\0\0\0q ",
    ),
    (
        "a truth value of 2",
        b"\0\0\0\0\0\0\0\0\x03ann\x01\x03\x02\0\0\0q1\x01\x03\x02",
    ),
    (
        "attributes that fall",
        b"\0\0\0\0\0\0\0\0\x03ann\x01\x03\x02\0\0\0q1\x02\x04\x01\x03\x01",
    ),
    (
        "an attribute 16",
        b"\0\0\0\0\0\0\0\0\x03ann\x01\x03\x02\0\0\0q1\x01\x10\x01",
    ),
    (
        "no selector",
        b"\0\0\0\0\0\0\0\0\x03ann\x01\x07\x02\0\0\0q1\x01\x02\0\0\0a=\0",
    ),
    (
        "a pull of 65",
        b"\0\0\0\0\0\0\0\0\x03ann\x01\x09\x01\0\0\0\0\0\0\0\x41\0\0\0\0\0\0\0",
    ),
    (
        "an outcome of 3",
        b"\0\0\0\0\0\0\0\0\x03ann\x01\x0a\x01\0\0\0\0\0\0\0\x02\0\0\0\0\0\0\0\x03",
    ),
    ("a byte behind a tick", b"\0\0\0\0\0\0\0\0\x03ann\x01\x0b\0"),
    (
        "a copy past 2^62",
        b"\0\0\0\0\0\0\0\0\x03ann\x01\x0c\x02\0\0\0q1\x01\x01\0\0\0\0\0\0\x40",
    ),
    ("a tag of 13", b"\0\0\0\0\0\0\0\0\x03ann\x01\x0d"),
];

fn written(alloc: Global, unit: &Unit) -> Result<Vec<u8>, Fail> {
    let events = unit.events.as_slice();
    if events.len() != 1 || !unit.caller.is_caller() {
        return Err(Fail::from("no unit"));
    }
    let mut bytes = Vec::new(alloc);
    match Unit::write(unit.moment, &unit.caller, events, &mut bytes) {
        Ok(()) => Ok(bytes),
        Err(_) => Err(Fail::from("want of memory")),
    }
}

fn is_none(alloc: Global, bytes: &[u8]) -> bool {
    matches!(Unit::read(alloc, bytes), Err(ReadError::NotOne))
}

#[test]
fn the_provision_of_q1_by_ann_has_22_bytes(rt: HostRuntime) -> Result<(), Fail> {
    let alloc = rt.alloc();
    let event = Event::Provision {
        endpoint: Name::read(alloc, b"q1")?,
        kind: EndpointKind::Queue,
        attributes: Settings::none(alloc),
    };
    let unit = Unit {
        moment: Moment::START,
        caller: Name::read(alloc, b"ann")?,
        events: Items::one(alloc, event)?,
    };
    let bytes = written(alloc, &unit)?;
    assert_eq!(rt; bytes.len(), 22);
    assert_eq!(rt; bytes.as_slice(), UNITS[0]);
    Ok(())
}

#[test]
fn each_event_is_read_and_written_in_its_bytes(rt: HostRuntime) -> Result<(), Fail> {
    let alloc = rt.alloc();
    for bytes in UNITS {
        let unit = Unit::read(alloc, bytes)?;
        assert_eq!(rt; written(alloc, &unit)?.as_slice(), bytes);
        for end in 0..bytes.len() {
            assert!(rt; is_none(alloc, &bytes[..end]), "cut after {end}");
        }
    }
    Ok(())
}

#[test]
fn what_breaks_a_rule_is_no_unit(rt: HostRuntime) {
    let alloc = rt.alloc();
    for (why, bytes) in NO_UNITS {
        assert!(rt; is_none(alloc, bytes), "{why}");
    }
}

fn changed(alloc: Global, bytes: &[u8], at: usize, by: u8) -> Result<Vec<u8>, Fail> {
    let mut other = Vec::from_slice(alloc, bytes)?;
    if let Some(byte) = other.get_mut(at) {
        *byte = byte.wrapping_add(by);
    }
    Ok(other)
}

#[test]
fn a_changed_byte_makes_another_unit_or_none(rt: HostRuntime) -> Result<(), Fail> {
    let alloc = rt.alloc();
    for bytes in UNITS {
        for at in 0..bytes.len() {
            for by in [1, 2, 128, 255] {
                let other = changed(alloc, bytes, at, by)?;
                match Unit::read(alloc, &other) {
                    Ok(unit) => assert_eq!(rt; written(alloc, &unit)?.as_slice(), other.as_slice()),
                    Err(ReadError::NotOne) => {}
                    Err(ReadError::Memory) => return Err(Fail::from("want of memory")),
                }
            }
        }
    }
    Ok(())
}
