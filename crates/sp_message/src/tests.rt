use crate::codec::ReadError;
use crate::message::{Dest, LONGEST_TTL, Message, TimeToLive};
use crate::partition::partition;
use crate::payload::Payload;
use crate::property::{Properties, Property};
use crate::value::{Fixed, Value};
use sp_base::bytes::Bytes;
use sp_base::name::Name;
use sp_base::number::MessageNo;
use sp_base::text::Str;
use sp_base::topic::Topic;
use std::alloc::Global;
use std::test::Fail;

fn hello(alloc: Global, properties: Properties) -> Result<Message, Fail> {
    let bytes = Bytes::copy_of(alloc, b"hello")?;
    if bytes.len() > 9 {
        return Err(Fail::from("too long"));
    }
    Ok(Message {
        dest: Dest::Queue(Name::read(alloc, b"q1")?),
        payload: Payload::from_bytes(bytes),
        ttl: TimeToLive::of(0),
        eligible: false,
        properties,
    })
}

fn property(alloc: Global, name: &str, value: Value) -> Result<Property, Fail> {
    Ok(Property {
        name: Str::copy_of(alloc, name)?,
        value,
    })
}

fn fixed(text: &[u8]) -> Result<Fixed, Fail> {
    Ok(Fixed::read(text).ok_or("no fixed number")?)
}

#[test]
fn hello_to_q1_has_71_bytes(rt: HostRuntime) -> Result<(), Fail> {
    let alloc = rt.alloc();
    let message = hello(alloc, Properties::none(alloc))?;
    assert_eq!(rt; message.size(), 71);
    assert_eq!(rt; message.copy(alloc)?.size(), 71);
    Ok(())
}

// 64, and 1 for the topic.
#[test]
fn an_empty_message_on_topic_t_has_65_bytes(rt: HostRuntime) -> Result<(), Fail> {
    let alloc = rt.alloc();
    let message = Message {
        dest: Dest::Topic(Topic::read(alloc, b"t")?),
        payload: Payload::from_bytes(Bytes::copy_of(alloc, b"")?),
        ttl: TimeToLive::of(0),
        eligible: false,
        properties: Properties::none(alloc),
    };
    assert_eq!(rt; message.copy(alloc)?.size(), 65);
    Ok(())
}

// 71, 16 and 4 for "high", 16, 4 and 2 for "name", 16 and 5 for "price", 16 and 3 for "qty".
#[test]
fn each_property_counts_16_its_name_and_its_text(rt: HostRuntime) -> Result<(), Fail> {
    let alloc = rt.alloc();
    let mut rows = Vec::new(alloc);
    rows.push(property(alloc, "high", Value::Bool(true))?)?;
    rows.push(property(alloc, "name", Value::Text(Str::copy_of(alloc, "eu")?))?)?;
    rows.push(property(alloc, "price", Value::Fixed(fixed(b"10.5")?))?)?;
    rows.push(property(alloc, "qty", Value::Whole(3))?)?;
    let properties = Properties::from_vec(rows).ok_or("no properties")?;
    let message = hello(alloc, properties)?.copy(alloc)?;
    assert_eq!(rt; message.size(), 153);
    assert!(rt; matches!(message.properties.find(b"qty"), Some(Value::Whole(3))));
    assert!(rt; message.properties.find(b"qt").is_none());
    Ok(())
}

#[test]
fn names_rise_and_values_keep_their_bounds(rt: HostRuntime) -> Result<(), Fail> {
    let alloc = rt.alloc();
    let rows = [
        ("a", "a", 1),
        ("b", "a", 1),
        ("a", "b", i64::MIN),
        ("a", "b c", 1),
        ("", "a", 1),
    ];
    for (first, second, number) in rows {
        let mut pair = Vec::new(alloc);
        pair.push(property(alloc, first, Value::Whole(number))?)?;
        pair.push(property(alloc, second, Value::Bool(false))?)?;
        assert!(rt;
            Properties::from_vec(pair).is_none(),
            "{first} {second} {number}"
        );
    }
    Ok(())
}

#[test]
fn a_fixed_number_is_printed_in_one_way(rt: HostRuntime) -> Result<(), Fail> {
    let alloc = rt.alloc();
    let rows = [
        ("10.50", "10.5"),
        ("-0.0", "0.0"),
        ("00.000001", "0.000001"),
        ("-12.000000", "-12.0"),
        ("-0.250", "-0.25"),
        ("000000000000000000000000000007.0", "7.0"),
        ("9223372036854775807.0", "9223372036854775807.0"),
        ("-9223372036854775807.0", "-9223372036854775807.0"),
    ];
    for (text, canonical) in rows {
        let printed = fixed(text.as_bytes())?.text(alloc)?;
        assert_eq!(rt; printed.as_str(), canonical);
    }
    Ok(())
}

#[test]
fn no_fixed_numbers(rt: HostRuntime) {
    let rows = [
        "",
        "-",
        ".",
        "1",
        "1.",
        ".5",
        "1.1234567",
        "--1.0",
        "+1.0",
        "1.0 ",
        "1.0e1",
        "1..0",
        "a.0",
        "9223372036854775807.000001",
        "9223372036854775808.0",
    ];
    for text in rows {
        assert!(rt; Fixed::read(text.as_bytes()).is_none(), "{text}");
    }
}

#[test]
fn times_to_live_end_at_4294967295000(rt: HostRuntime) -> Result<(), Fail> {
    let longest = TimeToLive::new(LONGEST_TTL).ok_or("no time to live")?;
    assert_eq!(rt; longest.value(), 4_294_967_295_000);
    assert!(rt; TimeToLive::new(4_294_967_295_001).is_none());
    Ok(())
}

fn grouped(alloc: Global, value: Value) -> Result<Message, Fail> {
    let mut rows = Vec::new(alloc);
    rows.push(property(alloc, "JMSXGroupID", value)?)?;
    hello(alloc, Properties::from_vec(rows).ok_or("no properties")?)
}

// Texts with their 64-bit FNV-1a hashes, as the hash's authors publish them.
const HASHES: [(&str, u64); 5] = [
    ("", 0xcbf2_9ce4_8422_2325),
    ("a", 0xaf63_dc4c_8601_ec8c),
    ("b", 0xaf63_df4c_8601_f1a5),
    ("fo", 0x0898_5907_b541_d342),
    ("foobar", 0x8594_4171_f739_67e8),
];

#[test]
fn a_group_goes_by_its_hash(rt: HostRuntime) -> Result<(), Fail> {
    let alloc = rt.alloc();
    for (group, hash) in HASHES {
        let message = grouped(alloc, Value::Text(Str::copy_of(alloc, group)?))?;
        assert_eq!(rt;
            partition(&message, MessageNo::of(1), u64::MAX),
            hash,
            "{group}"
        );
    }
    for (group, place) in [("a", 0), ("b", 1), ("c", 2), ("d", 3)] {
        let message = grouped(alloc, Value::Text(Str::copy_of(alloc, group)?))?;
        assert_eq!(rt; partition(&message, MessageNo::of(1), 4), place, "{group}");
    }
    Ok(())
}

#[test]
fn a_message_without_a_group_goes_by_its_number(rt: HostRuntime) -> Result<(), Fail> {
    let alloc = rt.alloc();
    let plain = hello(alloc, Properties::none(alloc))?;
    let whole = grouped(alloc, Value::Whole(1))?;
    for (number, place) in [(0, 0), (7, 3), (8, 0)] {
        assert_eq!(rt; partition(&plain, MessageNo::of(number), 4), place);
        assert_eq!(rt; partition(&whole, MessageNo::of(number), 4), place);
    }
    Ok(())
}

// Nothing on the topic t, for 1,000 milliseconds, eligible, with the properties a -1, b 10.5, c `eu` and
// d true.
const BYTES: &[u8] =
    b"\0\x01\0\0\0t\0\0\0\0\xe8\x03\0\0\0\0\0\0\x01\x04\x01\0\0\0a\0\xff\xff\xff\xff\xff\xff\xff\xff\x01\0\0\0b\x01\xa0\x37\xa0\0\0\0\0\0\0\0\0\0\0\0\0\0\x01\0\0\0c\x02\x02\0\0\0eu\x01\0\0\0d\x03\x01";

#[test]
fn a_message_is_read_and_written_in_its_bytes(rt: HostRuntime) -> Result<(), Fail> {
    let alloc = rt.alloc();
    let (message, len) = Message::read(alloc, BYTES)?;
    assert_eq!(rt; len, BYTES.len());
    assert_eq!(rt; message.ttl.value(), 1000);
    assert!(rt; message.eligible);
    assert!(rt; matches!(message.properties.find(b"a"), Some(Value::Whole(-1))));
    assert!(rt; matches!(message.properties.find(b"d"), Some(Value::Bool(true))));
    let mut written = Vec::new(alloc);
    assert!(rt; message.write(&mut written).is_ok());
    assert_eq!(rt; written.as_slice(), BYTES);
    Ok(())
}

#[test]
fn what_follows_a_message_is_not_read(rt: HostRuntime) -> Result<(), Fail> {
    let alloc = rt.alloc();
    let (_, len) = Message::read(
        alloc,
        b"\x01\x02\0\0\0q1\x05\0\0\0hello\0\0\0\0\0\0\0\0\0\0\x01\x02",
    )?;
    assert_eq!(rt; len, 26);
    for end in 0..BYTES.len() {
        assert!(rt;
            matches!(Message::read(alloc, &BYTES[..end]), Err(ReadError::NotOne)),
            "{end}"
        );
    }
    Ok(())
}

// Each breaks one rule.
const NO_MESSAGES: [(&str, &[u8]); 7] = [
    (
        "a destination of the kind 2",
        b"\x02\x01\0\0\0t\0\0\0\0\0\0\0\0\0\0\0\0\0\0",
    ),
    ("the empty topic", b"\0\0\0\0\0\0\0\0\0\0\0\0\0\0\0\0\0\0\0"),
    (
        "a name with a space",
        b"\x01\x01\0\0\0 \0\0\0\0\0\0\0\0\0\0\0\0\0\0",
    ),
    (
        "a time to live past the longest",
        b"\x01\x01\0\0\0q\0\0\0\0\x19\xfc\xff\xff\xe7\x03\0\0\0\0",
    ),
    (
        "a truth value of 2",
        b"\x01\x01\0\0\0q\0\0\0\0\0\0\0\0\0\0\0\0\x02\0",
    ),
    (
        "properties that fall",
        b"\x01\x01\0\0\0q\0\0\0\0\0\0\0\0\0\0\0\0\0\x02\x01\0\0\0b\x03\0\x01\0\0\0a\x03\0",
    ),
    (
        "the least whole number",
        b"\x01\x01\0\0\0q\0\0\0\0\0\0\0\0\0\0\0\0\0\x01\x01\0\0\0a\0\0\0\0\0\0\0\0\x80",
    ),
];

#[test]
fn what_breaks_a_rule_is_no_message(rt: HostRuntime) {
    let alloc = rt.alloc();
    for (why, bytes) in NO_MESSAGES {
        assert!(rt;
            matches!(Message::read(alloc, bytes), Err(ReadError::NotOne)),
            "{why}"
        );
    }
}
