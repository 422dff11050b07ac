use crate::read::read;
use crate::tests::told::{first_wrong, shows, told};
use sp_base::bytes::Bytes;
use sp_base::items::Items;
use sp_base::number::{CopyNo, FlowNo, MessageNo};
use sp_event::answer::{Answered, Delivery, Reply};
use sp_event::request::{Ask, Event};
use sp_message::message::Message;
use sp_message::payload::Payload;
use std::alloc::{AllocError, Global};
use std::test::Fail;

const VALUES: &str = r#"queue q1|{"op":"publish","queue":"q1","properties":{}}
request 4|{"op":"publish","queue":"q1","properties":[]}
request 4|{"op":"publish","queue":"q1","properties":null}
request 4|{"op":"publish","queue":"q1","properties":{"a":null}}
request 4|{"op":"publish","queue":"q1","properties":{"a":[]}}
queue q1|{"op":"publish","queue":"q1","properties":{"a":9223372036854775807}}
request 4|{"op":"publish","queue":"q1","properties":{"a":9223372036854775808}}
queue q1|{"op":"publish","queue":"q1","properties":{"a":-9223372036854775807}}
request 4|{"op":"publish","queue":"q1","properties":{"a":-9223372036854775808}}
request 4|{"op":"publish","queue":"q1","properties":{"a":1.0}}
request 4|{"op":"publish","queue":"q1","properties":{"a":-0}}
queue q1|{"op":"publish","queue":"q1","properties":{"a":{"fixed":"9223372036854775807.000000"}}}
request 4|{"op":"publish","queue":"q1","properties":{"a":{"fixed":"9223372036854775807.000001"}}}
queue q1|{"op":"publish","queue":"q1","properties":{"a":{"fixed":"-9223372036854775807.0"}}}
request 4|{"op":"publish","queue":"q1","properties":{"a":{"fixed":"1.0000000"}}}
request 4|{"op":"publish","queue":"q1","properties":{"a":{"fixed":"1"}}}
request 4|{"op":"publish","queue":"q1","properties":{"a":{"fixed":".5"}}}
request 4|{"op":"publish","queue":"q1","properties":{"a":{"fixed":1}}}
request 4|{"op":"publish","queue":"q1","properties":{"a":{"fixed":"1.5","x":1}}}
request 4|{"op":"publish","queue":"q1","properties":{"a":{}}}
request 4|{"op":"publish","queue":"q1","properties":{"":1}}
request 4|{"op":"publish","queue":"q1","properties":{"a b":1}}
request 4|{"op":"publish","queue":"q1","properties":{"é":1}}
queue q1|{"op":"publish","queue":"q1","properties":{"$a_b.c-d":1}}
request 4|{"op":"publish","queue":"q1","mode":"direct","properties":{"a":null}}
direct|{"op":"publish","queue":"q1","mode":"direct","properties":{"a":1}}"#;

#[test]
fn values_are_of_four_kinds_in_their_ranges(rt: HostRuntime) -> Result<(), Fail> {
    let alloc = rt.alloc();
    assert_eq!(rt; first_wrong(alloc, VALUES)?, None);
    Ok(())
}

// A publish with so many properties, whose names and texts have these lengths.
fn publish(alloc: Global, count: usize, name: usize, text: usize) -> Result<String, AllocError> {
    let mut line = String::from_str(alloc, r#"{"op":"publish","queue":"q1","properties":{"#)?;
    for i in 0..count {
        if i > 0 {
            line.push(',')?;
        }
        line.push('"')?;
        line.push_str(format!(in alloc; "{:0width$}", i, width = name)?.as_str())?;
        line.push_str("\":\"")?;
        for _ in 0..text {
            line.push('x')?;
        }
        line.push('"')?;
    }
    line.push_str("}}")?;
    Ok(line)
}

#[test]
fn names_texts_and_their_number_have_limits(rt: HostRuntime) -> Result<(), Fail> {
    let alloc = rt.alloc();
    for (count, name, text, want) in [
        (1, 64, 1, "queue q1"),
        (1, 65, 1, "request 4"),
        (1, 1, 8192, "queue q1"),
        (1, 1, 8193, "request 4"),
        (64, 2, 1, "queue q1"),
        (65, 2, 1, "request 4"),
    ] {
        let line = publish(alloc, count, name, text)?;
        assert!(rt; told(alloc, line.as_bytes())?.as_str() == want);
    }
    Ok(())
}

fn message_of(ask: Ask) -> Option<Message> {
    match ask {
        Ask::Do(Event::Publish { message }) => Some(message),
        _ => None,
    }
}

#[test]
fn a_delivery_shows_the_properties_that_were_published(rt: HostRuntime) -> Result<(), Fail> {
    let alloc = rt.alloc();
    let line =
        br#"{"op":"publish","topic":"a/b","properties":{"d":{"fixed":"-00.50"},"b":"x","c":true,"a":-7}}"#;
    let message = message_of(read(alloc, line)?).ok_or("no publish")?;
    let delivery = Delivery {
        attempt: 1,
        copy: CopyNo::of(1),
        message: MessageNo::of(1),
        dest: message.dest,
        payload: Payload::from_bytes(Bytes::from_vec(Vec::new(alloc))),
        properties: message.properties,
    };
    let reply = Reply::Pull {
        flow: FlowNo::of(1),
        deliveries: Items::one(alloc, delivery)?,
    };
    let text =
        r#"{"deliveries":[{"attempt":1,"copy":1,"message":1,"payload":"","properties":{"a":-7,"b":"x","c":true,"d":{"fixed":"-0.5"}},"topic":"a/b"}],"flow":1,"ok":"pull","unit":4}"#;
    assert!(rt; shows(alloc, Answered::Gave(reply), 4, text)?);
    Ok(())
}
