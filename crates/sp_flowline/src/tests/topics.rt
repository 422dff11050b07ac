use crate::tests::told::{first_wrong, shows, told};
use sp_base::bytes::Bytes;
use sp_base::items::Items;
use sp_base::number::{CopyNo, FlowNo, MessageNo};
use sp_base::topic::Topic;
use sp_event::answer::{Answered, Delivery, Reply};
use sp_message::message::Dest;
use sp_message::payload::Payload;
use sp_message::property::Properties;
use std::alloc::{AllocError, Global};
use std::test::Fail;

const GOOD: &str = r#"topic a//*|{"op":"publish","topic":"a//*"}
topic !a|{"op":"publish","topic":"!a","mode":"persistent","payload":"x"}
topic q1|{"op":"publish","topic":"q1","mode":"non-persistent"}
queue q1|{"op":"publish","queue":"q1","mode":"non-persistent"}
bind|{"op":"bind","endpoint":"q1"}
bind a/*/>|{"op":"bind","endpoint":"t1","topic":"a/*/>"}"#;

const REFUSED: &str = r#"request 2|{"op":"publish","mode":"direct"}
request 3|{"op":"publish","topic":"","queue":"q1","mode":"direct"}
request 3|{"op":"bind","endpoint":"q1","queue":"q1"}
request 4|{"op":"publish","topic":null}
request 4|{"op":"publish","topic":"","mode":"Direct"}
request 4|{"op":"publish","queue":"q1","mode":true}
request 4|{"op":"publish","queue":"q 1","mode":"direct"}
request 4|{"op":"publish","topic":"","mode":"direct","payload":1}
direct|{"op":"publish","queue":"q1","mode":"direct"}
direct|{"op":"publish","topic":"","mode":"direct"}
bad topic 0|{"op":"publish","topic":""}
request 4|{"op":"bind","endpoint":"","topic":"!"}
request 4|{"op":"bind","endpoint":"t1","topic":5}
subscription 0|{"op":"bind","endpoint":"t1","topic":""}
subscription 0|{"op":"bind","endpoint":"t1","topic":"!a"}
subscription 1|{"op":"bind","endpoint":"t1","topic":"!"}"#;

#[test]
fn topics_and_modes_are_read(rt: HostRuntime) -> Result<(), Fail> {
    let alloc = rt.alloc();
    assert_eq!(rt; first_wrong(alloc, GOOD)?, None);
    Ok(())
}

#[test]
fn the_least_rule_refuses(rt: HostRuntime) -> Result<(), Fail> {
    let alloc = rt.alloc();
    assert_eq!(rt; first_wrong(alloc, REFUSED)?, None);
    Ok(())
}

// What a line comes to that ends with a topic of so many bytes.
fn told_of_long(alloc: Global, start: &[u8], bytes: usize) -> Result<String, AllocError> {
    let mut text = Vec::from_slice(alloc, start)?;
    for _ in 0..bytes {
        text.push(b'x')?;
    }
    text.extend_from_slice(b"\"}")?;
    told(alloc, text.as_slice())
}

#[test]
fn a_topic_has_250_bytes_at_most(rt: HostRuntime) -> Result<(), Fail> {
    let alloc = rt.alloc();
    let publish = b"{\"op\":\"publish\",\"topic\":\"";
    let bind = b"{\"op\":\"bind\",\"endpoint\":\"t1\",\"topic\":\"";
    assert!(rt; told_of_long(alloc, publish, 251)?.as_str() == "bad topic 250");
    assert!(rt; told_of_long(alloc, bind, 251)?.as_str() == "subscription 250");
    let bound = told_of_long(alloc, bind, 250)?;
    assert_eq!(rt; bound.as_str().len(), "bind ".len() + 250);
    Ok(())
}

fn delivery(alloc: Global) -> Result<Delivery, Fail> {
    Ok(Delivery {
        attempt: 1,
        copy: CopyNo::of(2),
        message: MessageNo::of(1),
        dest: Dest::Topic(Topic::read(alloc, b"a/b")?),
        payload: Payload::from_bytes(Bytes::from_vec(Vec::new(alloc))),
        properties: Properties::none(alloc),
    })
}

#[test]
fn a_delivery_shows_its_topic(rt: HostRuntime) -> Result<(), Fail> {
    let alloc = rt.alloc();
    let reply = Reply::Pull {
        flow: FlowNo::of(1),
        deliveries: Items::one(alloc, delivery(alloc)?)?,
    };
    assert!(rt; shows(alloc, Answered::Gave(reply), 4, DELIVERY)?);
    Ok(())
}

const DELIVERY: &str =
    r#"{"deliveries":[{"attempt":1,"copy":2,"message":1,"payload":"","properties":{},"topic":"a/b"}],"flow":1,"ok":"pull","unit":4}"#;
