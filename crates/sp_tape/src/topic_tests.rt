use crate::tests::is_answered;
use std::alloc::{AllocError, Global};
use std::test::Fail;

// Five queues with a subscription each; the fourth asks for a level that the topic lacks.
const FIVE_QUEUES: [(&str, &str); 11] = [
    (
        r#"{"op":"provision","endpoint":"q1"}"#,
        r#"{"endpoint":"q1","number":1,"ok":"provision","unit":1}"#,
    ),
    (
        r#"{"op":"subscribe","endpoint":"q1","subscription":"a/*/c"}"#,
        r#"{"endpoint":"q1","ok":"subscribe","unit":2}"#,
    ),
    (
        r#"{"op":"provision","endpoint":"q2"}"#,
        r#"{"endpoint":"q2","number":2,"ok":"provision","unit":3}"#,
    ),
    (
        r#"{"op":"subscribe","endpoint":"q2","subscription":"a/b*/c"}"#,
        r#"{"endpoint":"q2","ok":"subscribe","unit":4}"#,
    ),
    (
        r#"{"op":"provision","endpoint":"q3"}"#,
        r#"{"endpoint":"q3","number":3,"ok":"provision","unit":5}"#,
    ),
    (
        r#"{"op":"subscribe","endpoint":"q3","subscription":"a/>"}"#,
        r#"{"endpoint":"q3","ok":"subscribe","unit":6}"#,
    ),
    (
        r#"{"op":"provision","endpoint":"q4"}"#,
        r#"{"endpoint":"q4","number":4,"ok":"provision","unit":7}"#,
    ),
    (
        r#"{"op":"subscribe","endpoint":"q4","subscription":"a/b/c/>"}"#,
        r#"{"endpoint":"q4","ok":"subscribe","unit":8}"#,
    ),
    (
        r#"{"op":"provision","endpoint":"q5"}"#,
        r#"{"endpoint":"q5","number":5,"ok":"provision","unit":9}"#,
    ),
    (
        r#"{"op":"subscribe","endpoint":"q5","subscription":">"}"#,
        r#"{"endpoint":"q5","ok":"subscribe","unit":10}"#,
    ),
    (
        r#"{"op":"publish","topic":"a/b/c"}"#,
        r#"{"copies":[{"copy":1,"endpoint":"q1","fate":"spooled"},{"copy":2,"endpoint":"q2","fate":"spooled"},{"copy":3,"endpoint":"q3","fate":"spooled"},{"copy":4,"endpoint":"q5","fate":"spooled"}],"message":1,"ok":"publish","unit":11}"#,
    ),
];

// A queue with `orders/>` and `!orders/test/*`, and a topic with and without the exception.
const EXCEPTION_LAST: [(&str, &str); 5] = [
    (
        r#"{"op":"provision","endpoint":"q1"}"#,
        r#"{"endpoint":"q1","number":1,"ok":"provision","unit":1}"#,
    ),
    (
        r#"{"op":"subscribe","endpoint":"q1","subscription":"orders/>"}"#,
        r#"{"endpoint":"q1","ok":"subscribe","unit":2}"#,
    ),
    (
        r#"{"op":"subscribe","endpoint":"q1","subscription":"!orders/test/*"}"#,
        r#"{"endpoint":"q1","ok":"subscribe","unit":3}"#,
    ),
    (
        r#"{"op":"publish","topic":"orders/test/1"}"#,
        r#"{"copies":[],"message":1,"ok":"publish","unit":4}"#,
    ),
    (
        r#"{"op":"publish","topic":"orders/test/1/x"}"#,
        r#"{"copies":[{"copy":1,"endpoint":"q1","fate":"spooled"}],"message":2,"ok":"publish","unit":5}"#,
    ),
];

// The same two texts in the other order.
const EXCEPTION_FIRST: [(&str, &str); 5] = [
    (
        r#"{"op":"provision","endpoint":"q1"}"#,
        r#"{"endpoint":"q1","number":1,"ok":"provision","unit":1}"#,
    ),
    (
        r#"{"op":"subscribe","endpoint":"q1","subscription":"!orders/test/*"}"#,
        r#"{"endpoint":"q1","ok":"subscribe","unit":2}"#,
    ),
    (
        r#"{"op":"subscribe","endpoint":"q1","subscription":"orders/>"}"#,
        r#"{"endpoint":"q1","ok":"subscribe","unit":3}"#,
    ),
    (
        r#"{"op":"publish","topic":"orders/test/1"}"#,
        r#"{"copies":[],"message":1,"ok":"publish","unit":4}"#,
    ),
    (
        r#"{"op":"publish","topic":"orders/test/1/x"}"#,
        r#"{"copies":[{"copy":1,"endpoint":"q1","fate":"spooled"}],"message":2,"ok":"publish","unit":5}"#,
    ),
];

// A queue whose subscriptions both match the topic.
const TWO_MATCHES: [(&str, &str); 4] = [
    (
        r#"{"op":"provision","endpoint":"q1"}"#,
        r#"{"endpoint":"q1","number":1,"ok":"provision","unit":1}"#,
    ),
    (
        r#"{"op":"subscribe","endpoint":"q1","subscription":"a/>"}"#,
        r#"{"endpoint":"q1","ok":"subscribe","unit":2}"#,
    ),
    (
        r#"{"op":"subscribe","endpoint":"q1","subscription":"a/*"}"#,
        r#"{"endpoint":"q1","ok":"subscribe","unit":3}"#,
    ),
    (
        r#"{"op":"publish","topic":"a/b"}"#,
        r#"{"copies":[{"copy":1,"endpoint":"q1","fate":"spooled"}],"message":1,"ok":"publish","unit":4}"#,
    ),
];

// A topic endpoint that is bound with one topic, then with another while a copy of the first is
// spooled, and then with a third while a flow is bound.
const ANOTHER_TOPIC: [(&str, &str); 7] = [
    (
        r#"{"op":"provision","endpoint":"te","kind":"topic-endpoint"}"#,
        r#"{"endpoint":"te","number":1,"ok":"provision","unit":1}"#,
    ),
    (
        r#"{"op":"bind","endpoint":"te","topic":"a/*"}"#,
        r#"{"discarded":0,"endpoint":"te","flow":1,"ok":"bind","unit":2}"#,
    ),
    (
        r#"{"op":"publish","topic":"a/b"}"#,
        r#"{"copies":[{"copy":1,"endpoint":"te","fate":"spooled"}],"message":1,"ok":"publish","unit":3}"#,
    ),
    (
        r#"{"op":"unbind","flow":1}"#,
        r#"{"closed":[],"flow":1,"ok":"unbind","returned":0,"unit":4}"#,
    ),
    (
        r#"{"op":"bind","endpoint":"te","topic":"c"}"#,
        r#"{"discarded":1,"endpoint":"te","flow":2,"ok":"bind","unit":5}"#,
    ),
    (
        r#"{"op":"copy","copy":1}"#,
        r#"{"attempts":0,"cause":"TopicChanged","copy":1,"endpoint":1,"fate":"discarded","message":1,"ok":"copy","unit":5}"#,
    ),
    (
        r#"{"op":"bind","endpoint":"te","topic":"d"}"#,
        r#"{"refused":{"copies":0,"flows":1,"no":11,"rule":"InUse"},"unit":5}"#,
    ),
];

// A request that publishes that many bytes to a queue.
fn publish(alloc: Global, length: usize) -> Result<String, AllocError> {
    let mut bytes = Vec::new(alloc);
    bytes.resize(length, b'x')?;
    let payload = String::from_utf8_lossy(alloc, bytes.as_slice())?;
    format!(in alloc; r#"{{"op":"publish","queue":"q1","payload":"{payload}"}}"#)
}

#[test]
fn a_message_goes_once_to_each_queue_that_takes_its_topic(rt: HostRuntime) -> Result<(), Fail> {
    let alloc = rt.alloc();
    assert!(rt; is_answered(alloc, &FIVE_QUEUES)?);
    assert!(rt; is_answered(alloc, &EXCEPTION_LAST)?);
    assert!(rt; is_answered(alloc, &EXCEPTION_FIRST)?);
    assert!(rt; is_answered(alloc, &TWO_MATCHES)?);
    Ok(())
}

#[test]
fn another_topic_discards_what_the_old_one_brought(rt: HostRuntime) -> Result<(), Fail> {
    assert!(rt; is_answered(rt.alloc(), &ANOTHER_TOPIC)?);
    Ok(())
}

// The bytes of two payloads fill the quota to the last byte: 600,066 and 448,510 of 1,048,576.
#[test]
fn a_queue_that_is_full_to_the_last_byte_takes_no_empty_message(
    rt: HostRuntime,
) -> Result<(), Fail> {
    let alloc = rt.alloc();
    let (first, second, none) = (
        publish(alloc, 600_000)?,
        publish(alloc, 448_444)?,
        publish(alloc, 0)?,
    );
    let turns = [
        (
            r#"{"op":"provision","endpoint":"q1","attributes":{"maxMsgSpoolUsage":1}}"#,
            r#"{"endpoint":"q1","number":1,"ok":"provision","unit":1}"#,
        ),
        (
            first.as_str(),
            r#"{"copies":[{"copy":1,"endpoint":"q1","fate":"spooled"}],"message":1,"ok":"publish","unit":2}"#,
        ),
        (
            second.as_str(),
            r#"{"copies":[{"copy":2,"endpoint":"q1","fate":"spooled"}],"message":2,"ok":"publish","unit":3}"#,
        ),
        (
            none.as_str(),
            r#"{"refused":{"max":1048576,"name":"q1","no":18,"rule":"QuotaExceeded","size":66,"used":1048576},"unit":3}"#,
        ),
    ];
    assert!(rt; is_answered(alloc, &turns)?);
    Ok(())
}
