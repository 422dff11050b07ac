use crate::tests::is_answered;
use std::test::Fail;

// Two copies, each pulled by a flow of its own; the first is settled twice, and then the second by
// the flow that doesn't hold it; the flow goes, and settles once more.
const NOT_HELD: [(&str, &str); 13] = [
    (
        r#"{"op":"provision","endpoint":"q1"}"#,
        r#"{"endpoint":"q1","number":1,"ok":"provision","unit":1}"#,
    ),
    (
        r#"{"op":"publish","queue":"q1","payload":"a"}"#,
        r#"{"copies":[{"copy":1,"endpoint":"q1","fate":"spooled"}],"message":1,"ok":"publish","unit":2}"#,
    ),
    (
        r#"{"op":"publish","queue":"q1","payload":"b"}"#,
        r#"{"copies":[{"copy":2,"endpoint":"q1","fate":"spooled"}],"message":2,"ok":"publish","unit":3}"#,
    ),
    (
        r#"{"op":"bind","endpoint":"q1"}"#,
        r#"{"discarded":0,"endpoint":"q1","flow":1,"ok":"bind","unit":4}"#,
    ),
    (
        r#"{"op":"bind","endpoint":"q1"}"#,
        r#"{"discarded":0,"endpoint":"q1","flow":2,"ok":"bind","unit":5}"#,
    ),
    (
        r#"{"op":"pull","flow":1}"#,
        r#"{"deliveries":[{"attempt":1,"copy":1,"message":1,"payload":"a","properties":{},"queue":"q1"}],"flow":1,"ok":"pull","unit":6}"#,
    ),
    (
        r#"{"op":"pull","flow":2}"#,
        r#"{"deliveries":[{"attempt":1,"copy":2,"message":2,"payload":"b","properties":{},"queue":"q1"}],"flow":2,"ok":"pull","unit":7}"#,
    ),
    (
        r#"{"op":"settle","flow":1,"copy":1,"outcome":"accepted"}"#,
        r#"{"copy":1,"fate":"accepted","ok":"settle","unit":8}"#,
    ),
    (
        r#"{"op":"settle","flow":1,"copy":1,"outcome":"accepted"}"#,
        r#"{"refused":{"copy":1,"no":22,"rule":"NotHeld"},"unit":8}"#,
    ),
    (
        r#"{"op":"settle","flow":1,"copy":2,"outcome":"accepted"}"#,
        r#"{"refused":{"copy":2,"no":22,"rule":"NotHeld"},"unit":8}"#,
    ),
    (
        r#"{"op":"unbind","flow":1}"#,
        r#"{"closed":[],"flow":1,"ok":"unbind","returned":0,"unit":9}"#,
    ),
    (
        r#"{"op":"settle","flow":1,"copy":2,"outcome":"accepted"}"#,
        r#"{"refused":{"flow":1,"no":21,"rule":"UnknownFlow"},"unit":9}"#,
    ),
    (
        r#"{"op":"tally","endpoint":"q1"}"#,
        r#"{"accepted":1,"causes":{},"discarded":0,"made":2,"moved":0,"ok":"tally","spooled":1,"unit":9,"used":67}"#,
    ),
];

// The one byte ff, published as base64 and pulled.
const ONE_BYTE: [(&str, &str); 4] = [
    (
        r#"{"op":"provision","endpoint":"q1"}"#,
        r#"{"endpoint":"q1","number":1,"ok":"provision","unit":1}"#,
    ),
    (
        r#"{"op":"publish","queue":"q1","payload64":"/w=="}"#,
        r#"{"copies":[{"copy":1,"endpoint":"q1","fate":"spooled"}],"message":1,"ok":"publish","unit":2}"#,
    ),
    (
        r#"{"op":"bind","endpoint":"q1"}"#,
        r#"{"discarded":0,"endpoint":"q1","flow":1,"ok":"bind","unit":3}"#,
    ),
    (
        r#"{"op":"pull","flow":1}"#,
        r#"{"deliveries":[{"attempt":1,"copy":1,"message":1,"payload64":"/w==","properties":{},"queue":"q1"}],"flow":1,"ok":"pull","unit":4}"#,
    ),
];

#[test]
fn a_copy_is_settled_once_and_by_its_holder(rt: HostRuntime) -> Result<(), Fail> {
    assert!(rt; is_answered(rt.alloc(), &NOT_HELD)?);
    Ok(())
}

#[test]
fn bytes_that_are_no_text_are_delivered_as_base64(rt: HostRuntime) -> Result<(), Fail> {
    assert!(rt; is_answered(rt.alloc(), &ONE_BYTE)?);
    Ok(())
}
