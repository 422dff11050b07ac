use crate::tests::is_answered;
use std::test::Fail;

const PROVISION: (&str, &str) = (
    r#"{"op":"provision","endpoint":"q1"}"#,
    r#"{"endpoint":"q1","number":1,"ok":"provision","unit":1}"#,
);

const PUBLISHED: &str =
    r#"{"copies":[{"copy":1,"endpoint":"q1","fate":"spooled"}],"message":1,"ok":"publish","unit":2}"#;

const BOUND: &str = r#"{"discarded":0,"endpoint":"q1","flow":1,"ok":"bind","unit":3}"#;

const PULL: &str = r#"{"op":"pull","flow":1}"#;

const NOTHING: &str = r#"{"deliveries":[],"flow":1,"ok":"pull","unit":3}"#;

// A publish with properties, a bind with a selector, and what the flow is then handed.
const PULLED: [(&str, &str, &str); 5] = [
    (
        r#"{"op":"publish","queue":"q1","properties":{"price":11}}"#,
        r#"{"op":"bind","endpoint":"q1","selector":"price > 10.5 AND NOT (region = 'eu')"}"#,
        NOTHING,
    ),
    (
        r#"{"op":"publish","queue":"q1","properties":{"qty":3}}"#,
        r#"{"op":"bind","endpoint":"q1","selector":"qty / 0 IS NULL"}"#,
        r#"{"deliveries":[{"attempt":1,"copy":1,"message":1,"payload":"","properties":{"qty":3},"queue":"q1"}],"flow":1,"ok":"pull","unit":4}"#,
    ),
    (
        r#"{"op":"publish","queue":"q1","properties":{"name":"a_1"}}"#,
        r#"{"op":"bind","endpoint":"q1","selector":"name LIKE 'a\\_%' ESCAPE '\\'"}"#,
        r#"{"deliveries":[{"attempt":1,"copy":1,"message":1,"payload":"","properties":{"name":"a_1"},"queue":"q1"}],"flow":1,"ok":"pull","unit":4}"#,
    ),
    (
        r#"{"op":"publish","queue":"q1","properties":{"name":"ab1"}}"#,
        r#"{"op":"bind","endpoint":"q1","selector":"name LIKE 'a\\_%' ESCAPE '\\'"}"#,
        NOTHING,
    ),
    (
        r#"{"op":"publish","queue":"q1","properties":{"name":""}}"#,
        r#"{"op":"bind","endpoint":"q1","selector":"name LIKE 'a\\_%' ESCAPE '\\'"}"#,
        NOTHING,
    ),
];

#[test]
fn a_flow_is_handed_what_its_selector_takes(rt: HostRuntime) -> Result<(), Fail> {
    for (publish, bind, pulled) in PULLED {
        let turns = [
            PROVISION,
            (publish, PUBLISHED),
            (bind, BOUND),
            (PULL, pulled),
        ];
        assert!(rt; is_answered(rt.alloc(), &turns)?);
    }
    Ok(())
}

const BAD: [(&str, &str); 5] = [
    PROVISION,
    (
        r#"{"op":"bind","endpoint":"q1","selector":"a = "}"#,
        r#"{"refused":{"at":4,"no":5,"rule":"BadSelector"},"unit":1}"#,
    ),
    (
        r#"{"op":"bind","endpoint":"q1","selector":"a = = 1"}"#,
        r#"{"refused":{"at":4,"no":5,"rule":"BadSelector"},"unit":1}"#,
    ),
    (
        r#"{"op":"bind","endpoint":"q1","selector":"a LIKE 1"}"#,
        r#"{"refused":{"at":7,"no":5,"rule":"BadSelector"},"unit":1}"#,
    ),
    (
        r#"{"op":"bind","endpoint":"q1","selector":"1e5"}"#,
        r#"{"refused":{"at":1,"no":5,"rule":"BadSelector"},"unit":1}"#,
    ),
];

#[test]
fn a_text_that_is_no_selector_is_refused(rt: HostRuntime) -> Result<(), Fail> {
    assert!(rt; is_answered(rt.alloc(), &BAD)?);
    Ok(())
}

// A topic endpoint asks its selector of what arrives; with the same topic another selector, or none, is
// another: not while a flow is bound, and else what came by the old one is discarded.
const ON_ARRIVAL: [(&str, &str); 9] = [
    (
        r#"{"op":"provision","endpoint":"t1","kind":"topic-endpoint"}"#,
        r#"{"endpoint":"t1","number":1,"ok":"provision","unit":1}"#,
    ),
    (
        r#"{"op":"bind","endpoint":"t1","topic":"a/*","selector":"x = 1"}"#,
        r#"{"discarded":0,"endpoint":"t1","flow":1,"ok":"bind","unit":2}"#,
    ),
    (
        r#"{"op":"publish","topic":"a/b","properties":{"x":2}}"#,
        r#"{"copies":[],"message":1,"ok":"publish","unit":3}"#,
    ),
    (
        r#"{"op":"publish","topic":"a/b","properties":{"x":1}}"#,
        r#"{"copies":[{"copy":1,"endpoint":"t1","fate":"spooled"}],"message":2,"ok":"publish","unit":4}"#,
    ),
    (
        r#"{"op":"bind","endpoint":"t1","topic":"a/*","selector":"x = 1"}"#,
        r#"{"discarded":0,"endpoint":"t1","flow":2,"ok":"bind","unit":5}"#,
    ),
    (
        r#"{"op":"bind","endpoint":"t1","topic":"a/*"}"#,
        r#"{"refused":{"copies":1,"flows":2,"no":11,"rule":"InUse"},"unit":5}"#,
    ),
    (
        r#"{"op":"unbind","flow":1}"#,
        r#"{"closed":[],"flow":1,"ok":"unbind","returned":0,"unit":6}"#,
    ),
    (
        r#"{"op":"unbind","flow":2}"#,
        r#"{"closed":[],"flow":2,"ok":"unbind","returned":0,"unit":7}"#,
    ),
    (
        r#"{"op":"bind","endpoint":"t1","topic":"a/*"}"#,
        r#"{"discarded":1,"endpoint":"t1","flow":3,"ok":"bind","unit":8}"#,
    ),
];

#[test]
fn a_topic_endpoint_asks_its_selector_of_what_arrives(rt: HostRuntime) -> Result<(), Fail> {
    assert!(rt; is_answered(rt.alloc(), &ON_ARRIVAL)?);
    Ok(())
}
