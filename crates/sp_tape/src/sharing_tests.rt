use crate::tests::is_answered;
use std::test::Fail;

// Four messages of different groups in four partitions; a flow is bound while another holds two.
const PARTITIONS: [(&str, &str); 15] = [
    (
        r#"{"op":"provision","endpoint":"q1","attributes":{"partitionCount":4}}"#,
        r#"{"endpoint":"q1","number":1,"ok":"provision","unit":1}"#,
    ),
    (
        r#"{"op":"publish","queue":"q1","properties":{"JMSXGroupID":"a"}}"#,
        r#"{"copies":[{"copy":1,"endpoint":"q1","fate":"spooled"}],"message":1,"ok":"publish","unit":2}"#,
    ),
    (
        r#"{"op":"publish","queue":"q1","properties":{"JMSXGroupID":"b"}}"#,
        r#"{"copies":[{"copy":2,"endpoint":"q1","fate":"spooled"}],"message":2,"ok":"publish","unit":3}"#,
    ),
    (
        r#"{"op":"publish","queue":"q1","properties":{"JMSXGroupID":"c"}}"#,
        r#"{"copies":[{"copy":3,"endpoint":"q1","fate":"spooled"}],"message":3,"ok":"publish","unit":4}"#,
    ),
    (
        r#"{"op":"publish","queue":"q1","properties":{"JMSXGroupID":"d"}}"#,
        r#"{"copies":[{"copy":4,"endpoint":"q1","fate":"spooled"}],"message":4,"ok":"publish","unit":5}"#,
    ),
    (
        r#"{"op":"bind","endpoint":"q1"}"#,
        r#"{"discarded":0,"endpoint":"q1","flow":1,"ok":"bind","unit":6}"#,
    ),
    (
        r#"{"op":"pull","flow":1,"count":2}"#,
        r#"{"deliveries":[{"attempt":1,"copy":1,"message":1,"payload":"","properties":{"JMSXGroupID":"a"},"queue":"q1"},{"attempt":1,"copy":2,"message":2,"payload":"","properties":{"JMSXGroupID":"b"},"queue":"q1"}],"flow":1,"ok":"pull","unit":7}"#,
    ),
    (
        r#"{"op":"settle","flow":1,"copy":1,"outcome":"accepted"}"#,
        r#"{"copy":1,"fate":"accepted","ok":"settle","unit":8}"#,
    ),
    (
        r#"{"op":"bind","endpoint":"q1"}"#,
        r#"{"discarded":0,"endpoint":"q1","flow":2,"ok":"bind","unit":9}"#,
    ),
    (
        r#"{"op":"publish","queue":"q1","properties":{"JMSXGroupID":"b"}}"#,
        r#"{"copies":[{"copy":5,"endpoint":"q1","fate":"spooled"}],"message":5,"ok":"publish","unit":10}"#,
    ),
    (
        r#"{"op":"pull","flow":2,"count":10}"#,
        r#"{"deliveries":[{"attempt":1,"copy":4,"message":4,"payload":"","properties":{"JMSXGroupID":"d"},"queue":"q1"}],"flow":2,"ok":"pull","unit":11}"#,
    ),
    (
        r#"{"op":"flows","endpoint":"q1"}"#,
        r#"{"endpoint":"q1","flows":[{"active":true,"caller":"ann","flow":1,"held":1},{"active":true,"caller":"ann","flow":2,"held":1}],"ok":"flows","unit":11}"#,
    ),
    (
        r#"{"op":"settle","flow":1,"copy":2,"outcome":"accepted"}"#,
        r#"{"copy":2,"fate":"accepted","ok":"settle","unit":12}"#,
    ),
    (
        r#"{"op":"pull","flow":2,"count":10}"#,
        r#"{"deliveries":[{"attempt":1,"copy":5,"message":5,"payload":"","properties":{"JMSXGroupID":"b"},"queue":"q1"}],"flow":2,"ok":"pull","unit":13}"#,
    ),
    (
        r#"{"op":"pull","flow":1,"count":10}"#,
        r#"{"deliveries":[{"attempt":1,"copy":3,"message":3,"payload":"","properties":{"JMSXGroupID":"c"},"queue":"q1"}],"flow":1,"ok":"pull","unit":14}"#,
    ),
];

#[test]
fn a_partition_stays_with_the_flow_that_holds_a_copy_of_it(rt: HostRuntime) -> Result<(), Fail> {
    assert!(rt; is_answered(rt.alloc(), &PARTITIONS)?);
    Ok(())
}

// The first flow unbinds while the second stands by.
const EXCLUSIVE: [(&str, &str); 9] = [
    (
        r#"{"op":"provision","endpoint":"q1","attributes":{"accessType":"exclusive"}}"#,
        r#"{"endpoint":"q1","number":1,"ok":"provision","unit":1}"#,
    ),
    (
        r#"{"op":"publish","queue":"q1"}"#,
        r#"{"copies":[{"copy":1,"endpoint":"q1","fate":"spooled"}],"message":1,"ok":"publish","unit":2}"#,
    ),
    (
        r#"{"op":"bind","endpoint":"q1"}"#,
        r#"{"discarded":0,"endpoint":"q1","flow":1,"ok":"bind","unit":3}"#,
    ),
    (
        r#"{"op":"bind","endpoint":"q1"}"#,
        r#"{"discarded":0,"endpoint":"q1","flow":2,"ok":"bind","unit":4}"#,
    ),
    (
        r#"{"op":"pull","flow":2}"#,
        r#"{"deliveries":[],"flow":2,"ok":"pull","unit":4}"#,
    ),
    (
        r#"{"op":"pull","flow":1}"#,
        r#"{"deliveries":[{"attempt":1,"copy":1,"message":1,"payload":"","properties":{},"queue":"q1"}],"flow":1,"ok":"pull","unit":5}"#,
    ),
    (
        r#"{"op":"flows","endpoint":"q1"}"#,
        r#"{"endpoint":"q1","flows":[{"active":true,"caller":"ann","flow":1,"held":1},{"active":false,"caller":"ann","flow":2,"held":0}],"ok":"flows","unit":5}"#,
    ),
    (
        r#"{"op":"unbind","flow":1}"#,
        r#"{"closed":[],"flow":1,"ok":"unbind","returned":1,"unit":6}"#,
    ),
    (
        r#"{"op":"pull","flow":2}"#,
        r#"{"deliveries":[{"attempt":2,"copy":1,"message":1,"payload":"","properties":{},"queue":"q1"}],"flow":2,"ok":"pull","unit":7}"#,
    ),
];

#[test]
fn on_an_exclusive_queue_one_flow_is_active(rt: HostRuntime) -> Result<(), Fail> {
    assert!(rt; is_answered(rt.alloc(), &EXCLUSIVE)?);
    Ok(())
}

// The attributes bound how many flows are bound, and how many copies each holds.
const LIMITS: [(&str, &str); 7] = [
    (
        r#"{"op":"provision","endpoint":"q1","attributes":{"maxBindCount":1,"maxDeliveredUnackedMsgsPerFlow":1}}"#,
        r#"{"endpoint":"q1","number":1,"ok":"provision","unit":1}"#,
    ),
    (
        r#"{"op":"bind","endpoint":"q1"}"#,
        r#"{"discarded":0,"endpoint":"q1","flow":1,"ok":"bind","unit":2}"#,
    ),
    (
        r#"{"op":"bind","endpoint":"q1"}"#,
        r#"{"refused":{"bound":1,"max":1,"no":20,"rule":"BindLimit"},"unit":2}"#,
    ),
    (
        r#"{"op":"publish","queue":"q1"}"#,
        r#"{"copies":[{"copy":1,"endpoint":"q1","fate":"spooled"}],"message":1,"ok":"publish","unit":3}"#,
    ),
    (
        r#"{"op":"publish","queue":"q1"}"#,
        r#"{"copies":[{"copy":2,"endpoint":"q1","fate":"spooled"}],"message":2,"ok":"publish","unit":4}"#,
    ),
    (
        r#"{"op":"pull","flow":1,"count":2}"#,
        r#"{"deliveries":[{"attempt":1,"copy":1,"message":1,"payload":"","properties":{},"queue":"q1"}],"flow":1,"ok":"pull","unit":5}"#,
    ),
    (
        r#"{"op":"pull","flow":1,"count":2}"#,
        r#"{"deliveries":[],"flow":1,"ok":"pull","unit":5}"#,
    ),
];

#[test]
fn flows_and_what_they_hold_are_bounded(rt: HostRuntime) -> Result<(), Fail> {
    assert!(rt; is_answered(rt.alloc(), &LIMITS)?);
    Ok(())
}
