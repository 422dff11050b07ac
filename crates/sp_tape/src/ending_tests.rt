use crate::status::Status;
use crate::tests::ran;
use std::alloc::{AllocError, Global};
use std::test::Fail;

const DEAD: &str = r##"{"op":"provision","endpoint":"#DEAD_MSG_QUEUE"}"##;

const TWICE: &str = r#"{"op":"provision","endpoint":"q1","attributes":{"maxRedeliveryCount":2}}"#;

const TO_ITSELF: &str =
    r#"{"op":"provision","endpoint":"q1","attributes":{"maxRedeliveryCount":2,"deadMsgQueue":"q1"}}"#;

const TO_Q2: &str = r#"{"op":"provision","endpoint":"q1","attributes":{"deadMsgQueue":"q2"}}"#;

const TO_Q1: &str = r#"{"op":"provision","endpoint":"q2","attributes":{"deadMsgQueue":"q1"}}"#;

const CLOSED_Q2: &str =
    r#"{"op":"provision","endpoint":"q2","attributes":{"ingressEnabled":false}}"#;

const RESPECTS: &str =
    r#"{"op":"provision","endpoint":"q1","attributes":{"respectTtlEnabled":true}}"#;

const THREE_SECONDS: &str =
    r#"{"op":"provision","endpoint":"q1","attributes":{"respectTtlEnabled":true,"maxTtl":3}}"#;

const PUBLISH: &str = r#"{"op":"publish","queue":"q1","dmq":true}"#;

const BIND: &str = r#"{"op":"bind","endpoint":"q1"}"#;

const BIND_Q2: &str = r#"{"op":"bind","endpoint":"q2"}"#;

const PULL: &str = r#"{"op":"pull","flow":1}"#;

const PULL_ONE: &str = r#"{"op":"pull","flow":1,"count":1}"#;

const PULL_Q2: &str = r#"{"op":"pull","flow":2}"#;

const FAILED: &str = r#"{"op":"settle","flow":1,"copy":1,"outcome":"failed"}"#;

const REJECTED: &str = r#"{"op":"settle","flow":1,"copy":1,"outcome":"rejected"}"#;

const REJECTED_2: &str = r#"{"op":"settle","flow":2,"copy":2,"outcome":"rejected"}"#;

const UNBIND: &str = r#"{"op":"unbind","flow":1}"#;

const TICK: &str = r#"{"op":"tick"}"#;

// Whether requests of ann, each at its moment, are answered, the last by this line.
fn ends_with(alloc: Global, requests: &[(u64, &str)], last: &str) -> Result<bool, AllocError> {
    let mut tape = Vec::new(alloc);
    for (moment, request) in requests {
        let len = request.len();
        let entry = format!(in alloc; "@ann flow {moment} {len}\n{request}\n")?;
        tape.extend_from_slice(entry.as_bytes())?;
    }
    let ran = ran(alloc, "run", tape.as_slice(), 4096, &[], &[])?;
    let line = format!(in alloc; "\n{last}\n")?;
    Ok(ran.status == Status::Done && ran.output.as_slice().ends_with(line.as_bytes()))
}

// The same of requests that all come at moment 0.
fn at_once(alloc: Global, requests: &[&str], last: &str) -> Result<bool, AllocError> {
    let mut timed = Vec::new(alloc);
    for request in requests {
        timed.push((0, *request))?;
    }
    ends_with(alloc, timed.as_slice(), last)
}

#[test]
fn a_copy_that_fails_for_the_third_time_is_moved_if_it_can_be(rt: HostRuntime) -> Result<(), Fail> {
    let alloc = rt.alloc();
    let moved = [
        TWICE, DEAD, PUBLISH, BIND, PULL, FAILED, PULL, FAILED, PULL, FAILED,
    ];
    let last = r#"{"copy":1,"fate":"moved","ok":"settle","to":2,"unit":10}"#;
    assert!(rt; at_once(alloc, &moved, last)?);
    let missing = [
        TWICE, PUBLISH, BIND, PULL, FAILED, PULL, FAILED, PULL, FAILED,
    ];
    let last = r#"{"cause":"DmqMissing","copy":1,"fate":"discarded","ok":"settle","unit":9}"#;
    assert!(rt; at_once(alloc, &missing, last)?);
    let itself = [
        TO_ITSELF, PUBLISH, BIND, PULL, FAILED, PULL, FAILED, PULL, FAILED,
    ];
    let last = r#"{"cause":"DmqSelf","copy":1,"fate":"discarded","ok":"settle","unit":9}"#;
    assert!(rt; at_once(alloc, &itself, last)?);
    Ok(())
}

#[test]
fn an_unbind_ends_what_has_had_its_last_attempt(rt: HostRuntime) -> Result<(), Fail> {
    let alloc = rt.alloc();
    let requests = [
        TWICE, DEAD, PUBLISH, BIND, PULL, FAILED, PULL, FAILED, PULL, UNBIND,
    ];
    let last =
        r#"{"closed":[{"copy":1,"fate":"moved","to":2}],"flow":1,"ok":"unbind","returned":0,"unit":10}"#;
    assert!(rt; at_once(alloc, &requests, last)?);
    Ok(())
}

#[test]
fn a_moved_copy_is_not_moved_again(rt: HostRuntime) -> Result<(), Fail> {
    let alloc = rt.alloc();
    let once = [TO_Q2, TO_Q1, PUBLISH, BIND, BIND_Q2, PULL, REJECTED];
    let last = r#"{"copy":1,"fate":"moved","ok":"settle","to":2,"unit":7}"#;
    assert!(rt; at_once(alloc, &once, last)?);
    let again = [
        TO_Q2, TO_Q1, PUBLISH, BIND, BIND_Q2, PULL, REJECTED, PULL_Q2, REJECTED_2,
    ];
    let last = r#"{"cause":"Rejected","copy":2,"fate":"discarded","ok":"settle","unit":9}"#;
    assert!(rt; at_once(alloc, &again, last)?);
    Ok(())
}

#[test]
fn a_queue_that_takes_nothing_takes_no_dead_copy(rt: HostRuntime) -> Result<(), Fail> {
    let alloc = rt.alloc();
    let requests = [TO_Q2, CLOSED_Q2, PUBLISH, BIND, PULL, REJECTED];
    let last = r#"{"cause":"DmqDisabled","copy":1,"fate":"discarded","ok":"settle","unit":6}"#;
    assert!(rt; at_once(alloc, &requests, last)?);
    Ok(())
}

#[test]
fn a_copy_expires_by_a_tick_unless_it_is_held(rt: HostRuntime) -> Result<(), Fail> {
    let alloc = rt.alloc();
    let short = r#"{"op":"publish","queue":"q1","ttl":5000}"#;
    let held = [
        (0, THREE_SECONDS),
        (0, short),
        (0, short),
        (0, BIND),
        (2999, PULL_ONE),
        (3000, PULL_ONE),
        (3000, TICK),
    ];
    let last =
        r#"{"closed":[{"cause":"Expired","copy":2,"fate":"discarded"}],"ok":"tick","unit":6}"#;
    assert!(rt; ends_with(alloc, &held, last)?);
    let nothing = r#"{"deliveries":[],"flow":1,"ok":"pull","unit":5}"#;
    assert!(rt; ends_with(alloc, &held[..6], nothing)?);
    Ok(())
}

#[test]
fn a_deadline_counts_from_the_later_moment(rt: HostRuntime) -> Result<(), Fail> {
    let alloc = rt.alloc();
    let requests = [
        (0, RESPECTS),
        (5000, r#"{"op":"publish","queue":"q1"}"#),
        (1000, r#"{"op":"publish","queue":"q1","ttl":1000}"#),
        (5999, TICK),
        (6000, TICK),
    ];
    let early = r#"{"closed":[],"ok":"tick","unit":3}"#;
    assert!(rt; ends_with(alloc, &requests[..4], early)?);
    let last =
        r#"{"closed":[{"cause":"Expired","copy":2,"fate":"discarded"}],"ok":"tick","unit":4}"#;
    assert!(rt; ends_with(alloc, &requests, last)?);
    Ok(())
}

// Two copies of 600,000 bytes expire at once, and their dead-message queue has room for one.
#[test]
fn the_second_of_two_ends_sees_what_the_first_left(rt: HostRuntime) -> Result<(), Fail> {
    let alloc = rt.alloc();
    let large = "x".repeat(alloc, 600_000)?;
    let publish = format!(in alloc;
        r#"{{"op":"publish","queue":"q1","dmq":true,"ttl":1000,"payload":"{large}"}}"#
    )?;
    let from =
        r#"{"op":"provision","endpoint":"q1","attributes":{"respectTtlEnabled":true,"deadMsgQueue":"q2"}}"#;
    let small = r#"{"op":"provision","endpoint":"q2","attributes":{"maxMsgSpoolUsage":1}}"#;
    let requests = [
        (0, from),
        (0, small),
        (0, publish.as_str()),
        (0, publish.as_str()),
        (1000, TICK),
    ];
    let last =
        r#"{"closed":[{"copy":1,"fate":"moved","to":3},{"cause":"DmqQuota","copy":2,"fate":"discarded"}],"ok":"tick","unit":5}"#;
    assert!(rt; ends_with(alloc, &requests, last)?);
    Ok(())
}

#[test]
fn a_delete_leaves_what_is_held(rt: HostRuntime) -> Result<(), Fail> {
    let alloc = rt.alloc();
    let plain = r#"{"op":"provision","endpoint":"q1"}"#;
    let requests = [
        plain,
        PUBLISH,
        PUBLISH,
        PUBLISH,
        BIND,
        PULL_ONE,
        r#"{"op":"delete","endpoint":"q1","copy":1}"#,
        r#"{"op":"delete","endpoint":"q1","copy":3}"#,
        r#"{"op":"delete","endpoint":"q1"}"#,
    ];
    let held = r#"{"closed":[],"endpoint":"q1","ok":"delete","unit":6}"#;
    assert!(rt; at_once(alloc, &requests[..7], held)?);
    let named =
        r#"{"closed":[{"cause":"Deleted","copy":3,"fate":"discarded"}],"endpoint":"q1","ok":"delete","unit":7}"#;
    assert!(rt; at_once(alloc, &requests[..8], named)?);
    let rest =
        r#"{"closed":[{"cause":"Deleted","copy":2,"fate":"discarded"}],"endpoint":"q1","ok":"delete","unit":8}"#;
    assert!(rt; at_once(alloc, &requests, rest)?);
    Ok(())
}
