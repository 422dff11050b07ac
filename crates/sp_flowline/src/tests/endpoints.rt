use crate::op::Op;
use crate::tests::told::{first_wrong, shows};
use sp_base::name::Name;
use sp_event::answer::{Answered, Reply};
use std::test::Fail;

const GOOD: &str = r#"queue|{"op":"provision","endpoint":"q1"}
queue|{"attributes":{},"endpoint":"q1","kind":"queue","op":"provision"}
topic-endpoint maxTtl=5 partitionCount=0|{"op":"provision","endpoint":"t1","kind":"topic-endpoint","attributes":{"partitionCount":0,"maxTtl":5}}
queue partitionCount=64|{"op":"provision","endpoint":"q1","attributes":{"partitionCount":64}}
change accessType=word 0 deadMsgQueue=name d/1 maxMsgSpoolUsage=800000 owner=no name respectTtlEnabled=true|{"op":"change","endpoint":"q1","attributes":{"respectTtlEnabled":true,"owner":"","maxMsgSpoolUsage":800000,"deadMsgQueue":"d/1","accessType":"exclusive"}}
change owner=name bob partitionCount=1 permission=word 4|{"op":"change","endpoint":"q1","attributes":{"permission":"delete","partitionCount":1,"owner":"bob"}}
q1|{"op":"deprovision","endpoint":"q1"}
+!a/>|{"op":"subscribe","endpoint":"q1","subscription":"!a/>"}
-a*|{"op":"unsubscribe","endpoint":"q1","subscription":"a*"}"#;

const REFUSED: &str = r#"request 2|{"op":"change","endpoint":"q 1","x":1}
request 2|{"op":"subscribe","endpoint":"q1"}
request 3|{"op":"deprovision","endpoint":"q1","kind":"queue"}
request 3|{"op":"change","endpoint":"q1","attributes":5,"kind":"queue"}
request 4|{"op":"provision","endpoint":"q1","kind":"topic","attributes":{"x":1}}
request 4|{"op":"provision","endpoint":"q1","attributes":null}
request 4|{"op":"change","endpoint":"","attributes":{"x":1}}
request 4|{"op":"unsubscribe","endpoint":"q 1","subscription":""}
request 4|{"op":"subscribe","endpoint":"q1","subscription":5}
subscription 0|{"op":"subscribe","endpoint":"q1","subscription":""}
subscription 1|{"op":"unsubscribe","endpoint":"q1","subscription":"!"}
attribute b|{"op":"change","endpoint":"q1","attributes":{"maxTtl":-1,"c":1,"b":1}}
attribute MaxTtl|{"op":"change","endpoint":"q1","attributes":{"MaxTtl":1}}
attribute maxTtl|{"op":"change","endpoint":"q1","attributes":{"maxTtl":1.0}}
attribute maxTtl|{"op":"change","endpoint":"q1","attributes":{"maxTtl":4294967296}}
attribute maxMsgSpoolUsage|{"op":"change","endpoint":"q1","attributes":{"maxMsgSpoolUsage":0,"zero":0}}
attribute egressEnabled|{"op":"change","endpoint":"q1","attributes":{"egressEnabled":"true"}}
attribute accessType|{"op":"change","endpoint":"q1","attributes":{"accessType":"delete"}}
attribute deadMsgQueue|{"op":"change","endpoint":"q1","attributes":{"deadMsgQueue":""}}
attribute owner|{"op":"change","endpoint":"q1","attributes":{"owner":null}}
attribute partitionCount|{"op":"provision","endpoint":"t1","kind":"topic-endpoint","attributes":{"partitionCount":1,"permission":1}}"#;

#[test]
fn requests_of_endpoints_are_read(rt: HostRuntime) -> Result<(), Fail> {
    let alloc = rt.alloc();
    assert_eq!(rt; first_wrong(alloc, GOOD)?, None);
    Ok(())
}

#[test]
fn the_first_fault_is_told(rt: HostRuntime) -> Result<(), Fail> {
    let alloc = rt.alloc();
    assert_eq!(rt; first_wrong(alloc, REFUSED)?, None);
    Ok(())
}

fn reply(op: Op, endpoint: Name) -> Reply {
    match op {
        Op::Deprovision => Reply::Deprovision { endpoint },
        Op::Change => Reply::Change { endpoint },
        Op::Subscribe => Reply::Subscribe { endpoint },
        _ => Reply::Unsubscribe { endpoint },
    }
}

#[test]
fn replies_of_endpoints(rt: HostRuntime) -> Result<(), Fail> {
    let alloc = rt.alloc();
    for (op, text) in [
        (
            Op::Deprovision,
            r#"{"endpoint":"q1","ok":"deprovision","unit":7}"#,
        ),
        (Op::Change, r#"{"endpoint":"q1","ok":"change","unit":7}"#),
        (
            Op::Subscribe,
            r#"{"endpoint":"q1","ok":"subscribe","unit":7}"#,
        ),
        (
            Op::Unsubscribe,
            r#"{"endpoint":"q1","ok":"unsubscribe","unit":7}"#,
        ),
    ] {
        let reply = reply(op, Name::read(alloc, b"q1")?);
        assert!(rt; shows(alloc, Answered::Gave(reply), 7, text)?);
    }
    Ok(())
}
