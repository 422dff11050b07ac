mod endings;
mod endpoints;
mod flows;
mod properties;
mod replies;
mod told;
mod topics;

use sp_event::answer::Answered;
use std::alloc::{AllocError, Global};
use std::test::Fail;
use told::{first_wrong, shows, told};

const SPELLINGS: &str = r#"queue| { "endpoint" : "q1" , "op":"provision" } 
all|{"\u006fp":"\u0074ally"}
all|{"op":"fly","op":"tally"}
q1|{"op":"deprovision","endpoint":5,"endpoint":"q\u0031"}
queue q1|{"op":"publish","queue":"q1"}
queue q1|{"op":"publish","queue":"q1","payload":"\u0000\n"}
request 0|
request 0|{"op":"tally"} x
request 0|{"op":"tally","x":1e400}
request 0|{"op":"\ud800"}
request 1|[]
request 1|"op"
request 1|{}
request 1|{"op":5}
request 1|{"op":"Tally"}
request 2|{"op":"provision","x":1}
request 2|{"op":"publish","payload":"t"}
request 3|{"op":"publish","queue":5,"topic":"t"}
request 3|{"op":"tally","endpoint":5,"x":1}
request 4|{"op":"tally","endpoint":null}
request 4|{"op":"tally","endpoint":""}
request 4|{"op":"publish","queue":"q 1"}
request 4|{"op":"publish","queue":"q1","payload":1}"#;

#[test]
fn odd_spellings(rt: HostRuntime) -> Result<(), Fail> {
    let alloc = rt.alloc();
    assert_eq!(rt; first_wrong(alloc, SPELLINGS)?, None);
    Ok(())
}

#[test]
fn a_tab_is_space_and_a_line_feed_is_none(rt: HostRuntime) -> Result<(), Fail> {
    let alloc = rt.alloc();
    for bytes in [
        &b"{\"op\":\"tally\"}\n"[..],
        &b"{\n\"op\":\"tally\"}"[..],
        &b"{\"op\":\"tally\xff\"}"[..],
    ] {
        assert!(rt; told(alloc, bytes)?.as_str() == "request 0");
    }
    assert!(rt; told(alloc, b"{\t\"op\":\"tally\"}")?.as_str() == "all");
    Ok(())
}

// A tally with a field that nests arrays as deep as this, which isn't a field of it.
fn nested(alloc: Global, depth: usize) -> Result<Vec<u8>, AllocError> {
    let mut bytes = Vec::from_slice(alloc, b"{\"op\":\"tally\",\"x\":")?;
    for _ in 0..depth {
        bytes.push(b'[')?;
    }
    for _ in 0..depth {
        bytes.push(b']')?;
    }
    bytes.push(b'}')?;
    Ok(bytes)
}

#[test]
fn nesting_of_127_levels_is_read(rt: HostRuntime) -> Result<(), Fail> {
    let alloc = rt.alloc();
    assert!(rt; told(alloc, nested(alloc, 126)?.as_slice())?.as_str() == "request 3");
    assert!(rt; told(alloc, nested(alloc, 127)?.as_slice())?.as_str() == "request 0");
    Ok(())
}

#[test]
fn answers_that_are_no_reply(rt: HostRuntime) -> Result<(), Fail> {
    let alloc = rt.alloc();
    assert!(rt; shows(alloc, Answered::Memory, 2, r#"{"memory":true}"#)?);
    assert!(rt; shows(alloc, Answered::Disk, 2, r#"{"fault":"disk"}"#)?);
    let full = Answered::Full {
        len: 85,
        need: 46,
        max: 100,
    };
    assert!(rt; shows(alloc, full, 2, r#"{"full":{"len":85,"max":100,"need":46}}"#)?);
    Ok(())
}
