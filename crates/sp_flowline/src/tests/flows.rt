use crate::read::read;
use crate::tests::told::first_wrong;
use sp_event::request::{Ask, Event};
use std::test::Fail;

// Numbers as the count of a pull, and as the number of a copy or a flow.
const NUMBERS: &str = r#"request 4|{"op":"pull","flow":1,"count":0}
1|{"op":"pull","flow":1,"count":1}
64|{"op":"pull","flow":1,"count":64}
request 4|{"op":"pull","flow":1,"count":65}
request 4|{"op":"pull","flow":1,"count":4611686018427387904}
request 4|{"op":"pull","flow":1,"count":4611686018427387905}
request 4|{"op":"pull","flow":1,"count":18446744073709551615}
request 4|{"op":"pull","flow":1,"count":18446744073709551616}
request 4|{"op":"pull","flow":1,"count":1.0}
request 4|{"op":"pull","flow":1,"count":1E2}
request 4|{"op":"pull","flow":1,"count":-0}
request 4|{"op":"pull","flow":1,"count":-1}
request 4|{"op":"pull","flow":1,"count":"1"}
request 4|{"op":"pull","flow":1,"count":null}
0|{"op":"copy","copy":0}
1|{"op":"copy","copy":1}
64|{"op":"copy","copy":64}
65|{"op":"copy","copy":65}
4611686018427387904|{"op":"copy","copy":4611686018427387904}
request 4|{"op":"copy","copy":4611686018427387905}
request 4|{"op":"copy","copy":18446744073709551615}
request 4|{"op":"copy","copy":18446744073709551616}
request 4|{"op":"copy","copy":1.0}
request 4|{"op":"copy","copy":1E2}
request 4|{"op":"copy","copy":-0}
request 4|{"op":"copy","copy":-1}
request 4|{"op":"copy","copy":"1"}
request 4|{"op":"copy","copy":null}
1|{"op":"pull","flow":7}
4611686018427387904|{"op":"unbind","flow":4611686018427387904}
request 4|{"op":"unbind","flow":4611686018427387905}
accepted 4611686018427387904|{"op":"settle","flow":1,"outcome":"accepted","copy":4611686018427387904}
request 4|{"op":"settle","flow":1,"outcome":"accepted","copy":4611686018427387905}"#;

#[test]
fn whole_numbers_are_integers_in_their_range(rt: HostRuntime) -> Result<(), Fail> {
    let alloc = rt.alloc();
    assert_eq!(rt; first_wrong(alloc, NUMBERS)?, None);
    Ok(())
}

const FIELDS: &str = r#"bind|{"op":"bind","endpoint":"q1"}
request 2|{"op":"bind"}
request 3|{"op":"bind","endpoint":"q1","flow":1}
request 4|{"op":"bind","endpoint":"q 1"}
bind where a = 1|{"op":"bind","endpoint":"q1","selector":"a = 1"}
request 4|{"op":"bind","endpoint":"q1","selector":5}
request 4|{"op":"bind","endpoint":"q1","selector":null}
selector 4|{"op":"bind","endpoint":"q1","selector":"a = "}
selector 4|{"op":"bind","endpoint":"q1","selector":"a = = 1"}
selector 7|{"op":"bind","endpoint":"q1","selector":"a LIKE 1"}
selector 1|{"op":"bind","endpoint":"q1","selector":"1e5"}
subscription 0|{"op":"bind","endpoint":"q1","selector":"a = ","topic":"!a"}
request 4|{"op":"bind","endpoint":"q1","selector":5,"topic":"!a"}
request 2|{"op":"unbind","count":1}
request 3|{"op":"unbind","flow":1,"count":1}
request 3|{"op":"pull","flow":-1,"copy":1}
accepted 1|{"op":"settle","flow":1,"copy":1,"outcome":"accepted"}
request 2|{"op":"settle","flow":1,"copy":1,"x":1}
request 4|{"op":"settle","flow":1,"copy":1,"outcome":"Accepted"}
request 4|{"op":"settle","flow":1,"copy":1,"outcome":true}
request 2|{"op":"copy","endpoint":"q1"}
request 3|{"op":"copy","copy":1,"flow":1}
flows q1|{"op":"flows","endpoint":"q1"}
request 2|{"op":"flows"}
request 3|{"op":"flows","endpoint":"q1","flow":1}
request 4|{"op":"flows","endpoint":"q 1"}"#;

#[test]
fn fields_of_flows(rt: HostRuntime) -> Result<(), Fail> {
    let alloc = rt.alloc();
    assert_eq!(rt; first_wrong(alloc, FIELDS)?, None);
    Ok(())
}

const BASE64: &str = r#"request 4|{"op":"publish","queue":"q1","payload64":"/w="}
request 4|{"op":"publish","queue":"q1","payload64":"/w"}
request 4|{"op":"publish","queue":"q1","payload64":"/x=="}
request 4|{"op":"publish","queue":"q1","payload64":"/ w=="}
request 4|{"op":"publish","queue":"q1","payload64":"/w== "}
request 4|{"op":"publish","queue":"q1","payload64":"/w==/w=="}
request 4|{"op":"publish","queue":"q1","payload64":"_w=="}
request 4|{"op":"publish","queue":"q1","payload64":5}
request 3|{"op":"publish","queue":"q1","payload64":5,"payload":"a"}"#;

fn has_payload(ask: &Ask, payload: &[u8]) -> bool {
    match ask {
        Ask::Do(Event::Publish { message }) => message.payload.as_slice() == payload,
        _ => false,
    }
}

#[test]
fn base64_is_strict(rt: HostRuntime) -> Result<(), Fail> {
    let alloc = rt.alloc();
    for (line, payload) in [
        (
            r#"{"op":"publish","queue":"q1","payload64":"/w=="}"#,
            &b"\xff"[..],
        ),
        (
            r#"{"op":"publish","queue":"q1","payload64":"aGVsbG8="}"#,
            &b"hello"[..],
        ),
        (r#"{"op":"publish","queue":"q1","payload64":""}"#, &b""[..]),
    ] {
        let ask = read(alloc, line.as_bytes())?;
        assert!(rt; has_payload(&ask, payload));
    }
    assert_eq!(rt; first_wrong(alloc, BASE64)?, None);
    Ok(())
}
