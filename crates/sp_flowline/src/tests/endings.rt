use crate::tests::told::{first_wrong, shows};
use sp_base::items::Items;
use sp_base::name::Name;
use sp_base::number::{CopyNo, FlowNo};
use sp_copies::closed::{Cause, Fate};
use sp_event::answer::{Answered, CopyFate, Reply};
use std::alloc::{AllocError, Global};
use std::test::Fail;

const REQUESTS: &str = r#"queue q1|{"op":"publish","queue":"q1","ttl":0,"dmq":false}
queue q1 ttl 1|{"op":"publish","queue":"q1","ttl":1}
topic a ttl 4294967295000 dmq|{"dmq":true,"op":"publish","topic":"a","ttl":4294967295000}
request 4|{"op":"publish","queue":"q1","ttl":4294967295001}
request 4|{"op":"publish","queue":"q1","ttl":-1}
request 4|{"op":"publish","queue":"q1","ttl":1.0}
request 4|{"op":"publish","queue":"q1","ttl":"5000"}
request 4|{"op":"publish","queue":"q1","ttl":null}
request 4|{"op":"publish","queue":"q1","dmq":1}
request 4|{"op":"publish","queue":"q1","dmq":"true"}
request 4|{"op":"publish","queue":"q1","dmq":null}
request 4|{"op":"publish","topic":"","mode":"direct","dmq":0}
direct|{"op":"publish","topic":"","mode":"direct","dmq":true}
request 3|{"op":"publish","queue":"q1","ttl":-1,"DMQ":true}
failed 1|{"op":"settle","flow":1,"copy":1,"outcome":"failed"}
rejected 1|{"op":"settle","flow":1,"copy":1,"outcome":"rejected"}
request 4|{"op":"settle","flow":1,"copy":1,"outcome":"released"}
request 4|{"op":"settle","flow":1,"copy":1,"outcome":""}
request 4|{"op":"settle","flow":1,"copy":1,"outcome":["failed"]}
tick|{"op":"tick"}
request 3|{"op":"tick","endpoint":"q1"}
request 1|{"op":"restart"}
delete q1|{"op":"delete","endpoint":"q1"}
delete q1 0|{"op":"delete","endpoint":"q1","copy":0}
delete q1 4611686018427387904|{"op":"delete","endpoint":"q1","copy":4611686018427387904}
request 4|{"op":"delete","endpoint":"q1","copy":4611686018427387905}
request 4|{"op":"delete","endpoint":"q1","copy":"1"}
request 4|{"op":"delete","endpoint":"q1","copy":null}
request 4|{"op":"delete","endpoint":"q 1","copy":1}
request 2|{"op":"delete","copy":1}
request 3|{"op":"delete","endpoint":"q1","flow":1}"#;

#[test]
fn requests_that_end_copies(rt: HostRuntime) -> Result<(), Fail> {
    let alloc = rt.alloc();
    assert_eq!(rt; first_wrong(alloc, REQUESTS)?, None);
    Ok(())
}

#[test]
fn a_settle_tells_the_fate(rt: HostRuntime) -> Result<(), Fail> {
    let alloc = rt.alloc();
    for (fate, unit, text) in [
        (
            Fate::Accepted,
            8,
            r#"{"copy":1,"fate":"accepted","ok":"settle","unit":8}"#,
        ),
        (
            Fate::Spooled,
            5,
            r#"{"copy":1,"fate":"spooled","ok":"settle","unit":5}"#,
        ),
        (
            Fate::Moved(CopyNo::of(2)),
            10,
            r#"{"copy":1,"fate":"moved","ok":"settle","to":2,"unit":10}"#,
        ),
        (
            Fate::Discarded(Cause::DmqMissing),
            9,
            r#"{"cause":"DmqMissing","copy":1,"fate":"discarded","ok":"settle","unit":9}"#,
        ),
        (
            Fate::Discarded(Cause::DmqSelf),
            9,
            r#"{"cause":"DmqSelf","copy":1,"fate":"discarded","ok":"settle","unit":9}"#,
        ),
        (
            Fate::Discarded(Cause::DmqDisabled),
            6,
            r#"{"cause":"DmqDisabled","copy":1,"fate":"discarded","ok":"settle","unit":6}"#,
        ),
    ] {
        let reply = Reply::Settle {
            copy: CopyNo::of(1),
            fate,
        };
        assert!(rt; shows(alloc, Answered::Gave(reply), unit, text)?);
    }
    Ok(())
}

// The copies 1, 2 and so on with these fates.
fn closed(alloc: Global, fates: &[Fate]) -> Result<Items<CopyFate>, AllocError> {
    let mut closed = Vec::new(alloc);
    let mut number = 0u32;
    for fate in fates {
        number = number.saturating_add(1);
        let copy = CopyNo::of(number as u64);
        closed.push(CopyFate { copy, fate: *fate })?;
    }
    Ok(Items::from_vec(closed))
}

fn moved() -> Fate {
    Fate::Moved(CopyNo::of(3))
}

#[test]
fn a_tick_tells_what_it_closed_in_its_order(rt: HostRuntime) -> Result<(), Fail> {
    let alloc = rt.alloc();
    for (fates, unit, text) in [
        (&[][..], 3, r#"{"closed":[],"ok":"tick","unit":3}"#),
        (
            &[Fate::Discarded(Cause::Expired)][..],
            4,
            r#"{"closed":[{"cause":"Expired","copy":1,"fate":"discarded"}],"ok":"tick","unit":4}"#,
        ),
        (
            &[moved(), Fate::Discarded(Cause::DmqQuota)][..],
            6,
            r#"{"closed":[{"copy":1,"fate":"moved","to":3},{"cause":"DmqQuota","copy":2,"fate":"discarded"}],"ok":"tick","unit":6}"#,
        ),
    ] {
        let reply = Reply::Tick {
            closed: closed(alloc, fates)?,
        };
        assert!(rt; shows(alloc, Answered::Gave(reply), unit, text)?);
    }
    Ok(())
}

#[test]
fn a_delete_and_an_unbind_tell_what_they_closed(rt: HostRuntime) -> Result<(), Fail> {
    let alloc = rt.alloc();
    let deleted = Reply::DeleteCopies {
        endpoint: Name::read(alloc, b"q1")?,
        closed: closed(alloc, &[Fate::Discarded(Cause::Deleted)])?,
    };
    let text =
        r#"{"closed":[{"cause":"Deleted","copy":1,"fate":"discarded"}],"endpoint":"q1","ok":"delete","unit":4}"#;
    assert!(rt; shows(alloc, Answered::Gave(deleted), 4, text)?);
    let gone = Reply::Unbind {
        flow: FlowNo::of(1),
        closed: closed(
            alloc,
            &[moved(), Fate::Discarded(Cause::RedeliveryExceeded)],
        )?,
        returned: 1,
    };
    let text =
        r#"{"closed":[{"copy":1,"fate":"moved","to":3},{"cause":"RedeliveryExceeded","copy":2,"fate":"discarded"}],"flow":1,"ok":"unbind","returned":1,"unit":9}"#;
    assert!(rt; shows(alloc, Answered::Gave(gone), 9, text)?);
    Ok(())
}

#[test]
fn a_restart_tells_nothing_but_its_unit(rt: HostRuntime) -> Result<(), Fail> {
    let alloc = rt.alloc();
    let text = r#"{"ok":"restart","unit":8}"#;
    assert!(rt; shows(alloc, Answered::Gave(Reply::Restart), 8, text)?);
    Ok(())
}
