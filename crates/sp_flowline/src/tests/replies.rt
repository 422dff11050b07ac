use crate::tests::told::shows;
use sp_base::bytes::Bytes;
use sp_base::items::Items;
use sp_base::name::Name;
use sp_base::number::{CopyNo, EndpointNo, FlowNo, MessageNo};
use sp_base::refusal::Refusal;
use sp_copies::closed::{Cause, Fate};
use sp_event::answer::{Answered, BoundFlow, CopyDetails, Delivery, Reply};
use sp_message::message::Dest;
use sp_message::payload::Payload;
use sp_message::property::Properties;
use std::alloc::{AllocError, Global};
use std::test::Fail;

#[test]
fn a_bind_tells_the_flow(rt: HostRuntime) -> Result<(), Fail> {
    let alloc = rt.alloc();
    let reply = Reply::Bind {
        endpoint: Name::read(alloc, b"q1")?,
        flow: FlowNo::of(1),
        discarded: 0,
    };
    let text = r#"{"discarded":0,"endpoint":"q1","flow":1,"ok":"bind","unit":3}"#;
    assert!(rt; shows(alloc, Answered::Gave(reply), 3, text)?);
    Ok(())
}

fn delivery(alloc: Global, attempt: u64, payload: &[u8]) -> Result<Option<Delivery>, Fail> {
    let bytes = Bytes::copy_of(alloc, payload)?;
    if bytes.len() > 9 {
        return Ok(None);
    }
    Ok(Some(Delivery {
        attempt,
        copy: CopyNo::of(1),
        message: MessageNo::of(1),
        dest: Dest::Queue(Name::read(alloc, b"q1")?),
        payload: Payload::from_bytes(bytes),
        properties: Properties::none(alloc),
    }))
}

#[test]
fn a_pull_shows_payloads_as_text_or_as_base64(rt: HostRuntime) -> Result<(), Fail> {
    let alloc = rt.alloc();
    for (flow, unit, attempt, payload, text) in [
        (
            1,
            4,
            1,
            &b"\xff"[..],
            r#"{"deliveries":[{"attempt":1,"copy":1,"message":1,"payload64":"/w==","properties":{},"queue":"q1"}],"flow":1,"ok":"pull","unit":4}"#,
        ),
        (
            2,
            7,
            2,
            &b""[..],
            r#"{"deliveries":[{"attempt":2,"copy":1,"message":1,"payload":"","properties":{},"queue":"q1"}],"flow":2,"ok":"pull","unit":7}"#,
        ),
    ] {
        let delivery = delivery(alloc, attempt, payload)?.ok_or("too long")?;
        let reply = Reply::Pull {
            flow: FlowNo::of(flow),
            deliveries: Items::one(alloc, delivery)?,
        };
        assert!(rt; shows(alloc, Answered::Gave(reply), unit, text)?);
    }
    Ok(())
}

fn details(attempts: u64) -> Option<CopyDetails> {
    Some(CopyDetails {
        endpoint: EndpointNo::of(1),
        message: MessageNo::of(1),
        attempts,
    })
}

#[test]
fn a_copy_is_told_with_its_details(rt: HostRuntime) -> Result<(), Fail> {
    let alloc = rt.alloc();
    for (fate, details, unit, text) in [
        (
            Fate::Spooled,
            details(1),
            6,
            r#"{"attempts":1,"copy":1,"endpoint":1,"fate":"spooled","message":1,"ok":"copy","unit":6}"#,
        ),
        (
            Fate::Discarded(Cause::TopicChanged),
            details(0),
            5,
            r#"{"attempts":0,"cause":"TopicChanged","copy":1,"endpoint":1,"fate":"discarded","message":1,"ok":"copy","unit":5}"#,
        ),
        (
            Fate::Never,
            None,
            6,
            r#"{"copy":1,"fate":"never","ok":"copy","unit":6}"#,
        ),
        (
            Fate::Earlier,
            None,
            6,
            r#"{"copy":1,"fate":"earlier","ok":"copy","unit":6}"#,
        ),
    ] {
        let reply = Reply::Copy {
            copy: CopyNo::of(1),
            fate,
            details,
        };
        assert!(rt; shows(alloc, Answered::Gave(reply), unit, text)?);
    }
    Ok(())
}

// The flows 1, 2 and so on of these callers, who hold so many copies; the first flow is active.
fn bound(alloc: Global, callers: &[(&str, u64)]) -> Result<Option<Items<BoundFlow>>, AllocError> {
    let mut flows = Vec::new(alloc);
    let mut number = 0u32;
    for (caller, held) in callers {
        number = number.saturating_add(1);
        let Ok(caller) = Name::read(alloc, caller.as_bytes()) else {
            return Ok(None);
        };
        flows.push(BoundFlow {
            flow: FlowNo::of(number as u64),
            caller,
            held: *held,
            active: number == 1,
        })?;
    }
    Ok(Some(Items::from_vec(flows)))
}

#[test]
fn the_flows_of_an_endpoint_stand_in_their_order(rt: HostRuntime) -> Result<(), Fail> {
    let alloc = rt.alloc();
    for (callers, text) in [
        (
            &[][..],
            r#"{"endpoint":"q1","flows":[],"ok":"flows","unit":7}"#,
        ),
        (
            &[("shop", 2)][..],
            r#"{"endpoint":"q1","flows":[{"active":true,"caller":"shop","flow":1,"held":2}],"ok":"flows","unit":7}"#,
        ),
        (
            &[("shop", 0), ("billing", 1)][..],
            r#"{"endpoint":"q1","flows":[{"active":true,"caller":"shop","flow":1,"held":0},{"active":false,"caller":"billing","flow":2,"held":1}],"ok":"flows","unit":7}"#,
        ),
    ] {
        let reply = Reply::Flows {
            endpoint: Name::read(alloc, b"q1")?,
            flows: bound(alloc, callers)?.ok_or("no name")?,
        };
        assert!(rt; shows(alloc, Answered::Gave(reply), 7, text)?);
    }
    Ok(())
}

fn refused(refusal: Refusal) -> Answered {
    Answered::Refused {
        refusal,
        index: None,
    }
}

#[test]
fn refusals_of_flows(rt: HostRuntime) -> Result<(), Fail> {
    let alloc = rt.alloc();
    let held = r#"{"refused":{"copy":2,"no":22,"rule":"NotHeld"},"unit":8}"#;
    assert!(rt; shows(alloc, refused(Refusal::NotHeld { copy: 2 }), 8, held)?);
    let flow = r#"{"refused":{"flow":1,"no":21,"rule":"UnknownFlow"},"unit":9}"#;
    assert!(rt; shows(alloc, refused(Refusal::UnknownFlow { flow: 1 }), 9, flow)?);
    Ok(())
}
