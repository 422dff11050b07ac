ghost use Rattle.sp_base.specs.Name.{is_caller};
ghost use Rattle.std.specs.Prelude.{◌≡◌, IfSome, true};

use crate::numbers::Numbers;
use crate::state::Core;
use sp_base::bytes::Bytes;
use sp_base::failure::Memory;
use sp_base::moment::Moment;
use sp_base::name::Name;
use sp_base::number::{CopyNo, FlowNo};
use sp_config::attr::Attr;
use sp_config::kind::EndpointKind;
use sp_config::setting::Setting;
use sp_config::settings::Settings;
use sp_config::value::AttrValue;
use sp_copies::closed::Fate;
use sp_event::answer::Reply;
use sp_event::request::{Event, Outcome, PullCount, Query};
use sp_message::message::{Dest, Message, TimeToLive};
use sp_message::payload::Payload;
use sp_message::property::Properties;
use std::alloc::Global;
use std::slice;

// The caller of all events.
fn caller(alloc: Global) -> Option<Name>
    ensures { IfSome result (λ n. is_caller n ≡ true) }
{
    let caller = Name::read(alloc, b"#system").ok()?;
    if !caller.is_caller() {
        return None;
    }
    Some(caller)
}

// Whether an event is accepted, and changes something.
fn done(alloc: Global, core: &mut Core, event: Option<Event>) -> Option<bool> {
    let event = event?;
    let caller = caller(alloc)?;
    match core.prepare(alloc, Moment::START, &caller, slice::from_ref(&event)) {
        Ok(ready) => {
            let idle = ready.idle();
            let told = core.apply(ready);
            if told.len() != 1 {
                return None;
            }
            Some(!idle)
        }
        Err(_) => None,
    }
}

// A queue from which a copy is handed out again once, or as often as it takes.
fn queue(alloc: Global, name: &[u8], bounded: bool) -> Option<Event> {
    let mut settings = Vec::new(alloc);
    if bounded {
        let setting = Setting {
            attr: Attr::MaxRedeliveryCount,
            value: AttrValue::Whole(1),
        };
        settings.push(setting).ok()?;
    }
    Some(Event::Provision {
        endpoint: Name::read(alloc, name).ok()?,
        kind: EndpointKind::Queue,
        attributes: Settings::from_vec(settings)?,
    })
}

fn message(alloc: Global, queue: &[u8]) -> Option<Event> {
    let message = Message {
        dest: Dest::Queue(Name::read(alloc, queue).ok()?),
        payload: Payload::from_bytes(Bytes::from_vec(Vec::new(alloc))),
        ttl: TimeToLive::of(0),
        eligible: true,
        properties: Properties::none(alloc),
    };
    Some(Event::Publish { message })
}

fn bind(alloc: Global, queue: &[u8]) -> Option<Event> {
    Some(Event::Bind {
        endpoint: Name::read(alloc, queue).ok()?,
        selector: None,
        topic: None,
    })
}

fn pull(flow: u64) -> Option<Event> {
    if flow > 3 {
        return None;
    }
    Some(Event::Pull {
        flow: FlowNo::of(flow),
        count: PullCount::of(1),
    })
}

// Flow 1 gives copy 1 back.
fn failed() -> Option<Event> {
    Some(Event::Settle {
        flow: FlowNo::of(1),
        copy: CopyNo::of(1),
        outcome: Outcome::Failed,
    })
}

// What has become of a copy, and how often it was handed out.
fn told(alloc: Global, core: &Core, copy: u64) -> Option<(Fate, u64)> {
    if copy > 3 {
        return None;
    }
    let query = Query::Copy {
        copy: CopyNo::of(copy),
    };
    let caller = caller(alloc)?;
    let reply = core.query(alloc, Moment::START, &caller, &query).ok()?;
    match &reply {
        Reply::Copy {
            fate,
            details: Some(details),
            ..
        } => Some((*fate, details.attempts)),
        _ => None,
    }
}

// Two flows hold a copy each: flow 1 the copy 1 of q1 for the last time, flow 2 the copy 2 of q2.
fn two_hold(alloc: Global, core: &mut Core) -> bool {
    let events = [
        queue(alloc, b"q1", true),
        queue(alloc, b"#DEAD_MSG_QUEUE", false),
        queue(alloc, b"q2", false),
        message(alloc, b"q1"),
        message(alloc, b"q2"),
        bind(alloc, b"q1"),
        bind(alloc, b"q2"),
        pull(1),
        failed(),
        pull(2),
        pull(1),
    ];
    for event in events {
        if done(alloc, core, event) != Some(true) {
            return false;
        }
    }
    true
}

#[test]
fn a_restart_returns_all_held_copies_once(rt: HostRuntime) -> Result<(), Memory> {
    let alloc = rt.alloc();
    let mut core = Core::new(alloc, Numbers::FIRST)?;
    assert!(rt; two_hold(alloc, &mut core));
    assert_eq!(rt; core.units(), 11);
    assert_eq!(rt; done(alloc, &mut core, Some(Event::Restart)), Some(true));
    assert_eq!(rt; core.units(), 12);
    assert_eq!(rt;
        told(alloc, &core, 1),
        Some((Fate::Moved(CopyNo::of(3)), 2))
    );
    assert_eq!(rt; told(alloc, &core, 2), Some((Fate::Spooled, 1)));
    assert_eq!(rt; told(alloc, &core, 3), Some((Fate::Spooled, 0)));
    assert_eq!(rt; done(alloc, &mut core, pull(2)), None);
    assert_eq!(rt; done(alloc, &mut core, Some(Event::Restart)), Some(false));
    assert_eq!(rt; core.units(), 12);
    assert_eq!(rt; done(alloc, &mut core, bind(alloc, b"q2")), Some(true));
    assert_eq!(rt; done(alloc, &mut core, pull(3)), Some(true));
    assert_eq!(rt; told(alloc, &core, 2), Some((Fate::Spooled, 2)));
    Ok(())
}

#[test]
fn a_restart_draws_the_last_number(rt: HostRuntime) -> Result<(), Memory> {
    let alloc = rt.alloc();
    let start = Numbers {
        unit: (1 << 62) - 2,
        ..Numbers::FIRST
    };
    let mut core = Core::new(alloc, start)?;
    assert_eq!(rt;
        done(alloc, &mut core, queue(alloc, b"q1", false)),
        Some(true)
    );
    assert_eq!(rt; done(alloc, &mut core, bind(alloc, b"q1")), Some(true));
    assert_eq!(rt; done(alloc, &mut core, bind(alloc, b"q1")), None);
    assert_eq!(rt; core.units(), (1 << 62) - 1);
    assert_eq!(rt; done(alloc, &mut core, Some(Event::Restart)), Some(true));
    assert_eq!(rt; core.units(), 1 << 62);
    assert_eq!(rt; done(alloc, &mut core, Some(Event::Restart)), Some(false));
    assert_eq!(rt; core.units(), 1 << 62);
    Ok(())
}
