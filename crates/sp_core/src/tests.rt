ghost use Rattle.sp_base.specs.Name.{is_caller};
ghost use Rattle.std.specs.Prelude.{◌≡◌, IfSome, true};

use crate::numbers::Numbers;
use crate::state::Core;
use sp_base::bytes::Bytes;
use sp_base::declined::{Declined, EventRefusal};
use sp_base::failure::Memory;
use sp_base::moment::Moment;
use sp_base::name::Name;
use sp_base::number::{CopyNo, FlowNo};
use sp_base::refusal::{Kind, Refusal};
use sp_config::attr::Attr;
use sp_config::kind::EndpointKind;
use sp_config::setting::Setting;
use sp_config::settings::Settings;
use sp_config::value::AttrValue;
use sp_copies::closed::{Cause, Fate};
use sp_event::answer::Reply;
use sp_event::request::{Event, Outcome, PullCount, Query};
use sp_message::message::{Dest, Message, TimeToLive};
use sp_message::payload::Payload;
use sp_message::property::Properties;
use sp_topic::subscription::Subscription;
use std::alloc::Global;
use std::slice;

// An event of ann on q1, at the first moment.
#[derive(Clone, Copy)]
enum Step {
    Provision,
    Deprovision,
    Change,
    Subscribe,
    Unsubscribe,
    Publish,
    Bind,
    Unbind,
    Pull,
    Settle,
    Reject,
    Tick,
    Delete,
}

fn name(alloc: Global, text: &[u8]) -> Option<Name> {
    Name::read(alloc, text).ok()
}

fn subscription(alloc: Global) -> Option<Subscription> {
    Subscription::read(alloc, b"a/>").ok()
}

fn settings(alloc: Global) -> Option<Settings> {
    let setting = Setting {
        attr: Attr::MaxBindCount,
        value: AttrValue::Whole(1),
    };
    Settings::from_vec(vec![in alloc; setting].ok()?)
}

fn message(alloc: Global) -> Option<Message> {
    Some(Message {
        dest: Dest::Queue(name(alloc, b"q1")?),
        payload: Payload::from_bytes(Bytes::from_vec(Vec::new(alloc))),
        ttl: TimeToLive::of(0),
        eligible: false,
        properties: Properties::none(alloc),
    })
}

fn on_endpoint(alloc: Global, step: Step) -> Option<Event> {
    let endpoint = name(alloc, b"q1")?;
    Some(match step {
        Step::Provision => Event::Provision {
            endpoint,
            kind: EndpointKind::Queue,
            attributes: Settings::none(alloc),
        },
        Step::Change => Event::Change {
            endpoint,
            attributes: settings(alloc)?,
        },
        Step::Subscribe => Event::Subscribe {
            endpoint,
            subscription: subscription(alloc)?,
        },
        Step::Unsubscribe => Event::Unsubscribe {
            endpoint,
            subscription: subscription(alloc)?,
        },
        Step::Bind => Event::Bind {
            endpoint,
            selector: None,
            topic: None,
        },
        Step::Delete => Event::DeleteCopies {
            endpoint,
            copy: None,
        },
        _ => Event::Deprovision { endpoint },
    })
}

// Those of a flow are of flow 1, and of copy 1.
fn event(alloc: Global, step: Step) -> Option<Event> {
    let flow = FlowNo::of(1);
    match step {
        Step::Publish => Some(Event::Publish {
            message: message(alloc)?,
        }),
        Step::Unbind => Some(Event::Unbind { flow }),
        Step::Pull => Some(Event::Pull {
            flow,
            count: PullCount::of(64),
        }),
        Step::Settle => Some(Event::Settle {
            flow,
            copy: CopyNo::of(1),
            outcome: Outcome::Accepted,
        }),
        Step::Reject => Some(Event::Settle {
            flow,
            copy: CopyNo::of(1),
            outcome: Outcome::Rejected,
        }),
        Step::Tick => Some(Event::Tick),
        _ => on_endpoint(alloc, step),
    }
}

// The numbers that a reply tells, two at most.
fn figures(reply: &Reply) -> (u64, u64) {
    match reply {
        Reply::Provision { number, .. } => (number.value(), 0),
        Reply::Publish { message, copies } => (message.value(), copies.len() as u64),
        Reply::Bind {
            flow,
            discarded,
            ..
        } => (flow.value(), *discarded),
        Reply::Unbind { flow, returned, .. } => (flow.value(), *returned),
        Reply::Pull { flow, deliveries } => (flow.value(), deliveries.len() as u64),
        Reply::Settle { copy, .. } => (copy.value(), 0),
        Reply::Tick { closed } => (closed.len() as u64, 0),
        Reply::DeleteCopies { closed, .. } => (closed.len() as u64, 0),
        _ => (0, 0),
    }
}

fn one(told: &[Reply]) -> Option<(u64, u64)> {
    match told {
        [reply] => Some(figures(reply)),
        _ => None,
    }
}

fn ann(alloc: Global) -> Option<Name>
    ensures { IfSome result (λ n. is_caller n ≡ true) }
{
    let ann = name(alloc, b"ann")?;
    if !ann.is_caller() {
        return None;
    }
    Some(ann)
}

// What the one reply to a step tells, or the kind of number that is spent.
fn take(alloc: Global, core: &mut Core, step: Step) -> Option<Result<(u64, u64), Kind>> {
    let ann = ann(alloc)?;
    let event = event(alloc, step)?;
    match core.prepare(alloc, Moment::START, &ann, slice::from_ref(&event)) {
        Ok(ready) => Some(Ok(one(core.apply(ready).as_slice())?)),
        Err(
            Declined::Refused(
                EventRefusal {
                    index: 0,
                    refusal: Refusal::IdsSpent { kind },
                },
            ),
        ) => Some(Err(kind)),
        Err(_) => None,
    }
}

fn fate(alloc: Global, core: &Core) -> Option<Fate> {
    let ann = ann(alloc)?;
    let query = Query::Copy {
        copy: CopyNo::of(1),
    };
    let reply = core.query(alloc, Moment::START, &ann, &query).ok()?;
    match &reply {
        Reply::Copy { fate, .. } => Some(*fate),
        _ => None,
    }
}

fn used(alloc: Global, core: &Core) -> Option<u64> {
    core.used(&name(alloc, b"q1")?)
}

#[test]
fn ten_events_are_carried_out(rt: HostRuntime) -> Result<(), Memory> {
    let alloc = rt.alloc();
    let mut core = Core::new(alloc, Numbers::FIRST)?;
    assert_eq!(rt; take(alloc, &mut core, Step::Provision), Some(Ok((1, 0))));
    assert_eq!(rt; take(alloc, &mut core, Step::Change), Some(Ok((0, 0))));
    assert_eq!(rt; take(alloc, &mut core, Step::Subscribe), Some(Ok((0, 0))));
    assert_eq!(rt; take(alloc, &mut core, Step::Unsubscribe), Some(Ok((0, 0))));
    assert_eq!(rt; take(alloc, &mut core, Step::Publish), Some(Ok((1, 1))));
    assert_eq!(rt; used(alloc, &core), Some(66));
    assert_eq!(rt; take(alloc, &mut core, Step::Bind), Some(Ok((1, 0))));
    assert_eq!(rt; take(alloc, &mut core, Step::Pull), Some(Ok((1, 1))));
    assert_eq!(rt; take(alloc, &mut core, Step::Pull), Some(Ok((1, 0))));
    assert_eq!(rt; take(alloc, &mut core, Step::Settle), Some(Ok((1, 0))));
    assert_eq!(rt; fate(alloc, &core), Some(Fate::Accepted));
    assert_eq!(rt; take(alloc, &mut core, Step::Unbind), Some(Ok((1, 0))));
    assert_eq!(rt; take(alloc, &mut core, Step::Deprovision), Some(Ok((0, 0))));
    assert_eq!(rt; core.units(), 10);
    Ok(())
}

#[test]
fn copies_are_rejected_given_back_and_deleted(rt: HostRuntime) -> Result<(), Memory> {
    let alloc = rt.alloc();
    let mut core = Core::new(alloc, Numbers::FIRST)?;
    for step in [Step::Provision, Step::Publish, Step::Publish, Step::Bind] {
        assert!(rt; matches!(take(alloc, &mut core, step), Some(Ok(_))));
    }
    assert_eq!(rt; take(alloc, &mut core, Step::Pull), Some(Ok((1, 2))));
    assert_eq!(rt; take(alloc, &mut core, Step::Reject), Some(Ok((1, 0))));
    assert_eq!(rt; fate(alloc, &core), Some(Fate::Discarded(Cause::Rejected)));
    assert_eq!(rt; take(alloc, &mut core, Step::Unbind), Some(Ok((1, 1))));
    assert_eq!(rt; take(alloc, &mut core, Step::Delete), Some(Ok((1, 0))));
    assert_eq!(rt; take(alloc, &mut core, Step::Tick), Some(Ok((0, 0))));
    assert_eq!(rt; used(alloc, &core), Some(0));
    assert_eq!(rt; core.units(), 8);
    Ok(())
}

#[test]
fn spent_numbers_refuse(rt: HostRuntime) -> Result<(), Memory> {
    let alloc = rt.alloc();
    let start = Numbers {
        message: 1 << 62,
        ..Numbers::FIRST
    };
    let mut core = Core::new(alloc, start)?;
    assert_eq!(rt; take(alloc, &mut core, Step::Provision), Some(Ok((1, 0))));
    assert_eq!(rt;
        take(alloc, &mut core, Step::Publish),
        Some(Err(Kind::Message))
    );
    assert_eq!(rt; core.units(), 1);
    Ok(())
}
