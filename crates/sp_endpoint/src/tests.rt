ghost use Rattle.std.specs.Prelude.{◌≡◌, IfOk};

use crate::endpoint::Endpoint;
use crate::endpoints::Endpoints;
use sp_base::bytes::Bytes;
use sp_base::name::Name;
use sp_base::number::EndpointNo;
use sp_base::topic::Topic;
use sp_config::kind::EndpointKind;
use sp_config::settings::Settings;
use sp_message::message::{Dest, Message, TimeToLive};
use sp_message::payload::Payload;
use sp_message::property::Properties;
use sp_selector::selector::Selector;
use sp_topic::subscription::Subscription;
use std::alloc::Global;
use std::test::Fail;

fn name(alloc: Global, text: &str) -> Result<Name, Fail> {
    Ok(Name::read(alloc, text.as_bytes())?)
}

fn message(alloc: Global, dest: Dest) -> Message {
    Message {
        dest,
        payload: Payload::from_bytes(Bytes::from_vec(Vec::new(alloc))),
        ttl: TimeToLive::of(0),
        eligible: false,
        properties: Properties::none(alloc),
    }
}

/// An endpoint of the caller shop, without subscriptions and topic.
fn endpoint(
    alloc: Global,
    number: EndpointNo,
    text: &str,
    kind: EndpointKind,
) -> Result<Endpoint, Fail>
    ensures { IfOk result (λ e. e.number ≡ number) }
{
    let caller = name(alloc, "shop")?;
    let settings = Settings::none(alloc);
    Ok(Endpoint::made(alloc, number, &caller, &name(alloc, text)?, kind, &settings)?)
}

/// A queue of the name b that subscribes to a/*, and a topic endpoint of the name B bound with a/>
/// and a selector.
fn two(alloc: Global) -> Result<Endpoints, Fail> {
    let mut endpoints = Endpoints::new(alloc);
    endpoints.reserve(2)?;
    let queue = endpoint(alloc, EndpointNo::of(1), "b", EndpointKind::Queue)?;
    let other = endpoint(alloc, EndpointNo::of(2), "B", EndpointKind::TopicEndpoint)?;
    let topic = Some(Subscription::read(alloc, b"a/>")?);
    let selector = Selector::read(alloc, b"colour IS NULL")?;
    endpoints.add(queue);
    endpoints.add(other.with_topic(alloc, &topic, Some(selector))?);
    subscribe(alloc, &mut endpoints)?;
    Ok(endpoints)
}

/// Lets the first endpoint subscribe to a/*, and to b/* for a while.
fn subscribe(alloc: Global, endpoints: &mut Endpoints) -> Result<(), Fail> {
    let once = Subscription::read(alloc, b"b/*")?;
    let stays = Subscription::read(alloc, b"a/*")?;
    let Some(queue) = endpoints.find(&name(alloc, "b")?) else {
        return Ok(());
    };
    if queue.subscriptions.len() > 0 {
        return Ok(());
    }
    let first = queue
        .with_subscription(alloc, &once)?
        .without_subscription(alloc, &once)?;
    if first.subscriptions.len() > 0 {
        return Ok(());
    }
    let row = first.with_subscription(alloc, &stays)?;
    endpoints.reserve_for(&row)?;
    endpoints.replace(row);
    Ok(())
}

/// The numbers of the endpoints that take a message to this destination.
fn takers_of(alloc: Global, endpoints: &Endpoints, dest: Dest) -> Result<Vec<EndpointNo>, Fail> {
    let message = message(alloc, dest);
    let mut numbers = Vec::new(alloc);
    for taker in endpoints.takers(alloc, &message)? {
        numbers.push(taker.number)?;
    }
    Ok(numbers)
}

#[test]
fn which_endpoints_take_a_message(rt: HostRuntime) -> Result<(), Fail> {
    let alloc = rt.alloc();
    let endpoints = two(alloc)?;
    let both = [EndpointNo::of(2), EndpointNo::of(1)];
    let queue = [EndpointNo::of(1)];
    let on_topic = takers_of(alloc, &endpoints, Dest::Topic(Topic::read(alloc, b"a/b")?))?;
    let elsewhere = takers_of(alloc, &endpoints, Dest::Topic(Topic::read(alloc, b"b/b")?))?;
    let to_queue = takers_of(alloc, &endpoints, Dest::Queue(name(alloc, "b")?))?;
    let to_none = takers_of(alloc, &endpoints, Dest::Queue(name(alloc, "B")?))?;
    assert_eq!(rt; on_topic.as_slice(), both.as_slice());
    assert_eq!(rt; elsewhere.len(), 0);
    assert_eq!(rt; to_queue.as_slice(), queue.as_slice());
    assert_eq!(rt; to_none.len(), 0);
    Ok(())
}

#[test]
fn endpoints_are_found_and_removed(rt: HostRuntime) -> Result<(), Fail> {
    let alloc = rt.alloc();
    let mut endpoints = two(alloc)?;
    assert_eq!(rt; endpoints.find_queue(&name(alloc, "B")?).is_some(), false);
    assert_eq!(rt; endpoints.find_number(EndpointNo::of(2)).is_some(), true);
    endpoints.remove(EndpointNo::of(1));
    assert_eq!(rt; endpoints.len(), 1);
    assert_eq!(rt; endpoints.find_number(EndpointNo::of(1)).is_some(), false);
    let left = [EndpointNo::of(2)];
    let on_topic = takers_of(alloc, &endpoints, Dest::Topic(Topic::read(alloc, b"a/b")?))?;
    assert_eq!(rt; on_topic.as_slice(), left.as_slice());
    Ok(())
}
