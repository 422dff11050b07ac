ghost use Rattle.std.specs.Prelude.{◌≡◌, ◌++◌, ◌∷◌, ◌≤◌, [], OnOk, true};
ghost use Rattle.sp_base.specs.Name.{is_name};
ghost use Rattle.sp_message.specs.Decoding.{Gives};
ghost use Rattle.sp_message.specs.Encoding.{number_bytes, text_bytes};
ghost use Rattle.sp_unit.specs.UnitBytes.{IsEvent, event_bytes, greatest_number, kind_byte, outcome_byte};
ghost use Rattle.sp_unit.specs.UnitReading.{bind_at, change_at, delete_copies_at, deprovision_at, event_at, fields_at, kind_at, outcome_at, provision_at, publish_at, pull_at, settle_at, subscribe_at, unbind_at, unsubscribe_at};

use crate::numbers::{CopyCodec, read_counted};
use crate::settings_codec::{read_settings, write_settings};
use crate::texts::{SelectorCodec, SubscriptionCodec};
use sp_base::name::Name;
use sp_base::number::{CopyNo, FlowNo};
use sp_config::kind::EndpointKind;
use sp_event::request::{Event, Outcome, PullCount};
use sp_message::codec::{
    Codec, ReadError, read_byte, read_number_within, read_option, write_number, write_option,
    write_text,
};
use sp_message::message_codec::{read_message, write_message};
use sp_message::texts::read_name;
use std::alloc::{AllocError, Global};

/// Events as bytes: a tag, and the fields in their order.
pub struct EventCodec;

impl Codec for EventCodec {
    ghost use Rattle.sp_unit.specs.UnitBytes.{IsEvent, event_bytes};
    ghost use Rattle.sp_unit.specs.UnitReading.{event_at};

    type Item = Event;

    ghost fits = { λ _. Unit {0} };

    ghost valid = { IsEvent };

    ghost bytes_of = { event_bytes };

    ghost read_at = { event_at };

    fn read(alloc: Global, bytes: &[u8]) -> Result<(Event, &[u8]), ReadError> {
        read_event(alloc, bytes)
    }

    fn write(event: &Event, into: &mut Vec<u8>) -> Result<(), AllocError> {
        write_event(event, into)
    }
}

fn write_event(event: &Event, into: &mut Vec<u8>) -> Result<(), AllocError>
    ensures bytes { OnOk result (into.new.items ≡ into.old.items ++ event_bytes event.now) }
    ensures valid { OnOk result (IsEvent event.now) }
{
    match event {
        Event::Provision {
            endpoint,
            kind,
            attributes,
        } => {
            write_tagged_name(1, endpoint, into)?;
            into.push(kind_byte(*kind))?;
            write_settings(attributes, into)
        }
        Event::Deprovision { endpoint } => write_tagged_name(2, endpoint, into),
        Event::Change {
            endpoint,
            attributes,
        } => {
            write_tagged_name(3, endpoint, into)?;
            write_settings(attributes, into)
        }
        Event::Subscribe {
            endpoint,
            subscription,
        } => {
            write_tagged_name(4, endpoint, into)?;
            SubscriptionCodec::write(subscription, into)
        }
        Event::Unsubscribe {
            endpoint,
            subscription,
        } => {
            write_tagged_name(5, endpoint, into)?;
            SubscriptionCodec::write(subscription, into)
        }
        Event::Publish { message } => {
            into.push(6)?;
            write_message(message, into)
        }
        Event::Bind {
            endpoint,
            selector,
            topic,
        } => {
            write_tagged_name(7, endpoint, into)?;
            write_option::<SelectorCodec>(selector, into)?;
            write_option::<SubscriptionCodec>(topic, into)
        }
        Event::Unbind { flow } => {
            into.push(8)?;
            write_number(flow.value(), into)
        }
        Event::Pull { flow, count } => {
            into.push(9)?;
            write_pull(*flow, *count, into)
        }
        Event::Settle {
            flow,
            copy,
            outcome,
        } => {
            into.push(10)?;
            write_settle(*flow, *copy, *outcome, into)
        }
        Event::Tick => {
            into.push(11)?;
            Ok(())
        }
        Event::DeleteCopies { endpoint, copy } => {
            write_tagged_name(12, endpoint, into)?;
            write_option::<CopyCodec>(copy, into)
        }
        Event::Restart => {
            into.push(17)?;
            Ok(())
        }
    }
}

fn write_tagged_name(tag: u8, name: &Name, into: &mut Vec<u8>) -> Result<(), AllocError>
    ensures bytes { OnOk result (into.new.items ≡ into.old.items ++ (tag ∷ text_bytes name.now)) }
    ensures valid { OnOk result (is_name name.now ≡ true) }
{
    into.push(tag)?;
    write_text(name.as_bytes(), into)
}

fn write_pull(flow: FlowNo, count: PullCount, into: &mut Vec<u8>) -> Result<(), AllocError>
    ensures bytes { OnOk result (into.new.items ≡ into.old.items ++ (number_bytes flow ++ number_bytes count)) }
    ensures flow { OnOk result (flow ≤ greatest_number) }
    ensures count { OnOk result ((1 ≤ count) × (count ≤ 64)) }
{
    write_number(flow.value(), into)?;
    write_number(count.value(), into)?;
    Ok(())
}

fn write_settle(
    flow: FlowNo,
    copy: CopyNo,
    outcome: Outcome,
    into: &mut Vec<u8>,
) -> Result<(), AllocError>
    ensures bytes { OnOk result (into.new.items ≡ into.old.items ++ (number_bytes flow ++ (number_bytes copy ++ (outcome_byte outcome ∷ [])))) }
    ensures flow { OnOk result (flow ≤ greatest_number) }
    ensures copy { OnOk result (copy ≤ greatest_number) }
{
    write_number(flow.value(), into)?;
    write_number(copy.value(), into)?;
    into.push(outcome_byte(outcome))?;
    Ok(())
}

fn kind_byte(kind: EndpointKind) -> u8
    ensures { result ≡ kind_byte kind }
{
    match kind {
        EndpointKind::Queue => 0,
        EndpointKind::TopicEndpoint => 1,
    }
}

fn outcome_byte(outcome: Outcome) -> u8
    ensures { result ≡ outcome_byte outcome }
{
    match outcome {
        Outcome::Accepted => 0,
        Outcome::Failed => 1,
        Outcome::Rejected => 2,
    }
}

#[tactic(auto, unfolding(crate::specs::UnitReading::event_at))]
fn read_event(alloc: Global, bytes: &[u8]) -> Result<(Event, &[u8]), ReadError>
    ensures { Gives (λ x. (x.0, x.1.now)) result (event_at bytes.now) }
{
    let (tag, rest) = read_byte(bytes)?;
    read_fields(alloc, tag, rest)
}

#[tactic(auto, unfolding(crate::specs::UnitReading::fields_at))]
fn read_fields(alloc: Global, tag: u8, bytes: &[u8]) -> Result<(Event, &[u8]), ReadError>
    ensures { Gives (λ x. (x.0, x.1.now)) result (fields_at tag bytes.now) }
{
    match tag {
        1 => read_provision(alloc, bytes),
        2 => read_deprovision(alloc, bytes),
        3 => read_change(alloc, bytes),
        4 => read_subscribe(alloc, bytes),
        5 => read_unsubscribe(alloc, bytes),
        6 => read_publish(alloc, bytes),
        7 => read_bind(alloc, bytes),
        8 => read_unbind(bytes),
        9 => read_pull(bytes),
        10 => read_settle(bytes),
        11 => Ok((Event::Tick, bytes)),
        12 => read_delete_copies(alloc, bytes),
        17 => Ok((Event::Restart, bytes)),
        _ => Err(ReadError::NotOne),
    }
}

#[tactic(auto, unfolding(crate::specs::UnitReading::provision_at))]
fn read_provision(alloc: Global, bytes: &[u8]) -> Result<(Event, &[u8]), ReadError>
    ensures { Gives (λ x. (x.0, x.1.now)) result (provision_at bytes.now) }
{
    let (endpoint, rest) = read_name(alloc, bytes)?;
    let (kind, rest) = read_kind(rest)?;
    let (attributes, rest) = read_settings(alloc, rest)?;
    let event = Event::Provision {
        endpoint,
        kind,
        attributes,
    };
    Ok((event, rest))
}

#[tactic(auto, unfolding(crate::specs::UnitReading::kind_at))]
fn read_kind(bytes: &[u8]) -> Result<(EndpointKind, &[u8]), ReadError>
    ensures { Gives (λ x. (x.0, x.1.now)) result (kind_at bytes.now) }
{
    match bytes {
        [0, rest @ ..] => Ok((EndpointKind::Queue, rest)),
        [1, rest @ ..] => Ok((EndpointKind::TopicEndpoint, rest)),
        _ => Err(ReadError::NotOne),
    }
}

#[tactic(auto, unfolding(crate::specs::UnitReading::deprovision_at))]
fn read_deprovision(alloc: Global, bytes: &[u8]) -> Result<(Event, &[u8]), ReadError>
    ensures { Gives (λ x. (x.0, x.1.now)) result (deprovision_at bytes.now) }
{
    let (endpoint, rest) = read_name(alloc, bytes)?;
    Ok((Event::Deprovision { endpoint }, rest))
}

#[tactic(auto, unfolding(crate::specs::UnitReading::change_at))]
fn read_change(alloc: Global, bytes: &[u8]) -> Result<(Event, &[u8]), ReadError>
    ensures { Gives (λ x. (x.0, x.1.now)) result (change_at bytes.now) }
{
    let (endpoint, rest) = read_name(alloc, bytes)?;
    let (attributes, rest) = read_settings(alloc, rest)?;
    let event = Event::Change {
        endpoint,
        attributes,
    };
    Ok((event, rest))
}

#[tactic(auto, unfolding(crate::specs::UnitReading::subscribe_at))]
fn read_subscribe(alloc: Global, bytes: &[u8]) -> Result<(Event, &[u8]), ReadError>
    ensures { Gives (λ x. (x.0, x.1.now)) result (subscribe_at bytes.now) }
{
    let (endpoint, rest) = read_name(alloc, bytes)?;
    let (subscription, rest) = SubscriptionCodec::read(alloc, rest)?;
    let event = Event::Subscribe {
        endpoint,
        subscription,
    };
    Ok((event, rest))
}

#[tactic(auto, unfolding(crate::specs::UnitReading::unsubscribe_at))]
fn read_unsubscribe(alloc: Global, bytes: &[u8]) -> Result<(Event, &[u8]), ReadError>
    ensures { Gives (λ x. (x.0, x.1.now)) result (unsubscribe_at bytes.now) }
{
    let (endpoint, rest) = read_name(alloc, bytes)?;
    let (subscription, rest) = SubscriptionCodec::read(alloc, rest)?;
    let event = Event::Unsubscribe {
        endpoint,
        subscription,
    };
    Ok((event, rest))
}

#[tactic(auto, unfolding(crate::specs::UnitReading::publish_at))]
fn read_publish(alloc: Global, bytes: &[u8]) -> Result<(Event, &[u8]), ReadError>
    ensures { Gives (λ x. (x.0, x.1.now)) result (publish_at bytes.now) }
{
    let (message, rest) = read_message(alloc, bytes)?;
    Ok((Event::Publish { message }, rest))
}

#[tactic(auto, unfolding(crate::specs::UnitReading::bind_at))]
fn read_bind(alloc: Global, bytes: &[u8]) -> Result<(Event, &[u8]), ReadError>
    ensures { Gives (λ x. (x.0, x.1.now)) result (bind_at bytes.now) }
{
    let (endpoint, rest) = read_name(alloc, bytes)?;
    let (selector, rest) = read_option::<SelectorCodec>(alloc, rest)?;
    let (topic, rest) = read_option::<SubscriptionCodec>(alloc, rest)?;
    let event = Event::Bind {
        endpoint,
        selector,
        topic,
    };
    Ok((event, rest))
}

#[tactic(auto, unfolding(crate::specs::UnitReading::unbind_at))]
fn read_unbind(bytes: &[u8]) -> Result<(Event, &[u8]), ReadError>
    ensures { Gives (λ x. (x.0, x.1.now)) result (unbind_at bytes.now) }
{
    let (flow, rest) = read_counted(bytes)?;
    let event = Event::Unbind {
        flow: FlowNo::of(flow),
    };
    Ok((event, rest))
}

#[tactic(auto, unfolding(crate::specs::UnitReading::pull_at))]
fn read_pull(bytes: &[u8]) -> Result<(Event, &[u8]), ReadError>
    ensures { Gives (λ x. (x.0, x.1.now)) result (pull_at bytes.now) }
{
    let (flow, rest) = read_counted(bytes)?;
    let (count, rest) = read_number_within(rest, 1, 64)?;
    let event = Event::Pull {
        flow: FlowNo::of(flow),
        count: PullCount::of(count),
    };
    Ok((event, rest))
}

#[tactic(auto, unfolding(crate::specs::UnitReading::settle_at))]
fn read_settle(bytes: &[u8]) -> Result<(Event, &[u8]), ReadError>
    ensures { Gives (λ x. (x.0, x.1.now)) result (settle_at bytes.now) }
{
    let (flow, rest) = read_counted(bytes)?;
    let (copy, rest) = read_counted(rest)?;
    let (outcome, rest) = read_outcome(rest)?;
    let event = Event::Settle {
        flow: FlowNo::of(flow),
        copy: CopyNo::of(copy),
        outcome,
    };
    Ok((event, rest))
}

#[tactic(auto, unfolding(crate::specs::UnitReading::outcome_at))]
fn read_outcome(bytes: &[u8]) -> Result<(Outcome, &[u8]), ReadError>
    ensures { Gives (λ x. (x.0, x.1.now)) result (outcome_at bytes.now) }
{
    match bytes {
        [0, rest @ ..] => Ok((Outcome::Accepted, rest)),
        [1, rest @ ..] => Ok((Outcome::Failed, rest)),
        [2, rest @ ..] => Ok((Outcome::Rejected, rest)),
        _ => Err(ReadError::NotOne),
    }
}

#[tactic(auto, unfolding(crate::specs::UnitReading::delete_copies_at))]
fn read_delete_copies(alloc: Global, bytes: &[u8]) -> Result<(Event, &[u8]), ReadError>
    ensures { Gives (λ x. (x.0, x.1.now)) result (delete_copies_at bytes.now) }
{
    let (endpoint, rest) = read_name(alloc, bytes)?;
    // The borrow check has no rule yet for a `?` on this option.
    match read_option::<CopyCodec>(alloc, rest) {
        Ok((copy, rest)) => Ok((Event::DeleteCopies { endpoint, copy }, rest)),
        Err(error) => Err(error),
    }
}
