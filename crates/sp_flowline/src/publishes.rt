// A publish, from the fields of a JSON object.
ghost use Rattle.std.specs.Prelude.{◌≡◌, IfOk};
ghost use Rattle.serde_json.specs.View.{view};
ghost use Rattle.sp_base.specs.Declined.{Obeys};
ghost use Rattle.sp_message.specs.Destination.{topic_from};
ghost use Rattle.sp_flowline.specs.Publishes.{dest_in, message_to, sent, publish_in};

use crate::mode::Mode;
use serde_json::Value;
use sp_base::declined::Declined;
use sp_base::refusal::Refusal;
use sp_base::topic::{Topic, TopicError};
use sp_event::request::Event;
use sp_json::fields::{choice_or, flag_or, has_key, name_at, ranged_or, text_at};
use sp_json::parts::malformed;
use sp_json::payloads::payload_in;
use sp_json::properties::properties_at;
use sp_message::message::{Dest, Message, TimeToLive};
use sp_message::payload::Payload;
use sp_message::property::Properties;
use std::alloc::{AllocError, Global};

/// A message for a topic or a queue. A field outside its form is told first, then the direct mode,
/// and then a topic that is none.
pub fn publish_in(alloc: Global, value: &Value) -> Result<Event, Declined<Refusal>>
    ensures { Obeys (publish_in (view value.now)) result }
{
    let Some(mode) = choice_or(value, "mode", Mode::Persistent) else {
        return Err(malformed());
    };
    let Some(dest) = dest_in(alloc, value)? else {
        return Err(malformed());
    };
    let Some(payload) = payload_in(alloc, value)? else {
        return Err(malformed());
    };
    let Some(ttl) = ranged_or(value, "ttl", TimeToLive::of(0)) else {
        return Err(malformed());
    };
    let Some(eligible) = flag_or(value, "dmq", false) else {
        return Err(malformed());
    };
    let Some(properties) = properties_at(alloc, value, "properties")? else {
        return Err(malformed());
    };
    sent(mode, dest, payload, ttl, eligible, properties)
}

fn sent(
    mode: Mode,
    dest: Result<Dest, Refusal>,
    payload: Payload,
    ttl: TimeToLive,
    eligible: bool,
    properties: Properties,
) -> Result<Event, Declined<Refusal>>
    ensures { Obeys (sent mode dest payload ttl eligible properties) result }
{
    if mode == Mode::Direct {
        return Err(Declined::Refused(Refusal::DirectMode));
    }
    match dest {
        Ok(dest) => Ok(Event::Publish {
            message: message_to(dest, payload, ttl, eligible, properties),
        }),
        Err(refusal) => Err(Declined::Refused(refusal)),
    }
}

fn message_to(
    dest: Dest,
    payload: Payload,
    ttl: TimeToLive,
    eligible: bool,
    properties: Properties,
) -> Message
    ensures { result ≡ message_to dest payload ttl eligible properties }
{
    Message {
        dest,
        payload,
        ttl,
        eligible,
        properties,
    }
}

// Where the message goes, or why its topic is none. None where a field is outside its form.
fn dest_in(alloc: Global, value: &Value) -> Result<Option<Result<Dest, Refusal>>, AllocError>
    ensures { IfOk result (λ r. r ≡ dest_in (view value.now)) }
{
    if has_key(value, "topic") {
        return match text_at(value, "topic") {
            Some(text) => Ok(Some(topic_from(alloc, text)?)),
            None => Ok(None),
        };
    }
    match name_at(alloc, value, "queue")? {
        Some(queue) => Ok(Some(Ok(Dest::Queue(queue)))),
        None => Ok(None),
    }
}

fn topic_from(alloc: Global, text: &str) -> Result<Result<Dest, Refusal>, AllocError>
    ensures { IfOk result (λ r. r ≡ topic_from text.now) }
{
    match Topic::read(alloc, text.as_bytes()) {
        Ok(topic) => Ok(Ok(Dest::Topic(topic))),
        Err(TopicError::Bad { at }) => Ok(Err(Refusal::BadTopic { at })),
        Err(TopicError::Memory) => Err(AllocError),
    }
}
