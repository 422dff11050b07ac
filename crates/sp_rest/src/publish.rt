ghost use Rattle.std.specs.Prelude.{◌≡◌};
ghost use Rattle.sp_base.specs.Declined.{Obeys};
ghost use Rattle.sp_rest.specs.Publish.Publishes.{publish_of, sent, message_to};

mod destination;
pub mod headers;
pub mod suffix;
#[cfg(test)]
mod tests;
mod user_properties;

use crate::publish::destination::{dest_for, has_words, query_of};
use crate::publish::headers::{Headers, headers_in};
use crate::wire::request::Request;
use sp_base::bytes::Bytes;
use sp_base::declined::Declined;
use sp_base::refusal::Refusal;
use sp_event::request::Event;
use sp_message::message::{Dest, Message};
use sp_message::payload::Payload;
use std::alloc::Global;

/// The publish that a request is: a POST to `/TOPIC/` or `/QUEUE/` and the destination, whose body
/// is the payload. It is refused by the first that applies: as a bad request with `at` 5 where the
/// method is another, the path leads nowhere or the queue's name is none; with 6 where there is a
/// word in the query; with 7 where a field that is read here has a value outside its form, is given
/// twice, or names a property by no name; then for the direct mode; then for a topic that is none.
pub fn publish(alloc: Global, request: &Request) -> Result<Event, Declined<Refusal>>
    ensures { Obeys (publish_of request.now) result }
{
    let Some(dest) = dest_for(alloc, request.method(), request.target())? else {
        return Err(bad(5));
    };
    if has_words(query_of(request.target())) {
        return Err(bad(6));
    }
    let Some(headers) = headers_in(alloc, request.fields())? else {
        return Err(bad(7));
    };
    let body = Bytes::copy_of(alloc, request.body())?;
    sent(headers, dest, Payload::from_bytes(body))
}

fn bad(at: u64) -> Declined<Refusal>
    ensures { result ≡ Declined.Refused (Refusal.BadRequest at) }
{
    Declined::Refused(Refusal::BadRequest { at })
}

fn sent(
    headers: Headers,
    dest: Result<Dest, Refusal>,
    payload: Payload,
) -> Result<Event, Declined<Refusal>>
    ensures { Obeys (sent headers dest payload) result }
{
    if headers.direct {
        return Err(Declined::Refused(Refusal::DirectMode));
    }
    match dest {
        Ok(dest) => Ok(Event::Publish {
            message: message_to(dest, headers, payload),
        }),
        Err(refusal) => Err(Declined::Refused(refusal)),
    }
}

fn message_to(dest: Dest, headers: Headers, payload: Payload) -> Message
    ensures { result ≡ message_to dest headers payload }
{
    Message {
        dest,
        payload,
        ttl: headers.ttl,
        eligible: headers.eligible,
        properties: headers.properties,
    }
}
