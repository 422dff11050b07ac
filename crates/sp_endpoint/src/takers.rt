// Which endpoints take a message.
ghost use Rattle.std.specs.Prelude.{◌≡◌, IfOk, OnOk, filter, map};
ghost use Rattle.std.specs.Cmp.Lexicographic.{slice_cmp};
ghost use Rattle.std.specs.Ordering.{nat_cmp};
ghost use Rattle.sp_endpoint.specs.Takers.{by_name, is_matched, takes_dest, takes_message, takes_topic};

use crate::endpoint::Endpoint;
use sp_base::topic::Topic;
use sp_config::kind::EndpointKind;
use sp_message::message::{Dest, Message};
use sp_selector::selector::passes;
use sp_topic::subscription::Subscription;
use std::alloc::{AllocError, Global};
use std::cmp::Ordering;

/// The endpoints that take a message, in the order in which they stand.
pub fn among<'a>(
    alloc: Global,
    endpoints: &'a [Endpoint],
    message: &Message,
) -> Result<Vec<&'a Endpoint>, AllocError>
    ensures { IfOk result (λ found. map (λ e. e.now) found.items ≡ filter (takes_message message.now) endpoints.now) }
{
    endpoints
        .iter()
        .filter(|e| takes_message(message, e))
        .collect(alloc)
}

/// Puts endpoints in the byte order of their names.
pub fn sort(endpoints: &mut Vec<&Endpoint>) -> Result<(), AllocError>
    ensures { OnOk result (map (λ e. e.now) endpoints.new.items ≡ by_name (map (λ e. e.now) endpoints.old.items)) }
{
    endpoints.sort_by(|a, b| compare_names(a, b))?;
    Ok(())
}

fn compare_names(a: &Endpoint, b: &Endpoint) -> Ordering
    ensures { result ≡ slice_cmp nat_cmp a.now.name b.now.name }
{
    a.name.as_bytes().cmp(b.name.as_bytes())
}

fn takes_message(message: &Message, endpoint: &Endpoint) -> bool
    ensures { result ≡ takes_message message.now endpoint.now }
{
    takes_dest(&message.dest, endpoint) && passes(&endpoint.selector, &message.properties)
}

fn takes_dest(dest: &Dest, endpoint: &Endpoint) -> bool
    ensures { result ≡ takes_dest dest.now endpoint.now }
{
    match dest {
        Dest::Topic(topic) => takes_topic(endpoint, topic),
        Dest::Queue(name) => endpoint.is_queue() && endpoint.name.same(name),
    }
}

/// A queue takes a topic by its subscriptions, and a topic endpoint by its own topic.
fn takes_topic(endpoint: &Endpoint, topic: &Topic) -> bool
    ensures { result ≡ takes_topic endpoint.now.kind endpoint.now topic.now }
{
    match endpoint.kind {
        EndpointKind::Queue => endpoint.subscriptions.takes(topic),
        EndpointKind::TopicEndpoint => is_matched(&endpoint.topic, topic),
    }
}

fn is_matched(own: &Option<Subscription>, topic: &Topic) -> bool
    ensures { result ≡ is_matched own.now topic.now }
{
    match own {
        None => false,
        Some(own) => own.matches(topic),
    }
}
