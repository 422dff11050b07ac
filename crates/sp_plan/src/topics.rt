//! Which topics and selectors an endpoint may be bound with.
ghost use Rattle.sp_ledger.specs.OnFlows.{fits_kind, flow_selector, is_another, is_rebound, own_selector, rebound, topic_check};
ghost use Rattle.std.specs.Prelude.{◌≡◌, IfOk};

use sp_config::kind::EndpointKind;
use sp_endpoint::endpoint::Endpoint;
use sp_selector::selector::{Selector, copy_of};
use sp_topic::subscription::Subscription;
use std::alloc::{AllocError, Global};

/// Whether the topic is an exception, with which nothing is bound.
pub fn is_exception(topic: &Option<Subscription>) -> bool
    ensures { result ≡ (topic_check topic.now).broken }
{
    match topic {
        None => false,
        Some(topic) => topic.is_exception(),
    }
}

/// A queue is bound without a topic, a topic endpoint with one.
pub fn fits_kind(kind: EndpointKind, topic: &Option<Subscription>) -> bool
    ensures { result ≡ fits_kind kind topic.now }
{
    match kind {
        EndpointKind::Queue => topic.is_none(),
        EndpointKind::TopicEndpoint => topic.is_some(),
    }
}

// Whether the topic is another than there is.
fn is_another_topic(own: &Option<Subscription>, topic: &Option<Subscription>) -> bool
    ensures { result ≡ is_another own.now topic.now }
{
    match (own, topic) {
        (None, None) => false,
        (None, Some(_)) => true,
        (Some(_), None) => true,
        (Some(own), Some(topic)) => !own.same(topic),
    }
}

// Whether the selector has another text than the one that there is.
fn is_another_selector(own: &Option<Selector>, selector: &Option<Selector>) -> bool
    ensures { result ≡ is_another own.now selector.now }
{
    match (own, selector) {
        (None, None) => false,
        (None, Some(_)) => true,
        (Some(_), None) => true,
        (Some(own), Some(selector)) => !own.same(selector),
    }
}

/// Whether an endpoint has another topic or another selector once it is bound.
pub fn is_rebound(endpoint: &Endpoint, bound: &Endpoint) -> bool
    ensures { result ≡ is_rebound endpoint.now bound.now }
{
    is_another_topic(&endpoint.topic, &bound.topic)
        || is_another_selector(&endpoint.selector, &bound.selector)
}

/// The endpoint with the topic and the selector that it is bound with: a queue keeps no selector.
pub fn rebound(
    alloc: Global,
    endpoint: &Endpoint,
    selector: &Option<Selector>,
    topic: &Option<Subscription>,
) -> Result<Endpoint, AllocError>
    ensures { IfOk result (λ e. e ≡ rebound endpoint.now selector.now topic.now) }
{
    let own = own_selector(alloc, endpoint.kind, selector)?;
    endpoint.with_topic(alloc, topic, own)
}

fn own_selector(
    alloc: Global,
    kind: EndpointKind,
    selector: &Option<Selector>,
) -> Result<Option<Selector>, AllocError>
    ensures { IfOk result (λ own. own ≡ own_selector kind selector.now) }
{
    match kind {
        EndpointKind::Queue => Ok(None),
        EndpointKind::TopicEndpoint => copy_of(alloc, selector),
    }
}

/// The selector that a flow keeps: one on a topic endpoint keeps none.
pub fn flow_selector(
    alloc: Global,
    kind: EndpointKind,
    selector: &Option<Selector>,
) -> Result<Option<Selector>, AllocError>
    ensures { IfOk result (λ kept. kept ≡ flow_selector kind selector.now) }
{
    match kind {
        EndpointKind::Queue => copy_of(alloc, selector),
        EndpointKind::TopicEndpoint => Ok(None),
    }
}
