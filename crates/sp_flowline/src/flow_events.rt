// Requests of flows, from the fields of a JSON object.
ghost use Rattle.std.specs.Prelude.{◌≡◌};
ghost use Rattle.serde_json.specs.View.{view};
ghost use Rattle.sp_flowline.specs.FlowEvents.{plain_of, optional_plain_at, bind_in, unbind_in, pull_in, outcome_named, settle_in};
ghost use Rattle.sp_base.specs.Declined.{Obeys};

use serde_json::Value;
use sp_base::declined::Declined;
use sp_base::refusal::Refusal;
use sp_event::request::{Event, Outcome, PullCount};
use sp_json::fields::{has_key, name_at, optional_text_at, ranged_at, ranged_or, text_at};
use sp_json::parts::malformed;
use sp_json::selectors::selector_from;
use sp_json::subscriptions::subscription_at;
use sp_topic::subscription::Subscription;
use std::alloc::Global;

/// A new flow on the endpoint that is named, with the topic that a topic endpoint takes from now on, and
/// a selector. Whether the topic fits the endpoint isn't known here.
pub fn bind_in(alloc: Global, value: &Value) -> Result<Event, Declined<Refusal>>
    ensures { Obeys (bind_in (view value.now)) result }
{
    let Some(endpoint) = name_at(alloc, value, "endpoint")? else {
        return Err(malformed());
    };
    let Some(text) = optional_text_at(value, "selector") else {
        return Err(malformed());
    };
    let topic = optional_plain_at(alloc, value, "topic")?;
    let selector = selector_from(alloc, text)?;
    Ok(Event::Bind {
        endpoint,
        selector,
        topic,
    })
}

fn optional_plain_at(
    alloc: Global,
    value: &Value,
    key: &str,
) -> Result<Option<Subscription>, Declined<Refusal>>
    ensures { Obeys (optional_plain_at key.now (view value.now)) result }
{
    if !has_key(value, key) {
        return Ok(None);
    }
    let subscription = subscription_at(alloc, value, key)?;
    Ok(Some(plain_of(subscription)?))
}

fn plain_of(subscription: Subscription) -> Result<Subscription, Declined<Refusal>>
    ensures { Obeys (plain_of subscription) result }
{
    if subscription.is_exception() {
        return Err(Declined::Refused(Refusal::BadSubscription { at: 0 }));
    }
    Ok(subscription)
}

/// The end of a flow.
pub fn unbind_in(value: &Value) -> Option<Event>
    ensures { result ≡ unbind_in (view value.now) }
{
    let flow = ranged_at(value, "flow")?;
    Some(Event::Unbind { flow })
}

/// Copies for a flow: one, where their count is absent.
pub fn pull_in(value: &Value) -> Option<Event>
    ensures { result ≡ pull_in (view value.now) }
{
    let flow = ranged_at(value, "flow")?;
    let count = ranged_or(value, "count", PullCount::of(1))?;
    Some(Event::Pull { flow, count })
}

/// A copy that a flow settles.
pub fn settle_in(value: &Value) -> Option<Event>
    ensures { result ≡ settle_in (view value.now) }
{
    let flow = ranged_at(value, "flow")?;
    let copy = ranged_at(value, "copy")?;
    let outcome = outcome_named(text_at(value, "outcome")?)?;
    Some(Event::Settle {
        flow,
        copy,
        outcome,
    })
}

fn outcome_named(word: &str) -> Option<Outcome>
    ensures { result ≡ outcome_named word.now }
{
    match word {
        "accepted" => Some(Outcome::Accepted),
        "failed" => Some(Outcome::Failed),
        "rejected" => Some(Outcome::Rejected),
        _ => None,
    }
}
