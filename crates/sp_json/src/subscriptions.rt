// Subscriptions in the fields of a JSON object.
ghost use Rattle.serde_json.specs.View.{view};
ghost use Rattle.sp_base.specs.Declined.{Obeys};
ghost use Rattle.sp_json.specs.Subscriptions.{subscription_from, subscription_at};

use crate::fields::text_at;
use crate::parts::malformed;
use serde_json::Value;
use sp_base::declined::Declined;
use sp_base::refusal::Refusal;
use sp_topic::subscription::{Subscription, SubscriptionError};
use std::alloc::Global;

/// The subscription in a field.
pub fn subscription_at(
    alloc: Global,
    value: &Value,
    key: &str,
) -> Result<Subscription, Declined<Refusal>>
    ensures { Obeys (subscription_at key.now (view value.now)) result }
{
    match text_at(value, key) {
        Some(text) => subscription_from(alloc, text),
        None => Err(malformed()),
    }
}

fn subscription_from(alloc: Global, text: &str) -> Result<Subscription, Declined<Refusal>>
    ensures { Obeys (subscription_from text.now) result }
{
    match Subscription::read(alloc, text.as_bytes()) {
        Ok(subscription) => Ok(subscription),
        Err(SubscriptionError::Bad { at }) => {
            Err(Declined::Refused(Refusal::BadSubscription { at }))
        }
        Err(SubscriptionError::Memory) => Err(Declined::Memory),
    }
}
