// Requests of endpoints, from the fields of a JSON object.
ghost use Rattle.std.specs.Prelude.{◌≡◌, IfOk};
ghost use Rattle.serde_json.specs.View.{view};
ghost use Rattle.sp_flowline.specs.EndpointEvents.{provision_in, deprovision_in, change_in, subscribe_in, unsubscribe_in, delete_in};
ghost use Rattle.sp_base.specs.Declined.{Obeys};

use serde_json::Value;
use sp_base::declined::Declined;
use sp_base::refusal::Refusal;
use sp_config::kind::EndpointKind;
use sp_event::request::Event;
use sp_json::attributes::{optional_settings_at, settings_at};
use sp_json::fields::{choice_or, name_at, optional_ranged_at};
use sp_json::parts::malformed;
use sp_json::subscriptions::subscription_at;
use std::alloc::{AllocError, Global};

/// A new endpoint.
pub fn provision_in(alloc: Global, value: &Value) -> Result<Event, Declined<Refusal>>
    ensures { Obeys (provision_in (view value.now)) result }
{
    let Some(endpoint) = name_at(alloc, value, "endpoint")? else {
        return Err(malformed());
    };
    let Some(kind) = choice_or(value, "kind", EndpointKind::Queue) else {
        return Err(malformed());
    };
    let attributes = optional_settings_at(alloc, value, "attributes", kind)?;
    Ok(Event::Provision {
        endpoint,
        kind,
        attributes,
    })
}

/// The end of an endpoint. None where `endpoint` is no name.
pub fn deprovision_in(alloc: Global, value: &Value) -> Result<Option<Event>, AllocError>
    ensures { IfOk result (λ r. r ≡ deprovision_in (view value.now)) }
{
    let Some(endpoint) = name_at(alloc, value, "endpoint")? else {
        return Ok(None);
    };
    Ok(Some(Event::Deprovision { endpoint }))
}

/// Other values for some attributes of an endpoint. Its kind isn't known here, so only the ranges
/// count.
pub fn change_in(alloc: Global, value: &Value) -> Result<Event, Declined<Refusal>>
    ensures { Obeys (change_in (view value.now)) result }
{
    let Some(endpoint) = name_at(alloc, value, "endpoint")? else {
        return Err(malformed());
    };
    let attributes = settings_at(alloc, value, "attributes", EndpointKind::Queue)?;
    Ok(Event::Change {
        endpoint,
        attributes,
    })
}

/// A subscription for an endpoint.
pub fn subscribe_in(alloc: Global, value: &Value) -> Result<Event, Declined<Refusal>>
    ensures { Obeys (subscribe_in (view value.now)) result }
{
    let Some(endpoint) = name_at(alloc, value, "endpoint")? else {
        return Err(malformed());
    };
    let subscription = subscription_at(alloc, value, "subscription")?;
    Ok(Event::Subscribe {
        endpoint,
        subscription,
    })
}

/// The end of an endpoint's subscription.
pub fn unsubscribe_in(alloc: Global, value: &Value) -> Result<Event, Declined<Refusal>>
    ensures { Obeys (unsubscribe_in (view value.now)) result }
{
    let Some(endpoint) = name_at(alloc, value, "endpoint")? else {
        return Err(malformed());
    };
    let subscription = subscription_at(alloc, value, "subscription")?;
    Ok(Event::Unsubscribe {
        endpoint,
        subscription,
    })
}

/// The end of copies of an endpoint: of one, where it is named. None where `endpoint` is no name or
/// `copy` no number of a copy.
pub fn delete_in(alloc: Global, value: &Value) -> Result<Option<Event>, AllocError>
    ensures { IfOk result (λ r. r ≡ delete_in (view value.now)) }
{
    let Some(endpoint) = name_at(alloc, value, "endpoint")? else {
        return Ok(None);
    };
    let Some(copy) = optional_ranged_at(value, "copy") else {
        return Ok(None);
    };
    Ok(Some(Event::DeleteCopies { endpoint, copy }))
}
