// Requests from the fields of a JSON object.
ghost use Rattle.std.specs.Prelude.{◌≡◌, IfOk, option_map};
ghost use Rattle.serde_json.specs.View.{view};
ghost use Rattle.sp_flowline.specs.Asks.{done, looked, tally_in, copy_in, flows_in, ask_in};
ghost use Rattle.sp_base.specs.Declined.{Obeys};
ghost use Rattle.sp_base.specs.Parts.{formed};

use crate::endpoint_events::{
    change_in, delete_in, deprovision_in, provision_in, subscribe_in, unsubscribe_in,
};
use crate::flow_events::{bind_in, pull_in, settle_in, unbind_in};
use crate::op::Op;
use crate::publishes::publish_in;
use serde_json::Value;
use sp_base::declined::Declined;
use sp_base::refusal::Refusal;
use sp_event::request::{Ask, Event, Query};
use sp_json::fields::{name_at, optional_name_at, ranged_at};
use sp_json::parts::malformed;
use std::alloc::{AllocError, Global};

/// The request that the fields of an operation ask for. It is refused as a bad request with the `at`
/// 4 where one has the wrong JSON kind, or a value outside its form; and else by its mode, topic,
/// subscription or attributes, where they are none or not for it.
pub fn ask_in(alloc: Global, value: &Value, op: Op) -> Result<Ask, Declined<Refusal>>
    ensures { Obeys (ask_in op (view value.now)) result }
{
    match op {
        Op::Provision => Ok(Ask::Do(provision_in(alloc, value)?)),
        Op::Deprovision => done(deprovision_in(alloc, value)?),
        Op::Change => Ok(Ask::Do(change_in(alloc, value)?)),
        Op::Subscribe => Ok(Ask::Do(subscribe_in(alloc, value)?)),
        Op::Unsubscribe => Ok(Ask::Do(unsubscribe_in(alloc, value)?)),
        Op::Publish => Ok(Ask::Do(publish_in(alloc, value)?)),
        Op::Bind => Ok(Ask::Do(bind_in(alloc, value)?)),
        Op::Unbind => done(unbind_in(value)),
        Op::Pull => done(pull_in(value)),
        Op::Settle => done(settle_in(value)),
        Op::Tick => Ok(Ask::Do(Event::Tick)),
        Op::Delete => done(delete_in(alloc, value)?),
        Op::Tally => looked(tally_in(alloc, value)?),
        Op::Copy => looked(copy_in(value)),
        Op::Flows => looked(flows_in(alloc, value)?),
    }
}

fn done(event: Option<Event>) -> Result<Ask, Declined<Refusal>>
    ensures { Obeys (done (formed event)) result }
{
    match event {
        Some(event) => Ok(Ask::Do(event)),
        None => Err(malformed()),
    }
}

fn looked(query: Option<Query>) -> Result<Ask, Declined<Refusal>>
    ensures { Obeys (looked (formed query)) result }
{
    match query {
        Some(query) => Ok(Ask::Look(query)),
        None => Err(malformed()),
    }
}

fn tally_in(alloc: Global, value: &Value) -> Result<Option<Query>, AllocError>
    ensures { IfOk result (λ r. r ≡ tally_in (view value.now)) }
{
    let Some(endpoint) = optional_name_at(alloc, value, "endpoint")? else {
        return Ok(None);
    };
    Ok(Some(Query::Tally { endpoint }))
}

fn copy_in(value: &Value) -> Option<Query>
    ensures { result ≡ copy_in (view value.now) }
{
    let copy = ranged_at(value, "copy")?;
    Some(Query::Copy { copy })
}

fn flows_in(alloc: Global, value: &Value) -> Result<Option<Query>, AllocError>
    ensures { IfOk result (λ r. r ≡ flows_in (view value.now)) }
{
    let Some(endpoint) = name_at(alloc, value, "endpoint")? else {
        return Ok(None);
    };
    Ok(Some(Query::Flows { endpoint }))
}
