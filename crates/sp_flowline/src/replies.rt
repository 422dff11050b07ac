// Replies as JSON values.
ghost use Rattle.std.specs.Prelude.{◌≡◌, IfOk};
ghost use Rattle.serde_json.specs.View.{view};
ghost use Rattle.sp_flowline.specs.Replies.{provision_data, endpoint_data, publish_data, tick_data, delete_data, restart_data, tally_data, copy_data, reply_data};

use crate::flow_replies::{bind_value, bound_value, pull_value, settle_value, unbind_value};
use serde_json::{Map, Value, json};
use sp_copies::closed::Fate;
use sp_event::answer::{CopyDetails, CopyFate, PublishedCopy, Reply, Tally};
use sp_json::fates::put_fate;
use sp_json::members::{put_text, put_whole};
use sp_json::told::{causes_value, closed_value, copies_value, put_details};
use std::alloc::{AllocError, Global};

fn provision_value(
    alloc: Global,
    endpoint: &str,
    number: u64,
    unit: u64,
) -> Result<Value, AllocError>
    ensures { IfOk result (λ v. view v ≡ provision_data endpoint.now number unit) }
{
    json!(in alloc; {"endpoint": endpoint, "number": number, "ok": "provision", "unit": unit})
}

fn endpoint_value(alloc: Global, endpoint: &str, op: &str, unit: u64) -> Result<Value, AllocError>
    ensures { IfOk result (λ v. view v ≡ endpoint_data endpoint.now op.now unit) }
{
    json!(in alloc; {"endpoint": endpoint, "ok": op, "unit": unit})
}

fn publish_value(
    alloc: Global,
    message: u64,
    copies: &[PublishedCopy],
    unit: u64,
) -> Result<Value, AllocError>
    ensures { IfOk result (λ v. view v ≡ publish_data message copies.now unit) }
{
    let copies = copies_value(alloc, copies)?;
    json!(in alloc; {"copies": copies, "message": message, "ok": "publish", "unit": unit})
}

fn tick_value(alloc: Global, closed: &[CopyFate], unit: u64) -> Result<Value, AllocError>
    ensures { IfOk result (λ v. view v ≡ tick_data closed.now unit) }
{
    let closed = closed_value(alloc, closed)?;
    json!(in alloc; {"closed": closed, "ok": "tick", "unit": unit})
}

fn delete_value(
    alloc: Global,
    endpoint: &str,
    closed: &[CopyFate],
    unit: u64,
) -> Result<Value, AllocError>
    ensures { IfOk result (λ v. view v ≡ delete_data endpoint.now closed.now unit) }
{
    let closed = closed_value(alloc, closed)?;
    json!(in alloc; {"closed": closed, "endpoint": endpoint, "ok": "delete", "unit": unit})
}

fn restart_value(alloc: Global, unit: u64) -> Result<Value, AllocError>
    ensures { IfOk result (λ v. view v ≡ restart_data unit) }
{
    json!(in alloc; {"ok": "restart", "unit": unit})
}

fn tally_value(alloc: Global, t: &Tally, unit: u64) -> Result<Value, AllocError>
    ensures { IfOk result (λ v. view v ≡ tally_data t.now unit) }
{
    let causes = causes_value(alloc, t.causes.as_slice())?;
    json!(in alloc; {"accepted": t.accepted, "causes": causes, "discarded": t.discarded, "made": t.made, "moved": t.moved, "ok": "tally", "spooled": t.spooled, "unit": unit, "used": t.used})
}

fn copy_value(
    alloc: Global,
    copy: u64,
    fate: Fate,
    details: &Option<CopyDetails>,
    unit: u64,
) -> Result<Value, AllocError>
    ensures { IfOk result (λ v. view v ≡ copy_data copy fate details.now unit) }
{
    let mut map = Map::new(alloc);
    put_whole(&mut map, alloc, "copy", copy)?;
    put_text(&mut map, alloc, "ok", "copy")?;
    put_whole(&mut map, alloc, "unit", unit)?;
    put_details(&mut map, alloc, details)?;
    put_fate(&mut map, alloc, fate)?;
    Ok(Value::Object(map))
}

/// A reply at a number of units.
pub fn reply_value(alloc: Global, reply: &Reply, unit: u64) -> Result<Value, AllocError>
    ensures { IfOk result (λ v. view v ≡ reply_data reply.now unit) }
{
    match reply {
        Reply::Provision { endpoint, number } => {
            provision_value(alloc, endpoint.as_str(), number.value(), unit)
        }
        Reply::Deprovision { endpoint } => {
            endpoint_value(alloc, endpoint.as_str(), "deprovision", unit)
        }
        Reply::Change { endpoint } => endpoint_value(alloc, endpoint.as_str(), "change", unit),
        Reply::Subscribe { endpoint } => {
            endpoint_value(alloc, endpoint.as_str(), "subscribe", unit)
        }
        Reply::Unsubscribe { endpoint } => {
            endpoint_value(alloc, endpoint.as_str(), "unsubscribe", unit)
        }
        Reply::Publish { message, copies } => {
            publish_value(alloc, message.value(), copies.as_slice(), unit)
        }
        Reply::Bind {
            endpoint,
            flow,
            discarded,
        } => { bind_value(alloc, endpoint.as_str(), flow.value(), *discarded, unit) }
        Reply::Unbind {
            flow,
            closed,
            returned,
        } => { unbind_value(alloc, flow.value(), closed.as_slice(), *returned, unit) }
        Reply::Pull { flow, deliveries } => {
            pull_value(alloc, flow.value(), deliveries.as_slice(), unit)
        }
        Reply::Settle { copy, fate } => settle_value(alloc, copy.value(), *fate, unit),
        Reply::Tick { closed } => tick_value(alloc, closed.as_slice(), unit),
        Reply::DeleteCopies { endpoint, closed } => {
            delete_value(alloc, endpoint.as_str(), closed.as_slice(), unit)
        }
        Reply::Restart => restart_value(alloc, unit),
        Reply::Tally(tally) => tally_value(alloc, tally, unit),
        Reply::Copy {
            copy,
            fate,
            details,
        } => { copy_value(alloc, copy.value(), *fate, details, unit) }
        Reply::Flows { endpoint, flows } => {
            bound_value(alloc, endpoint.as_str(), flows.as_slice(), unit)
        }
    }
}
