// Replies of flows as JSON values.
ghost use Rattle.std.specs.Prelude.{◌≡◌, IfOk};
ghost use Rattle.serde_json.specs.View.{view};
ghost use Rattle.sp_flowline.specs.FlowReplies.{bind_data, unbind_data, pull_data, settle_data, bound_data};

use serde_json::{Map, Value, json};
use sp_copies::closed::Fate;
use sp_event::answer::{BoundFlow, CopyFate, Delivery};
use sp_json::deliveries::deliveries_value;
use sp_json::fates::put_fate;
use sp_json::flows::flows_value;
use sp_json::members::{put_text, put_whole};
use sp_json::told::closed_value;
use std::alloc::{AllocError, Global};

/// A flow that is bound.
pub fn bind_value(
    alloc: Global,
    endpoint: &str,
    flow: u64,
    discarded: u64,
    unit: u64,
) -> Result<Value, AllocError>
    ensures { IfOk result (λ v. view v ≡ bind_data endpoint.now flow discarded unit) }
{
    json!(in alloc; {"discarded": discarded, "endpoint": endpoint, "flow": flow, "ok": "bind", "unit": unit})
}

/// A flow that is gone.
pub fn unbind_value(
    alloc: Global,
    flow: u64,
    closed: &[CopyFate],
    returned: u64,
    unit: u64,
) -> Result<Value, AllocError>
    ensures { IfOk result (λ v. view v ≡ unbind_data flow closed.now returned unit) }
{
    let closed = closed_value(alloc, closed)?;
    json!(in alloc; {"closed": closed, "flow": flow, "ok": "unbind", "returned": returned, "unit": unit})
}

/// The copies that a flow is handed out.
pub fn pull_value(
    alloc: Global,
    flow: u64,
    deliveries: &[Delivery],
    unit: u64,
) -> Result<Value, AllocError>
    ensures { IfOk result (λ v. view v ≡ pull_data flow deliveries.now unit) }
{
    let deliveries = deliveries_value(alloc, deliveries)?;
    json!(in alloc; {"deliveries": deliveries, "flow": flow, "ok": "pull", "unit": unit})
}

/// A copy that was settled.
pub fn settle_value(alloc: Global, copy: u64, fate: Fate, unit: u64) -> Result<Value, AllocError>
    ensures { IfOk result (λ v. view v ≡ settle_data copy fate unit) }
{
    let mut map = Map::new(alloc);
    put_whole(&mut map, alloc, "copy", copy)?;
    put_text(&mut map, alloc, "ok", "settle")?;
    put_whole(&mut map, alloc, "unit", unit)?;
    put_fate(&mut map, alloc, fate)?;
    Ok(Value::Object(map))
}

/// The flows that are bound to an endpoint.
pub fn bound_value(
    alloc: Global,
    endpoint: &str,
    flows: &[BoundFlow],
    unit: u64,
) -> Result<Value, AllocError>
    ensures { IfOk result (λ v. view v ≡ bound_data endpoint.now flows.now unit) }
{
    let flows = flows_value(alloc, flows)?;
    json!(in alloc; {"endpoint": endpoint, "flows": flows, "ok": "flows", "unit": unit})
}
