// Flows that are bound, in JSON.
ghost use Rattle.std.specs.Prelude.{◌≡◌, IfOk};
ghost use Rattle.serde_json.specs.View.{view};
ghost use Rattle.sp_json.specs.Flows.{flow_data, flows_data};

use serde_json::{Value, json};
use sp_event::answer::BoundFlow;
use std::alloc::{AllocError, Global};

fn flow_value(alloc: Global, bound: &BoundFlow) -> Result<Value, AllocError>
    ensures { IfOk result (λ v. view v ≡ flow_data bound.now) }
{
    let caller = bound.caller.as_str();
    let flow = bound.flow.value();
    json!(in alloc; {"active": bound.active, "caller": caller, "flow": flow, "held": bound.held})
}

/// The flows that are bound to an endpoint, in their order.
pub fn flows_value(alloc: Global, flows: &[BoundFlow]) -> Result<Value, AllocError>
    ensures { IfOk result (λ v. view v ≡ flows_data flows.now) }
{
    let mut values = Vec::new(alloc);
    for bound in flows {
        values.push(flow_value(alloc, bound)?)?;
    }
    Ok(Value::Array(values))
}
