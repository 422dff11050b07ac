// Copies that are handed out, in JSON.
ghost use Rattle.std.specs.Prelude.{◌≡◌, IfOk, OnOk};
ghost use Rattle.serde_json.specs.View.{view, members_view};
ghost use Rattle.sp_json.specs.Deliveries.{with_destination, delivery_data, deliveries_data};

use crate::members::{Members, put_text, put_whole};
use crate::payloads::put_payload;
use crate::properties::properties_value;
use serde_json::{Map, Value};
use sp_event::answer::Delivery;
use sp_message::message::Dest;
use std::alloc::{AllocError, Global};

/// A copy that is handed out.
pub fn delivery_value(alloc: Global, delivery: &Delivery) -> Result<Value, AllocError>
    ensures { IfOk result (λ v. view v ≡ delivery_data delivery.now) }
{
    let mut map = Map::new(alloc);
    put_whole(&mut map, alloc, "attempt", delivery.attempt)?;
    put_whole(&mut map, alloc, "copy", delivery.copy.value())?;
    put_whole(&mut map, alloc, "message", delivery.message.value())?;
    let properties = properties_value(alloc, &delivery.properties)?;
    serde_json::put(&mut map, alloc, "properties", properties)?;
    put_destination(&mut map, alloc, &delivery.dest)?;
    put_payload(&mut map, alloc, delivery.payload.as_slice())?;
    Ok(Value::Object(map))
}

/// Adds where a message was sent to.
pub fn put_destination(map: &mut Members, alloc: Global, dest: &Dest) -> Result<(), AllocError>
    ensures { OnOk result (members_view map.new.entries ≡ with_destination dest.now (members_view map.old.entries)) }
{
    match dest {
        Dest::Topic(topic) => put_text(map, alloc, "topic", topic.as_str()),
        Dest::Queue(name) => put_text(map, alloc, "queue", name.as_str()),
    }
}

/// The copies that are handed out, in their order.
pub fn deliveries_value(alloc: Global, deliveries: &[Delivery]) -> Result<Value, AllocError>
    ensures { IfOk result (λ v. view v ≡ deliveries_data deliveries.now) }
{
    let mut values = Vec::new(alloc);
    for delivery in deliveries {
        values.push(delivery_value(alloc, delivery)?)?;
    }
    Ok(Value::Array(values))
}
