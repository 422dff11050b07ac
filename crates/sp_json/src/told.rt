// What replies tell of copies, in JSON.
ghost use Rattle.std.specs.Prelude.{◌≡◌, IfOk, OnOk};
ghost use Rattle.serde_json.specs.View.{view, members_view};
ghost use Rattle.sp_json.specs.Told.{told_data, copies_data, fate_data, closed_data, causes_data, with_details};

use crate::fates::{cause_word, put_fate};
use crate::members::{Members, put_text, put_whole};
use serde_json::{Map, Value};
use sp_copies::closed::CauseCount;
use sp_event::answer::{CopyDetails, CopyFate, PublishedCopy};
use std::alloc::{AllocError, Global};

fn told_value(alloc: Global, told: &PublishedCopy) -> Result<Value, AllocError>
    ensures { IfOk result (λ v. view v ≡ told_data told.now) }
{
    let mut map = Map::new(alloc);
    put_whole(&mut map, alloc, "copy", told.copy.value())?;
    put_text(&mut map, alloc, "endpoint", told.endpoint.as_str())?;
    put_fate(&mut map, alloc, told.fate)?;
    Ok(Value::Object(map))
}

/// The copies that a publish made.
pub fn copies_value(alloc: Global, copies: &[PublishedCopy]) -> Result<Value, AllocError>
    ensures { IfOk result (λ v. view v ≡ copies_data copies.now) }
{
    let mut values = Vec::new(alloc);
    for told in copies {
        values.push(told_value(alloc, told)?)?;
    }
    Ok(Value::Array(values))
}

fn fate_value(alloc: Global, copy: &CopyFate) -> Result<Value, AllocError>
    ensures { IfOk result (λ v. view v ≡ fate_data copy.now) }
{
    let mut map = Map::new(alloc);
    put_whole(&mut map, alloc, "copy", copy.copy.value())?;
    put_fate(&mut map, alloc, copy.fate)?;
    Ok(Value::Object(map))
}

/// Copies and their fates.
pub fn closed_value(alloc: Global, closed: &[CopyFate]) -> Result<Value, AllocError>
    ensures { IfOk result (λ v. view v ≡ closed_data closed.now) }
{
    let mut values = Vec::new(alloc);
    for copy in closed {
        values.push(fate_value(alloc, copy)?)?;
    }
    Ok(Value::Array(values))
}

/// How many copies each cause discarded.
pub fn causes_value(alloc: Global, counts: &[CauseCount]) -> Result<Value, AllocError>
    ensures { IfOk result (λ v. view v ≡ causes_data counts.now) }
{
    let mut map = Map::new(alloc);
    for counted in counts {
        let word = cause_word(counted.cause);
        put_whole(&mut map, alloc, word, counted.count)?;
    }
    Ok(Value::Object(map))
}

/// Adds the details of a copy, where they are told.
pub fn put_details(
    map: &mut Members,
    alloc: Global,
    details: &Option<CopyDetails>,
) -> Result<(), AllocError>
    ensures { OnOk result (members_view map.new.entries ≡ with_details details.now (members_view map.old.entries)) }
{
    let Some(details) = details else {
        return Ok(());
    };
    put_whole(map, alloc, "message", details.message.value())?;
    put_whole(map, alloc, "endpoint", details.endpoint.value())?;
    put_whole(map, alloc, "attempts", details.attempts)
}
