// The properties of messages in JSON, both ways.
ghost use Rattle.std.specs.Prelude.{◌≡◌, IfOk, OnOk, option_map};
ghost use Rattle.serde_json.specs.Data.{object, put};
ghost use Rattle.serde_json.specs.View.{view, members_view};
ghost use Rattle.sp_json.specs.Properties.{fixed_in, properties_at, properties_from, properties_members, rows_from, value_data, value_from};

use crate::fields::text_at;
use crate::members::Members;
use crate::names::FieldNames;
use serde_json::{Map, Value, json};
use sp_base::text::Str;
use sp_message::property::{Properties, Property};
use sp_message::value::{Fixed, Value as PropertyValue};
use std::alloc::{AllocError, Global};

/// The properties that a field gives, none where it is absent. None where it is no object of them:
/// each has a name and a value that keep their rules, and there are at most 64.
pub fn properties_at(
    alloc: Global,
    value: &Value,
    key: &str,
) -> Result<Option<Properties>, AllocError>
    ensures { IfOk result (λ r. r ≡ properties_at key.now (view value.now)) }
{
    match value.get(key) {
        Some(given) => properties_from(alloc, given),
        None => Ok(Some(Properties::none(alloc))),
    }
}

fn properties_from(alloc: Global, value: &Value) -> Result<Option<Properties>, AllocError>
    ensures { IfOk result (λ r. r ≡ properties_from (view value.now)) }
{
    let Some(map) = value.as_object() else {
        return Ok(None);
    };
    match rows_from(alloc, map)? {
        Some(rows) => Ok(Properties::from_vec(rows)),
        None => Ok(None),
    }
}

// The properties that the members are, in their order. None where one has a value that is none.
fn rows_from(alloc: Global, map: &Members) -> Result<Option<Vec<Property>>, AllocError>
    ensures { IfOk result (λ r. option_map (λ rows. rows.items) r ≡ rows_from (members_view map.now.entries)) }
{
    let mut rows = Vec::new(alloc);
    for (name, value) in map {
        let Some(value) = value_from(alloc, value)? else {
            return Ok(None);
        };
        let name = Str::copy_of(alloc, name.as_str())?;
        rows.push(Property { name, value })?;
    }
    Ok(Some(rows))
}

// The value that a JSON value is. None for null, a list, a number that is no integer of 64 bits, and
// an object that isn't the text of a fixed number alone.
fn value_from(alloc: Global, value: &Value) -> Result<Option<PropertyValue>, AllocError>
    ensures { IfOk result (λ r. r ≡ value_from (view value.now)) }
{
    match value {
        Value::Null | Value::Array(_) => Ok(None),
        Value::Bool(truth) => Ok(Some(PropertyValue::Bool(*truth))),
        Value::Number(number) => Ok(number.as_i64().map(PropertyValue::Whole)),
        Value::String(text) => Ok(Some(PropertyValue::Text(Str::copy_of(alloc, text.as_str())?))),
        Value::Object(_) => Ok(fixed_in(value).map(PropertyValue::Fixed)),
    }
}

// The fixed number whose text stands in an object.
fn fixed_in(value: &Value) -> Option<Fixed>
    ensures { result ≡ fixed_in (view value.now) }
{
    let fields = FieldNames::new(&["fixed"], &[], &[]);
    if fields.has_another(value) {
        return None;
    }
    let text = text_at(value, "fixed")?;
    Fixed::read(text.as_bytes())
}

/// Properties under their names.
pub fn properties_value(alloc: Global, properties: &Properties) -> Result<Value, AllocError>
    ensures { IfOk result (λ v. view v ≡ object (properties_members properties.now)) }
{
    let mut map = Map::new(alloc);
    let rows = properties.as_slice();
    // From the last to the first: each name comes before those that are there.
    let mut at = rows.len();
    while at > 0 {
        at -= 1;
        put_property(&mut map, alloc, &rows[at])?;
    }
    Ok(Value::Object(map))
}

fn put_property(map: &mut Members, alloc: Global, property: &Property) -> Result<(), AllocError>
    ensures { OnOk result (members_view map.new.entries ≡ put property.now.name (value_data property.now.value) (members_view map.old.entries)) }
{
    let value = value_of(alloc, &property.value)?;
    serde_json::put(map, alloc, property.name.as_str(), value)
}

fn value_of(alloc: Global, value: &PropertyValue) -> Result<Value, AllocError>
    ensures { IfOk result (λ v. view v ≡ value_data value.now) }
{
    match value {
        PropertyValue::Whole(number) => Ok(Value::from(*number)),
        PropertyValue::Fixed(fixed) => fixed_value(alloc, *fixed),
        PropertyValue::Text(text) => Ok(Value::try_from_str(alloc, text.as_str())?),
        PropertyValue::Bool(truth) => Ok(Value::Bool(*truth)),
    }
}

fn fixed_value(alloc: Global, fixed: Fixed) -> Result<Value, AllocError>
    ensures { IfOk result (λ v. view v ≡ value_data (PropertyValue.Fixed fixed)) }
{
    let text = fixed.text(alloc)?;
    json!(in alloc; {"fixed": text.as_str()})
}
