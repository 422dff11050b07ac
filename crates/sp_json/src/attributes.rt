// The attributes that a request gives values to.
ghost use Rattle.std.specs.Prelude.{◌≡◌, ◌++◌, [], IfOk, OnOk, Some, is_some, option_map, option_and_then};
ghost use Rattle.std.specs.List.{filter_map};
ghost use Rattle.serde_json.specs.Find.{as_str, get};
ghost use Rattle.serde_json.specs.View.{view, members_view};
ghost use Rattle.sp_config.specs.Choices.{word_place};
ghost use Rattle.sp_config.specs.Names.{name_of};
ghost use Rattle.sp_json.specs.Attributes.{name_or_empty, value_of, setting_from, setting_named, bad_key, settings_of, settings_from, settings_at, optional_settings_at};
ghost use Rattle.sp_config.specs.Ranges.{range_of};
ghost use Rattle.sp_json.specs.Fields.{name_from};
ghost use Rattle.sp_base.specs.Declined.{Obeys};

use crate::fields::name_from;
use crate::members::Members;
use crate::parts::malformed;
use serde_json::Value;
use sp_base::choice::{Choice, named};
use sp_base::declined::Declined;
use sp_base::items::push_some;
use sp_base::name::Name;
use sp_base::refusal::Refusal;
use sp_base::text::Str;
use sp_config::attr::Attr;
use sp_config::kind::EndpointKind;
use sp_config::range::Range;
use sp_config::setting::Setting;
use sp_config::settings::Settings;
use sp_config::value::AttrValue;
use std::alloc::{AllocError, Global};

/// The settings that a field gives for an endpoint of the kind, none where it is absent.
pub fn optional_settings_at(
    alloc: Global,
    value: &Value,
    key: &str,
    kind: EndpointKind,
) -> Result<Settings, Declined<Refusal>>
    ensures { Obeys (optional_settings_at kind key.now (view value.now)) result }
{
    match value.get(key) {
        Some(attributes) => settings_from(alloc, attributes, kind),
        None => Ok(Settings::none(alloc)),
    }
}

/// The settings that a field gives for an endpoint of the kind.
pub fn settings_at(
    alloc: Global,
    value: &Value,
    key: &str,
    kind: EndpointKind,
) -> Result<Settings, Declined<Refusal>>
    ensures { Obeys (settings_at kind key.now (view value.now)) result }
{
    match value.get(key) {
        Some(attributes) => settings_from(alloc, attributes, kind),
        None => Err(malformed()),
    }
}

fn settings_from(
    alloc: Global,
    attributes: &Value,
    kind: EndpointKind,
) -> Result<Settings, Declined<Refusal>>
    ensures { Obeys (settings_from kind (view attributes.now)) result }
{
    let Some(map) = attributes.as_object() else {
        return Err(malformed());
    };
    if let Some(name) = bad_key(alloc, map, kind)? {
        return Err(Declined::Refused(Refusal::BadAttribute { name }));
    }
    Ok(settings_of(alloc, attributes, kind)?)
}

// The first key that is no attribute, or whose value an endpoint of the kind may not have.
fn bad_key(alloc: Global, map: &Members, kind: EndpointKind) -> Result<Option<Str>, AllocError>
    ensures { IfOk result (λ r. r ≡ bad_key kind (members_view map.now.entries)) }
{
    for (key, value) in map {
        if !is_good(alloc, key.as_str(), value, kind)? {
            return Ok(Some(Str::copy_of(alloc, key.as_str())?));
        }
    }
    Ok(None)
}

fn is_good(alloc: Global, key: &str, value: &Value, kind: EndpointKind) -> Result<bool, AllocError>
    ensures { IfOk result (λ b. b ≡ is_some (setting_named kind key.now (view value.now))) }
{
    match named(key) {
        Some(attr) => Ok(setting_from(alloc, attr, value, kind)?.is_some()),
        None => Ok(false),
    }
}

// The settings of the attributes that are members, in the order of names.
#[tactic(auto, using(crate::proofs::AttributeLemmas::given_are_settings))]
fn settings_of(
    alloc: Global,
    attributes: &Value,
    kind: EndpointKind,
) -> Result<Settings, AllocError>
    ensures { IfOk result (λ s. s ≡ settings_of kind (view attributes.now)) }
{
    let rows = settings_among(alloc, attributes, kind, Attr::all())?;
    match Settings::from_vec(rows) {
        Some(settings) => Ok(settings),
        None => unreachable!(),
    }
}

fn settings_among(
    alloc: Global,
    attributes: &Value,
    kind: EndpointKind,
    attrs: &[Attr],
) -> Result<Vec<Setting>, AllocError>
    ensures { IfOk result (λ v. v.items ≡ filter_map (λ a. option_and_then (setting_from kind a) (get (name_of a) (view attributes.now))) attrs.now) }
{
    let mut rows = Vec::new(alloc);
    for attr in attrs {
        let setting = setting_in(alloc, *attr, attributes, kind)?;
        push_some(&mut rows, setting)?;
    }
    Ok(rows)
}

fn setting_in(
    alloc: Global,
    attr: Attr,
    attributes: &Value,
    kind: EndpointKind,
) -> Result<Option<Setting>, AllocError>
    ensures { IfOk result (λ r. r ≡ option_and_then (setting_from kind attr) (get (name_of attr) (view attributes.now))) }
{
    match attributes.get(attr.name()) {
        Some(value) => setting_from(alloc, attr, value, kind),
        None => Ok(None),
    }
}

// The setting that a JSON value gives. None where an endpoint of the kind may not have it.
fn setting_from(
    alloc: Global,
    attr: Attr,
    value: &Value,
    kind: EndpointKind,
) -> Result<Option<Setting>, AllocError>
    ensures { IfOk result (λ r. r ≡ setting_from kind attr (view value.now)) }
{
    let Some(value) = value_of(alloc, attr, value)? else {
        return Ok(None);
    };
    if !kind.allows(attr, &value) {
        return Ok(None);
    }
    Ok(Some(Setting { attr, value }))
}

// The value of the attribute's kind that a JSON value is.
fn value_of(alloc: Global, attr: Attr, value: &Value) -> Result<Option<AttrValue>, AllocError>
    ensures { IfOk result (λ r. r ≡ value_of attr (range_of attr) (view value.now)) }
{
    match attr.range() {
        Range::Between { .. } => Ok(value.as_u64().map(AttrValue::Whole)),
        Range::TrueOrFalse => Ok(value.as_bool().map(AttrValue::Flag)),
        Range::OneOf { .. } => Ok(place_from(attr, value).map(AttrValue::Word)),
        Range::SomeName => text_from(alloc, value),
        Range::NameOrEmpty => optional_text_from(alloc, value),
    }
}

fn place_from(attr: Attr, value: &Value) -> Option<u8>
    ensures { result ≡ option_and_then (word_place attr) (as_str (view value.now)) }
{
    let word = value.as_str()?;
    attr.word_place(word)
}

fn text_from(alloc: Global, value: &Value) -> Result<Option<AttrValue>, AllocError>
    ensures { IfOk result (λ r. r ≡ option_map (λ name. AttrValue.Text (Some name)) (option_and_then name_from (as_str (view value.now)))) }
{
    let Some(text) = value.as_str() else {
        return Ok(None);
    };
    match name_from(alloc, text)? {
        Some(name) => Ok(Some(AttrValue::Text(Some(name)))),
        None => Ok(None),
    }
}

fn optional_text_from(alloc: Global, value: &Value) -> Result<Option<AttrValue>, AllocError>
    ensures { IfOk result (λ r. r ≡ option_map AttrValue.Text (option_and_then name_or_empty (as_str (view value.now)))) }
{
    let Some(text) = value.as_str() else {
        return Ok(None);
    };
    if text.is_empty() {
        return Ok(Some(AttrValue::Text(None)));
    }
    text_from(alloc, value)
}
