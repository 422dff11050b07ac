ghost use Rattle.std.specs.Prelude.{◌≡◌, ◌==◌, ◌||◌, not, map, length, string_bytes, bytes_eq};
ghost use Rattle.std.specs.BTreeMap.{keys};
ghost use Rattle.std.specs.List.{list_any, list_all};
ghost use Rattle.serde_json.specs.View.{view};
ghost use Rattle.sp_json.specs.Fields.{has_key};
ghost use Rattle.sp_json.specs.Names.{FieldsOf, has_field, has_required, another_field, texts};

use crate::fields::has_key;
use crate::members::Members;
use serde_json::Value;
use std::marker::Model;

/// Which fields an object may have, by their names.
#[derive(Drop)]
pub struct FieldNames {
    required: &'static [&'static str],
    one_of: &'static [&'static str],
    optional: &'static [&'static str],
}

impl Model for FieldNames {
    ghost use Rattle.sp_json.specs.Names.{FieldsOf, texts};

    ghost Value = { FieldsOf };

    ghost view = { λ f. record { required = texts f.required.now; one_of = texts f.one_of.now; optional = texts f.optional.now } };
}

impl FieldNames {
    /// The fields that have to be there, those of which one has to be there, and those that may be.
    pub fn new(
        required: &'static [&'static str],
        one_of: &'static [&'static str],
        optional: &'static [&'static str],
    ) -> FieldNames
        ensures required { result.required ≡ texts required.now }
        ensures one_of { result.one_of ≡ texts one_of.now }
        ensures optional { result.optional ≡ texts optional.now }
    {
        FieldNames {
            required,
            one_of,
            optional,
        }
    }

    /// Whether a field of this name may be there.
    pub fn has(&self, key: &str) -> bool
        ensures { result ≡ has_field self.now key.now }
    {
        is_among(self.required, key) || is_among(self.one_of, key) || is_among(self.optional, key)
    }

    /// Whether the fields that have to be there are there.
    pub fn has_required(&self, value: &Value) -> bool
        ensures { result ≡ has_required self.now (view value.now) }
    {
        has_all(value, self.required) && (self.one_of.is_empty() || has_any(value, self.one_of))
    }

    /// Whether there is a field that may not be there.
    pub fn has_another(&self, value: &Value) -> bool
        ensures { result ≡ another_field self.now (view value.now) }
    {
        match value.as_object() {
            Some(map) => self.another_key(map),
            None => false,
        }
    }

    fn another_key(&self, map: &Members) -> bool
        ensures { result ≡ list_any (λ key. not (has_field self.now (string_bytes key))) (keys map.now) }
    {
        map.keys().any(|key| !self.has(key.as_str()))
    }
}

fn is_among(names: &[&str], key: &str) -> bool
    ensures { result ≡ list_any (λ name. bytes_eq name key.now) (texts names.now) }
{
    any_is(names, key)
}

fn any_is(names: &[&str], key: &str) -> bool
    ensures { result ≡ list_any (λ name. bytes_eq name.now key.now) names.now }
{
    names.iter().any(|name| *name == key)
}

fn has_all(value: &Value, names: &[&str]) -> bool
    ensures { result ≡ list_all (λ name. has_key name (view value.now)) (texts names.now) }
{
    all_are_in(value, names)
}

fn all_are_in(value: &Value, names: &[&str]) -> bool
    ensures { result ≡ list_all (λ name. has_key name.now (view value.now)) names.now }
{
    names.iter().all(|name| has_key(value, name))
}

fn has_any(value: &Value, names: &[&str]) -> bool
    ensures { result ≡ list_any (λ name. has_key name (view value.now)) (texts names.now) }
{
    any_is_in(value, names)
}

fn any_is_in(value: &Value, names: &[&str]) -> bool
    ensures { result ≡ list_any (λ name. has_key name.now (view value.now)) names.now }
{
    names.iter().any(|name| has_key(value, name))
}
