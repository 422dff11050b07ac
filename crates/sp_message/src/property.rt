ghost use Rattle.std.specs.Prelude.{◌≡◌, ◌≤◌, true, [], IfOk, SomeIff};
ghost use Rattle.std.specs.Option.{option_copied};
ghost use Rattle.std.specs.List.{list_all};
ghost use Rattle.sp_message.specs.Property.{are_properties, is_name_byte, is_property, names_rise, comes_before, properties_size, property_size, value_under};

use crate::value::Value;
use sp_base::text::Str;
use std::alloc::{AllocError, Global};
use std::marker::Model;

/// The most properties that a message has.
pub const MOST_PROPERTIES: usize = 64;

/// The most bytes that a property's name has.
pub const LONGEST_PROPERTY_NAME: usize = 64;

/// A named value of a message.
#[derive(Debug, Drop)]
pub struct Property {
    /// 1 to 64 letters, digits and `_ $ . -`, all ASCII.
    pub name: Str,
    pub value: Value,
}

impl Property {
    /// What it counts of a message's size: 16, its name's bytes and its text value's.
    pub fn size(&self) -> u64
        requires { is_property self.now ≡ true }
        ensures value { result ≡ property_size self.now }
        ensures bound { result ≤ 8272 }
    {
        16 + self.name.len() as u64 + self.value.text_len() as u64
    }

    /// A second property that equals this one.
    pub fn copy(&self, alloc: Global) -> Result<Property, AllocError>
        ensures { IfOk result (λ p. p ≡ self.now) }
    {
        Ok(Property {
            name: self.name.copy(alloc)?,
            value: self.value.copy(alloc)?,
        })
    }
}

/// The properties of a message, which contracts see as a list: at most 64, each with a name and a
/// value that keep their rules, in strictly rising byte order of the names.
#[derive(Debug, Drop)]
pub struct Properties {
    rows: Vec<Property>,
}

impl Model for Properties {
    ghost use Rattle.std.specs.Prelude.{◌≡◌, true, List};
    ghost use Rattle.sp_message.specs.declared.property.Property.{Property};
    ghost use Rattle.sp_message.specs.Property.{are_properties};

    ghost Value = { List Property };

    ghost view = { λ p. p.rows.items };

    ghost invariant = { λ p. are_properties p.rows.items ≡ true };
}

impl Properties {
    /// No properties.
    pub fn none(alloc: Global) -> Properties
        ensures { result ≡ [] }
    {
        Properties {
            rows: Vec::new(alloc),
        }
    }

    /// The properties of a vector. None exactly where they break the rule above.
    pub fn from_vec(rows: Vec<Property>) -> Option<Properties>
        ensures { SomeIff result (are_properties rows.items ≡ true) rows.items }
    {
        if keep_the_rule(rows.as_slice()) {
            Some(Properties { rows })
        } else {
            None
        }
    }

    /// The properties in rising order of their names.
    pub fn as_slice(&self) -> &[Property]
        ensures value { result.now ≡ self.now }
        ensures form { are_properties self.now ≡ true }
    {
        self.rows.as_slice()
    }

    /// The value of the property of this name, if there is one. It takes no memory.
    pub fn find(&self, name: &[u8]) -> Option<&Value>
        ensures { option_copied result ≡ value_under name.now self.now }
    {
        value_under(self.rows.as_slice(), name)
    }

    /// What they count of a message's size.
    pub fn size(&self) -> u64
        ensures value { result ≡ properties_size self.now }
        ensures bound { result ≤ 529408 }
    {
        size_of_all(self.rows.as_slice())
    }

    /// Second properties that equal these.
    pub fn copy(&self, alloc: Global) -> Result<Properties, AllocError>
        ensures { IfOk result (λ ps. ps ≡ self.now) }
    {
        Ok(Properties {
            rows: copy_all(alloc, self.rows.as_slice())?,
        })
    }
}

fn keep_the_rule(rows: &[Property]) -> bool
    ensures { result ≡ are_properties rows.now }
{
    if rows.len() > MOST_PROPERTIES {
        return false;
    }
    all_keep_theirs(rows) && rise(rows)
}

fn all_keep_theirs(rows: &[Property]) -> bool
    ensures { result ≡ list_all is_property rows.now }
{
    rows.iter().all(|p| is_property(p))
}

/// Whether the name and the value keep their rules.
pub(crate) fn is_property(property: &Property) -> bool
    ensures { result ≡ is_property property.now }
{
    if property.name.len() == 0 || property.name.len() > LONGEST_PROPERTY_NAME {
        return false;
    }
    if !property.value.is_in_range() {
        return false;
    }
    has_name_bytes(property.name.as_bytes())
}

fn has_name_bytes(name: &[u8]) -> bool
    ensures { result ≡ list_all is_name_byte name.now }
{
    name.iter().all(|b| is_name_byte(*b))
}

fn is_name_byte(b: u8) -> bool
    ensures { result ≡ is_name_byte b }
{
    b.is_ascii_alphanumeric() || b == b'_' || b == b'$' || b == b'.' || b == b'-'
}

fn comes_before(first: &Property, second: &Property) -> bool
    ensures { result ≡ comes_before first.now second.now }
{
    first.name.as_bytes().cmp(second.name.as_bytes()).is_lt()
}

fn rise(rows: &[Property]) -> bool
    ensures { result ≡ names_rise rows.now }
{
    for i in 1..rows.len() {
        if !comes_before(&rows[i - 1], &rows[i]) {
            return false;
        }
    }
    true
}

fn value_under<'a>(rows: &'a [Property], name: &[u8]) -> Option<&'a Value>
    ensures { option_copied result ≡ value_under name.now rows.now }
{
    rows.iter()
        .find(|p| p.name.as_bytes() == name)
        .map(|p| &p.value)
}

fn size_of_all(rows: &[Property]) -> u64
    requires { are_properties rows.now ≡ true }
    ensures value { result ≡ properties_size rows.now }
    ensures bound { result ≤ 529408 }
{
    let mut total = 0;
    for property in rows {
        total += property.size();
    }
    total
}

fn copy_all(alloc: Global, rows: &[Property]) -> Result<Vec<Property>, AllocError>
    ensures { IfOk result (λ v. v.items ≡ rows.now) }
{
    let mut copies = Vec::new(alloc);
    for property in rows {
        copies.push(property.copy(alloc)?)?;
    }
    Ok(copies)
}
