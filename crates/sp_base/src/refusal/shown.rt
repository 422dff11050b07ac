//! The values that a refusal shows, under their names.
ghost use Rattle.std.specs.Prelude.{◌≡◌, ◌≤◌, IfOk, length};
ghost use Rattle.sp_base.specs.Shown.{shown_as};
ghost use Rattle.sp_base.specs.Refusal.{shown_of};

use crate::items::Items;
use crate::refusal::{Kind, Permission, Refusal};
use crate::text::Str;
use std::alloc::{AllocError, Global};
use std::marker::Model;

/// A value that a refusal shows, by its kind.
#[derive(Debug, Drop)]
pub enum ShownValue {
    /// An offset, a count, a number that was drawn, or a size in bytes.
    Number(u64),
    /// The name of an endpoint or of an attribute.
    Text(Str),
    Permission(Permission),
    /// A kind of numbers.
    Kind(Kind),
}

/// A value that a refusal shows, under its name.
#[derive(Debug, Drop)]
pub struct Shown {
    name: &'static str,
    value: ShownValue,
}

impl Model for Shown {
    ghost use Rattle.sp_base.specs.Shown.{ShownAs};

    ghost Value = { ShownAs };

    ghost view = { λ s. record { name = s.name.now; value = s.value } };
}

impl Shown {
    /// The value's name.
    pub fn name(&self) -> &'static str
        ensures { result.now ≡ self.now.name }
    {
        self.name
    }

    /// The value.
    pub fn value(&self) -> &ShownValue
        ensures { result.now ≡ self.now.value }
    {
        &self.value
    }
}

impl Refusal {
    /// The values that are shown, in rising order of their names.
    pub fn shown(&self, alloc: Global) -> Result<Items<Shown>, AllocError>
        ensures { IfOk result (λ values. values ≡ shown_of self.now) }
    {
        match self {
            Refusal::DirectMode
            | Refusal::SubscriptionExists
            | Refusal::UnknownSubscription
            | Refusal::NoReplay
            | Refusal::LogDisabled => Ok(Items::none(alloc)),
            Refusal::BadRequest { at }
            | Refusal::BadTopic { at }
            | Refusal::BadSubscription { at }
            | Refusal::BadSelector { at } => Items::one(alloc, number("at", *at)),
            Refusal::BadAttribute { name }
            | Refusal::UnknownEndpoint { name }
            | Refusal::EndpointExists { name }
            | Refusal::IngressDisabled { name }
            | Refusal::EgressDisabled { name } => Items::one(alloc, text(alloc, "name", name)?),
            Refusal::EndpointLimit { max } | Refusal::SubscriptionLimit { max } => {
                Items::one(alloc, number("max", *max))
            }
            Refusal::UnknownFlow { flow } => Items::one(alloc, number("flow", *flow)),
            Refusal::NotHeld { copy } => Items::one(alloc, number("copy", *copy)),
            Refusal::ReplayActive { replay } => Items::one(alloc, number("replay", *replay)),
            Refusal::IdsSpent { kind } => Items::one(alloc, kind_of_number("kind", *kind)),
            _ => Ok(Items::from_vec(self.several(alloc)?)),
        }
    }

    // The values of a refusal that shows more than one.
    fn several(&self, alloc: Global) -> Result<Vec<Shown>, AllocError>
        requires { 2 ≤ length (shown_of self.now) }
        ensures { IfOk result (λ values. values.items ≡ shown_of self.now) }
    {
        match self {
            Refusal::NoAccess { need, has } => {
                Ok(vec![in alloc; permission("has", *has), permission("need", *need)]?)
            }
            Refusal::InUse { flows, copies } => {
                Ok(vec![in alloc; number("copies", *copies), number("flows", *flows)]?)
            }
            Refusal::MessageTooLarge { size, max } => {
                Ok(vec![in alloc; number("max", *max), number("size", *size)]?)
            }
            Refusal::QuotaExceeded {
                name,
                used,
                size,
                max,
            } => {
                let name = text(alloc, "name", name)?;
                Ok(vec![in alloc;
                    number("max", *max),
                    name,
                    number("size", *size),
                    number("used", *used),
                ]?)
            }
            Refusal::VpnQuotaExceeded { used, size, max } => {
                Ok(vec![in alloc;
                    number("max", *max),
                    number("size", *size),
                    number("used", *used),
                ]?)
            }
            Refusal::BindLimit { bound, max } => {
                Ok(vec![in alloc; number("bound", *bound), number("max", *max)]?)
            }
            Refusal::NotInLog { first, last } => {
                Ok(vec![in alloc; number("first", *first), number("last", *last)]?)
            }
            _ => unreachable!(),
        }
    }
}

fn number(name: &'static str, value: u64) -> Shown
    ensures { result ≡ shown_as name.now (ShownValue.Number value) }
{
    shown_as(name, ShownValue::Number(value))
}

fn permission(name: &'static str, value: Permission) -> Shown
    ensures { result ≡ shown_as name.now (ShownValue.Permission value) }
{
    shown_as(name, ShownValue::Permission(value))
}

fn kind_of_number(name: &'static str, value: Kind) -> Shown
    ensures { result ≡ shown_as name.now (ShownValue.Kind value) }
{
    shown_as(name, ShownValue::Kind(value))
}

fn text(alloc: Global, name: &'static str, value: &Str) -> Result<Shown, AllocError>
    ensures { IfOk result (λ s. s ≡ shown_as name.now (ShownValue.Text value.now)) }
{
    Ok(shown_as(name, ShownValue::Text(value.copy(alloc)?)))
}

fn shown_as(name: &'static str, value: ShownValue) -> Shown
    ensures { result ≡ shown_as name.now value }
{
    Shown { name, value }
}
