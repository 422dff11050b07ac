ghost use Rattle.std.specs.Prelude.{◌≡◌, ◌≤◌, SomeIff};

use std::marker::{Model, PhantomData};

/// A number of a kind `K`, from `LEAST` to `MOST`. Types tell kinds apart; contracts see the number.
#[derive(Drop)]
#[derive_where(Clone, Copy, Debug, PartialEq, Eq, PartialOrd, Ord)]
pub struct Ranged<K, const LEAST: u64, const MOST: u64> {
    value: u64,
    kind: PhantomData<K>,
}

impl<K, const LEAST: u64, const MOST: u64> Model for Ranged<K, LEAST, MOST> {
    ghost use Rattle.std.specs.Prelude.{ℕ, ◌≤◌};

    ghost Value = { ℕ };

    ghost view = { λ n. n.value };

    ghost invariant = { λ n. (LEAST ≤ n.value) × (n.value ≤ MOST) };

    ghost inverse = { λ n. record { value = n; kind = record {} } };
}

impl<K, const LEAST: u64, const MOST: u64> Ranged<K, LEAST, MOST> {
    /// The number of this value. None exactly outside the range.
    pub fn new(value: u64) -> Option<Self>
        ensures { SomeIff result ((LEAST ≤ value) × (value ≤ MOST)) value }
    {
        if value < LEAST || value > MOST {
            return None;
        }
        Some(Ranged {
            value,
            kind: PhantomData,
        })
    }

    /// The number of a value that is known to be in the range.
    pub fn of(value: u64) -> Self
        requires least { LEAST ≤ value }
        requires most { value ≤ MOST }
        ensures { result ≡ value }
    {
        Ranged {
            value,
            kind: PhantomData,
        }
    }

    pub fn value(self) -> u64
        ensures value { result ≡ self }
        ensures least { LEAST ≤ self }
        ensures most { self ≤ MOST }
    {
        self.value
    }
}

/// The greatest number of anything that is numbered, 2^62.
pub const GREATEST_NUMBER: u64 = 4_611_686_018_427_387_904;

/// What a number counts.
#[derive(Clone, Copy, Debug, PartialEq, Eq)]
pub struct OfEndpoints;

/// What a number counts.
#[derive(Clone, Copy, Debug, PartialEq, Eq)]
pub struct OfMessages;

/// What a number counts.
#[derive(Clone, Copy, Debug, PartialEq, Eq)]
pub struct OfCopies;

/// What a number counts.
#[derive(Clone, Copy, Debug, PartialEq, Eq)]
pub struct OfFlows;

/// What a number counts.
#[derive(Clone, Copy, Debug, PartialEq, Eq)]
pub struct OfReplays;

/// What a number counts.
#[derive(Clone, Copy, Debug, PartialEq, Eq)]
pub struct OfUnits;

/// The number of an endpoint, drawn from 1 upwards; 0 is no endpoint's.
pub type EndpointNo = Ranged<OfEndpoints, 0, GREATEST_NUMBER>;

/// The number of a message, drawn from 1 upwards; 0 is no message's.
pub type MessageNo = Ranged<OfMessages, 0, GREATEST_NUMBER>;

/// The number of a copy, drawn from 1 upwards; 0 is no copy's.
pub type CopyNo = Ranged<OfCopies, 0, GREATEST_NUMBER>;

/// The number of a flow, drawn from 1 upwards; 0 is no flow's.
pub type FlowNo = Ranged<OfFlows, 0, GREATEST_NUMBER>;

/// The number of a replay, drawn from 1 upwards; 0 is no replay's.
pub type ReplayNo = Ranged<OfReplays, 0, GREATEST_NUMBER>;

/// The number of a unit, drawn from 1 upwards; 0 is no unit's.
pub type UnitNo = Ranged<OfUnits, 0, GREATEST_NUMBER>;
