ghost use Rattle.std.specs.Prelude.{◌≡◌, ◌≤◌, max, SomeIff};

use std::marker::Model;

/// The last moment, 2^53 - 1: the greatest whole number that every JSON reader keeps exactly.
pub const LAST_MOMENT: u64 = 9_007_199_254_740_991;

/// A number of milliseconds, from 0 to 9,007,199,254,740,991. A tape's moments count from
/// wherever its writer likes; the server's count from 1970.
#[derive(Clone, Copy, Debug, PartialEq, Eq, PartialOrd, Ord)]
pub struct Moment(u64);

impl Model for Moment {
    ghost use Rattle.std.specs.Prelude.{ℕ, ◌≤◌};

    ghost Value = { ℕ };

    ghost view = { λ m. m.0 };

    ghost invariant = { λ m. m.0 ≤ 9007199254740991 };

    ghost inverse = { λ n. record { 0 = n } };
}

impl Moment {
    /// The first moment.
    pub const START: Moment = Moment(0);

    /// None exactly where the value is above the last moment.
    pub fn new(value: u64) -> Option<Moment>
        ensures { SomeIff result (value ≤ LAST_MOMENT) value }
    {
        if value <= LAST_MOMENT {
            Some(Moment(value))
        } else {
            None
        }
    }

    pub fn value(self) -> u64
        ensures value { result ≡ self }
        ensures range { self ≤ 9007199254740991 }
    {
        self.0
    }

    /// The later of two moments.
    pub fn max(self, other: Moment) -> Moment
        ensures { result ≡ max self other }
    {
        if self.0 < other.0 { other } else { self }
    }
}
