ghost use Rattle.std.specs.Prelude.{◌≡◌};
ghost use Rattle.sp_hall.specs.Seats.{known_of, IsAtRest};
ghost use Rattle.sp_hall.specs.States.{IsCounted, Leads};

use crate::object::Object;
use crate::seat::SeatOf;
use std::marker::Model;

/// The right to call the object of one hall, and what its holder knows of that object.
///
/// A pass has seen the object in some state: its count, its faults and its list as far as it went, which is the front of
/// the pass. It has made as much as its own calls raised the count. All passes of a hall together have 2^62 parts.
#[derive(Drop)]
pub struct Pass<O: Object> {
    pub(crate) seat: SeatOf<O>,
    pub(crate) seen: u64,
    pub(crate) made: u64,
}

impl<O: Object> Model for Pass<O> {
    ghost use Rattle.sp_hall.specs.Passes.{Known};

    ghost Value = { Known O.Entry O.Start };

    ghost use Rattle.sp_hall.specs.Seats.{known_of, IsAtRest};

    ghost view = { λ p. known_of p.seat.table_id p.seat.me.0 };

    ghost invariant = { λ p. IsAtRest p.seat.me p.seen p.made };
}

impl<O: Object> Pass<O> {
    /// The pass of a seat that has made nothing.
    pub(crate) fn fresh(seat: SeatOf<O>, seen: u64) -> Pass<O>
        requires { IsAtRest seat.me seen 0 }
        ensures { result ≡ known_of seat.table_id seat.me.0 }
    {
        Pass {
            seat,
            seen,
            made: 0,
        }
    }

    /// The count that was seen last.
    pub fn seen(&self) -> u64
        ensures count { result ≡ self.now.seen.count }
        ensures counted { IsCounted self.now.seen }
        ensures opened { Leads self.now.hall.opened self.now.seen }
    {
        self.seen
    }

    /// By how much the pass's own calls raised the count.
    pub fn made(&self) -> u64
        ensures { result ≡ self.now.made }
    {
        self.made
    }
}
