// One call's turn, step by step: draw, look, take, put and finish.
ghost use Rattle.std.specs.Prelude.{◌≡◌, ◌<◌, ◌^◌, [], ◌∷◌, false, true, Some, None};
ghost use Rattle.sp_hall.specs.Rule.{with_ticket, after_call, TakesTurn};
ghost use Rattle.sp_hall.specs.Seats.{IsHallTable, Waits};
ghost use Rattle.sp_hall.specs.States.{IsCounted, Leads};

use crate::object::Object;
use crate::seat::{Drawing, Finishing, Looking, SeatOf, SharedOf};
use std::sync::Wait;
use std::thread;

/// A call that draws this ticket or a later one waits for ever, so that no word wraps.
const TICKETS: u64 = 1 << 62;

/// Draws a ticket.
pub fn draw<O: Object>(shared: &SharedOf<O>, seat: &mut SeatOf<O>) -> u64
    requires hall { (seat.old.table_id ≡ shared.now.table_id) × IsHallTable shared.now.table_id }
    requires idle { (seat.old.me.0.drawn ≡ false) × (0 < seat.old.me.0.parts) }
    ensures hall { seat.new.table_id ≡ seat.old.table_id }
    ensures ticket { seat.new.me ≡ (with_ticket seat.old.me.0 result, seat.old.me.1) }
{
    shared.fetch_add::<Drawing<O>>(seat, 0, 1)
}

/// Looks whether its turn has come.
fn look<O: Object>(shared: &SharedOf<O>, seat: &mut SeatOf<O>, ticket: u64) -> bool
    requires hall { (seat.old.table_id ≡ shared.now.table_id) × IsHallTable shared.now.table_id }
    requires waits { Waits seat.old.me ticket }
    ensures hall { seat.new.table_id ≡ seat.old.table_id }
    ensures turn { result ≡ true → TakesTurn O.shows seat.old.me seat.new.me }
    ensures not_yet { result ≡ false → seat.new.me ≡ seat.old.me }
{
    shared.load::<Looking<O>>(seat, 1) == ticket
}

/// Waits until its turn has come, which may be never.
pub fn wait_turn<O: Object, R: Wait>(
    rt: &R,
    shared: &SharedOf<O>,
    seat: &mut SeatOf<O>,
    ticket: u64,
)
    requires hall { (seat.old.table_id ≡ shared.now.table_id) × IsHallTable shared.now.table_id }
    requires waits { Waits seat.old.me ticket }
    ensures hall { seat.new.table_id ≡ seat.old.table_id }
    ensures turn { TakesTurn O.shows seat.old.me seat.new.me }
    ensures early { ticket < 2 ^ 62 }
{
    for _ in rt.forever() {
        if ticket < TICKETS && look(shared, seat, ticket) {
            return;
        }
        thread::yield_now();
    }
    unreachable!()
}

/// Takes the object out of the slot.
pub fn take<O: Object>(shared: &SharedOf<O>, seat: &mut SeatOf<O>) -> O
    requires hall { seat.old.table_id ≡ shared.now.table_id }
    requires slot { (o : O) × (seat.old.me.1 ≡ (0, Some o) ∷ []) }
    ensures hall { seat.new.table_id ≡ seat.old.table_id }
    ensures object { seat.old.me.1 ≡ (0, Some result) ∷ [] }
    ensures left { seat.new.me ≡ (seat.old.me.0, (0, None) ∷ []) }
{
    shared.exchange(seat, 0, None).unwrap()
}

/// Puts the object back, and gives the turn on.
pub fn finish<O: Object>(shared: &SharedOf<O>, seat: &mut SeatOf<O>, object: O)
    requires hall { (seat.old.table_id ≡ shared.now.table_id) × IsHallTable shared.now.table_id }
    requires turn { (seat.old.me.0.drawn ≡ true) × (seat.old.me.0.turn ≡ true) × (0 < seat.old.me.0.parts) × (seat.old.me.0.ticket < 2 ^ 62) }
    requires slot { seat.old.me.1 ≡ (0, None) ∷ [] }
    requires grown { Leads seat.old.me.0.base (O.shows object) }
    requires counted { IsCounted (O.shows object) }
    requires small { (O.shows object).count < 2 ^ 64 }
    ensures hall { seat.new.table_id ≡ seat.old.table_id }
    ensures view { seat.new.me ≡ (after_call seat.old.me.0 (O.shows object), []) }
{
    let empty = shared.exchange(seat, 0, Some(object));
    let None = empty else { unreachable!() };
    shared.fetch_add::<Finishing<O>>(seat, 1, 1);
}
