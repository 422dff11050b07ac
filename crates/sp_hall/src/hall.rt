ghost use Rattle.std.specs.Prelude.{◌≡◌, ◌<◌, ◌≤◌, ◌^◌, ◌+◌, [], ◌∷◌, false, true, Some, None, All, sum_by, IfOk, IfErr, OnOk, OnErr};
ghost use Rattle.sp_hall.specs.Seats.{IsHallTable, IsLast};
ghost use Rattle.sp_hall.specs.Passes.{first_pass, new_pass, left_pass, met_pass, all_parts, HasTurn};
ghost use Rattle.sp_hall.specs.Rule.{opening_view};
ghost use Rattle.sp_hall.specs.States.{IsCounted, Leads};

use crate::object::Object;
use crate::pass::Pass;
use crate::seat::{Comparing, HallRule, Met, OnePart, SeatOf, ViewOf};
use crate::turns::{draw, finish, take, wait_turn};
use atomic_table::{Refused, Table};
use sp_base::failure::Memory;
use std::alloc::Global;
use std::marker::Model;
use std::snapshot::Snapshot;
use std::sync::Wait;

type TableOf<O> = Table<Option<O>, ViewOf<O>, Snapshot<O>, HallRule<O>, Global>;

/// One object, shared by turns among threads.
///
/// Each call and each change of a pass asks for passes of this hall. The hall keeps its allocator.
#[derive(Drop)]
pub struct Hall<O: Object> {
    table: TableOf<O>,
}

impl<O: Object> Model for Hall<O> {
    ghost use Rattle.sp_hall.specs.Halls.{HallId};

    ghost Value = { HallId O.Entry O.Start };

    ghost view = { λ h. record { table = h.table.shared.table_id; opened = O.shows h.table.shared.key.value } };

    ghost use Rattle.sp_hall.specs.Seats.{IsHallTable};

    ghost invariant = { λ h. IsHallTable h.table.shared.table_id };
}

impl<O: Object> Hall<O> {
    /// The hall of an object, and its first pass, which has all parts and has seen the object as it is. Without memory
    /// the object comes back.
    pub fn new(alloc: Global, object: O) -> Result<(Hall<O>, Pass<O>), (O, Memory)>
        ensures hall { IfOk result (λ r. r.0.opened ≡ O.shows object) }
        ensures pass { IfOk result (λ r. r.1 ≡ first_pass r.0) }
        ensures memory { IfErr result (λ e. e.0 ≡ object) }
    {
        let seen = object.count();
        match open_table(alloc, object) {
            Ok((table, seat)) => Ok((Hall { table }, Pass::fresh(seat, seen))),
            Err(object) => Err((object, Memory)),
        }
    }

    /// Waits for its turn, and gives the object's reply, in a state in which the object was no earlier than the pass had
    /// seen it. Then the pass has seen it as the call left it.
    ///
    /// The turn may never come. After 2^62 calls of the hall it doesn't. The call takes no memory but what `act` takes.
    pub fn call<R: Wait>(&self, rt: &R, pass: &mut Pass<O>, ask: O::Ask) -> O::Reply
        requires hall { pass.old.hall ≡ self.now }
        ensures hall { pass.new.hall ≡ pass.old.hall }
        ensures parts { pass.new.parts ≡ pass.old.parts }
        ensures later { Leads pass.old.seen pass.new.seen }
        ensures opened { Leads self.now.opened pass.new.seen }
        ensures counted { IsCounted pass.new.seen }
        ensures turn { (before after : O) × O.acts before ask after result × HasTurn (O.shows before) (O.shows after) pass.old pass.new }
    {
        let shared = &self.table.shared;
        let ticket = draw(shared, &mut pass.seat);
        wait_turn(rt, shared, &mut pass.seat, ticket);
        let mut object = take(shared, &mut pass.seat);
        let before = object.count();
        let reply = object.act(ask);
        let after = object.count();
        finish(shared, &mut pass.seat, object);
        pass.seen = after;
        pass.made += after - before;
        reply
    }

    /// A new pass with one of this pass's parts, which has to have two or more. It has seen as much, and has made nothing.
    /// Without memory nothing changes. Today a split takes none.
    pub fn split(&self, pass: &mut Pass<O>) -> Result<Pass<O>, Memory>
        requires hall { pass.old.hall ≡ self.now }
        requires parts { 2 ≤ pass.old.parts }
        ensures given { IfOk result (λ p. p ≡ new_pass pass.old) }
        ensures left { OnOk result (pass.new ≡ left_pass pass.old) }
        ensures memory { OnErr result (pass.new ≡ pass.old) }
    {
        let seat = self.table.shared.split_seat::<OnePart>(&mut pass.seat);
        Ok(Pass::fresh(seat, pass.seen))
    }

    /// Takes another pass into this one, which then has the parts of both, has seen what either has seen, and has made
    /// what both made. It takes no memory.
    pub fn meet(&self, pass: &mut Pass<O>, other: Pass<O>)
        requires hall { pass.old.hall ≡ self.now }
        requires other { other.hall ≡ self.now }
        ensures met { pass.new ≡ met_pass pass.old other }
        ensures later { Leads pass.old.seen pass.new.seen }
        ensures other { Leads other.seen pass.new.seen }
    {
        let Pass { seat, seen, made } = other;
        self.table.shared.join_seat::<Met>(&mut pass.seat, seat);
        self.table.shared.load::<Comparing>(&mut pass.seat, 0);
        pass.seen = pass.seen.max(seen);
        pass.made += made;
    }

    /// Ends the hall and gives the object back. The passes have to be all that are left: their parts make 2^62.
    /// Without memory the hall and the passes come back. Today a close takes none.
    pub fn close(self, mut passes: Vec<Pass<O>>) -> Result<O, (Hall<O>, Vec<Pass<O>>, Memory)>
        requires hall { All (λ p. p.hall ≡ self) passes.items }
        requires all { sum_by (λ p. p.parts) passes.items ≡ all_parts }
        ensures seen { IfOk result (λ o. All (λ p. Leads p.seen (O.shows o)) passes.items) }
        ensures count { IfOk result (λ o. (O.shows o).count ≡ self.opened.count + sum_by (λ p. p.made) passes.items) }
        ensures opened { IfOk result (λ o. Leads self.opened (O.shows o)) }
        ensures counted { IfOk result (λ o. IsCounted (O.shows o)) }
        ensures memory { IfErr result (λ e. (e.0 ≡ self) × (e.1.items ≡ passes.items)) }
    {
        let Some(mut pass) = passes.pop() else {
            unreachable!()
        };
        self.gather(&mut pass, passes);
        let Hall { table } = self;
        let Pass {
            seat,
            seen: _,
            made: _,
        } = pass;
        Ok(close_table(table, seat))
    }

    /// Takes other passes into this one.
    fn gather(&self, pass: &mut Pass<O>, mut others: Vec<Pass<O>>)
        requires hall { pass.old.hall ≡ self.now }
        requires others { All (λ p. p.hall ≡ self.now) others.items }
        ensures hall { pass.new.hall ≡ self.now }
        ensures parts { pass.new.parts ≡ pass.old.parts + sum_by (λ p. p.parts) others.items }
        ensures made { pass.new.made ≡ pass.old.made + sum_by (λ p. p.made) others.items }
        ensures later { Leads pass.old.seen pass.new.seen }
        ensures others { All (λ p. Leads p.seen pass.new.seen) others.items }
    {
        while let Some(other) = others.pop() {
            self.meet(pass, other);
        }
    }
}

/// The table and its first seat, or the object again.
fn open_table<O: Object>(alloc: Global, object: O) -> Result<(TableOf<O>, SeatOf<O>), O>
    requires counted { IsCounted (O.shows object) }
    requires small { (O.shows object).count < 2 ^ 64 }
    ensures table { IfOk result (λ t. IsHallTable t.0.shared.table_id × (t.0.shared.key.value ≡ object)) }
    ensures seat { IfOk result (λ t. (t.1.table_id ≡ t.0.shared.table_id) × (t.1.me ≡ (opening_view (O.shows object), []))) }
    ensures memory { IfErr result (λ o. o ≡ object) }
{
    let about = Snapshot::of(&object);
    let Ok(mut slots) = Vec::with_capacity(alloc, 1) else {
        return Err(object);
    };
    slots.push_reserved(Some(object));
    match Table::new(alloc, &[0, 0], slots, &about) {
        Ok(made) => Ok(made),
        Err(refused) => {
            let Refused { mut slots } = refused;
            let object = slots.take_last();
            slots.destroy_empty();
            Err(object.unwrap())
        }
    }
}

/// The object, where the seat has all parts.
fn close_table<O: Object>(table: TableOf<O>, seat: SeatOf<O>) -> O
    requires hall { (seat.table_id ≡ table.shared.table_id) × IsHallTable table.shared.table_id }
    requires all { (seat.me.0.parts ≡ 2 ^ 62) × (seat.me.0.drawn ≡ false) }
    ensures { IsLast (O.shows table.shared.key.value) seat.me.0 (O.shows result) }
{
    let mut closed = table.close_with(seat);
    let object = closed.take(0).unwrap();
    closed.free();
    object
}
