ghost use Rattle.std.specs.Prelude.{◌≡◌, ◌++◌, ◌∷◌, ℕ, List, length, true, IfOk, IsErrOf, OnOk};
ghost use Rattle.sp_base.specs.Name.{is_caller};
ghost use Rattle.sp_message.specs.Decoding.{Gives};
ghost use Rattle.sp_unit.specs.UnitBytes.{IsUnit, UnitView, is_caller_name};
ghost use Rattle.sp_unit.specs.UnitReading.{caller_at, named, unit_at, whole_unit};

use crate::event_codec::EventCodec;
use sp_base::failure::Memory;
use sp_base::items::Items;
use sp_base::moment::{LAST_MOMENT, Moment};
use sp_base::name::{Name, NameError};
use sp_event::request::Event;
use sp_message::codec::{
    ReadError, read_byte, read_list, read_number_within, write_list, write_number,
};
use std::alloc::{AllocError, Global};
use std::marker::Model;

/// What is kept of an accepted request: its own moment, its caller, whose name has at most 64
/// bytes, and its events, of which there is one.
#[derive(Drop)]
pub struct Unit {
    pub moment: Moment,
    pub caller: Name,
    pub events: Items<Event>,
}

impl Model for Unit {
    ghost use Rattle.std.specs.Prelude.{◌≡◌, true, length};
    ghost use Rattle.sp_unit.specs.UnitBytes.{UnitView};
    ghost use Rattle.sp_unit.specs.Inside.{view_of};
    ghost use Rattle.sp_base.specs.Name.{is_caller};

    ghost Value = { UnitView };

    ghost view = { view_of };

    ghost invariant = { λ u. (is_caller u.caller ≡ true) × (length u.events ≡ 1) };
}

impl Unit {
    /// Appends the bytes of the unit of this moment, caller and event.
    pub fn write(now: Moment, from: &Name, unit: &[Event], into: &mut Vec<u8>) -> Result<(), Memory>
        requires one { length unit.now ≡ 1 }
        requires caller { is_caller from.now ≡ true }
        ensures { OnOk result ((bytes : List ℕ) × IsUnit bytes (record { moment = now; caller = from.now; events = unit.now }) × (into.new.items ≡ into.old.items ++ bytes)) }
    {
        match write_parts(now, from, unit, into) {
            Ok(()) => Ok(()),
            Err(_) => Err(Memory),
        }
    }

    /// The unit that the bytes are. NotOne exactly where the whole of them is none.
    pub fn read(alloc: Global, bytes: &[u8]) -> Result<Unit, ReadError>
        ensures read { IfOk result (λ u. IsUnit bytes.now u) }
        ensures none { IsErrOf result ReadError.NotOne → (u : UnitView) → IsUnit bytes.now u → ⊥ }
    {
        read_whole(alloc, bytes)
    }
}

fn write_parts(
    moment: Moment,
    caller: &Name,
    events: &[Event],
    into: &mut Vec<u8>,
) -> Result<(), AllocError>
    requires one { length events.now ≡ 1 }
    requires caller { is_caller caller.now ≡ true }
    ensures { OnOk result ((bytes : List ℕ) × IsUnit bytes (record { moment = moment; caller = caller.now; events = events.now }) × (into.new.items ≡ into.old.items ++ bytes)) }
{
    write_number(moment.value(), into)?;
    write_caller(caller, into)?;
    write_list::<EventCodec>(events, into)
}

fn write_caller(caller: &Name, into: &mut Vec<u8>) -> Result<(), AllocError>
    requires { is_caller caller.now ≡ true }
    ensures bytes { OnOk result (into.new.items ≡ into.old.items ++ (length caller.now ∷ caller.now)) }
    ensures valid { OnOk result (is_caller_name caller.now ≡ true) }
{
    let name = caller.as_bytes();
    into.push(name.len() as u8)?;
    into.extend_from_slice(name)
}

#[tactic(auto, unfolding(crate::specs::UnitReading::whole_unit))]
fn read_whole(alloc: Global, bytes: &[u8]) -> Result<Unit, ReadError>
    ensures { Gives (λ u. u) result (whole_unit bytes.now) }
{
    let (unit, rest) = read_unit(alloc, bytes)?;
    if !rest.is_empty() {
        return Err(ReadError::NotOne);
    }
    Ok(unit)
}

#[tactic(auto, unfolding(crate::specs::UnitReading::unit_at))]
fn read_unit(alloc: Global, bytes: &[u8]) -> Result<(Unit, &[u8]), ReadError>
    ensures { Gives (λ x. (x.0, x.1.now)) result (unit_at bytes.now) }
{
    let (n, rest) = read_number_within(bytes, 0, LAST_MOMENT)?;
    let Some(moment) = Moment::new(n) else {
        return Err(ReadError::NotOne);
    };
    let (caller, rest) = read_caller(alloc, rest)?;
    let (events, rest) = read_list::<EventCodec>(alloc, rest)?;
    if events.len() != 1 {
        return Err(ReadError::NotOne);
    }
    let unit = Unit {
        moment,
        caller,
        events: Items::from_vec(events),
    };
    Ok((unit, rest))
}

#[tactic(auto, unfolding(crate::specs::UnitReading::caller_at))]
fn read_caller(alloc: Global, bytes: &[u8]) -> Result<(Name, &[u8]), ReadError>
    ensures read { Gives (λ x. (x.0, x.1.now)) result (caller_at bytes.now) }
    ensures short { IfOk result (λ x. is_caller x.0 ≡ true) }
{
    let (len, rest) = read_byte(bytes)?;
    let len = usize::from(len);
    if rest.len() < len {
        return Err(ReadError::NotOne);
    }
    let (text, rest) = rest.split_at(len);
    let name = read_name(alloc, text)?;
    if !name.is_caller() {
        return Err(ReadError::NotOne);
    }
    Ok((name, rest))
}

#[tactic(auto, unfolding(crate::specs::UnitReading::named))]
fn read_name(alloc: Global, text: &[u8]) -> Result<Name, ReadError>
    ensures { Gives (λ name. name) result (named text.now) }
{
    match Name::read(alloc, text) {
        Ok(name) => Ok(name),
        Err(NameError::BadName) => Err(ReadError::NotOne),
        Err(NameError::Memory) => Err(ReadError::Memory),
    }
}
