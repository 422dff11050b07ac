// Which copies are to expire, found by a scan over all rows.
ghost use Rattle.std.specs.Prelude.{◌≡◌, ◌&&◌, not, [], filter, length, option_map, position, slice_get, take, ◌≤◌, IfOk, OnOk};
ghost use Rattle.std.specs.List.{position_or_len};
ghost use Rattle.sp_copies.specs.Due.{by_deadline, deadline_of, is_earlier, placed};
ghost use Rattle.sp_copies.specs.Inside.{earlier};
ghost use Rattle.sp_copies.specs.History.{has_come, is_closed, is_held};

use crate::closed::ClosedCopy;
use crate::held::HeldCopy;
use crate::holders::{has_come, is_held};
use crate::look::has_closing;
use crate::made::MadeCopy;
use sp_base::moment::Moment;
use sp_base::number::CopyNo;
use std::alloc::{AllocError, Global};

// What is asked of the deadline costs least, and of the closings most.
fn is_due(closed: &[ClosedCopy], held: &[HeldCopy], moment: Moment, copy: &MadeCopy) -> bool
    ensures { result ≡ (not (is_closed closed.now copy.now.number) && not (is_held held.now copy.now.number) && has_come copy.now.deadline moment) }
{
    if !has_come(copy.deadline, moment) || is_held(held, copy.number) {
        return false;
    }
    !has_closing(closed, copy.number)
}

fn deadline_of(copy: &MadeCopy) -> u64
    ensures { result ≡ deadline_of copy.now }
{
    copy.deadline.unwrap_or(0)
}

fn is_earlier(copy: &MadeCopy, other: &MadeCopy) -> bool
    ensures { result ≡ is_earlier copy.now other.now }
{
    if deadline_of(copy) < deadline_of(other) {
        return true;
    }
    deadline_of(copy) == deadline_of(other) && copy.number.value() < other.number.value()
}

fn earlier(first: Option<MadeCopy>, copy: &MadeCopy) -> Option<MadeCopy>
    ensures { result ≡ earlier first copy.now }
{
    match first {
        Some(first) if !is_earlier(copy, &first) => Some(first),
        _ => Some(*copy),
    }
}

/// The first of the copies that are due, in order of deadline and then of number.
pub fn first_due(
    made: &[MadeCopy],
    closed: &[ClosedCopy],
    held: &[HeldCopy],
    moment: Moment,
) -> Option<CopyNo>
    ensures { result ≡ option_map (λ c. c.number) (slice_get (by_deadline (filter (λ c. not (is_closed closed.now c.number) && not (is_held held.now c.number) && has_come c.deadline moment) made.now)) 0) }
{
    let first = least_due(made, closed, held, moment)?;
    Some(first.number)
}

fn least_due(
    made: &[MadeCopy],
    closed: &[ClosedCopy],
    held: &[HeldCopy],
    moment: Moment,
) -> Option<MadeCopy>
    ensures { result ≡ slice_get (by_deadline (filter (λ c. not (is_closed closed.now c.number) && not (is_held held.now c.number) && has_come c.deadline moment) made.now)) 0 }
{
    let mut first = None;
    for copy in made {
        if !is_due(closed, held, moment, copy) {
            continue;
        }
        first = earlier(first, copy);
    }
    first
}

/// The first `most` of the copies that are due, in that order.
pub fn due(
    alloc: Global,
    made: &[MadeCopy],
    closed: &[ClosedCopy],
    held: &[HeldCopy],
    moment: Moment,
    most: usize,
) -> Result<Vec<MadeCopy>, AllocError>
    ensures { IfOk result (λ copies. copies.items ≡ take most (by_deadline (filter (λ c. not (is_closed closed.now c.number) && not (is_held held.now c.number) && has_come c.deadline moment) made.now))) }
{
    let mut first = Vec::new(alloc);
    for copy in made {
        if !is_due(closed, held, moment, copy) {
            continue;
        }
        place(&mut first, *copy, most)?;
    }
    Ok(first)
}

// Puts a copy in its place, and keeps the first `most`.
fn place(copies: &mut Vec<MadeCopy>, copy: MadeCopy, most: usize) -> Result<(), AllocError>
    ensures { OnOk result (copies.new.items ≡ take most (placed copy copies.old.items)) }
{
    let place = place_of(copies.as_slice(), &copy);
    copies.insert(place, copy)?;
    copies.truncate(most);
    Ok(())
}

// The place of the first copy that it comes before, or the end.
fn place_of(copies: &[MadeCopy], copy: &MadeCopy) -> usize
    ensures place { result ≡ position_or_len (is_earlier copy.now) copies.now }
    ensures within { result ≤ length copies.now }
{
    match first_after(copies, copy) {
        Some(place) => place,
        None => copies.len(),
    }
}

fn first_after(copies: &[MadeCopy], copy: &MadeCopy) -> Option<usize>
    ensures { result ≡ position (is_earlier copy.now) copies.now }
{
    copies.iter().position(|other| is_earlier(copy, other))
}
