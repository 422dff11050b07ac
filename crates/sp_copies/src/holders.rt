// Look-ups over the rows of held copies and of attempts.
ghost use Rattle.std.specs.Prelude.{◌≡◌, ◌==◌, ◌&&◌, not, filter, find, map, count_by, option_and_then, IfOk};
ghost use Rattle.sp_copies.specs.History.{is_open_in, is_held, is_held_by, holder_of, attempts_of, has_come};

use crate::closed::ClosedCopy;
use crate::held::{CopyAttempts, HeldCopy};
use crate::look::has_closing;
use crate::made::MadeCopy;
use sp_base::moment::Moment;
use sp_base::number::{CopyNo, EndpointNo, FlowNo};
use std::alloc::{AllocError, Global};

pub fn is_held(held: &[HeldCopy], copy: CopyNo) -> bool
    ensures { result ≡ is_held held.now copy }
{
    held.iter().any(|h| h.copy == copy)
}

pub fn is_held_by(held: &[HeldCopy], flow: FlowNo, copy: CopyNo) -> bool
    ensures { result ≡ is_held_by held.now flow copy }
{
    held.iter().any(|h| h.copy == copy && h.flow == flow)
}

pub fn holder_of(held: &[HeldCopy], copy: CopyNo) -> Option<FlowNo>
    ensures { result ≡ holder_of held.now copy }
{
    let found = held.iter().find(|h| h.copy == copy)?;
    Some(found.flow)
}

/// The flow that holds the least held copy of an endpoint's partition.
pub fn holder_in(
    made: &[MadeCopy],
    held: &[HeldCopy],
    endpoint: EndpointNo,
    partition: u64,
) -> Option<FlowNo>
    ensures { result ≡ option_and_then (λ c. holder_of held.now c.number) (find (λ c. (c.endpoint == endpoint) && (c.partition == partition) && is_held held.now c.number) made.now) }
{
    let least = least_held(made, held, endpoint, partition)?;
    holder_of(held, least.number)
}

fn least_held(
    made: &[MadeCopy],
    held: &[HeldCopy],
    endpoint: EndpointNo,
    partition: u64,
) -> Option<MadeCopy>
    ensures { result ≡ find (λ c. (c.endpoint == endpoint) && (c.partition == partition) && is_held held.now c.number) made.now }
{
    made.iter()
        .find(|c| is_held_in(held, endpoint, partition, c))
        .copied()
}

fn is_held_in(held: &[HeldCopy], endpoint: EndpointNo, partition: u64, copy: &MadeCopy) -> bool
    ensures { result ≡ ((copy.now.endpoint == endpoint) && (copy.now.partition == partition) && is_held held.now copy.now.number) }
{
    if copy.endpoint != endpoint || copy.partition != partition {
        return false;
    }
    is_held(held, copy.number)
}

pub fn attempts_of(attempts: &[CopyAttempts], copy: CopyNo) -> u64
    ensures { result ≡ attempts_of attempts.now copy }
{
    match attempts.iter().find(|a| a.copy == copy) {
        Some(found) => found.count,
        None => 0,
    }
}

/// How many rows are of the flow.
pub fn count_held_by(held: &[HeldCopy], flow: FlowNo) -> usize
    ensures { result ≡ count_by (λ h. h.flow == flow) held.now }
{
    held.iter().filter(|h| h.flow == flow).count()
}

/// The copies that a flow holds, in order of number.
pub fn held_by(
    alloc: Global,
    made: &[MadeCopy],
    held: &[HeldCopy],
    flow: FlowNo,
) -> Result<Vec<CopyNo>, AllocError>
    ensures { IfOk result (λ copies. copies.items ≡ map (λ c. c.number) (filter (λ c. is_held_by held.now flow c.number) made.now)) }
{
    made.iter()
        .filter(|c| is_held_by(held, flow, c.number))
        .map(|c| c.number)
        .collect(alloc)
}

/// The same as they were made.
pub fn held_copies(
    alloc: Global,
    made: &[MadeCopy],
    held: &[HeldCopy],
    flow: FlowNo,
) -> Result<Vec<MadeCopy>, AllocError>
    ensures { IfOk result (λ copies. copies.items ≡ filter (λ c. is_held_by held.now flow c.number) made.now) }
{
    made.iter()
        .filter(|c| is_held_by(held, flow, c.number))
        .copied()
        .collect(alloc)
}

/// The copies that any flow holds, in order of number.
pub fn all_held(
    alloc: Global,
    made: &[MadeCopy],
    held: &[HeldCopy],
) -> Result<Vec<MadeCopy>, AllocError>
    ensures { IfOk result (λ copies. copies.items ≡ filter (λ c. is_held held.now c.number) made.now) }
{
    made.iter()
        .filter(|c| is_held(held, c.number))
        .copied()
        .collect(alloc)
}

/// The spooled copies of an endpoint that no flow holds.
pub fn free_in(
    alloc: Global,
    made: &[MadeCopy],
    closed: &[ClosedCopy],
    held: &[HeldCopy],
    endpoint: EndpointNo,
) -> Result<Vec<MadeCopy>, AllocError>
    ensures { IfOk result (λ copies. copies.items ≡ filter (λ c. not (is_held held.now c.number)) (filter (is_open_in closed.now endpoint) made.now)) }
{
    made.iter()
        .filter(|c| c.endpoint == endpoint && !has_closing(closed, c.number))
        .filter(|c| !is_held(held, c.number))
        .copied()
        .collect(alloc)
}

/// The spooled copies of an endpoint that no flow holds and whose deadline hasn't come.
pub fn waiting(
    alloc: Global,
    made: &[MadeCopy],
    closed: &[ClosedCopy],
    held: &[HeldCopy],
    endpoint: EndpointNo,
    moment: Moment,
) -> Result<Vec<MadeCopy>, AllocError>
    ensures { IfOk result (λ copies. copies.items ≡ filter (λ c. not (is_held held.now c.number) && not (has_come c.deadline moment)) (filter (is_open_in closed.now endpoint) made.now)) }
{
    made.iter()
        .filter(|c| c.endpoint == endpoint && !has_closing(closed, c.number))
        .filter(|c| !is_held(held, c.number) && !has_come(c.deadline, moment))
        .copied()
        .collect(alloc)
}

pub fn has_come(deadline: Option<u64>, moment: Moment) -> bool
    ensures { result ≡ has_come deadline moment }
{
    match deadline {
        None => false,
        Some(deadline) => deadline <= moment.value(),
    }
}
