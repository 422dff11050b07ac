// Look-ups of single copies and their fates over the rows of all copies and closings.
ghost use Rattle.std.specs.Prelude.{◌≡◌, ◌==◌, ◌&&◌, not, filter, find, position, nat_lt, option_map, if◌then◌else◌, IfOk};
ghost use Rattle.sp_copies.specs.History.{copy_of, is_made, is_closed, is_open_in, closing_of, closed_after, closed_as, told_closing};
ghost use Rattle.sp_copies.specs.declared.closed.Fate.TheVariants.{Never};

use crate::closed::{ClosedCopy, Closing, Fate};
use crate::look::{closing_of, has_closing};
use crate::made::MadeCopy;
use sp_base::number::{CopyNo, EndpointNo};
use std::alloc::{AllocError, Global};

/// A closing is told until this many others have come after it.
const CLOSINGS_TOLD: usize = 1_000_000;

pub fn copy_of(made: &[MadeCopy], copy: CopyNo) -> Option<MadeCopy>
    ensures { result ≡ copy_of made.now copy }
{
    made.iter().find(|c| c.number == copy).copied()
}

pub fn is_made(made: &[MadeCopy], copy: CopyNo) -> bool
    ensures { result ≡ is_made made.now copy }
{
    made.iter().any(|c| c.number == copy)
}

pub fn is_spooled(made: &[MadeCopy], closed: &[ClosedCopy], copy: CopyNo) -> bool
    ensures { result ≡ (is_made made.now copy && not (is_closed closed.now copy)) }
{
    is_made(made, copy) && !has_closing(closed, copy)
}

pub fn next_spooled(
    made: &[MadeCopy],
    closed: &[ClosedCopy],
    endpoint: EndpointNo,
    after: CopyNo,
) -> Option<CopyNo>
    ensures { result ≡ option_map (λ c. c.number) (find (λ c. nat_lt after c.number && is_open_in closed.now endpoint c) made.now) }
{
    let next = made.iter().find(|c| is_next(closed, endpoint, after, c))?;
    Some(next.number)
}

// What is asked of the number costs least, and of the closings most.
fn is_next(closed: &[ClosedCopy], endpoint: EndpointNo, after: CopyNo, copy: &MadeCopy) -> bool
    ensures { result ≡ (nat_lt after copy.now.number && is_open_in closed.now endpoint copy.now) }
{
    if copy.number.value() <= after.value() || copy.endpoint != endpoint {
        return false;
    }
    !has_closing(closed, copy.number)
}

/// The spooled copies of an endpoint, in order of number.
pub fn spooled_in(
    alloc: Global,
    made: &[MadeCopy],
    closed: &[ClosedCopy],
    endpoint: EndpointNo,
) -> Result<Vec<MadeCopy>, AllocError>
    ensures { IfOk result (λ copies. copies.items ≡ filter (is_open_in closed.now endpoint) made.now) }
{
    made.iter()
        .filter(|c| c.endpoint == endpoint && !has_closing(closed, c.number))
        .copied()
        .collect(alloc)
}

pub fn fate_of(made: &[MadeCopy], closed: &[ClosedCopy], copy: CopyNo) -> Fate
    ensures { result ≡ (if is_made made.now copy then told_closing (closed_after closed.now copy) (closing_of closed.now copy) else Never) }
{
    if is_made(made, copy) {
        told(closed_after(closed, copy), closing_of(closed, copy))
    } else {
        Fate::Never
    }
}

/// How many copies were closed after this one.
fn closed_after(closed: &[ClosedCopy], copy: CopyNo) -> usize
    ensures { result ≡ closed_after closed.now copy }
{
    match place_of(closed, copy) {
        Some(place) => closed.len() - place - 1,
        None => 0,
    }
}

fn place_of(closed: &[ClosedCopy], copy: CopyNo) -> Option<usize>
    ensures { result ≡ position (λ x. x.copy == copy) closed.now }
{
    closed.iter().position(|x| x.copy == copy)
}

fn told(after: usize, closing: Option<Closing>) -> Fate
    ensures { result ≡ told_closing after closing }
{
    match closing {
        None => Fate::Spooled,
        Some(how) => {
            if CLOSINGS_TOLD <= after {
                Fate::Earlier
            } else {
                closed_as(how)
            }
        }
    }
}

fn closed_as(how: Closing) -> Fate
    ensures { result ≡ closed_as how }
{
    match how {
        Closing::Accepted => Fate::Accepted,
        Closing::Moved(to) => Fate::Moved(to),
        Closing::Discarded(cause) => Fate::Discarded(cause),
    }
}
