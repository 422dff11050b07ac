// Look-ups of closings, and the bytes that spooled copies use.
ghost use Rattle.std.specs.Prelude.{◌≡◌, ◌<◌, ◌^◌, ◌-◌, ◌+◌, filter, sum_by, not, min, fold};
ghost use Rattle.sp_copies.specs.History.{is_closed, is_open_in, closing_of};

use crate::closed::{ClosedCopy, Closing};
use crate::made::MadeCopy;
use sp_base::number::{CopyNo, EndpointNo};

pub fn has_closing(closed: &[ClosedCopy], copy: CopyNo) -> bool
    ensures { result ≡ is_closed closed.now copy }
{
    closed.iter().any(|x| x.copy == copy)
}

pub fn closing_of(closed: &[ClosedCopy], copy: CopyNo) -> Option<Closing>
    ensures { result ≡ closing_of closed.now copy }
{
    let found = closed.iter().find(|x| x.copy == copy)?;
    Some(found.how)
}

pub fn used_by(made: &[MadeCopy], closed: &[ClosedCopy], endpoint: EndpointNo) -> u64
    requires { sum_by (λ c. c.size) (filter (is_open_in closed.now endpoint) made.now) < 2 ^ 64 }
    ensures { result ≡ sum_by (λ c. c.size) (filter (is_open_in closed.now endpoint) made.now) }
{
    made.iter()
        .filter(|c| c.endpoint == endpoint && !has_closing(closed, c.number))
        .map(|c| c.size)
        .sum()
}

/// The bytes that all spooled copies use, or the greatest u64 where they are more.
pub fn used_by_all(made: &[MadeCopy], closed: &[ClosedCopy]) -> u64
    ensures { result ≡ fold (λ used c. min (used + c.size) (2 ^ 64 - 1)) 0 (filter (λ c. not (is_closed closed.now c.number)) made.now) }
{
    made.iter()
        .filter(|c| !has_closing(closed, c.number))
        .fold(0u64, |used, c| used.saturating_add(c.size))
}
