ghost use Rattle.std.specs.Prelude.{◌≡◌, option_copied};
ghost use Rattle.sp_settle.specs.Questions.{caused, end_in, end_of, is_by_move, is_exceeded};

use sp_base::number::EndpointNo;
use sp_copies::closed::Cause;
use sp_copies::made::Origin;

/// Why a copy ends that no flow has accepted.
#[derive(Clone, Copy, Debug, PartialEq, Eq)]
pub enum Reason {
    /// Its deadline has come.
    Expired,
    /// It was given back after its last attempt.
    RedeliveryExceeded,
    /// A flow settled it as rejected.
    Rejected,
}

impl Reason {
    /// The cause by which a copy is discarded that ends for this reason and isn't moved.
    pub fn cause(self) -> Cause
        ensures { result ≡ caused self }
    {
        match self {
            Reason::Expired => Cause::Expired,
            Reason::RedeliveryExceeded => Cause::RedeliveryExceeded,
            Reason::Rejected => Cause::Rejected,
        }
    }
}

/// What is asked of a copy that ends.
#[derive(Clone, Copy, Debug, PartialEq, Eq)]
pub struct CopyFacts {
    /// Whether its message may be moved to a dead-message queue.
    pub eligible: bool,
    pub origin: Origin,
    /// The endpoint that it is spooled in.
    pub endpoint: EndpointNo,
    /// The bytes that it counts against quotas.
    pub size: u64,
}

/// What is asked of the queue that the endpoint names as its dead-message queue.
#[derive(Clone, Copy, Debug, PartialEq, Eq)]
pub struct Target {
    pub endpoint: EndpointNo,
    /// Whether it takes messages.
    pub ingress: bool,
    /// The bytes that its spooled copies use.
    pub used: u64,
    /// The most bytes that they may use.
    pub max: u64,
}

/// How a copy ends.
#[derive(Clone, Copy, Debug, PartialEq, Eq)]
pub enum Ending {
    /// It is closed, and no other is made.
    Discard(Cause),
    /// It is closed, and a copy of its message is made in the dead-message queue.
    Move,
}

/// Whether a copy was itself moved.
pub fn is_moved(origin: Origin) -> bool
    ensures { result ≡ is_by_move origin }
{
    match origin {
        Origin::Published => false,
        Origin::Moved(_) => true,
        Origin::Replayed(_) => false,
    }
}

/// How a copy ends, by five questions in this order: whether it may be moved at all, whether the
/// queue is there, is another than the copy's own, takes messages, and has room. `target` is the
/// queue that the endpoint names, where there is a queue of that name.
pub fn end(why: Reason, copy: &CopyFacts, target: Option<&Target>) -> Ending
    ensures { result ≡ end_of why copy.now (option_copied target.entry) }
{
    if !copy.eligible || is_moved(copy.origin) {
        return Ending::Discard(why.cause());
    }
    match target {
        None => Ending::Discard(Cause::DmqMissing),
        Some(target) => end_in(copy, target),
    }
}

/// The questions that are asked of a queue that is there.
fn end_in(copy: &CopyFacts, target: &Target) -> Ending
    ensures { result ≡ end_in copy.now target.now }
{
    if target.endpoint == copy.endpoint {
        Ending::Discard(Cause::DmqSelf)
    } else if !target.ingress {
        Ending::Discard(Cause::DmqDisabled)
    } else if target.max < target.used || target.max - target.used < copy.size {
        Ending::Discard(Cause::DmqQuota)
    } else {
        Ending::Move
    }
}

/// Whether a copy that is given back after so many attempts has had its last: a limit of 0 is
/// none, and a limit m allows m + 1 attempts.
pub fn is_last_attempt(limit: u64, attempts: u64) -> bool
    ensures { result ≡ is_exceeded limit attempts }
{
    limit > 0 && attempts > limit
}
