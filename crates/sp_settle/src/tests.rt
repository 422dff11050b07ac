use crate::questions::{CopyFacts, Ending, Reason, Target, end, is_last_attempt};
use sp_base::number::{CopyNo, EndpointNo, ReplayNo};
use sp_copies::closed::Cause;
use sp_copies::made::Origin;
use std::test::Fail;

// A copy of 64 bytes in endpoint 1.
fn copy(eligible: bool, origin: Origin) -> CopyFacts {
    CopyFacts {
        eligible,
        origin,
        endpoint: EndpointNo::of(1),
        size: 64,
    }
}

// A queue with a quota of 1,000 bytes.
fn queue(endpoint: EndpointNo, ingress: bool, used: u64) -> Option<Target> {
    Some(Target {
        endpoint,
        ingress,
        used,
        max: 1000,
    })
}

#[test]
fn the_first_question_that_holds_decides(rt: HostRuntime) -> Result<(), Fail> {
    let first = EndpointNo::of(1);
    let other = EndpointNo::of(2);
    let seventh = CopyNo::of(7);
    let replay = ReplayNo::of(7);
    for (facts, target, expected) in [
        (
            copy(true, Origin::Published),
            queue(other, true, 936),
            Ending::Move,
        ),
        (
            copy(true, Origin::Replayed(replay)),
            queue(other, true, 0),
            Ending::Move,
        ),
        (
            copy(false, Origin::Published),
            None,
            Ending::Discard(Cause::Rejected),
        ),
        (
            copy(true, Origin::Moved(seventh)),
            queue(other, true, 0),
            Ending::Discard(Cause::Rejected),
        ),
        (
            copy(true, Origin::Published),
            None,
            Ending::Discard(Cause::DmqMissing),
        ),
        (
            copy(true, Origin::Published),
            queue(first, false, 937),
            Ending::Discard(Cause::DmqSelf),
        ),
        (
            copy(true, Origin::Published),
            queue(other, false, 937),
            Ending::Discard(Cause::DmqDisabled),
        ),
        (
            copy(true, Origin::Published),
            queue(other, true, 937),
            Ending::Discard(Cause::DmqQuota),
        ),
        (
            copy(true, Origin::Published),
            queue(other, true, u64::MAX),
            Ending::Discard(Cause::DmqQuota),
        ),
    ] {
        assert_eq!(rt; end(Reason::Rejected, &facts, target.as_ref()), expected);
    }
    Ok(())
}

#[test]
fn a_copy_that_cannot_move_is_discarded_for_its_reason(rt: HostRuntime) -> Result<(), Fail> {
    let ineligible = copy(false, Origin::Published);
    for (why, cause) in [
        (Reason::Expired, Cause::Expired),
        (Reason::RedeliveryExceeded, Cause::RedeliveryExceeded),
        (Reason::Rejected, Cause::Rejected),
    ] {
        assert_eq!(rt; end(why, &ineligible, None), Ending::Discard(cause));
    }
    Ok(())
}

#[test]
fn a_copy_ends_after_the_attempt_beyond_its_limit(rt: HostRuntime) -> Result<(), Fail> {
    for (limit, attempts, expected) in [
        (0, 1, false),
        (0, u64::MAX, false),
        (2, 2, false),
        (2, 3, true),
        (2, 4, true),
        (u64::MAX, u64::MAX, false),
    ] {
        assert_eq!(rt; is_last_attempt(limit, attempts), expected);
    }
    Ok(())
}
