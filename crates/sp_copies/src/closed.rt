ghost use Rattle.std.specs.Prelude.{◌≡◌};
ghost use Rattle.sp_copies.specs.Counts.{cause_place};

use sp_base::moment::Moment;
use sp_base::number::CopyNo;

/// Why a copy was discarded.
#[derive(Clone, Copy, Debug, PartialEq, Eq)]
pub enum Cause {
    /// The endpoint had a reason not to spool it, and didn't reject the publish for it.
    NotSpooled,
    /// Its time to live ran out.
    Expired,
    /// It was given back after its last attempt.
    RedeliveryExceeded,
    /// A flow settled it as rejected.
    Rejected,
    /// The dead-message queue isn't there.
    DmqMissing,
    /// The dead-message queue is the endpoint itself.
    DmqSelf,
    /// The dead-message queue takes no messages.
    DmqDisabled,
    /// The dead-message queue has no room for it.
    DmqQuota,
    /// The topic endpoint was bound with another topic or selector.
    TopicChanged,
    /// An administrator deleted it.
    Deleted,
}

impl Cause {
    /// All causes, in the order of their names.
    pub const ALL: [Cause; 10] = [
        Cause::Deleted,
        Cause::DmqDisabled,
        Cause::DmqMissing,
        Cause::DmqQuota,
        Cause::DmqSelf,
        Cause::Expired,
        Cause::NotSpooled,
        Cause::RedeliveryExceeded,
        Cause::Rejected,
        Cause::TopicChanged,
    ];

    /// The cause's place in that order.
    pub fn place(self) -> u8
        ensures { result ≡ cause_place self }
    {
        match self {
            Cause::Deleted => 0,
            Cause::DmqDisabled => 1,
            Cause::DmqMissing => 2,
            Cause::DmqQuota => 3,
            Cause::DmqSelf => 4,
            Cause::Expired => 5,
            Cause::NotSpooled => 6,
            Cause::RedeliveryExceeded => 7,
            Cause::Rejected => 8,
            Cause::TopicChanged => 9,
        }
    }
}

/// How many copies a cause has discarded.
#[derive(Clone, Copy, Debug, PartialEq, Eq)]
pub struct CauseCount {
    pub cause: Cause,
    pub count: u64,
}

/// How a copy was closed.
#[derive(Clone, Copy, Debug, PartialEq, Eq)]
pub enum Closing {
    /// A flow accepted it.
    Accepted,
    /// It was moved to a dead-message queue, as the copy of this number.
    Moved(CopyNo),
    /// It was discarded.
    Discarded(Cause),
}

/// A copy that was closed.
#[derive(Clone, Copy, Debug, PartialEq, Eq)]
pub struct ClosedCopy {
    pub copy: CopyNo,
    pub how: Closing,
    pub moment: Moment,
}

/// What has become of a copy.
#[derive(Clone, Copy, Debug, PartialEq, Eq)]
pub enum Fate {
    /// No such copy was made.
    Never,
    Spooled,
    Accepted,
    Moved(CopyNo),
    Discarded(Cause),
    /// It was closed so long ago that its closing isn't kept.
    Earlier,
}
