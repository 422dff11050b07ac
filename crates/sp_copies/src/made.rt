use sp_base::number::{CopyNo, EndpointNo, MessageNo, ReplayNo};

/// What a copy was made by.
#[derive(Clone, Copy, Debug, PartialEq, Eq)]
pub enum Origin {
    /// A publish.
    Published,
    /// The end of another copy, which was moved to a dead-message queue.
    Moved(CopyNo),
    /// A step of a replay.
    Replayed(ReplayNo),
}

/// A copy that is to be made.
#[derive(Clone, Copy, Debug, PartialEq, Eq)]
pub struct NewCopy {
    pub endpoint: EndpointNo,
    pub message: MessageNo,
    /// The bytes that it counts against quotas.
    pub size: u64,
    pub origin: Origin,
    /// The moment, in milliseconds, from which it may expire.
    pub deadline: Option<u64>,
    /// The partition of a partitioned queue, and 0 elsewhere.
    pub partition: u64,
}

/// A copy that was made.
#[derive(Clone, Copy, Debug, PartialEq, Eq)]
pub struct MadeCopy {
    pub number: CopyNo,
    pub endpoint: EndpointNo,
    pub message: MessageNo,
    pub size: u64,
    pub origin: Origin,
    pub deadline: Option<u64>,
    pub partition: u64,
}

/// A copy of a message that is published.
#[derive(Clone, Copy, Debug, PartialEq, Eq)]
pub struct Share {
    pub copy: NewCopy,
    /// Where it is false, the copy is closed at once as not spooled.
    pub is_spooled: bool,
}
