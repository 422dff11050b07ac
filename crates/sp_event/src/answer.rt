use sp_base::items::Items;
use sp_base::name::Name;
use sp_base::number::{CopyNo, EndpointNo, FlowNo, MessageNo};
use sp_base::refusal::Refusal;
use sp_copies::closed::{CauseCount, Fate};
use sp_message::message::Dest;
use sp_message::payload::Payload;
use sp_message::property::Properties;

/// A copy as a publish tells it.
#[derive(Debug, Drop)]
pub struct PublishedCopy {
    pub copy: CopyNo,
    pub endpoint: Name,
    pub fate: Fate,
}

/// A copy as it is handed out.
#[derive(Debug, Drop)]
pub struct Delivery {
    /// How often the copy has been handed out, with this time.
    pub attempt: u64,
    pub copy: CopyNo,
    pub message: MessageNo,
    pub dest: Dest,
    pub payload: Payload,
    pub properties: Properties,
}

/// A copy, and what has become of it.
#[derive(Clone, Copy, Debug, PartialEq, Eq)]
pub struct CopyFate {
    pub copy: CopyNo,
    pub fate: Fate,
}

/// Where a copy is, which message it is of, and how often it has been handed out.
#[derive(Clone, Copy, Debug, PartialEq, Eq)]
pub struct CopyDetails {
    pub endpoint: EndpointNo,
    pub message: MessageNo,
    pub attempts: u64,
}

/// A flow that is bound to an endpoint.
#[derive(Debug, Drop)]
pub struct BoundFlow {
    pub flow: FlowNo,
    pub caller: Name,
    /// How many copies it holds.
    pub held: u64,
    /// Whether it is handed out copies now: on an exclusive endpoint the first alone is.
    pub active: bool,
}

/// How many copies were made, and how many of them have which fate.
#[derive(Debug, Drop)]
pub struct Tally {
    pub accepted: u64,
    /// How many were discarded by each cause that discarded any, in the order of their names.
    pub causes: Items<CauseCount>,
    pub discarded: u64,
    pub made: u64,
    pub moved: u64,
    pub spooled: u64,
    /// The bytes that the spooled copies use.
    pub used: u64,
}

/// What an accepted request is answered.
#[derive(Debug, Drop)]
pub enum Reply {
    Provision {
        endpoint: Name,
        number: EndpointNo,
    },
    Deprovision {
        endpoint: Name,
    },
    Change {
        endpoint: Name,
    },
    Subscribe {
        endpoint: Name,
    },
    Unsubscribe {
        endpoint: Name,
    },
    /// The copies stand in order of their numbers.
    Publish {
        message: MessageNo,
        copies: Items<PublishedCopy>,
    },
    /// `discarded` is how many copies the bind discarded.
    Bind {
        endpoint: Name,
        flow: FlowNo,
        discarded: u64,
    },
    /// The held copies that were closed, and how many are spooled again.
    Unbind {
        flow: FlowNo,
        closed: Items<CopyFate>,
        returned: u64,
    },
    /// The deliveries stand in order of the copies' numbers.
    Pull {
        flow: FlowNo,
        deliveries: Items<Delivery>,
    },
    Settle {
        copy: CopyNo,
        fate: Fate,
    },
    /// The copies that ended, in the order in which they did.
    Tick {
        closed: Items<CopyFate>,
    },
    /// The copies that were deleted, in order of number.
    DeleteCopies {
        endpoint: Name,
        closed: Items<CopyFate>,
    },
    /// The flows are gone; what became of the copies that they held isn't told.
    Restart,
    Tally(Tally),
    /// The details are told of a copy that was made and whose closing, if any, is kept.
    Copy {
        copy: CopyNo,
        fate: Fate,
        details: Option<CopyDetails>,
    },
    /// The flows stand in the order in which they were bound.
    Flows {
        endpoint: Name,
        flows: Items<BoundFlow>,
    },
}

/// How a request ended.
#[derive(Debug, Drop)]
pub enum Answered {
    Gave(Reply),
    /// It changes nothing; `index` is the place of the refused event in a unit of several.
    Refused {
        refusal: Refusal,
        index: Option<u32>,
    },
    /// There was no memory, and nothing was done.
    Memory,
    /// The disk failed, and the ledger is as before.
    Disk,
    /// The journal, now `len` bytes long, has no room for `need` more of its `max` bytes.
    Full {
        len: u64,
        need: u64,
        max: u64,
    },
}
