ghost use Rattle.std.specs.Prelude.{◌≡◌, ◌≤◌, length, IfOk};
ghost use Rattle.sp_message.specs.Size.{size_of, dest_bytes};

use crate::payload::Payload;
use crate::property::Properties;
use sp_base::name::Name;
use sp_base::number::Ranged;
use sp_base::topic::Topic;
use std::alloc::{AllocError, Global};

/// The longest time to live, in milliseconds: 4,294,967,295 seconds.
pub const LONGEST_TTL: u64 = 4_294_967_295_000;

/// What a number counts.
#[derive(Clone, Copy, Debug, PartialEq, Eq)]
pub struct OfTimeToLive;

/// How long a message lives in a queue: milliseconds, from 0 to 4,294,967,295,000; 0 sets no bound.
pub type TimeToLive = Ranged<OfTimeToLive, 0, LONGEST_TTL>;

/// Where a message goes.
#[derive(Debug, Drop)]
pub enum Dest {
    /// To the endpoints that take this topic.
    Topic(Topic),
    /// To the queue of this name.
    Queue(Name),
}

impl Dest {
    /// The destination's bytes.
    pub fn as_bytes(&self) -> &[u8]
        ensures value { result.now ≡ dest_bytes self.now }
        ensures bound { length result.now ≤ 250 }
    {
        match self {
            Dest::Topic(topic) => topic.as_bytes(),
            Dest::Queue(name) => name.as_bytes(),
        }
    }

    /// A second destination that equals this one.
    pub fn copy(&self, alloc: Global) -> Result<Dest, AllocError>
        ensures { IfOk result (λ d. d ≡ self.now) }
    {
        match self {
            Dest::Topic(topic) => Ok(Dest::Topic(topic.copy(alloc)?)),
            Dest::Queue(name) => Ok(Dest::Queue(name.copy(alloc)?)),
        }
    }
}

/// A guaranteed message as it was published.
#[derive(Debug, Drop)]
pub struct Message {
    pub dest: Dest,
    pub payload: Payload,
    pub ttl: TimeToLive,
    /// Whether a dead copy may be moved to a dead-message queue.
    pub eligible: bool,
    pub properties: Properties,
}

impl Message {
    /// The bytes that a copy counts against a quota: 64, the destination's, the payload's, and for
    /// each property 16, its name's and its text value's.
    pub fn size(&self) -> u64
        ensures size { result ≡ size_of self.now }
        ensures bound { result ≤ 8918330 }
    {
        64 + self.dest.as_bytes().len() as u64
            + self.payload.as_slice().len() as u64
            + self.properties.size()
    }

    /// A second message that equals this one.
    pub fn copy(&self, alloc: Global) -> Result<Message, AllocError>
        ensures { IfOk result (λ m. m ≡ self.now) }
    {
        Ok(Message {
            dest: self.dest.copy(alloc)?,
            payload: self.payload.copy(alloc)?,
            ttl: self.ttl,
            eligible: self.eligible,
            properties: self.properties.copy(alloc)?,
        })
    }
}
