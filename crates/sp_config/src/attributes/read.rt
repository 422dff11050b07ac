// Readers of the attributes, and what follows from them.
ghost use Rattle.std.specs.Prelude.{◌≡◌, ◌≤◌};
ghost use Rattle.std.specs.Option.{option_copied};
ghost use Rattle.sp_config.specs.Attributes.{is_partitioned, quota_of};
ghost use Rattle.sp_config.specs.Deadline.{deadline_of, lesser_bound};
ghost use Rattle.sp_config.specs.Rejects.{rejects_for};

use crate::access_type::AccessType;
use crate::attributes::Attributes;
use crate::discard::{DiscardBehavior, Why};
use sp_base::moment::Moment;
use sp_base::name::Name;
use sp_base::refusal::Permission;

/// How many bytes a unit of the quota has.
const QUOTA_UNIT: u64 = 1_048_576;

impl Attributes {
    /// Which flows are handed out copies.
    pub fn access_type(&self) -> AccessType
        ensures { result ≡ self.now.access_type }
    {
        self.access_type
    }

    /// The name of the queue that dead copies are moved to.
    pub fn dead_msg_queue(&self) -> &Name
        ensures { result.now ≡ self.now.dead_msg_queue }
    {
        &self.dead_msg_queue
    }

    /// Whether flows may bind and pull.
    pub fn egress_enabled(&self) -> bool
        ensures { result ≡ self.now.egress_enabled }
    {
        self.egress_enabled
    }

    /// Whether the endpoint takes messages.
    pub fn ingress_enabled(&self) -> bool
        ensures { result ≡ self.now.ingress_enabled }
    {
        self.ingress_enabled
    }

    /// The most flows that may be bound at a time, from 0 to 10,000.
    pub fn max_bind_count(&self) -> u64
        ensures value { result ≡ self.now.max_bind_count }
        ensures most { result ≤ 10000 }
    {
        self.max_bind_count
    }

    /// The most copies that a flow may hold at a time, its window, from 1 to 10,000.
    pub fn max_delivered_unacked_msgs_per_flow(&self) -> u64
        ensures value { result ≡ self.now.max_delivered_unacked_msgs_per_flow }
        ensures least { 1 ≤ result }
        ensures most { result ≤ 10000 }
    {
        self.max_delivered_unacked_msgs_per_flow
    }

    /// The most bytes that a message may have, from 0 to 30,000,000.
    pub fn max_msg_size(&self) -> u64
        ensures value { result ≡ self.now.max_msg_size }
        ensures most { result ≤ 30000000 }
    {
        self.max_msg_size
    }

    /// The quota in units of 1,048,576 bytes, from 1 to 800,000.
    pub fn max_msg_spool_usage(&self) -> u64
        ensures value { result ≡ self.now.max_msg_spool_usage }
        ensures least { 1 ≤ result }
        ensures most { result ≤ 800000 }
    {
        self.max_msg_spool_usage
    }

    /// How often a copy is handed out again, from 0 to 255; 0 sets no bound.
    pub fn max_redelivery_count(&self) -> u64
        ensures value { result ≡ self.now.max_redelivery_count }
        ensures most { result ≤ 255 }
    {
        self.max_redelivery_count
    }

    /// How long a copy may wait, from 0 to 4,294,967,295 seconds; 0 sets no bound.
    pub fn max_ttl(&self) -> u64
        ensures value { result ≡ self.now.max_ttl }
        ensures most { result ≤ 4294967295 }
    {
        self.max_ttl
    }

    /// The owner. None where it is empty, and then it is the administrator.
    pub fn owner(&self) -> Option<&Name>
        ensures { option_copied result ≡ self.now.owner }
    {
        self.owner.as_ref()
    }

    /// How many partitions the queue has, from 0 to 64; 0 is none.
    pub fn partition_count(&self) -> u64
        ensures value { result ≡ self.now.partition_count }
        ensures most { result ≤ 64 }
    {
        self.partition_count
    }

    /// Whether copies are spread over partitions: on a non-exclusive endpoint that has some.
    pub fn is_partitioned(&self) -> bool
        ensures { result ≡ is_partitioned self.now }
    {
        !self.access_type.is_exclusive() && self.partition_count > 0
    }

    /// What callers who aren't the owner may do.
    pub fn permission(&self) -> Permission
        ensures { result ≡ self.now.permission }
    {
        self.permission
    }

    /// For which reasons a publish is rejected.
    pub fn reject_msg_to_sender_on_discard_behavior(&self) -> DiscardBehavior
        ensures { result ≡ self.now.reject_msg_to_sender_on_discard_behavior }
    {
        self.reject_msg_to_sender_on_discard_behavior
    }

    /// Whether copies expire.
    pub fn respect_ttl_enabled(&self) -> bool
        ensures { result ≡ self.now.respect_ttl_enabled }
    {
        self.respect_ttl_enabled
    }

    /// The quota in bytes.
    pub fn quota_bytes(&self) -> u64
        ensures { result ≡ quota_of self.now }
    {
        QUOTA_UNIT * self.max_msg_spool_usage()
    }

    /// Whether a publish is rejected where the endpoint can't spool the message for this reason.
    pub fn rejects(&self, why: Why) -> bool
        ensures { result ≡ rejects_for self.now.reject_msg_to_sender_on_discard_behavior why }
    {
        self.reject_msg_to_sender_on_discard_behavior.rejects(why)
    }

    /// When a copy that is made now expires, in milliseconds: the lesser positive one of the
    /// message's `ttl` in milliseconds and the endpoint's own in seconds, from now on. None where
    /// time to live isn't respected, or both are 0. `ttl` is at most 4,294,967,295,000.
    pub fn deadline(&self, ttl: u64, now: Moment) -> Option<u64>
        requires { ttl ≤ 4294967295000 }
        ensures { result ≡ deadline_of self.now ttl now }
    {
        let bound = lesser_bound(ttl, 1_000 * self.max_ttl());
        if !self.respect_ttl_enabled() || bound == 0 {
            return None;
        }
        Some(now.value() + bound)
    }
}

/// The lesser positive one of two bounds, or 0 where both are 0.
fn lesser_bound(first: u64, second: u64) -> u64
    ensures { result ≡ lesser_bound first second }
{
    if first == 0 {
        return second;
    }
    if second == 0 {
        first
    } else {
        first.min(second)
    }
}
