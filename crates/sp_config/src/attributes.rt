ghost use Rattle.std.specs.Prelude.{◌≡◌, codes, IfOk};
ghost use Rattle.sp_config.specs.Attributes.{defaults};

mod change;
mod read;

use crate::access_type::AccessType;
use crate::discard::DiscardBehavior;
use crate::value::copy_of;
pub use change::OutOfRange;
use sp_base::failure::Memory;
use sp_base::name::{Name, NameError};
use sp_base::refusal::Permission;
use std::alloc::{AllocError, Global};
use std::marker::Model;

/// The attributes of an endpoint, each in its range.
#[derive(Debug, Drop)]
pub struct Attributes {
    access_type: AccessType,
    dead_msg_queue: Name,
    egress_enabled: bool,
    ingress_enabled: bool,
    max_bind_count: u64,
    max_delivered_unacked_msgs_per_flow: u64,
    max_msg_size: u64,
    max_msg_spool_usage: u64,
    max_redelivery_count: u64,
    max_ttl: u64,
    owner: Option<Name>,
    partition_count: u64,
    permission: Permission,
    reject_msg_to_sender_on_discard_behavior: DiscardBehavior,
    respect_ttl_enabled: bool,
}

impl Model for Attributes {
    ghost use Rattle.sp_config.specs.Attributes.{AttributesView};
    ghost use Rattle.sp_config.specs.Inside.{view_of, KeepsRanges};

    ghost Value = { AttributesView };

    ghost view = { view_of };

    ghost invariant = { KeepsRanges };
}

impl Attributes {
    /// The defaults of an endpoint that this caller makes.
    pub fn defaults(alloc: Global, owner: Name) -> Result<Attributes, Memory>
        ensures { IfOk result (λ a. a ≡ defaults owner) }
    {
        Ok(Attributes {
            access_type: AccessType::NonExclusive,
            dead_msg_queue: dead_msg_queue(alloc)?,
            egress_enabled: true,
            ingress_enabled: true,
            max_bind_count: 1000,
            max_delivered_unacked_msgs_per_flow: 1000,
            max_msg_size: 10_000_000,
            max_msg_spool_usage: 5000,
            max_redelivery_count: 0,
            max_ttl: 0,
            owner: Some(owner),
            partition_count: 0,
            permission: Permission::NoAccess,
            reject_msg_to_sender_on_discard_behavior: DiscardBehavior::Always,
            respect_ttl_enabled: false,
        })
    }

    /// Second attributes with the same values.
    pub fn copy(&self, alloc: Global) -> Result<Attributes, AllocError>
        ensures { IfOk result (λ a. a ≡ self.now) }
    {
        Ok(Attributes {
            access_type: self.access_type,
            dead_msg_queue: self.dead_msg_queue.copy(alloc)?,
            egress_enabled: self.egress_enabled,
            ingress_enabled: self.ingress_enabled,
            max_bind_count: self.max_bind_count,
            max_delivered_unacked_msgs_per_flow: self.max_delivered_unacked_msgs_per_flow,
            max_msg_size: self.max_msg_size,
            max_msg_spool_usage: self.max_msg_spool_usage,
            max_redelivery_count: self.max_redelivery_count,
            max_ttl: self.max_ttl,
            owner: copy_of(alloc, &self.owner)?,
            partition_count: self.partition_count,
            permission: self.permission,
            reject_msg_to_sender_on_discard_behavior: self.reject_msg_to_sender_on_discard_behavior,
            respect_ttl_enabled: self.respect_ttl_enabled,
        })
    }
}

/// The name of the queue that dead copies are moved to where nothing else is set.
fn dead_msg_queue(alloc: Global) -> Result<Name, Memory>
    ensures { IfOk result (λ n. n ≡ codes "#DEAD_MSG_QUEUE") }
{
    match Name::read(alloc, b"#DEAD_MSG_QUEUE") {
        Ok(name) => Ok(name),
        Err(NameError::Memory) => Err(Memory),
        Err(NameError::BadName) => unreachable!(),
    }
}
