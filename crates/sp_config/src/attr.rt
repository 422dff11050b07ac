ghost use Rattle.std.specs.Prelude.{◌≡◌};
ghost use Rattle.sp_config.specs.Names.{name_of};
ghost use Rattle.sp_config.specs.Ranges.{range_of};
ghost use Rattle.sp_config.specs.Settings.{number_of};

mod words;

use crate::range::Range;
use sp_base::choice::Choice;

/// An attribute of an endpoint. They stand in the byte order of their names.
#[derive(Clone, Copy, Debug, PartialEq, Eq, PartialOrd, Ord)]
pub enum Attr {
    /// Which flows are handed out copies.
    AccessType,
    /// The queue that dead copies are moved to.
    DeadMsgQueue,
    /// Whether flows may bind and pull.
    EgressEnabled,
    /// Whether the endpoint takes messages.
    IngressEnabled,
    /// The most flows that may be bound at a time.
    MaxBindCount,
    /// The most copies that a flow may hold at a time: its window.
    MaxDeliveredUnackedMsgsPerFlow,
    /// The most bytes that a message may have.
    MaxMsgSize,
    /// The endpoint's quota, in units of 1,048,576 bytes.
    MaxMsgSpoolUsage,
    /// How often a copy is handed out again; 0 sets no bound.
    MaxRedeliveryCount,
    /// How long a copy may wait, in seconds; 0 sets no bound.
    MaxTtl,
    /// The caller who may do anything with the endpoint.
    Owner,
    /// How many partitions a queue has; 0 is none.
    PartitionCount,
    /// What callers who aren't the owner may do.
    Permission,
    /// For which reasons a publish is rejected.
    RejectMsgToSenderOnDiscardBehavior,
    /// Whether copies expire.
    RespectTtlEnabled,
}

impl Choice for Attr {
    ghost use Rattle.std.specs.Prelude.{refl};
    ghost use Rattle.sp_config.specs.declared.attr.Attr.TheVariants as attr;
    ghost use Rattle.sp_config.specs.Names.{all_attrs};

    ghost word_of = { name_of };

    ghost choices = { all_attrs };

    fn word(self) -> &'static str {
        self.name()
    }

    fn all() -> &'static [Attr] {
        &[
            Attr::AccessType,
            Attr::DeadMsgQueue,
            Attr::EgressEnabled,
            Attr::IngressEnabled,
            Attr::MaxBindCount,
            Attr::MaxDeliveredUnackedMsgsPerFlow,
            Attr::MaxMsgSize,
            Attr::MaxMsgSpoolUsage,
            Attr::MaxRedeliveryCount,
            Attr::MaxTtl,
            Attr::Owner,
            Attr::PartitionCount,
            Attr::Permission,
            Attr::RejectMsgToSenderOnDiscardBehavior,
            Attr::RespectTtlEnabled,
        ]
    }

    ghost each_by_its_word = { elim [ attr.AccessType ↦ refl | attr.DeadMsgQueue ↦ refl | attr.EgressEnabled ↦ refl | attr.IngressEnabled ↦ refl | attr.MaxBindCount ↦ refl | attr.MaxDeliveredUnackedMsgsPerFlow ↦ refl | attr.MaxMsgSize ↦ refl | attr.MaxMsgSpoolUsage ↦ refl | attr.MaxRedeliveryCount ↦ refl | attr.MaxTtl ↦ refl | attr.Owner ↦ refl | attr.PartitionCount ↦ refl | attr.Permission ↦ refl | attr.RejectMsgToSenderOnDiscardBehavior ↦ refl | attr.RespectTtlEnabled ↦ refl ] };
}

impl Attr {
    /// The attribute's name.
    pub fn name(self) -> &'static str
        ensures { result.now ≡ name_of self }
    {
        match self {
            Attr::AccessType => "accessType",
            Attr::DeadMsgQueue => "deadMsgQueue",
            Attr::EgressEnabled => "egressEnabled",
            Attr::IngressEnabled => "ingressEnabled",
            Attr::MaxBindCount => "maxBindCount",
            Attr::MaxDeliveredUnackedMsgsPerFlow => "maxDeliveredUnackedMsgsPerFlow",
            Attr::MaxMsgSize => "maxMsgSize",
            Attr::MaxMsgSpoolUsage => "maxMsgSpoolUsage",
            Attr::MaxRedeliveryCount => "maxRedeliveryCount",
            Attr::MaxTtl => "maxTtl",
            Attr::Owner => "owner",
            Attr::PartitionCount => "partitionCount",
            Attr::Permission => "permission",
            Attr::RejectMsgToSenderOnDiscardBehavior => "rejectMsgToSenderOnDiscardBehavior",
            Attr::RespectTtlEnabled => "respectTtlEnabled",
        }
    }

    /// Its place in the order of names, from 1 to 15.
    pub fn number(self) -> u8
        ensures { result ≡ number_of self }
    {
        match self {
            Attr::AccessType => 1,
            Attr::DeadMsgQueue => 2,
            Attr::EgressEnabled => 3,
            Attr::IngressEnabled => 4,
            Attr::MaxBindCount => 5,
            Attr::MaxDeliveredUnackedMsgsPerFlow => 6,
            Attr::MaxMsgSize => 7,
            Attr::MaxMsgSpoolUsage => 8,
            Attr::MaxRedeliveryCount => 9,
            Attr::MaxTtl => 10,
            Attr::Owner => 11,
            Attr::PartitionCount => 12,
            Attr::Permission => 13,
            Attr::RejectMsgToSenderOnDiscardBehavior => 14,
            Attr::RespectTtlEnabled => 15,
        }
    }

    /// Which values the attribute may have.
    pub fn range(self) -> Range
        ensures { result ≡ range_of self }
    {
        match self {
            Attr::AccessType => Range::OneOf { words: 2 },
            Attr::DeadMsgQueue => Range::SomeName,
            Attr::EgressEnabled => Range::TrueOrFalse,
            Attr::IngressEnabled => Range::TrueOrFalse,
            Attr::MaxBindCount => Range::Between {
                least: 0,
                most: 10_000,
            },
            Attr::MaxDeliveredUnackedMsgsPerFlow => Range::Between {
                least: 1,
                most: 10_000,
            },
            Attr::MaxMsgSize => Range::Between {
                least: 0,
                most: 30_000_000,
            },
            Attr::MaxMsgSpoolUsage => Range::Between {
                least: 1,
                most: 800_000,
            },
            Attr::MaxRedeliveryCount => Range::Between {
                least: 0,
                most: 255,
            },
            Attr::MaxTtl => Range::Between {
                least: 0,
                most: 4_294_967_295,
            },
            Attr::Owner => Range::NameOrEmpty,
            Attr::PartitionCount => Range::Between { least: 0, most: 64 },
            Attr::Permission => Range::OneOf { words: 5 },
            Attr::RejectMsgToSenderOnDiscardBehavior => Range::OneOf { words: 3 },
            Attr::RespectTtlEnabled => Range::TrueOrFalse,
        }
    }
}
