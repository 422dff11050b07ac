ghost use Rattle.std.specs.Prelude.{◌≡◌};
ghost use Rattle.sp_config.specs.Settings.{has_partitions, is_allowed};

use crate::attr::Attr;
use crate::value::AttrValue;
use sp_base::choice::Choice;

/// What an endpoint is.
#[derive(Clone, Copy, Debug, PartialEq, Eq)]
pub enum EndpointKind {
    /// It takes the messages that are sent to its name and those on the topics that it subscribes to.
    Queue,
    /// It takes the messages on the one topic that a flow binds it with.
    TopicEndpoint,
}

impl Choice for EndpointKind {
    ghost use Rattle.std.specs.Prelude.{refl};
    ghost use Rattle.sp_config.specs.declared.kind.EndpointKind.TheVariants.{Queue, TopicEndpoint};
    ghost use Rattle.sp_config.specs.Choices.{endpoint_kind_word, endpoint_kinds};

    ghost word_of = { endpoint_kind_word };

    ghost choices = { endpoint_kinds };

    fn word(self) -> &'static str {
        match self {
            EndpointKind::Queue => "queue",
            EndpointKind::TopicEndpoint => "topic-endpoint",
        }
    }

    fn all() -> &'static [EndpointKind] {
        &[EndpointKind::Queue, EndpointKind::TopicEndpoint]
    }

    ghost each_by_its_word = { elim [ Queue ↦ refl | TopicEndpoint ↦ refl ] };
}

impl EndpointKind {
    /// Whether an endpoint of the kind may have the value: it is in the attribute's range, and a topic
    /// endpoint has no partitions.
    pub fn allows(self, attr: Attr, value: &AttrValue) -> bool
        ensures { result ≡ is_allowed self attr value.now }
    {
        match self {
            EndpointKind::Queue => attr.range().has(value),
            EndpointKind::TopicEndpoint => attr.range().has(value) && !has_partitions(attr, value),
        }
    }
}

fn has_partitions(attr: Attr, value: &AttrValue) -> bool
    ensures { result ≡ has_partitions attr value.now }
{
    match (attr, value) {
        (Attr::PartitionCount, AttrValue::Whole(n)) => *n > 0,
        _ => false,
    }
}
