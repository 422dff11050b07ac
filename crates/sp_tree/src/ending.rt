ghost use Rattle.std.specs.Prelude.{◌≡◌};
ghost use Rattle.sp_base.specs.Topic.{levels};
ghost use Rattle.sp_topic.specs.Subscription.{is_exception, topic_of};
ghost use Rattle.sp_tree.specs.Path.{ends_in_rest};

use sp_topic::cut::cut_level;
use sp_topic::subscription::Subscription;

/// How a subscription ends at a node.
#[derive(Clone, Copy)]
pub struct Ending {
    /// Whether the node's level is followed by a last `>`.
    pub rest: bool,
    pub exception: bool,
}

impl Ending {
    pub fn of(subscription: &Subscription) -> Ending
        ensures rest { result.rest ≡ ends_in_rest (levels (topic_of subscription.now)) }
        ensures exception { result.exception ≡ is_exception subscription.now }
    {
        Ending {
            rest: ends_in_rest(subscription.topic()),
            exception: subscription.is_exception(),
        }
    }
}

fn ends_in_rest(text: &[u8]) -> bool
    ensures { result ≡ ends_in_rest (levels text.now) }
{
    let cut = cut_level(text);
    if cut.is_rest() {
        return true;
    }
    match cut.rest {
        None => false,
        Some(more) => ends_in_rest(more),
    }
}
