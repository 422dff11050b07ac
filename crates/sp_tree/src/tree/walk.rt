// The ways through the nodes: that of a subscription, and all those that a topic matches.
ghost use Rattle.std.specs.Prelude.{◌≡◌, ◌<◌, ◌||◌, ◌+◌, ℕ, None, [], length, IfSome, OnOk, true};
ghost use Rattle.std.specs.Option.{option_map_or};
ghost use Rattle.sp_base.specs.Topic.{levels};
ghost use Rattle.sp_topic.specs.Subscription.{topic_of};
ghost use Rattle.sp_tree.specs.Nodes.{IsTree, finds, has_number, place, root};
ghost use Rattle.sp_tree.specs.Path.{steps};
ghost use Rattle.sp_tree.specs.Tree.{has_room};

use super::Tree;
use crate::ending::Ending;
use sp_base::number::EndpointNo;
use sp_base::topic::Topic;
use sp_topic::cut::cut_level;
use sp_topic::subscription::Subscription;
use std::alloc::AllocError;

impl Tree {
    pub(super) fn root(&self) -> Option<usize>
        ensures value { result ≡ root self.now }
        ensures within { IfSome result (λ at. at < length self.now) }
        ensures tree { IsTree self.now }
    {
        if self.nodes.is_empty() {
            return None;
        }
        Some(0)
    }

    /// The node at which a subscription ends.
    pub(super) fn find(&self, subscription: &Subscription) -> Option<usize>
        ensures value { result ≡ place self.now (root self.now) (steps (levels (topic_of subscription.now))) }
        ensures within { IfSome result (λ at. at < length self.now) }
    {
        self.follow(self.root(), subscription.topic())
    }

    fn follow(&self, from: Option<usize>, text: &[u8]) -> Option<usize>
        requires { IfSome from (λ at. at < length self.now) }
        ensures value { result ≡ place self.now from (steps (levels text.now)) }
        ensures within { IfSome result (λ at. at < length self.now) }
    {
        let cut = cut_level(text);
        if cut.is_rest() {
            return from;
        }
        let child = self.nodes[from?].child(cut.level);
        match cut.rest {
            None => child,
            Some(more) => self.follow(child, more),
        }
    }

    /// Whether the next insert of the subscription takes no memory.
    pub(super) fn has_room(&self, subscription: &Subscription) -> bool
        ensures { result ≡ has_room self.now subscription.now }
    {
        match self.find(subscription) {
            Some(at) => self.nodes[at].room(Ending::of(subscription)) > 0,
            None => false,
        }
    }

    /// Makes `into` the endpoints of the plain subscriptions, or of the exceptions, that match a topic,
    /// some more than once.
    pub(super) fn select(
        &self,
        topic: &Topic,
        exception: bool,
        into: &mut Vec<EndpointNo>,
    ) -> Result<(), AllocError>
        ensures found { OnOk result ((e : ℕ) → has_number into.new.items e
            ≡ finds self.now exception (root self.now) (levels topic.now) e) }
        ensures tree { IsTree self.now }
    {
        into.clear();
        self.collect(self.root(), Some(topic.as_bytes()), exception, into)
    }

    /// Adds the endpoints of the plain subscriptions, or of the exceptions, from a node on that match
    /// what is left of a topic, where a level is left.
    fn collect(
        &self,
        from: Option<usize>,
        topic: Option<&[u8]>,
        exception: bool,
        into: &mut Vec<EndpointNo>,
    ) -> Result<(), AllocError>
        requires { IfSome from (λ at. at < length self.now) }
        ensures { OnOk result ((e : ℕ) → has_number into.new.items e
            ≡ (has_number into.old.items e
            || finds self.now exception from (option_map_or (λ t. levels t.now) topic.entry []) e)) }
    {
        let Some(at) = from else {
            return Ok(());
        };
        let node = &self.nodes[at];
        let Some(text) = topic else {
            into.extend_from_slice(node.endpoints(Ending {
                rest: false,
                exception,
            }))?;
            return Ok(());
        };
        into.extend_from_slice(node.endpoints(Ending {
            rest: true,
            exception,
        }))?;
        let cut = cut_level(text);
        self.collect(node.by_text.get(cut.level), cut.rest, exception, into)?;
        for len in 0..cut.level.len() + 1 {
            let child = node.by_prefix.get(&cut.level[..len]);
            self.collect(child, cut.rest, exception, into)?;
        }
        Ok(())
    }
}
