ghost use Rattle.std.specs.Prelude.{◌≡◌, ◌≢◌, ◌==◌, ◌↔◌, ◌&&◌, ℕ, List, None, Some, IsOk, true, false, Contains, OnOk, OnErr, not};
ghost use Rattle.std.specs.List.Sorted.{IsStrictlyIncreasing};
ghost use Rattle.std.specs.List.{list_any};
ghost use Rattle.sp_topic.specs.Subscriptions.{takes};
ghost use Rattle.sp_tree.specs.Nodes.{has_number, next, root};
ghost use Rattle.sp_tree.specs.Tree.{AddsPair, AreTextsOf, KeepsRoom, SamePairs, Takes, TakesPairOut, has_pair, has_room};

mod grow;
mod walk;

use crate::ending::Ending;
use crate::node::Node;
use sp_base::number::EndpointNo;
use sp_base::topic::Topic;
use sp_topic::subscription::Subscription;
use std::alloc::{AllocError, Global};
use std::marker::Model;

/// The subscriptions of all endpoints, from which the endpoints that take a topic are found.
/// Contracts see which endpoint has which subscription, and which ones may be inserted without
/// memory.
#[derive(Drop)]
pub struct Tree {
    // The first is the root. A node that nothing uses any more stays.
    nodes: Vec<Node>,
}

impl Model for Tree {
    ghost use Rattle.std.specs.Prelude.{List};
    ghost use Rattle.sp_tree.specs.Nodes.{IsTree};
    ghost use Rattle.sp_tree.specs.declared.node.Node.{Node as Seen};

    ghost Value = { List Seen };

    ghost view = { λ t. t.nodes.items };

    ghost invariant = { λ t. IsTree t.nodes.items };
}

impl Tree {
    /// No subscriptions.
    #[tactic(auto, unfolding(crate::specs::Tree::has_pair))]
    pub fn new(alloc: Global) -> Tree
        ensures { (endpoint : ℕ) (text : List ℕ) → has_pair result endpoint text ≡ false }
    {
        Tree {
            nodes: Vec::new(alloc),
        }
    }

    /// Whether the endpoint has the subscription here.
    #[tactic(auto, unfolding(crate::specs::Tree::has_pair))]
    pub fn has(&self, endpoint: EndpointNo, subscription: &Subscription) -> bool
        ensures { result ≡ has_pair self.now endpoint subscription.now }
    {
        match self.find(subscription) {
            Some(at) => has_number(self.nodes[at].endpoints(Ending::of(subscription)), endpoint),
            None => false,
        }
    }

    /// Makes room, so that the next `insert` of the subscription takes no memory, for whichever
    /// endpoint. The tree holds what it held. What was reserved before for other subscriptions stays
    /// reserved until they are inserted, so that room for several can be made ahead, one after another.
    pub fn reserve(&mut self, subscription: &Subscription) -> Result<(), AllocError>
        ensures pairs { SamePairs self.old self.new }
        ensures room { OnOk result (has_room self.new subscription.now ≡ true) }
        ensures kept { KeepsRoom self.old self.new }
        ensures prepared { has_room self.old subscription.now ≡ true → IsOk result }
    {
        if self.has_room(subscription) {
            return Ok(());
        }
        let root = self.root_or_new()?;
        let end = self.grow(root, subscription.topic())?;
        self.make_room(end, Ending::of(subscription))
    }

    /// Puts a subscription of an endpoint in. With room reserved for the subscription it takes no
    /// memory. Without memory the tree holds what it held.
    pub fn insert(
        &mut self,
        endpoint: EndpointNo,
        subscription: &Subscription,
    ) -> Result<(), AllocError>
        ensures ok { OnOk result (AddsPair self.old self.new endpoint subscription.now) }
        ensures err { OnErr result (SamePairs self.old self.new) }
        ensures prepared { has_room self.old subscription.now ≡ true → IsOk result }
        ensures room { (text : List ℕ) → text ≢ subscription.now →
            has_room self.old text ≡ true → has_room self.new text ≡ true }
    {
        if self.has(endpoint, subscription) {
            return Ok(());
        }
        self.reserve(subscription)?;
        self.add(endpoint, subscription);
        Ok(())
    }

    /// Takes a subscription of an endpoint out, where it is there. It takes no memory.
    pub fn remove(&mut self, endpoint: EndpointNo, subscription: &Subscription)
        ensures pairs { TakesPairOut self.old self.new endpoint subscription.now }
        ensures room { KeepsRoom self.old self.new }
    {
        if let Some(at) = self.find(subscription) {
            self.nodes[at].remove(Ending::of(subscription), endpoint);
        }
    }

    /// Makes `into` the endpoints whose subscriptions here take the topic, each once, in rising
    /// number. What it held before plays no part, and without memory it may hold anything.
    pub fn matching(&self, topic: &Topic, into: &mut Vec<EndpointNo>) -> Result<(), AllocError>
        ensures rising { OnOk result (IsStrictlyIncreasing into.new.items) }
        ensures endpoints { OnOk result
            ((e : ℕ) → Contains into.new.items e ↔ Takes self.now e topic.now) }

        // The same as a test, for any list of the texts that the tree holds for an endpoint.
        ensures by_texts { OnOk result
            ((e : ℕ) (texts : List (List ℕ)) → AreTextsOf self.now e texts →
            list_any (λ n. n == e) into.new.items ≡ takes texts topic.now) }
    {
        let mut excepted = Vec::new(*into.allocator());
        self.select(topic, true, &mut excepted)?;
        self.select(topic, false, into)?;
        keep(into, excepted.as_slice());
        Ok(())
    }
}

/// Puts numbers in rising order, each once, without the excepted ones.
fn keep(numbers: &mut Vec<EndpointNo>, excepted: &[EndpointNo])
    ensures rising { IsStrictlyIncreasing numbers.new.items }
    ensures numbers { (e : ℕ) → has_number numbers.new.items e
        ≡ (has_number numbers.old.items e && not (has_number excepted.now e)) }
{
    numbers.sort_unstable();
    numbers.dedup();
    numbers.retain(|number| !has_number(excepted, *number));
}

fn has_number(endpoints: &[EndpointNo], endpoint: EndpointNo) -> bool
    ensures { result ≡ has_number endpoints.now endpoint }
{
    endpoints.iter().any(|n| *n == endpoint)
}
