// What adds nodes, and what changes the endpoints of one.
ghost use Rattle.std.specs.Prelude.{◌≡◌, ◌≢◌, ◌<◌, ℕ, List, None, Some, length, IfOk, OnOk, true};
ghost use Rattle.sp_base.specs.Topic.{levels};
ghost use Rattle.sp_tree.specs.Nodes.{Grows, HoldsSame, endpoints_of, next, place, root};
ghost use Rattle.sp_tree.specs.Path.{steps};
ghost use Rattle.sp_tree.specs.Tree.{AddsPair, has_room};

use super::Tree;
use crate::ending::Ending;
use crate::node::Node;
use sp_base::number::EndpointNo;
use sp_topic::cut::cut_level;
use sp_topic::subscription::Subscription;
use std::alloc::AllocError;

impl Tree {
    /// The root, which is made where there is none.
    pub(super) fn root_or_new(&mut self) -> Result<usize, AllocError>
        ensures root { IfOk result (λ at. root self.new ≡ Some at) }
        ensures within { IfOk result (λ at. at < length self.new) }
        ensures held { HoldsSame self.old self.new }
    {
        match self.root() {
            Some(at) => Ok(at),
            None => self.new_root(),
        }
    }

    fn new_root(&mut self) -> Result<usize, AllocError>
        requires { root self.old ≡ None }
        ensures root { IfOk result (λ at. root self.new ≡ Some at) }
        ensures within { IfOk result (λ at. at < length self.new) }
        ensures held { HoldsSame self.old self.new }
    {
        let alloc = *self.nodes.allocator();
        self.nodes.push(Node::new(alloc))?;
        Ok(0)
    }

    /// The node to which a subscription's text leads from a node on. The nodes on the way that aren't
    /// there are made; without memory some of them may be.
    pub(super) fn grow(&mut self, from: usize, text: &[u8]) -> Result<usize, AllocError>
        requires { from < length self.old }
        ensures place { IfOk result (λ at. place self.new (Some from) (steps (levels text.now)) ≡ Some at) }
        ensures within { IfOk result (λ at. at < length self.new) }
        ensures grows { Grows self.old self.new }
    {
        let cut = cut_level(text);
        if cut.is_rest() {
            return Ok(from);
        }
        let child = self.child_or_new(from, cut.level)?;
        match cut.rest {
            None => Ok(child),
            Some(more) => self.grow(child, more),
        }
    }

    fn child_or_new(&mut self, at: usize, level: &[u8]) -> Result<usize, AllocError>
        requires { at < length self.old }
        ensures next { IfOk result (λ child. next self.new at level.now ≡ Some child) }
        ensures within { IfOk result (λ child. child < length self.new) }
        ensures grows { Grows self.old self.new }
    {
        match self.nodes[at].child(level) {
            Some(child) => Ok(child),
            None => self.new_child(at, level),
        }
    }

    fn new_child(&mut self, at: usize, level: &[u8]) -> Result<usize, AllocError>
        requires within { at < length self.old }
        requires none { next self.old at level.now ≡ None }
        ensures next { IfOk result (λ child. next self.new at level.now ≡ Some child) }
        ensures within { IfOk result (λ child. child < length self.new) }
        ensures grows { Grows self.old self.new }
    {
        let alloc = *self.nodes.allocator();
        let place = self.nodes.len();
        self.nodes.reserve(1)?;
        self.nodes[at].set_child(alloc, level, place)?;
        self.nodes.push_reserved(Node::new(alloc));
        Ok(place)
    }

    /// Makes room for one endpoint more at a node.
    pub(super) fn make_room(&mut self, at: usize, ending: Ending) -> Result<(), AllocError>
        requires { at < length self.old }
        ensures held { HoldsSame self.old self.new }
        ensures room { OnOk result (0 < (endpoints_of self.new ending.rest ending.exception at).room) }
        ensures places { (levels : List (List ℕ)) → place self.new (root self.new) levels
            ≡ place self.old (root self.old) levels }
    {
        self.nodes[at].reserve(ending)
    }

    /// Puts a subscription in that room is reserved for.
    pub(super) fn add(&mut self, endpoint: EndpointNo, subscription: &Subscription)
        requires { has_room self.old subscription.now ≡ true }
        ensures pairs { AddsPair self.old self.new endpoint subscription.now }
        ensures room { (text : List ℕ) → text ≢ subscription.now →
            has_room self.old text ≡ true → has_room self.new text ≡ true }
    {
        let Some(at) = self.find(subscription) else {
            unreachable!()
        };
        self.nodes[at].add(Ending::of(subscription), endpoint);
    }
}
