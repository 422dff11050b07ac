// The texts of all endpoints in one tree.
ghost use Rattle.std.specs.Prelude.{◌≡◌, ℕ, None, Some, Option, IfSome, true};
ghost use Rattle.std.specs.Option.{option_copied};
ghost use Rattle.sp_endpoint.specs.Endpoint.{EndpointView};
ghost use Rattle.sp_endpoint.specs.Index.{ChangesOne, IsIndexed, is_plain, texts_of};

use crate::endpoint::Endpoint;
use crate::renewal::{renew, reserve_new};
use sp_base::number::EndpointNo;
use sp_topic::subscription::Subscription;
use sp_tree::tree::Tree;
use std::alloc::{AllocError, Global};
use std::marker::Model;

/// The tree in which the takers of a topic are looked up, as long as it is there. It goes where a
/// change can't be brought in for want of memory, which doesn't happen where room was reserved, and
/// where the topic of a topic endpoint is an exception.
#[derive(Drop)]
pub struct Index {
    tree: Option<Tree>,
}

impl Model for Index {
    ghost use Rattle.std.specs.Prelude.{List, Option};
    ghost use Rattle.sp_tree.specs.declared.node.Node.{Node};

    ghost Value = { Option (List Node) };

    ghost view = { λ i. i.tree };
}

impl Index {
    /// The index of no endpoints.
    pub fn new(alloc: Global) -> Index
        ensures { IsIndexed result (λ number. None) }
    {
        Index {
            tree: Some(Tree::new(alloc)),
        }
    }

    pub fn tree(&self) -> Option<&Tree>
        ensures { option_copied result ≡ self.now }
    {
        self.tree.as_ref()
    }

    /// Makes room for the texts that come in the place of others. Without memory the index is what it
    /// was.
    pub fn reserve(&mut self, from: &[Subscription], to: &[Subscription]) -> Result<(), AllocError>
        ensures { (at : ℕ → Option EndpointView) → IsIndexed self.old at → IsIndexed self.new at }
    {
        match &mut self.tree {
            None => Ok(()),
            Some(tree) => reserve_new(tree, from, to),
        }
    }

    /// Brings an endpoint in, in the place of the one of its number, which had these texts.
    pub fn put(&mut self, from: &[Subscription], endpoint: &Endpoint)
        ensures { (at after : ℕ → Option EndpointView) → texts_of (at endpoint.now.number) ≡ from.now →
            ChangesOne endpoint.now.number (Some endpoint.now) at after →
            IsIndexed self.old at → IsIndexed self.new after }
    {
        if !endpoint.is_plain() {
            self.tree = None;
            return;
        }
        self.change(endpoint.number, from, endpoint.texts());
    }

    /// Takes the endpoint of a number out, which had these texts.
    pub fn remove(&mut self, number: EndpointNo, from: &[Subscription])
        ensures { (at after : ℕ → Option EndpointView) → texts_of (at number) ≡ from.now →
            ChangesOne number None at after → IsIndexed self.old at → IsIndexed self.new after }
    {
        self.change(number, from, &[]);
    }

    fn change(&mut self, number: EndpointNo, from: &[Subscription], to: &[Subscription])
        ensures { (at after : ℕ → Option EndpointView) (new : Option EndpointView) →
            texts_of (at number) ≡ from.now → texts_of new ≡ to.now →
            IfSome new (λ e. is_plain e.kind e ≡ true) → ChangesOne number new at after →
            IsIndexed self.old at → IsIndexed self.new after }
    {
        let Some(tree) = &mut self.tree else {
            return;
        };
        match renew(tree, number, from, to) {
            Ok(()) => {}
            Err(_) => self.tree = None,
        }
    }
}
