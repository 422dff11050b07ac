ghost use Rattle.std.specs.Prelude.{◌≡◌, ◌≤◌, ◌<◌, ◌↔◌, ◌+◌, ◌++◌, ◌∷◌, [], None, Some, if◌then◌else◌, is_some, IfSome, MatchOption, map, length, option_map, option_copied, IsOk, OnOk, OnSome, List, ℕ};
ghost use Rattle.sp_chain.specs.Items.{IsLast, Item, Walks, chain_of, item_at, first_in, inserted_before, next_after, without, with_value};
ghost use Rattle.sp_chain.specs.Kept.{Stands};

use crate::links::{
    before_of, ends_of, open_below, past, set_before, set_behind, set_ends, set_value,
};
use crate::node::{Ends, Key, Node};
use slab::Slab;
use std::alloc::{AllocError, Global};
use std::marker::Model;

/// Many chains of values in one slab, numbered from 0 on. Each value stands under a key of its own
/// until it is taken out; after that the key may be given to another value. Only `reserve` takes
/// memory, and no other call's time depends on how many values there are. Contracts say, for every
/// list of items that the chains stand for, which list they stand for afterwards. The list gives the
/// order within each chain; how values of different chains lie to one another is not kept.
#[derive(Drop)]
pub struct Chains<T> {
    nodes: Slab<Node<T>>,
    ends: Vec<Ends>,
}

impl<T> Model for Chains<T> {
    ghost use Rattle.std.specs.Prelude.{◌-◌};
    ghost use Rattle.slab.specs.Slab.{slab_len};
    ghost use Rattle.sp_chain.specs.Kept.{Kept};

    ghost Value = { Kept T };

    ghost view = { λ c. record { nodes = c.nodes.slots; ends = c.ends.items; room = c.nodes.capacity - slab_len c.nodes; capacity = c.nodes.capacity } };
}

impl<T> Chains<T> {
    /// No chains.
    pub fn new(alloc: Global) -> Chains<T>
        ensures { Stands result [] }
    {
        Chains {
            nodes: Slab::new(alloc),
            ends: Vec::new(alloc),
        }
    }

    /// How many more values there is room for.
    pub fn room(&self) -> usize
        ensures { result ≡ self.now.room }
    {
        self.nodes.capacity() - self.nodes.len()
    }

    /// The bound of the keys: each is below it.
    pub fn capacity(&self) -> usize
        ensures { result ≡ self.now.capacity }
    {
        self.nodes.capacity()
    }

    /// How many chains there are: their numbers are those below it.
    pub fn chains(&self) -> usize
        ensures { result ≡ length self.now.ends }
    {
        self.ends.len()
    }

    /// The key of a chain's first value. None where the chain has none, or there is no such chain.
    pub fn first(&self, chain: usize) -> Option<Key>
        ensures { (L : List (Item T)) → Stands self.now L → result ≡ first_in L chain }
    {
        ends_of(&self.ends, chain).first
    }

    /// The key of the next value of the same chain. None after the last, and where there is no value
    /// under the key.
    pub fn after(&self, key: Key) -> Option<Key>
        ensures { (L : List (Item T)) → Stands self.now L → result ≡ next_after L key }
    {
        self.nodes.get(key)?.behind
    }

    /// The key of a chain's last value. None where the chain has none, or there is no such chain.
    pub fn last(&self, chain: usize) -> Option<Key>
        ensures { (L : List (Item T)) → Stands self.now L → (key : ℕ) → (result ≡ Some key) ↔ IsLast L chain key }
    {
        ends_of(&self.ends, chain).last
    }

    /// The key of the value of the same chain that comes right before. None before the first, and
    /// where there is no value under the key.
    pub fn before(&self, key: Key) -> Option<Key>
        ensures { (L : List (Item T)) → Stands self.now L →
            (other : ℕ) → (result ≡ Some other) ↔ (next_after L other ≡ Some key) }
    {
        before_of(&self.nodes, key)
    }

    /// The value under a key. None where there is none.
    pub fn get(&self, key: Key) -> Option<&T>
        ensures { (L : List (Item T)) → Stands self.now L →
            option_copied result ≡ option_map (λ x. x.value) (item_at L key) }
    {
        match self.nodes.get(key) {
            Some(node) => Some(&node.value),
            None => None,
        }
    }

    /// From `first` on, `after` leads through the chain's values in their order, and no others.
    pub fn walks(&self, chain: usize)
        ensures { (L : List (Item T)) → Stands self.now L →
            Walks (first_in L chain) (next_after L) (map (λ x. x.key) (chain_of L chain)) }
    {}

    /// Appends a value to a chain where room is reserved, and gives the key under which it stands.
    pub fn append(&mut self, chain: usize, value: T) -> Key
        requires chain { chain < length self.old.ends }
        requires room { 0 < self.old.room }
        ensures items { (L : List (Item T)) → Stands self.old L →
            Stands self.new (L ++ record { key = result; chain = chain; value = value } ∷ []) }
        ensures fresh { (L : List (Item T)) → Stands self.old L → item_at L result ≡ None }
        ensures bound { result < self.new.capacity }
        ensures capacity { self.new.capacity ≡ self.old.capacity }
        ensures room { self.old.room ≡ self.new.room + 1 }
        ensures chains { length self.new.ends ≡ length self.old.ends }
    {
        let ends = ends_of(&self.ends, chain);
        let key = self.nodes.insert_reserved(Node {
            chain,
            value,
            before: ends.last,
            behind: None,
        });
        set_behind(&mut self.nodes, ends.last, Some(key));
        let first = ends.first.or(Some(key));
        set_ends(
            &mut self.ends,
            chain,
            Ends {
                first,
                last: Some(key),
            },
        );
        key
    }

    /// Puts a value right before the one under a key, in the same chain, where room is reserved, and
    /// gives the key under which it stands. None where there is no value under that key; then nothing
    /// changes.
    pub fn insert_before(&mut self, next: Key, value: T) -> Option<Key>
    where
        T: Drop,
        requires room { 0 < self.old.room }
        ensures none { (L : List (Item T)) → Stands self.old L → (result ≡ None) ↔ (item_at L next ≡ None) }
        ensures items { (L : List (Item T)) → Stands self.old L →
            MatchOption result (Stands self.new L) (λ key. Stands self.new (inserted_before L next key value)) }
        ensures fresh { (L : List (Item T)) → Stands self.old L → IfSome result (λ key. item_at L key ≡ None) }
        ensures bound { IfSome result (λ key. key < self.new.capacity) }
        ensures capacity { self.new.capacity ≡ self.old.capacity }
        ensures room { self.old.room ≡ self.new.room + (if is_some result then 1 else 0) }
        ensures chains { length self.new.ends ≡ length self.old.ends }
    {
        let node = self.nodes.get(next)?;
        let chain = node.chain;
        let before = node.before;
        let key = self.nodes.insert_reserved(Node {
            chain,
            value,
            before,
            behind: Some(next),
        });
        set_behind(&mut self.nodes, before, Some(key));
        set_before(&mut self.nodes, Some(next), Some(key));
        let ends = ends_of(&self.ends, chain);
        let first = past(ends.first, next, Some(key));
        set_ends(
            &mut self.ends,
            chain,
            Ends {
                first,
                last: ends.last,
            },
        );
        Some(key)
    }

    /// Takes the value under a key out, and gives back its room. None where there is none; then
    /// nothing changes.
    pub fn remove(&mut self, key: Key) -> Option<T>
        ensures value { (L : List (Item T)) → Stands self.old L →
            result ≡ option_map (λ x. x.value) (item_at L key) }
        ensures items { (L : List (Item T)) → Stands self.old L → Stands self.new (without L key) }
        ensures room { OnSome result (self.new.room ≡ self.old.room + 1) }
        ensures kept { self.old.room ≤ self.new.room }
        ensures capacity { self.new.capacity ≡ self.old.capacity }
        ensures chains { length self.new.ends ≡ length self.old.ends }
    {
        let node = self.nodes.try_remove(key)?;
        set_behind(&mut self.nodes, node.before, node.behind);
        set_before(&mut self.nodes, node.behind, node.before);
        let ends = ends_of(&self.ends, node.chain);
        let first = past(ends.first, key, node.behind);
        let last = past(ends.last, key, node.before);
        set_ends(&mut self.ends, node.chain, Ends { first, last });
        Some(node.value)
    }

    /// Puts another value in the place of the one under a key, and gives that back. None where there
    /// is none; then nothing changes.
    pub fn replace(&mut self, key: Key, value: T) -> Option<T>
    where
        T: Drop,
        ensures value { (L : List (Item T)) → Stands self.old L →
            result ≡ option_map (λ x. x.value) (item_at L key) }
        ensures items { (L : List (Item T)) → Stands self.old L → Stands self.new (with_value L key value) }
        ensures room { self.new.room ≡ self.old.room }
        ensures capacity { self.new.capacity ≡ self.old.capacity }
        ensures chains { length self.new.ends ≡ length self.old.ends }
    {
        set_value(&mut self.nodes, key, value)
    }

    /// Makes room for `nodes` more values, and chains of the numbers below `chains`. The values stay
    /// as they were, also without memory. Where the room and the chains are there, it takes none.
    pub fn reserve(&mut self, nodes: usize, chains: usize) -> Result<(), AllocError>
        ensures items { (L : List (Item T)) → Stands self.old L → Stands self.new L }
        ensures room { OnOk result (nodes ≤ self.new.room) }
        ensures kept { self.old.room ≤ self.new.room }
        ensures capacity { self.old.capacity ≤ self.new.capacity }
        ensures chains { OnOk result (chains ≤ length self.new.ends) }
        ensures prepared { nodes ≤ self.old.room → chains ≤ length self.old.ends → IsOk result }
        ensures chains_kept { length self.old.ends ≤ length self.new.ends }
    {
        if nodes <= self.room() && chains <= self.chains() {
            return Ok(());
        }
        self.nodes.reserve(nodes)?;
        open_below(&mut self.ends, chains)
    }
}
