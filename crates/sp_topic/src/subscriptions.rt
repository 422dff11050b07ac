ghost use Rattle.std.specs.Prelude.{◌≡◌, ◌≤◌, ◌<◌, ◌+◌, ◌↔◌, ◌++◌, ◌∷◌, ◌&&◌, [], ℕ, List, not, true, false, bytes_eq, filter, length, IfOk, OnOk, OnErr};
ghost use Rattle.std.specs.List.{list_any};
ghost use Rattle.sp_topic.specs.Matching.{excepts, selects};
ghost use Rattle.sp_topic.specs.Subscriptions.{has_text, takes};

use crate::subscription::Subscription;
use sp_base::topic::Topic;
use std::alloc::{AllocError, Global};
use std::marker::Model;
use thiserror::Error;

/// How many subscriptions an endpoint may have.
pub const MOST_SUBSCRIPTIONS: usize = 100;

/// Why a subscription was not added.
#[derive(Debug, Drop, Error)]
pub enum AddError {
    /// The same text is there.
    #[error("the subscription is there")]
    Exists,
    /// As many are there as may be.
    #[error("no more than 100 subscriptions")]
    Full,
    #[error("want of memory")]
    Memory,
}

/// The subscriptions of one endpoint, in the order in which they were added: at most 100, of which
/// none is added twice. Contracts see their texts, and the room that is reserved for more.
#[derive(Debug, Drop)]
pub struct Subscriptions {
    rows: Vec<Subscription>,
}

impl Model for Subscriptions {
    ghost use Rattle.std.specs.Prelude.{ℕ, List, ◌-◌, ◌≤◌, vec_len};
    ghost use Rattle.std.specs.Vec.{vec_capacity};
    ghost use Rattle.sp_base.specs.Rows.{Roomy};

    ghost Value = { Roomy (List ℕ) };

    ghost view = { λ s. record { items = s.rows.items; room = vec_capacity s.rows - vec_len s.rows } };

    ghost invariant = { λ s. vec_len s.rows ≤ 100 };
}

impl Subscriptions {
    /// No subscriptions.
    pub fn new(alloc: Global) -> Subscriptions
        ensures { result.items ≡ [] }
    {
        Subscriptions {
            rows: Vec::new(alloc),
        }
    }

    /// The subscriptions in the order in which they were added.
    pub fn as_slice(&self) -> &[Subscription]
        ensures value { result.now ≡ self.now.items }
        ensures bound { length self.now.items ≤ 100 }
    {
        self.rows.as_slice()
    }

    /// How many there are.
    pub fn len(&self) -> usize
        ensures value { result ≡ length self.now.items }
        ensures bound { result ≤ 100 }
    {
        self.rows.len()
    }

    /// Whether the same text is there.
    pub fn has(&self, subscription: &Subscription) -> bool
        ensures { result ≡ has_text self.now.items subscription.now }
    {
        self.rows.iter().any(|s| s.same(subscription))
    }

    /// Second subscriptions with the same texts in the same order.
    pub fn copy(&self, alloc: Global) -> Result<Subscriptions, AllocError>
        ensures { IfOk result (λ s. s.items ≡ self.now.items) }
    {
        Ok(Subscriptions {
            rows: copy_all(alloc, self.rows.as_slice())?,
        })
    }

    /// Makes room, so that the next `add` takes no memory. The subscriptions stay as they were.
    pub fn reserve(&mut self) -> Result<(), AllocError>
        ensures items { self.new.items ≡ self.old.items }
        ensures room { OnOk result (0 < self.new.room) }
        ensures kept { self.old.room ≤ self.new.room }
    {
        self.rows.reserve(1)
    }

    /// Appends a subscription, unless the same text is there or as many are there as may be. With
    /// room reserved it takes no memory.
    pub fn add(&mut self, subscription: Subscription) -> Result<(), AddError>
        ensures ok { OnOk result (self.new.items ≡ self.old.items ++ subscription ∷ []) }
        ensures err { OnErr result (self.new.items ≡ self.old.items) }
        ensures exists { (result ≡ Err AddError.Exists) ↔ (has_text self.old.items subscription ≡ true) }
        ensures full { (result ≡ Err AddError.Full)
            ↔ ((has_text self.old.items subscription ≡ false) × (length self.old.items ≡ 100)) }
        ensures memory { result ≡ Err AddError.Memory → self.old.room ≡ 0 }
        ensures spent { self.old.room ≤ self.new.room + 1 }
        ensures unspent { OnErr result (self.old.room ≤ self.new.room) }
    {
        if self.has(&subscription) {
            return Err(AddError::Exists);
        }
        if self.rows.len() >= MOST_SUBSCRIPTIONS {
            return Err(AddError::Full);
        }
        match self.rows.push(subscription) {
            Ok(()) => Ok(()),
            Err(_) => Err(AddError::Memory),
        }
    }

    /// Takes the text out, and answers whether it was there. The others keep their order.
    pub fn remove(&mut self, subscription: &Subscription) -> bool
        ensures found { result ≡ has_text self.old.items subscription.now }
        ensures items { self.new.items ≡ filter (λ s. not (bytes_eq s subscription.now)) self.old.items }
        ensures texts { (text : List ℕ) → has_text self.new.items text
            ≡ (has_text self.old.items text && not (bytes_eq text subscription.now)) }
        ensures room { self.old.room ≤ self.new.room }
    {
        let found = self.has(subscription);
        self.rows.retain(|s| !s.same(subscription));
        found
    }

    /// Whether some plain subscription matches the topic and no exception does. The order in which
    /// they were added plays no part.
    pub fn takes(&self, topic: &Topic) -> bool
        ensures { result ≡ takes self.now.items topic.now }
    {
        self.selects(topic) && !self.excepts(topic)
    }

    /// Whether some plain subscription matches the topic.
    fn selects(&self, topic: &Topic) -> bool
        ensures { result ≡ list_any (λ s. selects s topic.now) self.now.items }
    {
        self.rows.iter().any(|s| s.selects(topic))
    }

    /// Whether some exception matches the topic.
    fn excepts(&self, topic: &Topic) -> bool
        ensures { result ≡ list_any (λ s. excepts s topic.now) self.now.items }
    {
        self.rows.iter().any(|s| s.excepts(topic))
    }
}

fn copy_all(alloc: Global, rows: &[Subscription]) -> Result<Vec<Subscription>, AllocError>
    ensures { IfOk result (λ v. v.items ≡ rows.now) }
{
    let mut copies = Vec::new(alloc);
    for subscription in rows {
        copies.push(subscription.copy(alloc)?)?;
    }
    Ok(copies)
}
