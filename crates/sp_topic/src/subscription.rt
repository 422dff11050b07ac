ghost use Rattle.std.specs.Prelude.{◌≡◌, ◌≤◌, ◌<◌, ◌↔◌, ◌∷◌, ℕ, length, string_bytes, bytes_eq, false, IfSome, IfNone, IfOk, OnOk};
ghost use Rattle.sp_topic.specs.Subscription.{IsSubscription, is_exception, subscription_fault, topic_of};
ghost use Rattle.sp_topic.specs.Matching.{matches, selects, excepts};

use crate::matching::texts_match;
use sp_base::topic::{Topic, topic_text};
use std::alloc::{AllocError, Global};
use std::marker::Model;
use thiserror::Error;

/// Why no subscription was read.
#[derive(Debug, Drop, Error)]
pub enum SubscriptionError {
    /// The topic is none, by the rule for topics. `at` counts in the whole text, so it is one more
    /// for an exception.
    #[error("no subscription, by the byte at {at}")]
    Bad { at: u64 },
    #[error("want of memory")]
    Memory,
}

impl From<AllocError> for SubscriptionError {
    ghost use Rattle.sp_topic.specs.declared.subscription.SubscriptionError.TheVariants.{Memory};
    ghost use Rattle.std.specs.Prelude.{◌≡◌};

    ghost from_gives = { λ _ e. e ≡ Memory };

    fn from(_: AllocError) -> Self {
        SubscriptionError::Memory
    }
}

/// A subscription: a topic, in which `*` at the end of a level and `>` alone as the last level stand
/// for more, or an exception, which is such a topic after a `!`.
#[derive(Debug, Drop)]
pub struct Subscription {
    text: String,
}

impl Model for Subscription {
    ghost use Rattle.std.specs.Prelude.{List, ℕ, string_bytes};
    ghost use Rattle.sp_topic.specs.Subscription.{IsSubscription};

    ghost Value = { List ℕ };

    ghost view = { λ s. string_bytes s.text };

    ghost invariant = { λ s. IsSubscription (string_bytes s.text) };
}

impl Subscription {
    /// The subscription that the bytes are. Bad exactly where they break the rule above.
    pub fn read(alloc: Global, bytes: &[u8]) -> Result<Subscription, SubscriptionError>
        ensures ok { IfOk result (λ s. s ≡ bytes.now) }
        ensures form { OnOk result (IsSubscription bytes.now) }
        ensures bad { (at : ℕ) → (result ≡ Err (SubscriptionError.Bad at))
            ↔ (subscription_fault bytes.now ≡ Some at) }
    {
        match after_mark(bytes) {
            Some(topic) => Subscription::read_exception(alloc, topic),
            None => Subscription::read_plain(alloc, bytes),
        }
    }

    #[tactic(auto, using(crate::proofs::SubscriptionFaults::fault_plain))]
    fn read_plain(alloc: Global, bytes: &[u8]) -> Result<Subscription, SubscriptionError>
        requires { is_exception bytes.now ≡ false }
        ensures ok { IfOk result (λ s. s ≡ bytes.now) }
        ensures form { OnOk result (IsSubscription bytes.now) }
        ensures bad { (at : ℕ) → (result ≡ Err (SubscriptionError.Bad at))
            ↔ (subscription_fault bytes.now ≡ Some at) }
    {
        match topic_text(bytes) {
            Ok(topic) => Ok(Subscription {
                text: String::from_str(alloc, topic)?,
            }),
            Err(at) => Err(SubscriptionError::Bad { at }),
        }
    }

    /// The exception for a topic.
    #[tactic(auto, using(crate::proofs::SubscriptionFaults::exception_good, crate::proofs::SubscriptionFaults::exception_bad))]
    fn read_exception(alloc: Global, topic: &[u8]) -> Result<Subscription, SubscriptionError>
        ensures ok { IfOk result (λ s. s ≡ 33 ∷ topic.now) }
        ensures form { OnOk result (IsSubscription (33 ∷ topic.now)) }
        ensures bad { (at : ℕ) → (result ≡ Err (SubscriptionError.Bad at))
            ↔ (subscription_fault (33 ∷ topic.now) ≡ Some at) }
    {
        match topic_text(topic) {
            Ok(topic) => Ok(Subscription {
                text: exception_text(alloc, topic)?,
            }),
            Err(at) => Err(SubscriptionError::Bad { at: at + 1 }),
        }
    }

    /// A second subscription with the same bytes.
    pub fn copy(&self, alloc: Global) -> Result<Subscription, AllocError>
        ensures { IfOk result (λ s. s ≡ self.now) }
    {
        Ok(Subscription {
            text: String::from_str(alloc, self.text.as_str())?,
        })
    }

    /// The whole text, with the `!` of an exception.
    pub fn as_str(&self) -> &str
        ensures { result.now ≡ self.now }
    {
        self.text.as_str()
    }

    /// The text's bytes, which keep the rule.
    #[tactic(auto, using(crate::proofs::SubscriptionFaults::subscription_some, crate::proofs::SubscriptionFaults::subscription_bound))]
    pub fn as_bytes(&self) -> &[u8]
        ensures value { result.now ≡ self.now }
        ensures form { IsSubscription self.now }
        ensures some { 0 < length self.now }
        ensures bound { length self.now ≤ 251 }
    {
        self.text.as_str().as_bytes()
    }

    /// Whether both have the same bytes.
    pub fn same(&self, other: &Subscription) -> bool
        ensures { result ≡ bytes_eq self.now other.now }
    {
        self.text.as_str() == other.text.as_str()
    }

    /// Whether it begins with `!`.
    pub fn is_exception(&self) -> bool
        ensures { result ≡ is_exception self.now }
    {
        after_mark(self.text.as_str().as_bytes()).is_some()
    }

    /// The topic that it names, which an exception has after its `!`.
    pub fn topic(&self) -> &[u8]
        ensures { result.now ≡ topic_of self.now }
    {
        topic_of(self.text.as_str().as_bytes())
    }

    /// Whether it matches the topic. An exception is read without its `!`.
    #[tactic(auto, unfolding(crate::specs::Matching::matches))]
    pub fn matches(&self, topic: &Topic) -> bool
        ensures { result ≡ matches self.now topic.now }
    {
        texts_match(self.topic(), topic.as_bytes())
    }

    /// Whether it is plain and matches the topic.
    pub fn selects(&self, topic: &Topic) -> bool
        ensures { result ≡ selects self.now topic.now }
    {
        !self.is_exception() && self.matches(topic)
    }

    /// Whether it is an exception and matches the topic.
    pub fn excepts(&self, topic: &Topic) -> bool
        ensures { result ≡ excepts self.now topic.now }
    {
        self.is_exception() && self.matches(topic)
    }
}

/// The topic in a subscription's text.
fn topic_of(text: &[u8]) -> &[u8]
    ensures { result.now ≡ topic_of text.now }
{
    match after_mark(text) {
        Some(topic) => topic,
        None => text,
    }
}

/// What follows the `!` of an exception.
fn after_mark(text: &[u8]) -> Option<&[u8]>
    ensures exception { IfSome result (λ topic. text.now ≡ 33 ∷ topic.now) }
    ensures plain { IfNone result (is_exception text.now ≡ false) }
{
    text.strip_prefix(b"!")
}

/// An exception's text.
fn exception_text(alloc: Global, topic: &str) -> Result<String, AllocError>
    ensures { IfOk result (λ text. string_bytes text ≡ 33 ∷ topic.now) }
{
    let mut text = String::from_str(alloc, "!")?;
    text.push_str(topic)?;
    Ok(text)
}
