ghost use Rattle.std.specs.Prelude.{◌≡◌, ◌≤◌, ◌<◌, ◌↔◌, ℕ, length, bytes_eq, IfOk, OnOk, IfErr, IfSome};
ghost use Rattle.sp_base.specs.Topic.{IsTopic, topic_fault, slash_after};

use std::alloc::{AllocError, Global};
use std::marker::Model;
use thiserror::Error;

/// Why no topic was read.
#[derive(Debug, Drop, Error)]
pub enum TopicError {
    /// `at` is 0 for no bytes, 250 for more than 250, and else the offset of the first byte that is
    /// not UTF-8, or of the slash that begins level 129. The first of these that applies counts.
    #[error("no topic, by the byte at {at}")]
    Bad { at: u64 },
    #[error("want of memory")]
    Memory,
}

impl From<AllocError> for TopicError {
    ghost use Rattle.sp_base.specs.declared.topic.TopicError.TheVariants.{Memory};
    ghost use Rattle.std.specs.Prelude.{◌≡◌};

    ghost from_gives = { λ _ e. e ≡ Memory };

    fn from(_: AllocError) -> Self {
        TopicError::Memory
    }
}

/// A topic: 1 to 250 bytes of UTF-8. Its levels are the pieces between its slashes, of which there
/// are at most 128. They may be empty.
#[derive(Debug, Drop)]
pub struct Topic {
    text: String,
}

impl Model for Topic {
    ghost use Rattle.std.specs.Prelude.{List, ℕ, string_bytes};
    ghost use Rattle.sp_base.specs.Topic.{IsTopic};

    ghost Value = { List ℕ };

    ghost view = { λ t. string_bytes t.text };

    ghost invariant = { λ t. IsTopic (string_bytes t.text) };
}

impl Topic {
    /// The topic that the bytes are. Bad exactly where they break the rule above.
    pub fn read(alloc: Global, bytes: &[u8]) -> Result<Topic, TopicError>
        ensures ok { IfOk result (λ topic. topic ≡ bytes.now) }
        ensures form { OnOk result (IsTopic bytes.now) }
        ensures bad { (at : ℕ) → (result ≡ Err (TopicError.Bad at)) ↔ (topic_fault bytes.now ≡ Some at) }
    {
        match topic_text(bytes) {
            Ok(text) => Ok(Topic {
                text: String::from_str(alloc, text)?,
            }),
            Err(at) => Err(TopicError::Bad { at }),
        }
    }

    /// A second topic with the same bytes.
    pub fn copy(&self, alloc: Global) -> Result<Topic, AllocError>
        ensures { IfOk result (λ topic. topic ≡ self.now) }
    {
        Ok(Topic {
            text: String::from_str(alloc, self.text.as_str())?,
        })
    }

    /// The topic.
    pub fn as_str(&self) -> &str
        ensures { result.now ≡ self.now }
    {
        self.text.as_str()
    }

    /// The topic's bytes, which keep the rule.
    #[tactic(auto, using(crate::proofs::TopicFaults::topic_some, crate::proofs::TopicFaults::topic_bound))]
    pub fn as_bytes(&self) -> &[u8]
        ensures value { result.now ≡ self.now }
        ensures form { IsTopic self.now }
        ensures some { 0 < length self.now }
        ensures bound { length self.now ≤ 250 }
    {
        self.text.as_str().as_bytes()
    }

    /// Whether both topics have the same bytes.
    pub fn same(&self, other: &Topic) -> bool
        ensures { result ≡ bytes_eq self.now other.now }
    {
        self.text.as_str() == other.text.as_str()
    }
}

/// The bytes as a text where they are a topic, and else the offset that tells why they are none.
#[tactic(auto, using(crate::proofs::TopicFaults::fault_empty, crate::proofs::TopicFaults::fault_long, crate::proofs::TopicFaults::fault_no_text, crate::proofs::TopicFaults::fault_of_text))]
pub fn topic_text(bytes: &[u8]) -> Result<&str, u64>
    ensures text { IfOk result (λ text. text.now ≡ bytes.now) }
    ensures form { OnOk result (IsTopic bytes.now) }
    ensures bad { IfErr result (λ at. topic_fault bytes.now ≡ Some at) }
    ensures bound { IfErr result (λ at. at ≤ 250) }
{
    if bytes.is_empty() {
        return Err(0);
    }
    if bytes.len() > 250 {
        return Err(250);
    }
    match str::from_utf8(bytes) {
        Ok(text) => match slash_after_levels(bytes, 128) {
            Some(at) => Err(at as u64),
            None => Ok(text),
        },
        Err(e) => Err(e.valid_up_to() as u64),
    }
}

/// The offset of the slash that begins the level after the first `count`, if there are more.
fn slash_after_levels(bytes: &[u8], count: usize) -> Option<usize>
    requires { 0 < count }
    ensures value { result ≡ slash_after count bytes.now }
    ensures bound { IfSome result (λ at. at < length bytes.now) }
{
    let mut slashes = 0;
    for (at, byte) in bytes.iter().enumerate() {
        if *byte == b'/' {
            slashes += 1;
            if slashes == count {
                return Some(at);
            }
        }
    }
    None
}
