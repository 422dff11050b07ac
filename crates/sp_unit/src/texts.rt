ghost use Rattle.std.specs.Prelude.{◌≡◌};
ghost use Rattle.sp_message.specs.Decoding.{Gives};
ghost use Rattle.sp_unit.specs.UnitReading.{selector_at, subscription_at};

use sp_message::codec::{Codec, ReadError, read_text, write_text};
use sp_selector::selector::{Selector, SelectorError};
use sp_topic::subscription::{Subscription, SubscriptionError};
use std::alloc::{AllocError, Global};

/// Subscriptions as bytes: their texts.
pub struct SubscriptionCodec;

impl Codec for SubscriptionCodec {
    ghost use Rattle.std.specs.Prelude.{◌≡◌, true};
    ghost use Rattle.sp_message.specs.Encoding.{text_bytes};
    ghost use Rattle.sp_unit.specs.UnitBytes.{is_subscription};
    ghost use Rattle.sp_unit.specs.UnitReading.{subscription_at};

    type Item = Subscription;

    ghost fits = { λ _. Unit {0} };

    ghost valid = { λ text. is_subscription text ≡ true };

    ghost bytes_of = { text_bytes };

    ghost read_at = { subscription_at };

    fn read(alloc: Global, bytes: &[u8]) -> Result<(Subscription, &[u8]), ReadError> {
        read_subscription(alloc, bytes)
    }

    fn write(subscription: &Subscription, into: &mut Vec<u8>) -> Result<(), AllocError> {
        write_text(subscription.as_bytes(), into)
    }
}

/// Reads a text that is a subscription.
#[tactic(auto, unfolding(crate::specs::UnitReading::subscription_at))]
fn read_subscription(alloc: Global, bytes: &[u8]) -> Result<(Subscription, &[u8]), ReadError>
    ensures { Gives (λ x. (x.0, x.1.now)) result (subscription_at bytes.now) }
{
    let (text, rest) = read_text(bytes)?;
    match Subscription::read(alloc, text) {
        Ok(subscription) => Ok((subscription, rest)),
        Err(SubscriptionError::Bad { .. }) => Err(ReadError::NotOne),
        Err(SubscriptionError::Memory) => Err(ReadError::Memory),
    }
}

/// Selectors as bytes: their texts.
pub struct SelectorCodec;

impl Codec for SelectorCodec {
    ghost use Rattle.std.specs.Prelude.{◌≡◌, true};
    ghost use Rattle.sp_message.specs.Encoding.{text_bytes};
    ghost use Rattle.sp_unit.specs.UnitBytes.{is_selector};
    ghost use Rattle.sp_unit.specs.UnitReading.{selector_at};

    type Item = Selector;

    ghost fits = { λ _. Unit {0} };

    ghost valid = { λ text. is_selector text ≡ true };

    ghost bytes_of = { text_bytes };

    ghost read_at = { selector_at };

    fn read(alloc: Global, bytes: &[u8]) -> Result<(Selector, &[u8]), ReadError> {
        read_selector(alloc, bytes)
    }

    fn write(selector: &Selector, into: &mut Vec<u8>) -> Result<(), AllocError> {
        write_text(selector.as_bytes(), into)
    }
}

/// Reads a text that is a selector.
#[tactic(auto, unfolding(crate::specs::UnitReading::selector_at))]
fn read_selector(alloc: Global, bytes: &[u8]) -> Result<(Selector, &[u8]), ReadError>
    ensures { Gives (λ x. (x.0, x.1.now)) result (selector_at bytes.now) }
{
    let (text, rest) = read_text(bytes)?;
    match Selector::read(alloc, text) {
        Ok(selector) => Ok((selector, rest)),
        Err(SelectorError::Bad { .. }) => Err(ReadError::NotOne),
        Err(SelectorError::Memory) => Err(ReadError::Memory),
    }
}
