ghost use Rattle.std.specs.Prelude.{◌≡◌};
ghost use Rattle.std.specs.Str.{is_utf8};
ghost use Rattle.sp_message.specs.Decoding.{Gives};
ghost use Rattle.sp_message.specs.MessageReading.{name_at, topic_at, utf8_at};

use crate::codec::{ReadError, read_text};
use sp_base::name::{Name, NameError};
use sp_base::text::Str;
use sp_base::topic::{Topic, TopicError};
use std::alloc::Global;

/// Reads a text that is UTF-8.
#[tactic(auto, unfolding(crate::specs::MessageReading::utf8_at, crate::specs::Decoding::text_that_at))]
pub fn read_str(alloc: Global, bytes: &[u8]) -> Result<(Str, &[u8]), ReadError>
    ensures { Gives (λ x. (x.0, x.1.now)) result (utf8_at bytes.now) }
{
    let (text, rest) = read_text(bytes)?;
    match str::from_utf8(text) {
        Ok(text) => Ok((Str::copy_of(alloc, text)?, rest)),
        Err(_) => Err(ReadError::NotOne),
    }
}

/// Reads a text that is a topic.
#[tactic(auto, unfolding(crate::specs::MessageReading::topic_at, crate::specs::Decoding::text_that_at))]
pub fn read_topic(alloc: Global, bytes: &[u8]) -> Result<(Topic, &[u8]), ReadError>
    ensures { Gives (λ x. (x.0, x.1.now)) result (topic_at bytes.now) }
{
    let (text, rest) = read_text(bytes)?;
    match Topic::read(alloc, text) {
        Ok(topic) => Ok((topic, rest)),
        Err(TopicError::Bad { .. }) => Err(ReadError::NotOne),
        Err(TopicError::Memory) => Err(ReadError::Memory),
    }
}

/// Reads a text that is a name.
#[tactic(auto, unfolding(crate::specs::MessageReading::name_at, crate::specs::Decoding::text_that_at))]
pub fn read_name(alloc: Global, bytes: &[u8]) -> Result<(Name, &[u8]), ReadError>
    ensures { Gives (λ x. (x.0, x.1.now)) result (name_at bytes.now) }
{
    let (text, rest) = read_text(bytes)?;
    match Name::read(alloc, text) {
        Ok(name) => Ok((name, rest)),
        Err(NameError::BadName) => Err(ReadError::NotOne),
        Err(NameError::Memory) => Err(ReadError::Memory),
    }
}
