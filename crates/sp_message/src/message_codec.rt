ghost use Rattle.sp_message.specs.Encoding.{text_bytes};
ghost use Rattle.std.specs.Prelude.{◌≡◌, true, ◌++◌, ◌≤◌, ℕ, List, length, take, IfOk, IsErrOf, OnOk};
ghost use Rattle.sp_message.specs.Decoding.{Gives, text_that_at};
ghost use Rattle.sp_message.specs.MessageBytes.{IsMessage, KeepsRules, destination_bytes, is_destination, is_payload, message_bytes};
ghost use Rattle.sp_message.specs.MessageReading.{destination_at, message_at};

use crate::codec::{
    ReadError, read_number_within, read_text, read_truth, write_number, write_text, write_truth,
};
use crate::message::{Dest, LONGEST_TTL, Message, TimeToLive};
use crate::payload::{LONGEST_PAYLOAD, Payload};
use crate::property_codec::{read_properties, write_properties};
use crate::texts::{read_name, read_topic};
use sp_base::bytes::Bytes;
use sp_base::failure::Memory;
use std::alloc::{AllocError, Global};

impl Message {
    /// Appends the message's bytes.
    pub fn write(&self, into: &mut Vec<u8>) -> Result<(), Memory>
        ensures { OnOk result ((bytes : List ℕ) × IsMessage bytes self.now × (into.new.items ≡ into.old.items ++ bytes)) }
    {
        match write_message(self, into) {
            Ok(()) => Ok(()),
            Err(_) => Err(Memory),
        }
    }

    /// The message at the front of the bytes, and how many bytes it takes. NotOne exactly where none
    /// stands there.
    pub fn read(alloc: Global, bytes: &[u8]) -> Result<(Message, usize), ReadError>
        ensures length { IfOk result (λ x. x.1 ≤ length bytes.now) }
        ensures read { IfOk result (λ x. IsMessage (take x.1 bytes.now) x.0) }
        ensures none { IsErrOf result ReadError.NotOne → (m : Message) (len : ℕ) → IsMessage (take len bytes.now) m → ⊥ }
    {
        match read_message(alloc, bytes) {
            Ok((message, rest)) => Ok((message, bytes.len().saturating_sub(rest.len()))),
            Err(e) => Err(e),
        }
    }
}

/// Appends the destination, the payload, the time to live, whether it is eligible, and the
/// properties.
pub fn write_message(message: &Message, into: &mut Vec<u8>) -> Result<(), AllocError>
    ensures bytes { OnOk result (into.new.items ≡ into.old.items ++ message_bytes message.now) }
    ensures rules { OnOk result (KeepsRules message.now) }
{
    write_destination(&message.dest, into)?;
    write_payload(&message.payload, into)?;
    write_number(message.ttl.value(), into)?;
    write_truth(message.eligible, into)?;
    write_properties(&message.properties, into)
}

/// Reads a message.
#[tactic(auto, unfolding(crate::specs::MessageReading::message_at))]
pub fn read_message(alloc: Global, bytes: &[u8]) -> Result<(Message, &[u8]), ReadError>
    ensures { Gives (λ x. (x.0, x.1.now)) result (message_at bytes.now) }
{
    let (dest, rest) = read_destination(alloc, bytes)?;
    let (payload, rest) = read_payload(alloc, rest)?;
    let (ttl, rest) = read_number_within(rest, 0, LONGEST_TTL)?;
    let (eligible, rest) = read_truth(rest)?;
    let (properties, rest) = read_properties(alloc, rest)?;
    let message = Message {
        dest,
        payload,
        ttl: TimeToLive::of(ttl),
        eligible,
        properties,
    };
    Ok((message, rest))
}

fn write_destination(dest: &Dest, into: &mut Vec<u8>) -> Result<(), AllocError>
    ensures rule { OnOk result (is_destination dest.now ≡ true) }
    ensures bytes { OnOk result (into.new.items ≡ into.old.items ++ destination_bytes dest.now) }
{
    match dest {
        Dest::Topic(topic) => {
            into.push(0)?;
            write_text(topic.as_bytes(), into)
        }
        Dest::Queue(name) => {
            into.push(1)?;
            write_text(name.as_bytes(), into)
        }
    }
}

#[tactic(auto, unfolding(crate::specs::MessageReading::destination_at))]
fn read_destination(alloc: Global, bytes: &[u8]) -> Result<(Dest, &[u8]), ReadError>
    ensures { Gives (λ x. (x.0, x.1.now)) result (destination_at bytes.now) }
{
    match bytes {
        [0, rest @ ..] => {
            let (topic, rest) = read_topic(alloc, rest)?;
            Ok((Dest::Topic(topic), rest))
        }
        [1, rest @ ..] => {
            let (name, rest) = read_name(alloc, rest)?;
            Ok((Dest::Queue(name), rest))
        }
        _ => Err(ReadError::NotOne),
    }
}

fn write_payload(payload: &Payload, into: &mut Vec<u8>) -> Result<(), AllocError>
    ensures rule { is_payload payload.now ≡ true }
    ensures bytes { OnOk result (into.new.items ≡ into.old.items ++ text_bytes payload.now) }
{
    write_text(payload.as_slice(), into)
}

#[tactic(auto, unfolding(crate::specs::Decoding::text_that_at))]
fn read_payload(alloc: Global, bytes: &[u8]) -> Result<(Payload, &[u8]), ReadError>
    ensures { Gives (λ x. (x.0, x.1.now)) result (text_that_at is_payload bytes.now) }
{
    let (text, rest) = read_text(bytes)?;
    if text.len() > LONGEST_PAYLOAD {
        return Err(ReadError::NotOne);
    }
    Ok((Payload::from_bytes(Bytes::copy_of(alloc, text)?), rest))
}
