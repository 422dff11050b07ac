ghost use Rattle.std.specs.Prelude.{◌≡◌, ◌<◌, option_map};
ghost use Rattle.sp_message.specs.Partition.{group_of, hash_byte, hash_of, partition_of};

use crate::message::Message;
use crate::property::Properties;
use crate::value::Value;
use sp_base::number::MessageNo;

/// The text property that names the group of a message, as in Jakarta Messaging.
const GROUP: &[u8] = b"JMSXGroupID";

// The offset basis and the prime of the 64-bit FNV-1a hash.
const OFFSET_BASIS: u64 = 14_695_981_039_346_656_037;

const PRIME: u64 = 1_099_511_628_211;

/// The partition that a message of this number belongs to, of so many, from 0. Messages of one group
/// belong to one partition: the FNV-1a hash of the text property `JMSXGroupID`, modulo the count. A
/// message without a text under that name goes by its number. It takes no memory.
pub fn partition(message: &Message, number: MessageNo, count: u64) -> u64
    requires { 0 < count }
    ensures value { result ≡ partition_of message.now number count }
    ensures below { result < count }
{
    match group_of(&message.properties) {
        Some(group) => hash_of(group.as_bytes()) % count,
        None => number.value() % count,
    }
}

// The group, where a text names one.
fn group_of(properties: &Properties) -> Option<&str>
    ensures { option_map (λ s. s.now) result ≡ group_of properties.now }
{
    match properties.find(GROUP) {
        Some(Value::Text(text)) => Some(text.as_str()),
        Some(Value::Whole(_) | Value::Fixed(_) | Value::Bool(_)) | None => None,
    }
}

/// The 64-bit FNV-1a hash of bytes.
fn hash_of(bytes: &[u8]) -> u64
    ensures { result ≡ hash_of bytes.now }
{
    bytes
        .iter()
        .fold(OFFSET_BASIS, |hash, b| hash_byte(hash, *b))
}

fn hash_byte(hash: u64, b: u8) -> u64
    ensures { result ≡ hash_byte hash b }
{
    (hash ^ u64::from(b)).wrapping_mul(PRIME)
}
