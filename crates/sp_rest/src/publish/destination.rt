// Where a request publishes to, by its method and its target.
ghost use Rattle.std.specs.Prelude.{◌≡◌, ◌≤◌, length, position, IfOk};
ghost use Rattle.std.specs.List.{position_or_len};
ghost use Rattle.percent_encoding.specs.Percent.{percent_decode};
ghost use Rattle.sp_message.specs.Destination.{topic_from};
ghost use Rattle.sp_rest.specs.Publish.Destination.{is_question_mark, path_of, query_of, has_words, queue_from, dest_at, dest_for};

use percent_encoding::percent_decode;
use sp_base::name::{Name, NameError};
use sp_base::refusal::Refusal;
use sp_base::topic::{Topic, TopicError};
use sp_message::message::Dest;
use std::alloc::{AllocError, Global};

/// The destination, or why its topic is none. None where the method is another than POST, the path
/// leads nowhere, or the queue's name is none.
pub fn dest_for(
    alloc: Global,
    method: &[u8],
    target: &[u8],
) -> Result<Option<Result<Dest, Refusal>>, AllocError>
    ensures { IfOk result (λ r. r ≡ dest_for method.now target.now) }
{
    if method == b"POST".as_slice() {
        return dest_at(alloc, path_of(target));
    }
    Ok(None)
}

fn dest_at(alloc: Global, path: &[u8]) -> Result<Option<Result<Dest, Refusal>>, AllocError>
    ensures { IfOk result (λ r. r ≡ dest_at path.now) }
{
    if path.starts_with(b"/TOPIC/") {
        let text = decoded(alloc, &path[7..])?;
        return Ok(Some(topic_from(alloc, text.as_slice())?));
    }
    if path.starts_with(b"/QUEUE/") {
        let text = decoded(alloc, &path[7..])?;
        return queue_from(alloc, text.as_slice());
    }
    Ok(None)
}

fn decoded(alloc: Global, text: &[u8]) -> Result<Vec<u8>, AllocError>
    ensures { IfOk result (λ v. v.items ≡ percent_decode text.now) }
{
    let mut out = Vec::new(alloc);
    percent_decode(text).append_to(&mut out)?;
    Ok(out)
}

fn topic_from(alloc: Global, text: &[u8]) -> Result<Result<Dest, Refusal>, AllocError>
    ensures { IfOk result (λ r. r ≡ topic_from text.now) }
{
    match Topic::read(alloc, text) {
        Ok(topic) => Ok(Ok(Dest::Topic(topic))),
        Err(TopicError::Bad { at }) => Ok(Err(Refusal::BadTopic { at })),
        Err(TopicError::Memory) => Err(AllocError),
    }
}

fn queue_from(alloc: Global, text: &[u8]) -> Result<Option<Result<Dest, Refusal>>, AllocError>
    ensures { IfOk result (λ r. r ≡ queue_from text.now) }
{
    match Name::read(alloc, text) {
        Ok(name) => Ok(Some(Ok(Dest::Queue(name)))),
        Err(NameError::BadName) => Ok(None),
        Err(NameError::Memory) => Err(AllocError),
    }
}

fn path_of(target: &[u8]) -> &[u8]
    ensures { result.now ≡ path_of target.now }
{
    &target[..path_end(target)]
}

/// What stands behind the path's question mark, or nothing without one.
pub fn query_of(target: &[u8]) -> &[u8]
    ensures { result.now ≡ query_of target.now }
{
    let end = path_end(target);
    if end < target.len() {
        &target[end + 1..]
    } else {
        &[]
    }
}

fn path_end(target: &[u8]) -> usize
    ensures value { result ≡ position_or_len is_question_mark target.now }
    ensures bound { result ≤ length target.now }
{
    match question_mark(target) {
        Some(at) => at,
        None => target.len(),
    }
}

fn question_mark(target: &[u8]) -> Option<usize>
    ensures { result ≡ position is_question_mark target.now }
{
    target.iter().position(|b| *b == b'?')
}

/// Whether there is a word in a query. The `&` stands between words and is none.
pub fn has_words(query: &[u8]) -> bool
    ensures { result ≡ has_words query.now }
{
    query.iter().any(|b| *b != b'&')
}
