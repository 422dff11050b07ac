// The head of a request, within the limits.
ghost use Rattle.std.specs.Prelude.{◌≡◌, ◌<◌, length};
ghost use Rattle.httparse.specs.Grammar.{HasNoRequest, MayBecomeRequest};
ghost use Rattle.httparse.specs.Spans.{IsRequestOf, IsRequestWithin};
ghost use Rattle.sp_rest.specs.Wire.Fronts.{IfHead, OnUnfinished, OnNever};
ghost use Rattle.sp_rest.specs.Wire.Heads.{IsHeadAt, NeverHead};

use crate::wire::length::body_length;
use httparse::Status;
use httparse::spans::{HeaderSpan, RequestSpans, parse_request};

/// The most bytes of a head, the empty lines before it included.
const MOST: usize = 8192;

/// What the front of some bytes is, as far as the head goes.
#[derive(Drop)]
pub enum Front {
    /// A head, and the length of the body that it gives.
    Head { spans: RequestSpans, body: u64 },
    /// No head yet.
    Unfinished,
    /// No head, whatever bytes follow.
    Never,
}

/// The head at the front.
pub fn read_head(bytes: &[u8], room: &mut [HeaderSpan]) -> Front
    requires { length room.old ≡ 64 }
    ensures head { IfHead result (IsHeadAt bytes.now room.new) }
    ensures within { IfHead result (λ spans _. IsRequestWithin bytes.now room.new spans) }
    ensures unfinished { OnUnfinished result (HasNoRequest bytes.now) }
    ensures open_yet { OnUnfinished result (MayBecomeRequest bytes.now) }
    ensures short { OnUnfinished result (length bytes.now < 8192) }
    ensures never { OnNever result (NeverHead bytes.now) }
{
    match parse_request(bytes, room) {
        Ok(Status::Complete(spans)) => whole(bytes, room, spans),
        Ok(Status::Partial) => {
            if bytes.len() < MOST {
                Front::Unfinished
            } else {
                Front::Never
            }
        }
        Err(_) => Front::Never,
    }
}

fn whole(bytes: &[u8], room: &[HeaderSpan], spans: RequestSpans) -> Front
    requires room_for { length room.now ≡ 64 }
    requires reads { IsRequestOf bytes.now room.now spans }
    requires within { IsRequestWithin bytes.now room.now spans }
    ensures head { IfHead result (IsHeadAt bytes.now room.now) }
    ensures within { IfHead result (λ spans _. IsRequestWithin bytes.now room.now spans) }
    ensures finished { OnUnfinished result ⊥ }
    ensures never { OnNever result (NeverHead bytes.now) }
{
    if spans.len > MOST {
        return Front::Never;
    }
    match body_length(bytes, &room[..spans.headers]) {
        Some(body) => Front::Head { spans, body },
        None => Front::Never,
    }
}
