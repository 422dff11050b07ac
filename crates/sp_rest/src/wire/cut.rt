ghost use Rattle.std.specs.Prelude.{◌≡◌, ◌+◌, ◌<◌, ◌≤◌, ℕ, IfOk, All, drop, length, map};
ghost use Rattle.std.specs.Io.{StartsWith};
ghost use Rattle.httparse.specs.Grammar.{HasNoRequest, MayBecomeRequest};
ghost use Rattle.httparse.specs.Spans.{IsRequestWithin, header_bytes, IsHeaderWithin};
ghost use Rattle.sp_rest.specs.Wire.Request.{Begins, NoRequest, NeverRequest, MayBecome, IsTargetOpen, shown};
ghost use Rattle.sp_rest.specs.Wire.Cutting.{IfWhole, OnPartial, OnHopeless};
ghost use Rattle.sp_rest.specs.Wire.Heads.{IsHeadAt};
ghost use Rattle.sp_rest.specs.Wire.Parts.{Request};
ghost use Rattle.sp_rest.specs.declared.wire.request.Cut.TheVariants.{Whole, Hopeless};

use crate::wire::completion::may_become;
use crate::wire::head::{Front, read_head};
use crate::wire::request::{Cut, Field, Request};
use httparse::spans::{EMPTY_HEADER_SPAN, HeaderSpan, RequestSpans};
use sp_base::bytes::Bytes;
use sp_base::failure::Memory;
use sp_base::items::Items;
use std::alloc::{AllocError, Global};

/// Cuts a request from the front of some bytes, within these limits: a head of at most 8,192
/// bytes, empty lines before it included, with at most 64 fields, and a body of at most 8 MiB.
/// Its length is what the field Content-Length says; twice such a field, or one that isn't a
/// decimal number, and any Transfer-Encoding make a request hopeless.
pub fn cut(alloc: Global, bytes: &[u8]) -> Result<Cut, Memory>
    ensures whole { IfOk result (λ cut. IfWhole cut (Begins bytes.now)) }
    ensures within { IfOk result (λ cut. IfWhole cut (λ _ used. (0 < used) × (used ≤ length bytes.now))) }
    ensures found { (request : Request) (used : ℕ) → Begins bytes.now request used → IfOk result (λ cut. cut ≡ Whole request used) }
    ensures none_yet { IfOk result (λ cut. OnPartial cut (NoRequest bytes.now)) }
    ensures partial { IfOk result (λ cut. OnPartial cut (MayBecome bytes.now)) }
    // As many bytes as the longest head and the longest body have are never unfinished.
    ensures bounded { IfOk result (λ cut. OnPartial cut (length bytes.now < 8396800)) }
    ensures hopeless { IfOk result (λ cut. OnHopeless cut (NeverRequest bytes.now)) }
    // A target that is still being read may be told to be unfinished although no request can come.
    ensures never { NeverRequest bytes.now → ¬ (IsTargetOpen bytes.now) → IfOk result (λ cut. cut ≡ Hopeless) }
{
    match cut_front(alloc, bytes) {
        Ok(cut) => Ok(cut),
        Err(_) => Err(Memory),
    }
}

fn cut_front(alloc: Global, bytes: &[u8]) -> Result<Cut, AllocError>
    ensures whole { IfOk result (λ cut. IfWhole cut (Begins bytes.now)) }
    ensures none_yet { IfOk result (λ cut. OnPartial cut (NoRequest bytes.now)) }
    ensures partial { IfOk result (λ cut. OnPartial cut (MayBecome bytes.now)) }
    ensures hopeless { IfOk result (λ cut. OnHopeless cut (NeverRequest bytes.now)) }
{
    let mut room = [EMPTY_HEADER_SPAN; 64];
    match read_head(bytes, &mut room) {
        Front::Head { spans, body } => with_body(alloc, bytes, &room, spans, body),
        Front::Unfinished => unfinished(alloc, bytes),
        Front::Never => Ok(Cut::Hopeless),
    }
}

fn unfinished(alloc: Global, bytes: &[u8]) -> Result<Cut, AllocError>
    requires unread { HasNoRequest bytes.now }
    requires open_yet { MayBecomeRequest bytes.now }
    requires short { length bytes.now < 8192 }
    ensures whole { IfOk result (λ cut. IfWhole cut (Begins bytes.now)) }
    ensures none_yet { IfOk result (λ cut. OnPartial cut (NoRequest bytes.now)) }
    ensures partial { IfOk result (λ cut. OnPartial cut (MayBecome bytes.now)) }
    ensures hopeless { IfOk result (λ cut. OnHopeless cut (NeverRequest bytes.now)) }
{
    if may_become(alloc, bytes)? {
        Ok(Cut::Partial)
    } else {
        Ok(Cut::Hopeless)
    }
}

fn with_body(
    alloc: Global,
    bytes: &[u8],
    room: &[HeaderSpan],
    spans: RequestSpans,
    body: u64,
) -> Result<Cut, AllocError>
    requires head { IsHeadAt bytes.now room.now spans body }
    requires within { IsRequestWithin bytes.now room.now spans }
    ensures whole { IfOk result (λ cut. IfWhole cut (Begins bytes.now)) }
    ensures none_yet { IfOk result (λ cut. OnPartial cut (NoRequest bytes.now)) }
    ensures partial { IfOk result (λ cut. OnPartial cut (MayBecome bytes.now)) }
    ensures hopeless { IfOk result (λ cut. OnHopeless cut (NeverRequest bytes.now)) }
{
    let rest = &bytes[spans.len..];
    if (rest.len() as u64) < body {
        return Ok(Cut::Partial);
    }
    let len = body as usize;
    let request = request_at(alloc, bytes, room, spans, &rest[..len])?;
    Ok(Cut::Whole {
        request,
        used: spans.len + len,
    })
}

fn request_at(
    alloc: Global,
    bytes: &[u8],
    room: &[HeaderSpan],
    spans: RequestSpans,
    body: &[u8],
) -> Result<Request, AllocError>
    requires head { IsHeadAt bytes.now room.now spans (length body.now) }
    requires within { IsRequestWithin bytes.now room.now spans }
    requires follows { StartsWith (drop spans.len bytes.now) body.now }
    ensures { IfOk result (λ request. Begins bytes.now request (spans.len + length body.now)) }
{
    let method = Bytes::copy_of(alloc, spans.method.of(bytes))?;
    let target = Bytes::copy_of(alloc, spans.path.of(bytes))?;
    let fields = fields(alloc, bytes, &room[..spans.headers])?;
    let body = Bytes::copy_of(alloc, body)?;
    Ok(Request::of(method, target, fields, body))
}

fn fields(alloc: Global, bytes: &[u8], headers: &[HeaderSpan]) -> Result<Items<Field>, AllocError>
    requires { All (IsHeaderWithin (length bytes.now)) headers.now }
    ensures { IfOk result (λ fields. map shown fields ≡ map (header_bytes bytes.now) headers.now) }
{
    let mut fields = Vec::new(alloc);
    for header in headers {
        fields.push(field(alloc, bytes, header)?)?;
    }
    Ok(Items::from_vec(fields))
}

fn field(alloc: Global, bytes: &[u8], header: &HeaderSpan) -> Result<Field, AllocError>
    requires { IsHeaderWithin (length bytes.now) header.now }
    ensures { IfOk result (λ field. shown field ≡ header_bytes bytes.now header.now) }
{
    let name = Bytes::copy_of(alloc, header.name.of(bytes))?;
    let value = Bytes::copy_of(alloc, header.value.of(bytes))?;
    Ok(Field { name, value })
}
