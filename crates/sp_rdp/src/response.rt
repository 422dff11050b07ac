ghost use Rattle.std.specs.Prelude.{◌≡◌, ◌↔◌, IsTrue, length};
ghost use Rattle.sp_rdp.specs.Response.{Accepts};
ghost use Rattle.sp_rdp.specs.declared.outcome.Outcome.TheVariants.{Accepted, Failed};

use crate::outcome::Outcome;
use httparse::Status;
use httparse::spans::{EMPTY_HEADER_SPAN, HeaderSpan, parse_response};

/// The outcome by the bytes of a response, as far as they came: Accepted exactly where they begin
/// with a whole head of at most 64 fields and a status of 200 to 299. It takes no memory.
pub fn outcome(response: &[u8]) -> Outcome
    ensures accepted { result ≡ Accepted ↔ Accepts response.now }
    ensures failed { result ≡ Failed ↔ ¬ (Accepts response.now) }
{
    let mut room = [EMPTY_HEADER_SPAN; 64];
    if accepts(response, &mut room) {
        Outcome::Accepted
    } else {
        Outcome::Failed
    }
}

fn accepts(response: &[u8], room: &mut [HeaderSpan]) -> bool
    requires { length room.old ≡ 64 }
    ensures { IsTrue result ↔ Accepts response.now }
{
    match parse_response(response, room) {
        Ok(Status::Complete(head)) => head.code >= 200 && head.code < 300,
        _ => false,
    }
}
