ghost use Rattle.std.specs.Prelude.{◌≡◌, IsTrue};
ghost use Rattle.sp_rest.specs.Statuses.{refusal_code, code_of};
ghost use Rattle.sp_rest.specs.Wire.Codes.{is_response_code};

use sp_base::refusal::Refusal;
use sp_event::answer::Answered;

/// Where a request is told to be bad whose path and method no row of HTTP's requests serves.
const NO_ROW: u64 = 5;

/// The status code of an answer: 200 for what is accepted, 400, 403, 404 or 409 for what is
/// refused, 500 for a fault of the disk, 503 for want of memory, and 507 for a full journal.
pub fn status(answer: &Answered) -> u16
    ensures code { result ≡ code_of answer.now }
    ensures known { IsTrue (is_response_code result) }
{
    match answer {
        Answered::Gave(_) => 200,
        Answered::Refused { refusal, index: _ } => refusal_status(refusal),
        Answered::Memory => 503,
        Answered::Disk => 500,
        Answered::Full { .. } => 507,
    }
}

/// A path and method that no row serves is told as what isn't there, every other bad request as bad.
fn refusal_status(refusal: &Refusal) -> u16
    ensures code { result ≡ refusal_code refusal.now }
    ensures known { IsTrue (is_response_code result) }
{
    match refusal {
        Refusal::BadRequest { at } => if *at == NO_ROW { 404 } else { 400 },
        Refusal::DirectMode => 400,
        Refusal::BadTopic { .. } => 400,
        Refusal::BadSubscription { .. } => 400,
        Refusal::BadSelector { .. } => 400,
        Refusal::BadAttribute { .. } => 400,
        Refusal::UnknownEndpoint { .. } => 404,
        Refusal::EndpointExists { .. } => 409,
        Refusal::EndpointLimit { .. } => 409,
        Refusal::NoAccess { .. } => 403,
        Refusal::InUse { .. } => 409,
        Refusal::SubscriptionExists => 409,
        Refusal::SubscriptionLimit { .. } => 409,
        Refusal::UnknownSubscription => 404,
        Refusal::IngressDisabled { .. } => 403,
        Refusal::EgressDisabled { .. } => 403,
        Refusal::MessageTooLarge { .. } => 400,
        Refusal::QuotaExceeded { .. } => 409,
        Refusal::VpnQuotaExceeded { .. } => 409,
        Refusal::BindLimit { .. } => 409,
        Refusal::UnknownFlow { .. } => 404,
        Refusal::NotHeld { .. } => 404,
        Refusal::ReplayActive { .. } => 409,
        Refusal::NoReplay => 404,
        Refusal::LogDisabled => 409,
        Refusal::NotInLog { .. } => 409,
        Refusal::IdsSpent { .. } => 409,
    }
}
