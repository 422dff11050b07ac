ghost use Rattle.std.specs.Prelude.{◌≡◌};

use sp_base::declined::Declined;
use sp_base::refusal::Refusal;

/// The refusal of a field that has the wrong JSON kind, or a value outside its form.
pub fn malformed() -> Declined<Refusal>
    ensures { result ≡ Declined.Refused (Refusal.BadRequest 4) }
{
    Declined::Refused(Refusal::BadRequest { at: 4 })
}
