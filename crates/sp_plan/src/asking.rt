//! What several events ask alike, where no ledger is needed to answer.
ghost use Rattle.sp_base.specs.declared.declined.Declined.TheVariants.{Refused};
ghost use Rattle.sp_ledger.specs.OnEndpoints.{attribute_check, shares_otherwise};
ghost use Rattle.sp_ledger.specs.Step.{first_refusal};
ghost use Rattle.std.specs.Prelude.{◌≡◌, ◌∷◌, [], IfOk};

use sp_base::declined::Declined;
use sp_base::number::{FlowNo, GREATEST_NUMBER};
use sp_base::refusal::Refusal;
use sp_base::text::Str;
use sp_config::attributes::Attributes;
use sp_config::kind::EndpointKind;
use sp_config::settings::Settings;
use std::alloc::{AllocError, Global};

/// The first number of a kind that isn't drawn any more.
pub const SPENT: u64 = GREATEST_NUMBER;

/// No such endpoint is there.
pub fn unknown_endpoint(name: Str) -> Declined<Refusal>
    ensures { result ≡ Refused (Refusal.UnknownEndpoint name) }
{
    Declined::Refused(Refusal::UnknownEndpoint { name })
}

/// The flow isn't bound, or isn't the caller's.
pub fn unknown_flow(flow: FlowNo) -> Declined<Refusal>
    ensures { result ≡ Refused (Refusal.UnknownFlow flow) }
{
    Declined::Refused(Refusal::UnknownFlow { flow: flow.value() })
}

/// The first attribute whose value an endpoint of the kind may not have.
pub fn attribute_refusal(
    alloc: Global,
    kind: EndpointKind,
    attributes: &Settings,
) -> Result<Option<Refusal>, AllocError>
    ensures { IfOk result (λ r. r ≡ first_refusal (attribute_check kind attributes.now ∷ [])) }
{
    match attributes.bad_attribute(kind) {
        None => Ok(None),
        Some(attr) => Ok(Some(Refusal::BadAttribute {
            name: Str::copy_of(alloc, attr.name())?,
        })),
    }
}

/// Whether copies would be handed out to other flows: the access type or the partitions are
/// others.
pub fn share_otherwise(old: &Attributes, new: &Attributes) -> bool
    ensures { result ≡ shares_otherwise old.now new.now }
{
    old.access_type().is_exclusive() != new.access_type().is_exclusive()
        || old.partition_count() != new.partition_count()
}
