//! Whether the endpoints that take a message have room for its copies.
ghost use Rattle.sp_copies.specs.Kept.{Records};
ghost use Rattle.sp_ledger.specs.Ledger.{Ledger};
ghost use Rattle.sp_ledger.specs.Publish.{quota_check};
ghost use Rattle.sp_ledger.specs.Step.{first_refusal};
ghost use Rattle.std.specs.Prelude.{◌≡◌, ◌∷◌, [], IfOk, map};

use sp_base::refusal::Refusal;
use sp_copies::copies::Copies;
use sp_endpoint::endpoint::Endpoint;
use std::alloc::{AllocError, Global};

/// The refusal by the first endpoint whose quota has no room for a copy of this many bytes.
pub fn quota_refusal(
    alloc: Global,
    copies: &Copies,
    into: &[&Endpoint],
    size: u64,
) -> Result<Option<Refusal>, AllocError>
    ensures { IfOk result (λ r. (L : Ledger) → Records copies.now L.copies → r ≡ first_refusal (map (quota_check L size) (map (λ e. e.now) into.now))) }
{
    for endpoint in into {
        if let Some(refusal) = excess(alloc, copies, endpoint, size)? {
            return Ok(Some(refusal));
        }
    }
    Ok(None)
}

fn excess(
    alloc: Global,
    copies: &Copies,
    endpoint: &Endpoint,
    size: u64,
) -> Result<Option<Refusal>, AllocError>
    ensures { IfOk result (λ r. (L : Ledger) → Records copies.now L.copies → r ≡ first_refusal (quota_check L size endpoint.now ∷ [])) }
{
    let used = copies.used(endpoint.number);
    let max = endpoint.attributes.quota_bytes();
    if used.saturating_add(size) <= max {
        return Ok(None);
    }
    Ok(Some(Refusal::QuotaExceeded {
        name: endpoint.name.text(alloc)?,
        used,
        size,
        max,
    }))
}
