//! What queries are told of copies and flows.
ghost use Rattle.sp_access.specs.Activity.{flows_of};
ghost use Rattle.sp_copies.specs.History.{History, fate_of};
ghost use Rattle.sp_copies.specs.Kept.{Records};
ghost use Rattle.sp_ledger.specs.Answer.{bound_flow, copy_reply, details_of, is_kept};
ghost use Rattle.sp_ledger.specs.Ledger.{Ledger};
ghost use Rattle.std.specs.Prelude.{◌≡◌, ◌==◌, if◌then◌else◌, IfOk, None, Some, map};

use sp_access::flow::Flow;
use sp_access::flows::Flows;
use sp_base::items::{Items, push_some};
use sp_base::number::CopyNo;
use sp_copies::closed::Fate;
use sp_copies::copies::Copies;
use sp_endpoint::endpoint::Endpoint;
use sp_event::answer::{BoundFlow, CopyDetails, Reply};
use std::alloc::{AllocError, Global};

/// The flows of an endpoint, in the order in which they were bound: what each holds, and whether it
/// is handed out copies.
pub fn bound_flows(
    alloc: Global,
    flows: &Flows,
    copies: &Copies,
    endpoint: &Endpoint,
) -> Result<Items<BoundFlow>, AllocError>
    ensures { IfOk result (λ told. (L : Ledger) → flows.now.flows ≡ L.flows → Records copies.now L.copies →
        told ≡ map (bound_flow L endpoint.now) (flows_of L.flows endpoint.now.number)) }
{
    let mut told = Vec::new(alloc);
    for flow in flows.as_slice() {
        push_some(&mut told, flow_of(alloc, flows, copies, endpoint, flow)?)?;
    }
    Ok(Items::from_vec(told))
}

// What is told of a flow, where it is one of the endpoint's.
fn flow_of(
    alloc: Global,
    flows: &Flows,
    copies: &Copies,
    endpoint: &Endpoint,
    flow: &Flow,
) -> Result<Option<BoundFlow>, AllocError>
    ensures { IfOk result (λ told. (L : Ledger) → flows.now.flows ≡ L.flows → Records copies.now L.copies →
        told ≡ (if flow.now.endpoint == endpoint.now.number then Some (bound_flow L endpoint.now flow.now) else None)) }
{
    if flow.endpoint != endpoint.number {
        return Ok(None);
    }
    Ok(Some(bound_flow(alloc, flows, copies, endpoint, flow)?))
}

fn bound_flow(
    alloc: Global,
    flows: &Flows,
    copies: &Copies,
    endpoint: &Endpoint,
    flow: &Flow,
) -> Result<BoundFlow, AllocError>
    ensures { IfOk result (λ told. (L : Ledger) → flows.now.flows ≡ L.flows → Records copies.now L.copies →
        told ≡ bound_flow L endpoint.now flow.now) }
{
    Ok(BoundFlow {
        flow: flow.number,
        caller: flow.caller.copy(alloc)?,
        held: copies.count_held_by(flow.number) as u64,
        active: flows.is_active(&endpoint.attributes, endpoint.number, flow.number),
    })
}

/// What has become of a copy, and what is still told of it.
pub fn copy_reply(copies: &Copies, copy: CopyNo) -> Reply
    ensures { (H : History) → Records copies.now H → result ≡ copy_reply H copy }
{
    let details = kept_details(copies, copy);
    Reply::Copy {
        copy,
        fate: copies.fate(copy),
        details,
    }
}

fn kept_details(copies: &Copies, copy: CopyNo) -> Option<CopyDetails>
    ensures { (H : History) → Records copies.now H → result ≡ (if is_kept (fate_of H copy) then details_of H copy else None) }
{
    if !is_kept(copies.fate(copy)) {
        return None;
    }
    details(copies, copy)
}

fn details(copies: &Copies, copy: CopyNo) -> Option<CopyDetails>
    ensures { (H : History) → Records copies.now H → result ≡ details_of H copy }
{
    match &copies.copy(copy) {
        None => None,
        Some(made) => Some(CopyDetails {
            endpoint: made.endpoint,
            message: made.message,
            attempts: copies.attempts(copy),
        }),
    }
}

// Whether the closing of a copy of that fate, if any, is still told.
fn is_kept(fate: Fate) -> bool
    ensures { result ≡ is_kept fate }
{
    match fate {
        Fate::Earlier => false,
        _ => true,
    }
}
