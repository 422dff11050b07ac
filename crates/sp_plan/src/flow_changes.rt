//! The changes of a bind and a pull: copies are discarded or handed out, and a flow is bound.
ghost use Rattle.sp_base.specs.Name.{is_caller};
ghost use Rattle.sp_copies.specs.declared.closed.Cause.TheVariants.{TopicChanged};
ghost use Rattle.sp_copies.specs.declared.closed.Closing.TheVariants.{Discarded};
ghost use Rattle.sp_ledger.specs.Changes.{binds, closes};
ghost use Rattle.sp_ledger.specs.OnFlows.{new_flow, rebinding};
ghost use Rattle.sp_plan.specs.Plan.{changes_of};
ghost use Rattle.std.specs.Prelude.{◌≡◌, ◌++◌, ◌∷◌, [], IfOk, OnOk, map, true};

use crate::change::Change;
use crate::topics::{flow_selector, is_rebound};
use sp_access::flow::Flow;
use sp_base::name::Name;
use sp_base::number::FlowNo;
use sp_copies::closed::{Cause, Closing};
use sp_copies::made::MadeCopy;
use sp_endpoint::endpoint::Endpoint;
use sp_selector::selector::Selector;
use std::alloc::{AllocError, Global};

/// A flow of a caller that is bound to an endpoint with a selector, which it keeps on a queue alone.
pub fn new_flow(
    alloc: Global,
    number: FlowNo,
    endpoint: &Endpoint,
    caller: &Name,
    selector: &Option<Selector>,
) -> Result<Flow, AllocError>
    requires { is_caller caller.now ≡ true }
    ensures { IfOk result (λ f. f ≡ new_flow number caller.now endpoint.now selector.now) }
{
    Ok(Flow {
        number,
        endpoint: endpoint.number,
        caller: caller.copy(alloc)?,
        selector: flow_selector(alloc, endpoint.kind, selector)?,
    })
}

/// The copies are discarded, another topic or selector becomes the endpoint's, and the flow is bound.
pub fn binding(
    alloc: Global,
    copies: &[MadeCopy],
    endpoint: &Endpoint,
    bound: Endpoint,
    flow: Flow,
) -> Result<Vec<Change>, AllocError>
    ensures { IfOk result (λ changes. changes_of changes.items
        ≡ map (λ c. closes c.number (Discarded TopicChanged)) copies.now ++ rebinding endpoint.now bound ++ binds flow ∷ []) }
{
    let mut changes = discarded(alloc, copies)?;
    push_rebound(&mut changes, endpoint, bound)?;
    changes.push(Change::Binds(flow))?;
    Ok(changes)
}

// The changes that discard copies for another topic or selector.
fn discarded(alloc: Global, copies: &[MadeCopy]) -> Result<Vec<Change>, AllocError>
    ensures { IfOk result (λ changes. changes.items ≡ map (λ c. Change.Closes c.number (Discarded TopicChanged)) copies.now) }
{
    copies.iter().map(discarding).collect(alloc)
}

fn discarding(copy: &MadeCopy) -> Change
    ensures { result ≡ Change.Closes copy.now.number (Discarded TopicChanged) }
{
    Change::Closes {
        copy: copy.number,
        how: Closing::Discarded(Cause::TopicChanged),
    }
}

// Where the topic or the selector is another, it becomes the endpoint's.
fn push_rebound(
    changes: &mut Vec<Change>,
    endpoint: &Endpoint,
    bound: Endpoint,
) -> Result<(), AllocError>
    ensures { OnOk result (changes_of changes.new.items ≡ changes_of changes.old.items ++ rebinding endpoint.now bound) }
{
    if is_rebound(endpoint, &bound) {
        changes.push(Change::Becomes(bound))?;
    }
    Ok(())
}

/// Copies are handed out to a flow.
pub fn handed_out(
    alloc: Global,
    flow: FlowNo,
    copies: &[MadeCopy],
) -> Result<Vec<Change>, AllocError>
    ensures { IfOk result (λ changes. changes.items ≡ map (λ c. Change.Holds c.number flow) copies.now) }
{
    copies.iter().map(|c| handing_out(flow, c)).collect(alloc)
}

fn handing_out(flow: FlowNo, copy: &MadeCopy) -> Change
    ensures { result ≡ Change.Holds copy.now.number flow }
{
    Change::Holds {
        copy: copy.number,
        flow,
    }
}
