// Queries.
ghost use Rattle.sp_base.specs.Name.{is_caller};
ghost use Rattle.sp_copies.specs.Counts.{used_in};
ghost use Rattle.sp_core.specs.Asked.{IsAnswered};
ghost use Rattle.sp_core.specs.Stands.{Stands};
ghost use Rattle.sp_ledger.specs.Answer.{copy_reply};
ghost use Rattle.sp_ledger.specs.Ledger.{Ledger};
ghost use Rattle.sp_ledger.specs.Tally.{tally_in};
ghost use Rattle.std.specs.Prelude.{◌≡◌, IfOk, true};

use crate::state::Core;
use sp_base::declined::Declined;
use sp_base::moment::Moment;
use sp_base::name::Name;
use sp_base::number::{CopyNo, EndpointNo};
use sp_base::refusal::Refusal;
use sp_event::answer::{Reply, Tally};
use sp_event::request::Query;
use sp_plan::asking::unknown_endpoint;
use sp_plan::told::{bound_flows, copy_reply};
use std::alloc::{AllocError, Global};

impl Core {
    /// Answers a query of a caller at a moment: with the reply of the ledger, or refused exactly
    /// where the ledger refuses, with its refusal.
    pub fn query(
        &self,
        alloc: Global,
        now: Moment,
        from: &Name,
        q: &Query,
    ) -> Result<Reply, Declined<Refusal>>
        requires { is_caller from.now ≡ true }
        ensures { IsAnswered self.now now from.now q.now result }
    {
        match q {
            Query::Tally { endpoint } => self.tally_of(alloc, now, from, endpoint),
            Query::Copy { copy } => Ok(self.copy_report(*copy)),
            Query::Flows { endpoint } => self.flows_of(alloc, now, from, endpoint),
        }
    }

    fn tally_of(
        &self,
        alloc: Global,
        moment: Moment,
        caller: &Name,
        endpoint: &Option<Name>,
    ) -> Result<Reply, Declined<Refusal>>
        ensures { IsAnswered self.now moment caller.now (Query.Tally endpoint.now) result }
    {
        let Some(name) = endpoint else {
            return Ok(Reply::Tally(self.tally(alloc, None)?));
        };
        let Some(found) = self.find(name) else {
            return Err(unknown_endpoint(name.text(alloc)?));
        };
        Ok(Reply::Tally(self.tally(alloc, Some(found.number))?))
    }

    fn tally(&self, alloc: Global, endpoint: Option<EndpointNo>) -> Result<Tally, AllocError>
        ensures { IfOk result (λ t. (L : Ledger) → Stands self.now L → t ≡ tally_in L.copies endpoint) }
    {
        Ok(Tally {
            accepted: self.copies.count_accepted(endpoint),
            causes: self.copies.count_causes(alloc, endpoint)?,
            discarded: self.copies.count_discarded(endpoint),
            made: self.copies.count_made(endpoint),
            moved: self.copies.count_moved(endpoint),
            spooled: self.copies.count_spooled(endpoint),
            used: self.used_in(endpoint),
        })
    }

    // The bytes that the spooled copies use: of at most 1,000 endpoints, each within its quota.
    fn used_in(&self, endpoint: Option<EndpointNo>) -> u64
        ensures { (L : Ledger) → Stands self.now L → result ≡ used_in L.copies endpoint }
    {
        self.copies.used_in(endpoint)
    }

    fn copy_report(&self, copy: CopyNo) -> Reply
        ensures { (L : Ledger) → Stands self.now L → result ≡ copy_reply L.copies copy }
    {
        copy_reply(&self.copies, copy)
    }

    fn flows_of(
        &self,
        alloc: Global,
        moment: Moment,
        caller: &Name,
        name: &Name,
    ) -> Result<Reply, Declined<Refusal>>
        ensures { IsAnswered self.now moment caller.now (Query.Flows name.now) result }
    {
        let Some(found) = self.find(name) else {
            return Err(unknown_endpoint(name.text(alloc)?));
        };
        let flows = bound_flows(alloc, &self.flows, &self.copies, found)?;
        let endpoint = found.name.copy(alloc)?;
        Ok(Reply::Flows { endpoint, flows })
    }
}
