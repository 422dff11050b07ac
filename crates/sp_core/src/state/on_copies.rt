// Events that end copies which no flow holds are decided.
ghost use Rattle.sp_base.specs.Declined.{Obeys};
ghost use Rattle.sp_copies.specs.Due.{due_copies};
ghost use Rattle.sp_core.specs.Decided.{judged, verdict};
ghost use Rattle.sp_core.specs.Stands.{Stands};
ghost use Rattle.sp_ledger.specs.Ledger.{Ledger};
ghost use Rattle.sp_ledger.specs.Limits.{most_ended};
ghost use Rattle.sp_ledger.specs.OnCopies.{delete_copies, deleted, tick};
ghost use Rattle.sp_ledger.specs.Step.{begun, first_refusal, unit_check};
ghost use Rattle.std.specs.Prelude.{◌≡◌, ◌∷◌, [], IfOk, max, take, ℕ};

use crate::state::Core;
use sp_base::declined::Declined;
use sp_base::items::Items;
use sp_base::moment::Moment;
use sp_base::name::Name;
use sp_base::number::CopyNo;
use sp_base::refusal::Refusal;
use sp_copies::made::MadeCopy;
use sp_ending::plans::{delete_plan, expiry_plan, first_named};
use sp_endpoint::endpoint::Endpoint;
use sp_plan::asking::unknown_endpoint;
use sp_plan::plan::Plan;
use std::alloc::{AllocError, Global};

// How many copies a tick or a delete ends at most.
const MOST_ENDED: usize = 1024;

impl Core {
    pub(crate) fn decide_tick(
        &self,
        alloc: Global,
        moment: Moment,
    ) -> Result<Plan, Declined<Refusal>>
        ensures { (L : Ledger) → Stands self.now L → Obeys (verdict L (tick (begun moment L))) result }
    {
        let due = self.due(alloc, moment)?;
        let (endpoints, copies, messages) = self.tables();
        let plan = expiry_plan(alloc, endpoints, copies, messages, due.as_slice())?;
        self.judge(plan)
    }

    // The first copies whose deadline has come, and which no flow holds.
    fn due(&self, alloc: Global, moment: Moment) -> Result<Items<MadeCopy>, AllocError>
        ensures { IfOk result (λ due. (L : Ledger) → Stands self.now L → due ≡ take most_ended (due_copies L.copies (max L.now moment))) }
    {
        self.copies.due(alloc, self.later(moment), MOST_ENDED)
    }

    pub(crate) fn decide_delete(
        &self,
        alloc: Global,
        name: &Name,
        copy: Option<CopyNo>,
    ) -> Result<Plan, Declined<Refusal>>
        ensures { (L : Ledger) (moment : ℕ) → Stands self.now L → Obeys (verdict L (delete_copies name.now copy (begun moment L))) result }
    {
        let Some(endpoint) = self.find(name) else {
            return Err(unknown_endpoint(name.text(alloc)?));
        };
        let deleted = self.deleted(alloc, endpoint, copy)?;
        let plan = delete_plan(alloc, &endpoint.name, deleted.as_slice())?;
        self.judge(plan)
    }

    // The copies of an endpoint that a delete ends.
    fn deleted(
        &self,
        alloc: Global,
        endpoint: &Endpoint,
        copy: Option<CopyNo>,
    ) -> Result<Items<MadeCopy>, AllocError>
        ensures { IfOk result (λ copies. (L : Ledger) → Stands self.now L → copies ≡ deleted L endpoint.now copy) }
    {
        let free = self.copies.free_in(alloc, endpoint.number)?;
        first_named(alloc, free.as_slice(), copy, MOST_ENDED)
    }

    // Where a plan changes something, a number has to be left for its unit.
    pub(crate) fn judge(&self, plan: Plan) -> Result<Plan, Declined<Refusal>>
        ensures { (L : Ledger) → Stands self.now L → Obeys (judged (first_refusal (unit_check L plan.changes ∷ [])) plan) result }
    {
        if plan.changes.is_empty() {
            return Ok(plan);
        }
        match self.unit_refusal() {
            Some(refusal) => Err(Declined::Refused(refusal)),
            None => Ok(plan),
        }
    }
}
