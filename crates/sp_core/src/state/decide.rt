// Events are decided, before any room is made.
ghost use Rattle.std.specs.Prelude.{◌≡◌, ◌∷◌, [], Some, true};
ghost use Rattle.sp_base.specs.Declined.{Obeys};
ghost use Rattle.sp_base.specs.Name.{is_caller};
ghost use Rattle.sp_copies.specs.Counts.{spooled_count};
ghost use Rattle.sp_core.specs.Decided.{verdict};
ghost use Rattle.sp_core.specs.Stands.{Stands};
ghost use Rattle.sp_ledger.specs.Events.{step};
ghost use Rattle.sp_ledger.specs.Ledger.{Ledger};
ghost use Rattle.sp_ledger.specs.OnEndpoints.{use_check};
ghost use Rattle.sp_ledger.specs.Step.{begun, first_refusal};

use crate::state::Core;
use sp_base::declined::Declined;
use sp_base::moment::Moment;
use sp_base::name::Name;
use sp_base::number::EndpointNo;
use sp_base::refusal::Refusal;
use sp_endpoint::endpoint::Endpoint;
use sp_event::request::Event;
use sp_plan::plan::Plan;
use std::alloc::Global;

impl Core {
    pub(crate) fn decide(
        &self,
        alloc: Global,
        moment: Moment,
        caller: &Name,
        event: &Event,
    ) -> Result<Plan, Declined<Refusal>>
        requires { is_caller caller.now ≡ true }
        ensures { (L : Ledger) → Stands self.now L → Obeys (verdict L (step caller.now event.now (begun moment L))) result }
    {
        match event {
            Event::Provision {
                endpoint,
                kind,
                attributes,
            } => self.decide_provision(alloc, caller, endpoint, *kind, attributes),
            Event::Deprovision { endpoint } => self.decide_deprovision(alloc, endpoint),
            Event::Change {
                endpoint,
                attributes,
            } => self.decide_change(alloc, endpoint, attributes),
            Event::Subscribe {
                endpoint,
                subscription,
            } => self.decide_subscribe(alloc, endpoint, subscription),
            Event::Unsubscribe {
                endpoint,
                subscription,
            } => self.decide_unsubscribe(alloc, endpoint, subscription),
            Event::Publish { message } => self.decide_publish(alloc, moment, message),
            Event::Bind {
                endpoint,
                selector,
                topic,
            } => self.decide_bind(alloc, caller, endpoint, selector, topic),
            Event::Unbind { flow } => self.decide_unbind(alloc, moment, caller, *flow),
            Event::Pull { flow, count } => self.decide_pull(alloc, moment, caller, *flow, *count),
            Event::Settle {
                flow,
                copy,
                outcome,
            } => self.decide_settle(alloc, moment, caller, *flow, *copy, *outcome),
            Event::Tick => self.decide_tick(alloc, moment),
            Event::DeleteCopies { endpoint, copy } => self.decide_delete(alloc, endpoint, *copy),
            Event::Restart => self.decide_restart(alloc, moment),
        }
    }

    // What is in the way where an endpoint has to be unused, and is not.
    pub(crate) fn use_refusal(&self, endpoint: &Endpoint) -> Option<Refusal>
        ensures { (L : Ledger) → Stands self.now L → result ≡ first_refusal (use_check L endpoint.now true ∷ []) }
    {
        let flows = self.flow_count(endpoint.number);
        let copies = self.spooled_count(endpoint.number);
        if flows == 0 && copies == 0 {
            return None;
        }
        Some(Refusal::InUse { flows, copies })
    }

    pub(crate) fn spooled_count(&self, endpoint: EndpointNo) -> u64
        ensures { (L : Ledger) → Stands self.now L → result ≡ spooled_count L.copies (Some endpoint) }
    {
        self.copies.count_spooled(Some(endpoint))
    }
}
