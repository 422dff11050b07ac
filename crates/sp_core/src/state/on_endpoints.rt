// Events on endpoints are decided.
ghost use Rattle.sp_base.specs.Declined.{Obeys};
ghost use Rattle.sp_config.specs.Settings.{with_settings};
ghost use Rattle.sp_core.specs.Decided.{verdict};
ghost use Rattle.sp_core.specs.Stands.{Stands};
ghost use Rattle.sp_endpoint.specs.Endpoints.{named};
ghost use Rattle.sp_ledger.specs.Ledger.{Ledger};
ghost use Rattle.sp_ledger.specs.Limits.{most_endpoints, most_subscriptions};
ghost use Rattle.sp_ledger.specs.OnEndpoints.{attribute_check, provision, deprovision, use_check, change_step, shares_otherwise, subscribe, unsubscribe};
ghost use Rattle.sp_ledger.specs.Step.{first_refusal, is_spent, rule};
ghost use Rattle.sp_topic.specs.Subscriptions.{has_text};
ghost use Rattle.std.specs.Prelude.{◌≡◌, ◌∷◌, [], IfOk, is_some, length, nat_le, true, ◌<◌, IfNone, false, not};

use crate::state::Core;
use sp_base::declined::Declined;
use sp_base::name::Name;
use sp_base::refusal::{Kind, Refusal};
use sp_config::kind::EndpointKind;
use sp_config::settings::Settings;
use sp_endpoint::endpoint::Endpoint;
use sp_event::answer::Reply;
use sp_plan::asking::{SPENT, attribute_refusal, share_otherwise, unknown_endpoint};
use sp_plan::change::Change;
use sp_plan::plan::Plan;
use sp_topic::subscription::Subscription;
use sp_topic::subscriptions::MOST_SUBSCRIPTIONS;
use std::alloc::{AllocError, Global};

// The most endpoints that there may be.
const MOST_ENDPOINTS: usize = 1000;

impl Core {
    pub(crate) fn decide_provision(
        &self,
        alloc: Global,
        caller: &Name,
        name: &Name,
        kind: EndpointKind,
        attributes: &Settings,
    ) -> Result<Plan, Declined<Refusal>>
        ensures { (L : Ledger) → Stands self.now L → Obeys (verdict L (provision caller.now name.now kind attributes.now L)) result }
    {
        if let Some(refusal) = self.provision_refusal(alloc, name, kind, attributes)? {
            return Err(Declined::Refused(refusal));
        }
        let number = self.next_endpoint;
        let reply = Reply::Provision {
            endpoint: name.copy(alloc)?,
            number,
        };
        let endpoint = Endpoint::made(alloc, number, caller, name, kind, attributes)?;
        Ok(Plan::of_one(alloc, Change::Comes(endpoint), reply)?)
    }

    fn provision_refusal(
        &self,
        alloc: Global,
        name: &Name,
        kind: EndpointKind,
        attributes: &Settings,
    ) -> Result<Option<Refusal>, AllocError>
        ensures { IfOk result (λ r. (L : Ledger) → Stands self.now L → r ≡ first_refusal (attribute_check kind attributes.now
            ∷ rule (is_some (named name.now L.endpoints)) (Refusal.EndpointExists name.now)
            ∷ rule (nat_le most_endpoints (length L.endpoints)) (Refusal.EndpointLimit most_endpoints)
            ∷ is_spent L.next.endpoint Kind.Endpoint ∷ is_spent L.next.unit Kind.Unit ∷ [])) }
    {
        if let Some(refusal) = attribute_refusal(alloc, kind, attributes)? {
            return Ok(Some(refusal));
        }
        if self.is_there(name) {
            let name = name.text(alloc)?;
            return Ok(Some(Refusal::EndpointExists { name }));
        }
        Ok(self.number_refusal())
    }

    // Whether no endpoint more has a place, or a number.
    fn number_refusal(&self) -> Option<Refusal>
        ensures { (L : Ledger) → Stands self.now L → result ≡ first_refusal (rule (nat_le most_endpoints (length L.endpoints)) (Refusal.EndpointLimit most_endpoints)
            ∷ is_spent L.next.endpoint Kind.Endpoint ∷ is_spent L.next.unit Kind.Unit ∷ []) }
    {
        if self.endpoints.len() >= MOST_ENDPOINTS {
            return Some(Refusal::EndpointLimit {
                max: MOST_ENDPOINTS as u64,
            });
        }
        if self.next_endpoint.value() >= SPENT {
            return Some(Refusal::IdsSpent {
                kind: Kind::Endpoint,
            });
        }
        self.unit_refusal()
    }

    fn is_there(&self, name: &Name) -> bool
        ensures { (L : Ledger) → Stands self.now L → result ≡ is_some (named name.now L.endpoints) }
    {
        self.find(name).is_some()
    }

    pub(crate) fn decide_deprovision(
        &self,
        alloc: Global,
        name: &Name,
    ) -> Result<Plan, Declined<Refusal>>
        ensures { (L : Ledger) → Stands self.now L → Obeys (verdict L (deprovision name.now L)) result }
    {
        let Some(endpoint) = self.find(name) else {
            return Err(unknown_endpoint(name.text(alloc)?));
        };
        if let Some(refusal) = self.deprovision_refusal(endpoint) {
            return Err(Declined::Refused(refusal));
        }
        let reply = Reply::Deprovision {
            endpoint: endpoint.name.copy(alloc)?,
        };
        Ok(Plan::of_one(alloc, Change::Goes(endpoint.number), reply)?)
    }

    fn deprovision_refusal(&self, endpoint: &Endpoint) -> Option<Refusal>
        ensures { (L : Ledger) → Stands self.now L → result ≡ first_refusal (use_check L endpoint.now true ∷ is_spent L.next.unit Kind.Unit ∷ []) }
    {
        if let Some(refusal) = self.use_refusal(endpoint) {
            return Some(refusal);
        }
        self.unit_refusal()
    }

    pub(crate) fn decide_change(
        &self,
        alloc: Global,
        name: &Name,
        attributes: &Settings,
    ) -> Result<Plan, Declined<Refusal>>
        ensures { (L : Ledger) → Stands self.now L → Obeys (verdict L (change_step name.now attributes.now L)) result }
    {
        let Some(endpoint) = self.find(name) else {
            return Err(unknown_endpoint(name.text(alloc)?));
        };
        let changed = endpoint.with_settings(alloc, attributes)?;
        if let Some(refusal) = self.change_refusal(alloc, endpoint, attributes, &changed)? {
            return Err(Declined::Refused(refusal));
        }
        let reply = Reply::Change {
            endpoint: endpoint.name.copy(alloc)?,
        };
        Ok(Plan::of_one(alloc, Change::Becomes(changed), reply)?)
    }

    // `changed` is the endpoint with the values.
    fn change_refusal(
        &self,
        alloc: Global,
        endpoint: &Endpoint,
        attributes: &Settings,
        changed: &Endpoint,
    ) -> Result<Option<Refusal>, AllocError>
        requires { changed.now ≡ record endpoint.now { attributes = with_settings attributes.now endpoint.now.attributes } }
        ensures { IfOk result (λ r. (L : Ledger) → Stands self.now L → r ≡ first_refusal (attribute_check endpoint.now.kind attributes.now
            ∷ use_check L endpoint.now (shares_otherwise endpoint.now.attributes (with_settings attributes.now endpoint.now.attributes))
            ∷ is_spent L.next.unit Kind.Unit ∷ [])) }
    {
        if let Some(refusal) = attribute_refusal(alloc, endpoint.kind, attributes)? {
            return Ok(Some(refusal));
        }
        let asked = share_otherwise(&endpoint.attributes, &changed.attributes);
        Ok(self.use_or_unit_refusal(endpoint, asked))
    }

    fn use_or_unit_refusal(&self, endpoint: &Endpoint, asked: bool) -> Option<Refusal>
        ensures { (L : Ledger) → Stands self.now L → result ≡ first_refusal (use_check L endpoint.now asked ∷ is_spent L.next.unit Kind.Unit ∷ []) }
    {
        if !asked {
            return self.unit_refusal();
        }
        if let Some(refusal) = self.use_refusal(endpoint) {
            return Some(refusal);
        }
        self.unit_refusal()
    }

    pub(crate) fn decide_subscribe(
        &self,
        alloc: Global,
        name: &Name,
        subscription: &Subscription,
    ) -> Result<Plan, Declined<Refusal>>
        ensures { (L : Ledger) → Stands self.now L → Obeys (verdict L (subscribe name.now subscription.now L)) result }
    {
        let Some(queue) = self.find_queue(name) else {
            return Err(unknown_endpoint(name.text(alloc)?));
        };
        if let Some(refusal) = self.subscribe_refusal(queue, subscription) {
            return Err(Declined::Refused(refusal));
        }
        let changed = queue.with_subscription(alloc, subscription)?;
        let reply = Reply::Subscribe {
            endpoint: queue.name.copy(alloc)?,
        };
        Ok(Plan::of_one(alloc, Change::Becomes(changed), reply)?)
    }

    fn subscribe_refusal(&self, queue: &Endpoint, subscription: &Subscription) -> Option<Refusal>
        ensures first { (L : Ledger) → Stands self.now L → result ≡ first_refusal (rule (has_text queue.now.subscriptions subscription.now) Refusal.SubscriptionExists
            ∷ rule (nat_le most_subscriptions (length queue.now.subscriptions)) (Refusal.SubscriptionLimit most_subscriptions)
            ∷ is_spent L.next.unit Kind.Unit ∷ []) }
        ensures other { IfNone result (has_text queue.now.subscriptions subscription.now ≡ false) }
        ensures room { IfNone result (length queue.now.subscriptions < 100) }
    {
        if queue.subscriptions.has(subscription) {
            return Some(Refusal::SubscriptionExists);
        }
        if queue.subscriptions.len() >= MOST_SUBSCRIPTIONS {
            return Some(Refusal::SubscriptionLimit {
                max: MOST_SUBSCRIPTIONS as u64,
            });
        }
        self.unit_refusal()
    }

    pub(crate) fn decide_unsubscribe(
        &self,
        alloc: Global,
        name: &Name,
        subscription: &Subscription,
    ) -> Result<Plan, Declined<Refusal>>
        ensures { (L : Ledger) → Stands self.now L → Obeys (verdict L (unsubscribe name.now subscription.now L)) result }
    {
        let Some(queue) = self.find_queue(name) else {
            return Err(unknown_endpoint(name.text(alloc)?));
        };
        if let Some(refusal) = self.unsubscribe_refusal(queue, subscription) {
            return Err(Declined::Refused(refusal));
        }
        let changed = queue.without_subscription(alloc, subscription)?;
        let reply = Reply::Unsubscribe {
            endpoint: queue.name.copy(alloc)?,
        };
        Ok(Plan::of_one(alloc, Change::Becomes(changed), reply)?)
    }

    fn unsubscribe_refusal(&self, queue: &Endpoint, subscription: &Subscription) -> Option<Refusal>
        ensures { (L : Ledger) → Stands self.now L → result ≡ first_refusal (rule (not (has_text queue.now.subscriptions subscription.now)) Refusal.UnknownSubscription
            ∷ is_spent L.next.unit Kind.Unit ∷ []) }
    {
        if !queue.subscriptions.has(subscription) {
            return Some(Refusal::UnknownSubscription);
        }
        self.unit_refusal()
    }
}
