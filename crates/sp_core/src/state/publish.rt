// A message is published.
ghost use Rattle.sp_base.specs.Declined.{Obeys};
ghost use Rattle.sp_core.specs.Decided.{publish_plan, verdict};
ghost use Rattle.sp_core.specs.Stands.{Stands};
ghost use Rattle.sp_endpoint.specs.Takers.{takers};
ghost use Rattle.sp_ledger.specs.Ledger.{Ledger};
ghost use Rattle.sp_ledger.specs.Publish.{lacks_queue, publish, quota_check, told_copies};
ghost use Rattle.sp_ledger.specs.Step.{begun, first_refusal, is_copy_spent, is_spent, rule};
ghost use Rattle.sp_message.specs.Size.{dest_bytes, size_of};
ghost use Rattle.std.specs.Prelude.{◌≡◌, ◌≤◌, ◌+◌, ◌^◌, ◌++◌, ◌∷◌, [], IfOk, length, map};

use crate::state::Core;
use sp_base::declined::Declined;
use sp_base::moment::Moment;
use sp_base::name::Name;
use sp_base::refusal::{Kind, Refusal};
use sp_endpoint::endpoint::Endpoint;
use sp_event::answer::Reply;
use sp_message::message::{Dest, Message};
use sp_plan::asking::SPENT;
use sp_plan::change::Change;
use sp_plan::plan::Plan;
use sp_plan::publishing::{all_shares, told_copies};
use sp_plan::quota::quota_refusal;
use std::alloc::{AllocError, Global};

// The last copy number that a publish draws.
const LAST_COPY: u64 = 1 << 61;

impl Core {
    pub(crate) fn decide_publish(
        &self,
        alloc: Global,
        moment: Moment,
        message: &Message,
    ) -> Result<Plan, Declined<Refusal>>
        ensures { (L : Ledger) → Stands self.now L → Obeys (verdict L (publish message.now (begun moment L))) result }
    {
        let into = self.takers(alloc, message)?;
        match self.publish_refusal(alloc, message, into.as_slice())? {
            Some(refusal) => Err(Declined::Refused(refusal)),
            None => Ok(self.publish_plan(alloc, moment, message, into.as_slice())?),
        }
    }

    // The endpoints that take a message, in the byte order of their names.
    fn takers(&self, alloc: Global, message: &Message) -> Result<Vec<&Endpoint>, AllocError>
        ensures { IfOk result (λ into. (L : Ledger) → Stands self.now L → map (λ e. e.now) into.items ≡ takers L.endpoints message.now) }
    {
        self.endpoints.takers(alloc, message)
    }

    fn publish_refusal(
        &self,
        alloc: Global,
        message: &Message,
        into: &[&Endpoint],
    ) -> Result<Option<Refusal>, AllocError>
        ensures { IfOk result (λ r. (L : Ledger) → Stands self.now L → r ≡ first_refusal (rule (lacks_queue message.now.dest L.endpoints) (Refusal.UnknownEndpoint (dest_bytes message.now.dest))
            ∷ map (quota_check L (size_of message.now)) (map (λ e. e.now) into.now)
            ++ is_spent L.next.message Kind.Message ∷ is_copy_spent (L.copies.next + length into.now) ∷ is_spent L.next.unit Kind.Unit ∷ [])) }
    {
        match self.queue_refusal(alloc, &message.dest)? {
            Some(refusal) => Ok(Some(refusal)),
            None => self.room_refusal(alloc, into, message.size()),
        }
    }

    // Whether an endpoint or a kind of numbers has no room left for the copies.
    fn room_refusal(
        &self,
        alloc: Global,
        into: &[&Endpoint],
        size: u64,
    ) -> Result<Option<Refusal>, AllocError>
        ensures { IfOk result (λ r. (L : Ledger) → Stands self.now L → r ≡ first_refusal (map (quota_check L size) (map (λ e. e.now) into.now)
            ++ is_spent L.next.message Kind.Message ∷ is_copy_spent (L.copies.next + length into.now) ∷ is_spent L.next.unit Kind.Unit ∷ [])) }
    {
        match quota_refusal(alloc, &self.copies, into, size)? {
            Some(refusal) => Ok(Some(refusal)),
            None => Ok(self.numbers_refusal(into.len())),
        }
    }

    // Whether a message is sent to a queue that isn't there.
    fn queue_refusal(&self, alloc: Global, dest: &Dest) -> Result<Option<Refusal>, AllocError>
        ensures { IfOk result (λ r. (L : Ledger) → Stands self.now L → r ≡ first_refusal (rule (lacks_queue dest.now L.endpoints) (Refusal.UnknownEndpoint (dest_bytes dest.now)) ∷ [])) }
    {
        match dest {
            Dest::Topic(_) => Ok(None),
            Dest::Queue(name) => self.missing_queue(alloc, name),
        }
    }

    fn missing_queue(&self, alloc: Global, name: &Name) -> Result<Option<Refusal>, AllocError>
        ensures { IfOk result (λ r. (L : Ledger) → Stands self.now L → r ≡ first_refusal (rule (lacks_queue (Dest.Queue name.now) L.endpoints) (Refusal.UnknownEndpoint name.now) ∷ [])) }
    {
        if self.find_queue(name).is_some() {
            return Ok(None);
        }
        Ok(Some(Refusal::UnknownEndpoint {
            name: name.text(alloc)?,
        }))
    }

    // Whether the numbers that a publish of this many copies draws are drawn.
    fn numbers_refusal(&self, copies: usize) -> Option<Refusal>
        ensures { (L : Ledger) → Stands self.now L → result ≡ first_refusal (is_spent L.next.message Kind.Message ∷ is_copy_spent (L.copies.next + copies) ∷ is_spent L.next.unit Kind.Unit ∷ []) }
    {
        if self.next_message.value() >= SPENT {
            return Some(Refusal::IdsSpent {
                kind: Kind::Message,
            });
        }
        if self.copies.next().saturating_add(copies as u64) > LAST_COPY + 1 {
            return Some(Refusal::IdsSpent { kind: Kind::Copy });
        }
        self.unit_refusal()
    }

    // Numbers are left for the copies.
    fn publish_plan(
        &self,
        alloc: Global,
        moment: Moment,
        message: &Message,
        into: &[&Endpoint],
    ) -> Result<Plan, AllocError>
        requires { (L : Ledger) → Stands self.now L → L.copies.next + length into.now ≤ 2 ^ 62 }
        ensures { IfOk result (λ plan. (L : Ledger) → Stands self.now L → plan ≡ publish_plan message.now (map (λ e. e.now) into.now) (begun moment L)) }
    {
        let number = self.next_message;
        let told = told_copies(alloc, into, self.copies.next())?;
        let shares = all_shares(alloc, into, message, number, self.later(moment))?;
        let message = message.copy(alloc)?;
        let reply = Reply::Publish {
            message: number,
            copies: told,
        };
        Plan::of_one(alloc, Change::Publishes { message, shares }, reply)
    }
}
