// Room is made for what a unit adds, after it was decided.
ghost use Rattle.std.specs.Prelude.{◌∷◌, [], IfOk, ◌≡◌, ◌≤◌, OnOk, true};
ghost use Rattle.sp_core.specs.Room.{HasRoom};
ghost use Rattle.sp_plan.specs.Plan.{changes_of};
ghost use Rattle.sp_core.specs.Stands.{IsRoomier};
ghost use Rattle.sp_ledger.specs.Limits.{spent};
ghost use Rattle.sp_ledger.specs.Step.{is_unit};

use crate::ready::Ready;
use crate::state::Core;
use sp_base::moment::Moment;
use sp_plan::asking::SPENT;
use sp_plan::change::Change;
use sp_plan::need::Need;
use sp_plan::plan::Plan;
use std::alloc::{AllocError, Global};

impl Core {
    // Makes room for a plan that was decided at a moment.
    pub(crate) fn make_ready(
        &mut self,
        alloc: Global,
        moment: Moment,
        plan: Plan,
    ) -> Result<Ready, AllocError>
        ensures same { IsRoomier self.old self.new }
        ensures ready { IfOk result (λ r. r ≡ record { moment = moment; changes = plan.changes; replies = plan.reply ∷ [] }) }
        ensures room { OnOk result (HasRoom self.new plan.changes) }
        ensures number { OnOk result (is_unit plan.changes ≡ true → self.old.next_unit ≤ spent) }
    {
        self.keep_number(plan.changes.as_slice())?;
        self.make_room(plan.changes.as_slice())?;
        Ready::of_one(alloc, moment, plan)
    }

    // A unit needs a number. Between two units no flow is bound once the last is drawn, and then
    // nothing is planned that needs one, so this never fails there.
    fn keep_number(&self, changes: &[Change]) -> Result<(), AllocError>
        ensures { OnOk result (is_unit (changes_of changes.now) ≡ true → self.now.next_unit ≤ spent) }
    {
        if !changes.is_empty() && self.last_unit.value() >= SPENT {
            return Err(AllocError);
        }
        Ok(())
    }

    // Makes room for all that changes add.
    fn make_room(&mut self, changes: &[Change]) -> Result<(), AllocError>
        ensures same { IsRoomier self.old self.new }
        ensures room { OnOk result (HasRoom self.new (changes_of changes.now)) }
    {
        let need = Need::of(changes)?;
        self.reserve_texts(changes)?;
        self.reserve_endpoints(need.endpoints)?;
        self.reserve_messages(need.messages)?;
        self.reserve_copies(need.copies)?;
        self.reserve_flows(need.flows)
    }

    // Makes room for the subscriptions and topics of the endpoints that are put in.
    fn reserve_texts(&mut self, changes: &[Change]) -> Result<(), AllocError>
        ensures { IsRoomier self.old self.new }
    {
        for change in changes {
            self.reserve_texts_of(change)?;
        }
        Ok(())
    }

    fn reserve_texts_of(&mut self, change: &Change) -> Result<(), AllocError>
        ensures { IsRoomier self.old self.new }
    {
        match change {
            Change::Comes(endpoint) | Change::Becomes(endpoint) => {
                self.endpoints.reserve_for(endpoint)
            }
            _ => Ok(()),
        }
    }

    fn reserve_endpoints(&mut self, more: usize) -> Result<(), AllocError>
        ensures same { IsRoomier self.old self.new }
        ensures room { OnOk result (more ≤ self.new.endpoints.room) }
    {
        self.endpoints.reserve(more)
    }

    fn reserve_messages(&mut self, more: usize) -> Result<(), AllocError>
        ensures same { IsRoomier self.old self.new }
        ensures room { OnOk result (more ≤ self.new.messages.room) }
    {
        self.messages.reserve(more)
    }

    fn reserve_copies(&mut self, more: usize) -> Result<(), AllocError>
        ensures same { IsRoomier self.old self.new }
        ensures room { OnOk result (more ≤ self.new.copies.spare) }
    {
        self.copies.reserve(more)
    }

    fn reserve_flows(&mut self, more: usize) -> Result<(), AllocError>
        ensures same { IsRoomier self.old self.new }
        ensures room { OnOk result (more ≤ self.new.flows.room) }
    {
        self.flows.reserve_more(more)
    }
}
