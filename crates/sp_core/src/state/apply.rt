// Units are carried out.
ghost use Rattle.std.specs.Prelude.{◌≤◌, List, ℕ};
ghost use Rattle.sp_core.specs.Decided.{CarriesOut, IsPrepared, MayCarryOut, ledger_after};
ghost use Rattle.sp_core.specs.Room.{Has, HasRoom, Takes};
ghost use Rattle.sp_plan.specs.Plan.{change_of, changes_of, need_of, no_need};
ghost use Rattle.sp_core.specs.Stands.{IsCore, Stands};
ghost use Rattle.sp_event.specs.declared.request.Event.{Event};
ghost use Rattle.sp_ledger.specs.Allowed.{AreAllowed, IsAllowed};
ghost use Rattle.sp_ledger.specs.Changes.{all_changed, changed};
ghost use Rattle.sp_ledger.specs.Events.{outcome};
ghost use Rattle.sp_ledger.specs.Ledger.{Ledger};
ghost use Rattle.sp_ledger.specs.Limits.{spent};
ghost use Rattle.sp_ledger.specs.Step.{begun};

use crate::ready::Ready;
use crate::state::Core;
use sp_base::moment::Moment;
use sp_base::number::UnitNo;
use sp_event::answer::Reply;
use sp_plan::change::Change;

impl Core {
    /// Carries out what was decided, and takes no memory. For every ledger for which the core
    /// stood, the replies are those of the event's outcome, and the core then stands for its ledger.
    pub fn apply(&mut self, ready: Ready) -> Vec<Reply>
        requires { (caller : List ℕ) × (event : Event) × IsPrepared self.old caller event ready }
        ensures { (caller : List ℕ) (event : Event) → IsPrepared self.old caller event ready → (L : Ledger) → Stands self.old L →
            CarriesOut (outcome ready.moment caller event L) L self.new result.items }
    {
        let (moment, changes, replies) = ready.into_parts();
        self.carry_out(moment, changes);
        replies
    }

    // One more unit is begun where something changes, and the changes come one after another.
    fn carry_out(&mut self, moment: Moment, changes: Vec<Change>)
        requires room { HasRoom self.old (changes_of changes.items) }
        requires may { (L : Ledger) → Stands self.old L → MayCarryOut moment (changes_of changes.items) L }
        ensures { (L : Ledger) → Stands self.old L → Stands self.new (ledger_after moment (changes_of changes.items) L) }
    {
        if changes.is_empty() {
            return;
        }
        self.begin(moment);
        self.change_all(changes);
    }

    // One more unit, at the later of both moments.
    fn begin(&mut self, moment: Moment)
        requires { (L : Ledger) → Stands self.old L → L.next.unit ≤ spent }
        ensures stood { IsCore self.old }
        ensures begun { (L : Ledger) → Stands self.old L → Stands self.new (begun moment L) }
        ensures room { Takes no_need self.old self.new }
    {
        self.last_unit = UnitNo::of(self.last_unit.value() + 1);
        self.clock = self.clock.max(moment);
    }

    fn change_all(&mut self, changes: Vec<Change>)
        requires room { HasRoom self.old (changes_of changes.items) }
        requires may { (L : Ledger) × Stands self.old L × AreAllowed (changes_of changes.items) L }
        ensures { (L : Ledger) → Stands self.old L → AreAllowed (changes_of changes.items) L →
            Stands self.new (all_changed (changes_of changes.items) L) }
    {
        for change in changes {
            self.change(change);
        }
    }

    fn change(&mut self, change: Change)
        requires room { Has self.old (need_of (change_of change)) }
        requires may { (L : Ledger) × Stands self.old L × IsAllowed (change_of change) L }
        ensures changed { (L : Ledger) → Stands self.old L → IsAllowed (change_of change) L → Stands self.new (changed (change_of change) L) }
        ensures room { Takes (need_of (change_of change)) self.old self.new }
    {
        match change {
            Change::Comes(endpoint) => self.come(endpoint),
            Change::Goes(endpoint) => self.go(endpoint),
            Change::Becomes(endpoint) => self.become_other(endpoint),
            Change::Publishes { message, shares } => self.publish(message, shares),
            Change::Closes { copy, how } => self.close(copy, how),
            Change::Moves { copy, new } => self.move_copy(copy, new),
            Change::Holds { copy, flow } => self.hold(copy, flow),
            Change::Frees(copy) => self.free(copy),
            Change::Binds(flow) => self.bind(flow),
            Change::Unbinds(flow) => self.unbind(flow),
            Change::UnbindsAll => self.unbind_all(),
        }
    }
}
