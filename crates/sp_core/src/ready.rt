ghost use Rattle.std.specs.Prelude.{◌≡◌, ◌∷◌, [], List, ℕ, IfOk};
ghost use Rattle.sp_core.specs.Decided.{IsPrepared};
ghost use Rattle.sp_plan.specs.Plan.{changes_of};
ghost use Rattle.sp_core.specs.Stands.{Stands};
ghost use Rattle.sp_core.specs.State.{CoreState};
ghost use Rattle.sp_event.specs.declared.request.Event.{Event};
ghost use Rattle.sp_ledger.specs.Events.{outcome};
ghost use Rattle.sp_ledger.specs.Ledger.{Ledger};
ghost use Rattle.sp_ledger.specs.Step.{is_idle};

use sp_base::items::Items;
use sp_base::moment::Moment;
use sp_event::answer::Reply;
use sp_plan::change::Change;
use sp_plan::plan::Plan;
use std::alloc::{AllocError, Global};
use std::marker::Model;

/// A unit that was decided, with all the memory that it needs.
#[derive(Drop)]
pub struct Ready {
    moment: Moment,
    changes: Vec<Change>,
    replies: Vec<Reply>,
}

impl Model for Ready {
    ghost use Rattle.sp_core.specs.Decided.{ReadyState};
    ghost use Rattle.sp_plan.specs.Plan.{changes_of};

    ghost Value = { ReadyState };

    ghost view = { λ r. record { moment = r.moment; changes = changes_of r.changes.items; replies = r.replies.items } };
}

impl Ready {
    /// A unit of one event at a moment.
    pub(crate) fn of_one(alloc: Global, moment: Moment, plan: Plan) -> Result<Ready, AllocError>
        ensures { IfOk result (λ r. r ≡ record { moment = moment; changes = plan.changes; replies = plan.reply ∷ [] }) }
    {
        let Plan { changes, reply } = plan;
        let replies = Items::one(alloc, reply)?.into_vec();
        Ok(Ready {
            moment,
            changes,
            replies,
        })
    }

    /// Whether the unit changes nothing.
    pub fn idle(&self) -> bool
        ensures { (core : CoreState) (caller : List ℕ) (event : Event) → IsPrepared core caller event self.now → (L : Ledger) → Stands core L →
            result ≡ is_idle (outcome self.now.moment caller event L) }
    {
        self.changes.is_empty()
    }

    /// The moment, the changes and the replies.
    pub(crate) fn into_parts(self) -> (Moment, Vec<Change>, Vec<Reply>)
        ensures moment { result.0 ≡ self.moment }
        ensures changes { changes_of result.1.items ≡ self.changes }
        ensures replies { result.2.items ≡ self.replies }
    {
        let Ready {
            moment,
            changes,
            replies,
        } = self;
        (moment, changes, replies)
    }
}
