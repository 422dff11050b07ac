ghost use Rattle.std.specs.Prelude.{◌≡◌, ◌∷◌, [], IfOk};
ghost use Rattle.sp_plan.specs.Plan.{change_of};

use crate::change::Change;
use sp_base::items::Items;
use sp_event::answer::Reply;
use std::alloc::{AllocError, Global};
use std::marker::Model;

/// What an event that isn't refused comes to: changes one after another, and the reply.
#[derive(Drop)]
pub struct Plan {
    pub changes: Vec<Change>,
    pub reply: Reply,
}

impl Model for Plan {
    ghost use Rattle.sp_plan.specs.Plan.{PlanState};
    ghost use Rattle.sp_plan.specs.Plan.{changes_of};

    ghost Value = { PlanState };

    ghost view = { λ p. record { changes = changes_of p.changes.items; reply = p.reply } };
}

impl Plan {
    /// One change, and the reply.
    pub fn of_one(alloc: Global, change: Change, reply: Reply) -> Result<Plan, AllocError>
        ensures { IfOk result (λ plan. plan ≡ record { changes = change_of change ∷ []; reply = reply }) }
    {
        let changes = Items::one(alloc, change)?.into_vec();
        Ok(Plan { changes, reply })
    }
}
