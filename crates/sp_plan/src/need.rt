ghost use Rattle.std.specs.Prelude.{◌≡◌, ◌+◌, IfOk};
ghost use Rattle.sp_plan.specs.Plan.{change_of, changes_of, need_of, need_of_all};

use crate::change::Change;
use std::alloc::AllocError;

/// How many rows changes add to each table.
#[derive(Clone, Copy, Debug, PartialEq, Eq)]
pub struct Need {
    pub endpoints: usize,
    pub messages: usize,
    pub copies: usize,
    pub flows: usize,
}

impl Need {
    const NONE: Need = Need {
        endpoints: 0,
        messages: 0,
        copies: 0,
        flows: 0,
    };

    /// What changes need together. No memory has the room where the numbers pass every usize.
    pub fn of(changes: &[Change]) -> Result<Need, AllocError>
        ensures { IfOk result (λ need. need ≡ need_of_all (changes_of changes.now)) }
    {
        let mut need = Need::NONE;
        for change in changes {
            need = need.plus(Need::of_one(change))?;
        }
        Ok(need)
    }

    fn of_one(change: &Change) -> Need
        ensures { result ≡ need_of (change_of change.now) }
    {
        match change {
            Change::Comes(_) => Need {
                endpoints: 1,
                ..Need::NONE
            },
            Change::Publishes { shares, .. } => Need {
                messages: 1,
                copies: shares.len(),
                ..Need::NONE
            },
            Change::Moves { .. } => Need {
                copies: 1,
                ..Need::NONE
            },
            Change::Binds(_) => Need {
                flows: 1,
                ..Need::NONE
            },
            _ => Need::NONE,
        }
    }

    fn plus(self, other: Need) -> Result<Need, AllocError>
        ensures { IfOk result (λ both. both ≡ record {
          endpoints = self.endpoints + other.endpoints;
          messages = self.messages + other.messages;
          copies = self.copies + other.copies;
          flows = self.flows + other.flows;
        }) }
    {
        Ok(Need {
            endpoints: sum(self.endpoints, other.endpoints)?,
            messages: sum(self.messages, other.messages)?,
            copies: sum(self.copies, other.copies)?,
            flows: sum(self.flows, other.flows)?,
        })
    }
}

fn sum(a: usize, b: usize) -> Result<usize, AllocError>
    ensures { IfOk result (λ sum. sum ≡ a + b) }
{
    match a.checked_add(b) {
        Some(sum) => Ok(sum),
        None => Err(AllocError),
    }
}
