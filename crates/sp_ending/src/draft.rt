// What is decided so far of copies that end one after another.
ghost use Rattle.sp_ending.specs.Drafts.{no_draft, with_discarded, with_freed, with_moved};
ghost use Rattle.sp_plan.specs.Plan.{changes_of};
ghost use Rattle.sp_txn.specs.Notes.{added_in, all_added, all_taken, taken_in, used_after};
ghost use Rattle.std.specs.Prelude.{◌≡◌, ◌≤◌, ◌+◌, ◌^◌, OnOk};

use sp_base::items::Items;
use sp_base::number::{CopyNo, EndpointNo};
use sp_copies::closed::{Cause, Closing, Fate};
use sp_copies::made::{MadeCopy, NewCopy};
use sp_event::answer::CopyFate;
use sp_plan::change::Change;
use sp_txn::sheet::Sheet;
use std::alloc::{AllocError, Global};
use std::marker::Model;

/// The changes so far, what is told of them, and what they leave: the bytes of each endpoint on a
/// sheet, and the number of the next copy.
#[derive(Drop)]
pub struct Draft {
    changes: Vec<Change>,
    told: Vec<CopyFate>,
    sheet: Sheet,
    next: u64,
}

impl Model for Draft {
    ghost use Rattle.sp_ending.specs.Drafts.{DraftView};
    ghost use Rattle.sp_ending.specs.Inside.{draft_view};

    ghost Value = { DraftView };

    ghost view = { draft_view };
}

impl Draft {
    /// Nothing is decided yet, and the next copy has this number.
    pub fn new(alloc: Global, next: u64) -> Draft
        ensures { result ≡ no_draft next }
    {
        Draft {
            changes: Vec::new(alloc),
            told: Vec::new(alloc),
            sheet: Sheet::new(alloc),
            next,
        }
    }

    /// The bytes of an endpoint that had `before`, as the changes leave them.
    pub fn used(&self, endpoint: EndpointNo, before: u64) -> u64
        requires before { before ≤ 2 ^ 50 }
        requires taken { taken_in self.now.notes endpoint ≤ before + added_in self.now.notes endpoint }
        ensures { result ≡ used_after before self.now.notes endpoint }
    {
        self.sheet.used(endpoint, before)
    }

    /// A copy is discarded.
    pub fn discard(&mut self, copy: &MadeCopy, cause: Cause) -> Result<(), AllocError>
        requires taken { all_taken self.old.notes + copy.now.size ≤ 2 ^ 50 }
        ensures { OnOk result (self.new ≡ with_discarded copy.now cause self.old) }
    {
        self.changes.push(Change::Closes {
            copy: copy.number,
            how: Closing::Discarded(cause),
        })?;
        self.told.push(CopyFate {
            copy: copy.number,
            fate: Fate::Discarded(cause),
        })?;
        self.sheet.reserve(1)?;
        self.sheet.take(copy.endpoint, copy.size);
        Ok(())
    }

    /// A copy is moved: another takes the next number.
    pub fn move_to(&mut self, copy: &MadeCopy, new: NewCopy) -> Result<(), AllocError>
        requires taken { all_taken self.old.notes + copy.now.size ≤ 2 ^ 50 }
        requires added { all_added self.old.notes + new.size ≤ 2 ^ 50 }
        requires next { self.old.next ≤ 2 ^ 62 }
        ensures { OnOk result (self.new ≡ with_moved copy.now new self.old) }
    {
        let (to, size) = (new.endpoint, new.size);
        self.changes.push(Change::Moves {
            copy: copy.number,
            new,
        })?;
        self.told.push(CopyFate {
            copy: copy.number,
            fate: Fate::Moved(CopyNo::of(self.next)),
        })?;
        self.sheet.reserve(2)?;
        self.sheet.take(copy.endpoint, copy.size);
        self.sheet.add(to, size);
        self.next += 1;
        Ok(())
    }

    /// A copy is given back.
    pub fn free(&mut self, copy: &MadeCopy) -> Result<(), AllocError>
        ensures { OnOk result (self.new ≡ with_freed copy.now self.old) }
    {
        self.changes.push(Change::Frees(copy.number))?;
        Ok(())
    }

    /// The changes, and what is told of them.
    pub fn into_parts(self) -> (Vec<Change>, Items<CopyFate>)
        ensures changes { changes_of result.0.items ≡ self.changes }
        ensures told { result.1 ≡ self.told }
    {
        let Draft { changes, told, .. } = self;
        (changes, Items::from_vec(told))
    }
}
