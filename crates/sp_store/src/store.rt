//! The store on a disk.
ghost use Rattle.std.specs.Prelude.{◌≡◌, ◌≤◌, ◌-◌, ◌⊎◌, ◌∷◌, [], List, ℕ, length, true, IfOk, IfErr, IsTrue, None, Option};
ghost use Rattle.sp_base.specs.Causes.{Rose};
ghost use Rattle.sp_base.specs.Name.{is_caller};
ghost use Rattle.sp_core.specs.Asked.{IsAnswered};
ghost use Rattle.sp_core.specs.Stands.{Stands};
ghost use Rattle.sp_disk.specs.Disk.{SameElsewhere};
ghost use Rattle.sp_disk.specs.Everywhere.{Became, Reached, Vouches};
ghost use Rattle.sp_disk.specs.Looked.{Looked};
ghost use Rattle.sp_disk.specs.Moments.{LeavesOnly};
ghost use Rattle.sp_event.specs.declared.request.Event.{Event};
ghost use Rattle.sp_journal.specs.Damage.{IsDamaged, IsOtherVersion};
ghost use Rattle.sp_journal.specs.Format.{HasUnits};
ghost use Rattle.sp_journal.specs.State.{place_of};
ghost use Rattle.sp_ledger.specs.Events.{outcome};
ghost use Rattle.sp_ledger.specs.Ledger.{Ledger};
ghost use Rattle.sp_store.specs.Commit.{Commits, MayHave};
ghost use Rattle.sp_store.specs.Opening.{MayOpen, Restarts, disk_of, restarted};
ghost use Rattle.sp_store.specs.Refused.{IsRefusedAt};
ghost use Rattle.sp_store.specs.State.{StandsFor};
ghost use Rattle.sp_store.specs.Units.{IsLedgerOf};
ghost use Rattle.sp_unit.specs.UnitBytes.{UnitView};

use crate::fold::fold;
use crate::opening::opened;
use crate::put::heal_and_put;
use crate::receipt::{CommitFault, Receipt};
use sp_base::declined::Declined;
use sp_base::moment::Moment;
use sp_base::name::Name;
use sp_base::refusal::Refusal;
use sp_core::state::Core;
use sp_disk::disk::{Disk, File};
use sp_event::answer::Reply;
use sp_event::request::{Event, Query};
use sp_journal::journal::{Journal, OpenError};
use std::alloc::Global;
use std::marker::Model;

/// A ledger, and the disk whose journal has its units.
#[derive(Drop)]
pub struct Store<D: Disk> {
    disk: D,
    journal: Journal,
    core: Core,
    max: u64,
}

impl<D: Disk> Model for Store<D> {
    ghost use Rattle.sp_store.specs.State.{StoreState, IsStore};

    ghost Value = { StoreState D };

    ghost view = { λ s. record { disk = s.disk; journal = s.journal; core = s.core; max = s.max } };

    ghost invariant = { λ s. IsStore D.tells D.content D.may_leave
        (record { disk = s.disk; journal = s.journal; core = s.core; max = s.max }) };
}

impl<D: Disk> Store<D> {
    /// Opens the journal on a disk, folds its units, and commits a restart where a flow is bound. `max`
    /// is the journal's greatest length in bytes, which a restart alone may pass. A failed opening gives
    /// the disk back.
    ///
    /// Damaged is also where a unit's event is refused, or changes nothing, on the ledger of the units
    /// before it: at that unit's gate.
    pub fn open(alloc: Global, disk: D, max: u64) -> Result<Store<D>, (D, OpenError)>
        ensures opened { IfOk result (λ store. (units : List UnitView) × (L : Ledger) × IsLedgerOf units L
            × (IsTrue (D.tells disk).content → HasUnits units (D.content disk File.Journal))
            × Restarts (λ us M. StandsFor D.tells D.content D.may_leave None us M store) units L (restarted L)) }
        ensures max { IfOk result (λ store. store.max ≡ max) }
        ensures damaged { IsTrue (D.tells disk).content → IfErr result (λ back. (file : _) (at : _) →
            back.1 ≡ OpenError.Damaged file at →
            (file ≡ 0) × (IsDamaged at (D.content disk File.Journal) ⊎ IsRefusedAt at (D.content disk File.Journal))) }
        ensures other { IsTrue (D.tells disk).content → IfErr result (λ back. (found : _) →
            back.1 ≡ OpenError.OtherVersion found → IsOtherVersion found (D.content disk File.Journal)) }
        // A crash at any moment of the call leaves a journal with the units of one that a crash before might have left,
        // or with those that were read and a restart.
        ensures any_moment { Vouches (D.tells disk) → LeavesOnly D.moment D.left_since disk (disk_of result)
            (Reached File.Journal (MayOpen (D.content disk File.Journal)) (D.may_leave disk)) }
        ensures others { SameElsewhere File.Journal (D.content disk) (D.content (disk_of result)) }
        ensures telling { D.tells (disk_of result) ≡ D.tells disk }
        ensures later { D.faults disk ≤ D.faults (disk_of result) }
        ensures cause { IfErr result (λ back. back.1 ≡ OpenError.DiskFault → Rose (D.faults disk) (D.faults back.0)) }
    {
        let mut disk = disk;
        match opened(alloc, &mut disk) {
            Ok((journal, core)) => Ok(Store {
                disk,
                journal,
                core,
                max,
            }),
            Err(error) => Err((disk, error)),
        }
    }

    /// The state machine of the ledger of a journal's units, without a restart: the disk is only read.
    /// An unborn journal has no units. The errors are those of `open`.
    pub fn look(alloc: Global, disk: &mut D) -> Result<Core, OpenError>
        ensures ledger { IfOk result (λ core. (units : List UnitView) × (L : Ledger) × IsLedgerOf units L × Stands core L
            × (IsTrue (D.tells disk.old).content → HasUnits units (D.content disk.old File.Journal))) }
        ensures damaged { IsTrue (D.tells disk.old).content → (file : _) (at : _) → result ≡ Err (OpenError.Damaged file at) →
            (file ≡ 0) × (IsDamaged at (D.content disk.old File.Journal) ⊎ IsRefusedAt at (D.content disk.old File.Journal)) }
        ensures other { IsTrue (D.tells disk.old).content → (found : _) → result ≡ Err (OpenError.OtherVersion found) →
            IsOtherVersion found (D.content disk.old File.Journal) }
        ensures looked { Looked D.tells D.content D.may_leave D.moment D.left_since disk.old disk.new }
        ensures later { D.faults disk.old ≤ D.faults disk.new }
        ensures cause { result ≡ Err OpenError.DiskFault → Rose (D.faults disk.old) (D.faults disk.new) }
    {
        let journal = match Journal::look(alloc, disk) {
            Ok(journal) => journal,
            Err(error) => return Err(error),
        };
        fold(alloc, &journal, disk)
    }

    /// Commits a unit of one event of a caller at a moment: a gate that is unsure is healed, the event is
    /// decided, its unit is written, and then it is carried out. All memory is taken before anything is
    /// written.
    ///
    /// Refused exactly where the step of the ledger is. Full exactly where an event that changes something
    /// needs more bytes than are left of the journal's greatest length. After Disk the store stands for the
    /// same ledger as before, and the next commit heals first.
    pub fn commit(
        &mut self,
        alloc: Global,
        now: Moment,
        from: &Name,
        unit: &[Event],
    ) -> Result<Receipt, CommitFault>
        requires one { length unit.now ≡ 1 }
        requires caller { is_caller from.now ≡ true }
        ensures commits { (maybe : Option UnitView) (units : List UnitView) (L : Ledger) →
            StandsFor D.tells D.content D.may_leave maybe units L self.old →
            (event : Event) → unit.now ≡ event ∷ [] →
            Commits (λ unsure us M. StandsFor D.tells D.content D.may_leave unsure us M self.new)
            (record { moment = now; caller = from.now; events = unit.now }) units L
            maybe (place_of self.old.journal) self.old.max event (outcome now from.now event L) result }
        // A crash at any moment of the call leaves the units from before it, or where the event changes something those
        // and its own; where a gate was unsure, maybe those and the unsure one.
        ensures any_moment { (maybe : Option UnitView) (units : List UnitView) (L : Ledger) →
            StandsFor D.tells D.content D.may_leave maybe units L self.old →
            (event : Event) → unit.now ≡ event ∷ [] →
            Vouches (D.tells self.old.disk) → LeavesOnly D.moment D.left_since self.old.disk self.new.disk
            (Became File.Journal (MayHave maybe units (record { moment = now; caller = from.now; events = unit.now })
            (outcome now from.now event L)) (D.may_leave self.old.disk)) }
        ensures max { self.new.max ≡ self.old.max }
        ensures others { SameElsewhere File.Journal (D.content self.old.disk) (D.content self.new.disk) }
        ensures telling { D.tells self.new.disk ≡ D.tells self.old.disk }
        ensures later { D.faults self.old.disk ≤ D.faults self.new.disk }
        ensures cause { result ≡ Err CommitFault.Disk → Rose (D.faults self.old.disk) (D.faults self.new.disk) }
    {
        heal_and_put(
            alloc,
            &mut self.disk,
            &mut self.journal,
            &mut self.core,
            self.max,
            now,
            from,
            unit,
        )
    }

    /// Answers a query of a caller at a moment, as the ledger does.
    pub fn ask(
        &self,
        alloc: Global,
        now: Moment,
        from: &Name,
        q: &Query,
    ) -> Result<Reply, Declined<Refusal>>
        requires { is_caller from.now ≡ true }
        ensures { IsAnswered self.now.core now from.now q.now result }
    {
        self.core.query(alloc, now, from, q)
    }

    /// How many units the ledger has.
    pub fn units(&self) -> u64
        ensures { (maybe : Option UnitView) (units : List UnitView) (L : Ledger) →
            StandsFor D.tells D.content D.may_leave maybe units L self.now → result ≡ L.next.unit - 1 }
    {
        self.core.units()
    }

    /// The disk.
    pub fn into_disk(self) -> D
        ensures { result ≡ self.disk }
    {
        self.disk
    }
}
