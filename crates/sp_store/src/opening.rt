//! A journal is opened: its units are folded, and flows that were bound go by a restart.
ghost use Rattle.std.specs.Prelude.{◌≡◌, ◌≤◌, ◌⊎◌, ◌∷◌, [], List, ℕ, IfOk, IfSome, IsTrue, None, true, codes, OnOk};
ghost use Rattle.sp_base.specs.Causes.{Rose};
ghost use Rattle.sp_base.specs.Name.{is_caller};
ghost use Rattle.sp_core.specs.Stands.{Stands};
ghost use Rattle.sp_disk.specs.Disk.{SameElsewhere};
ghost use Rattle.sp_disk.specs.Everywhere.{Became, Reached, Vouches};
ghost use Rattle.sp_disk.specs.Moments.{LeavesOnly};
ghost use Rattle.sp_journal.specs.Damage.{IsDamaged, IsOtherVersion};
ghost use Rattle.sp_journal.specs.Format.{HasUnits};
ghost use Rattle.sp_ledger.specs.Ledger.{Ledger};
ghost use Rattle.sp_store.specs.Commit.{MayGrow};
ghost use Rattle.sp_store.specs.Opening.{MayOpen, Restarts, restarted};
ghost use Rattle.sp_store.specs.Refused.{IsRefusedAt};
ghost use Rattle.sp_store.specs.State.{Holds};
ghost use Rattle.sp_store.specs.Units.{IsLedgerOf, restart_unit};
ghost use Rattle.sp_unit.specs.UnitBytes.{UnitView};

use crate::fold::fold;
use crate::put::put;
use crate::receipt::CommitFault;
use sp_base::failure::Memory;
use sp_base::moment::Moment;
use sp_base::name::Name;
use sp_core::state::Core;
use sp_disk::disk::{Disk, File};
use sp_event::request::Event;
use sp_journal::journal::{Journal, OpenError};
use std::alloc::Global;
use std::slice;

// Who restarts.
fn system(alloc: Global) -> Result<Name, Memory>
    ensures name { IfOk result (λ name. name ≡ codes "#system") }
    ensures caller { IfOk result (λ name. is_caller name ≡ true) }
{
    let Ok(name) = Name::read(alloc, b"#system") else {
        return Err(Memory);
    };
    if !name.is_caller() {
        return Err(Memory);
    }
    Ok(name)
}

// What is told of a restart that wasn't committed. Nothing refuses one, and it has no limit.
fn opening_error(fault: CommitFault) -> OpenError
    ensures error { (result ≡ OpenError.DiskFault) ⊎ (result ≡ OpenError.Memory) }
    ensures disk { result ≡ OpenError.DiskFault → fault ≡ CommitFault.Disk }
{
    match fault {
        CommitFault::Disk => OpenError::DiskFault,
        _ => OpenError::Memory,
    }
}

// Commits a restart.
fn restart<D: Disk>(
    alloc: Global,
    disk: &mut D,
    journal: &mut Journal,
    core: &mut Core,
) -> Result<(), OpenError>
    requires holds { (units : List UnitView) × (L : Ledger) ×
        Holds D.tells D.content D.may_leave None units L journal.old core.old disk.old }
    ensures restarts { (units : List UnitView) (L : Ledger) →
        Holds D.tells D.content D.may_leave None units L journal.old core.old disk.old →
        OnOk result (Restarts (λ us M. Holds D.tells D.content D.may_leave None us M journal.new core.new disk.new) units L (restarted L)) }
    ensures any_moment { (units : List UnitView) (L : Ledger) →
        Holds D.tells D.content D.may_leave None units L journal.old core.old disk.old →
        Vouches (D.tells disk.old) → LeavesOnly D.moment D.left_since disk.old disk.new
        (Became File.Journal (MayGrow units restart_unit (restarted L)) (D.may_leave disk.old)) }
    ensures others { SameElsewhere File.Journal (D.content disk.old) (D.content disk.new) }
    ensures telling { D.tells disk.new ≡ D.tells disk.old }
    ensures later { D.faults disk.old ≤ D.faults disk.new }
    ensures error { (error : _) → result ≡ Err error → (error ≡ OpenError.DiskFault) ⊎ (error ≡ OpenError.Memory) }
    ensures cause { result ≡ Err OpenError.DiskFault → Rose (D.faults disk.old) (D.faults disk.new) }
{
    let Ok(system) = system(alloc) else {
        return Err(OpenError::Memory);
    };
    let event = Event::Restart;
    let unit = slice::from_ref(&event);
    match put(
        alloc,
        disk,
        journal,
        core,
        u64::MAX,
        Moment::START,
        &system,
        unit,
    ) {
        Ok(_) => Ok(()),
        Err(fault) => Err(opening_error(fault)),
    }
}

/// Opens a journal and folds its units; then a restart, where a flow is bound. `Store::open` has the
/// same clauses.
pub(crate) fn opened<D: Disk>(alloc: Global, disk: &mut D) -> Result<(Journal, Core), OpenError>
    ensures opened { IfOk result (λ parts. (units : List UnitView) × (L : Ledger) × IsLedgerOf units L
        × (IsTrue (D.tells disk.old).content → HasUnits units (D.content disk.old File.Journal))
        × Restarts (λ us M. Holds D.tells D.content D.may_leave None us M parts.0 parts.1 disk.new) units L (restarted L)) }
    ensures damaged { IsTrue (D.tells disk.old).content → (file : _) (at : _) → result ≡ Err (OpenError.Damaged file at) →
        (file ≡ 0) × (IsDamaged at (D.content disk.old File.Journal) ⊎ IsRefusedAt at (D.content disk.old File.Journal)) }
    ensures other { IsTrue (D.tells disk.old).content → (found : _) → result ≡ Err (OpenError.OtherVersion found) →
        IsOtherVersion found (D.content disk.old File.Journal) }
    ensures any_moment { Vouches (D.tells disk.old) → LeavesOnly D.moment D.left_since disk.old disk.new
        (Reached File.Journal (MayOpen (D.content disk.old File.Journal)) (D.may_leave disk.old)) }
    ensures others { SameElsewhere File.Journal (D.content disk.old) (D.content disk.new) }
    ensures telling { D.tells disk.new ≡ D.tells disk.old }
    ensures later { D.faults disk.old ≤ D.faults disk.new }
    ensures cause { result ≡ Err OpenError.DiskFault → Rose (D.faults disk.old) (D.faults disk.new) }
{
    let mut journal = match Journal::open(alloc, disk) {
        Ok(journal) => journal,
        Err(error) => return Err(error),
    };
    let mut core = match fold(alloc, &journal, disk) {
        Ok(core) => core,
        Err(error) => return Err(error),
    };
    match restart(alloc, disk, &mut journal, &mut core) {
        Ok(()) => Ok((journal, core)),
        Err(error) => Err(error),
    }
}
