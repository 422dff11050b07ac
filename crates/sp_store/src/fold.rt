//! The ledger of a journal's units.
ghost use Rattle.std.specs.Prelude.{◌≡◌, ◌<◌, ◌≤◌, [], List, ℕ, IfOk, IfSome, IsTrue, None, ◌⊎◌};
ghost use Rattle.sp_base.specs.Causes.{Rose};
ghost use Rattle.sp_core.specs.Stands.{Stands};
ghost use Rattle.sp_disk.specs.Looked.{Looked};
ghost use Rattle.sp_journal.specs.Damage.{StopsAt};
ghost use Rattle.sp_journal.specs.Format.{ComesTo, HasUnits, IsUnborn};
ghost use Rattle.sp_journal.specs.State.{IsNotBorn};
ghost use Rattle.sp_ledger.specs.Ledger.{Ledger};
ghost use Rattle.sp_store.specs.Parts.{GivesOne, TakesIn};
ghost use Rattle.sp_store.specs.Refused.{IsRefusedAt};
ghost use Rattle.sp_store.specs.Units.{IsLedgerOf};
ghost use Rattle.sp_unit.specs.UnitBytes.{UnitView};

use sp_base::declined::Declined;
use sp_base::failure::Memory;
use sp_core::numbers::Numbers;
use sp_core::state::Core;
use sp_disk::disk::{Disk, File};
use sp_journal::journal::{FIRST_PLACE, Journal, OpenError, UnitError};
use sp_message::codec::ReadError;
use sp_unit::unit::Unit;
use std::alloc::Global;

// Reads the unit behind the gate at a place, and gives it with the next gate's place; none at the end.
fn unit_at<D: Disk>(
    alloc: Global,
    journal: &Journal,
    disk: &mut D,
    at: u64,
    body: &mut Vec<u8>,
) -> Result<Option<(Unit, u64)>, OpenError>
    requires { IsTrue (D.tells disk.old).content → ¬ IsNotBorn journal.now →
        (units : _) × ComesTo units at (D.content disk.old File.Journal) }
    ensures one { IsTrue (D.tells disk.old).content → ¬ IsNotBorn journal.now → (units : List UnitView) →
        ComesTo units at (D.content disk.old File.Journal) →
        IfOk result (GivesOne units at (D.content disk.old File.Journal)) }
    ensures unborn { IsNotBorn journal.now → result ≡ Ok None }
    ensures onward { IfOk result (λ found. IfSome found (λ one. at < one.1)) }
    ensures damaged { IsTrue (D.tells disk.old).content → ¬ IsNotBorn journal.now → (units : List UnitView) →
        ComesTo units at (D.content disk.old File.Journal) → (file : _) (place : _) →
        result ≡ Err (OpenError.Damaged file place) →
        (file ≡ 0) × (place ≡ at) × StopsAt units at (D.content disk.old File.Journal) }
    ensures version { (found : _) → result ≡ Err (OpenError.OtherVersion found) → ⊥ }
    ensures looked { Looked D.tells D.content D.may_leave D.moment D.left_since disk.old disk.new }
    ensures later { D.faults disk.old ≤ D.faults disk.new }
    ensures cause { result ≡ Err OpenError.DiskFault → Rose (D.faults disk.old) (D.faults disk.new) }
{
    match journal.unit(alloc, disk, at, body) {
        Ok(None) => Ok(None),
        Ok(Some(next)) => match Unit::read(alloc, body.as_slice()) {
            Ok(unit) => Ok(Some((unit, next))),
            Err(ReadError::NotOne) => Err(OpenError::Damaged { file: 0, at }),
            Err(ReadError::Memory) => Err(OpenError::Memory),
        },
        Err(UnitError::DiskFault) => Err(OpenError::DiskFault),
        Err(UnitError::Damaged { file, at }) => Err(OpenError::Damaged { file, at }),
        Err(UnitError::Memory) => Err(OpenError::Memory),
    }
}

// Whether a unit's event is accepted and changes something; then it is carried out.
fn take_in(alloc: Global, core: &mut Core, unit: &Unit) -> Result<bool, Memory>
    ensures { (L : Ledger) → Stands core.old L → TakesIn unit.now L core.new result }
{
    let events = unit.events.as_slice();
    match core.prepare(alloc, unit.moment, &unit.caller, events) {
        Ok(ready) => {
            if ready.idle() {
                return Ok(false);
            }
            core.apply(ready);
            Ok(true)
        }
        Err(Declined::Refused(_)) => Ok(false),
        Err(Declined::Memory) => Err(Memory),
    }
}

/// The state machine of the ledger of a journal's units, from the first one to the first closed gate.
/// It only reads. A unit whose event is refused, or changes nothing, is damage at its gate.
pub(crate) fn fold<D: Disk>(
    alloc: Global,
    journal: &Journal,
    disk: &mut D,
) -> Result<Core, OpenError>
    requires first { IsTrue (D.tells disk.old).content → ¬ IsNotBorn journal.now →
        ComesTo [] 13 (D.content disk.old File.Journal) }
    requires unborn { IsTrue (D.tells disk.old).content → IsNotBorn journal.now →
        IsUnborn (D.content disk.old File.Journal) }
    ensures ledger { IfOk result (λ core. (units : List UnitView) × (L : Ledger) × IsLedgerOf units L × Stands core L
        × (IsTrue (D.tells disk.old).content → HasUnits units (D.content disk.old File.Journal))) }
    ensures damaged { IsTrue (D.tells disk.old).content → (file : _) (at : _) → result ≡ Err (OpenError.Damaged file at) →
        (file ≡ 0) × (((units : List UnitView) × StopsAt units at (D.content disk.old File.Journal))
        ⊎ IsRefusedAt at (D.content disk.old File.Journal)) }
    ensures version { (found : _) → result ≡ Err (OpenError.OtherVersion found) → ⊥ }
    ensures looked { Looked D.tells D.content D.may_leave D.moment D.left_since disk.old disk.new }
    ensures later { D.faults disk.old ≤ D.faults disk.new }
    ensures cause { result ≡ Err OpenError.DiskFault → Rose (D.faults disk.old) (D.faults disk.new) }
{
    let Ok(mut core) = Core::new(alloc, Numbers::FIRST) else {
        return Err(OpenError::Memory);
    };
    let mut body = Vec::new(alloc);
    let mut at = FIRST_PLACE;
    'units: loop {
        match unit_at(alloc, journal, disk, at, &mut body) {
            Err(error) => return Err(error),
            Ok(None) => return Ok(core),
            Ok(Some((unit, next))) => match take_in(alloc, &mut core, &unit) {
                Ok(true) => at = next,
                Ok(false) => return Err(OpenError::Damaged { file: 0, at }),
                Err(Memory) => return Err(OpenError::Memory),
            },
        }
    }
}
