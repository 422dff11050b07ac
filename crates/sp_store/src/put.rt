//! A unit is committed: written behind the last gate, and then carried out.
ghost use Rattle.std.specs.Prelude.{◌≡◌, ◌≤◌, ◌++◌, ◌∷◌, [], List, ℕ, length, true, IfOk, IfErr, None, Some, Option, false, ◌-◌, ◌^◌};
ghost use Rattle.sp_base.specs.Causes.{Rose};
ghost use Rattle.sp_base.specs.Name.{is_caller};
ghost use Rattle.sp_core.specs.Decided.{IsPrepared};
ghost use Rattle.sp_core.specs.Stands.{Stands};
ghost use Rattle.sp_disk.specs.Disk.{SameElsewhere};
ghost use Rattle.sp_disk.specs.Everywhere.{Became, Vouches};
ghost use Rattle.sp_disk.specs.Moments.{LeavesOnly};
ghost use Rattle.sp_event.specs.declared.request.Event.{Event};
ghost use Rattle.sp_journal.specs.Format.{IsPiece};
ghost use Rattle.sp_journal.specs.State.{Rests, StandsFor as JournalFor, place_of};
ghost use Rattle.sp_journal.specs.Unsure.{HasUnitsOr};
ghost use Rattle.sp_ledger.specs.Events.{outcome};
ghost use Rattle.sp_ledger.specs.Ledger.{Ledger};
ghost use Rattle.sp_store.specs.Commit.{Comes, Commits, MayGrow, MayHave, Receives, is_limited, need_of};
ghost use Rattle.sp_store.specs.Parts.{Writes};
ghost use Rattle.sp_store.specs.State.{Holds};
ghost use Rattle.sp_unit.specs.UnitBytes.{UnitView, IsUnit};

use crate::receipt::{CommitFault, Receipt};
use sp_base::declined::{Declined, EventRefusal};
use sp_base::failure::Memory;
use sp_base::moment::Moment;
use sp_base::name::Name;
use sp_base::number::UnitNo;
use sp_core::ready::Ready;
use sp_core::state::Core;
use sp_disk::disk::{Disk, File};
use sp_event::request::Event;
use sp_journal::journal::{AppendError, DiskFault, Journal};
use sp_unit::unit::Unit;
use std::alloc::{AllocError, Global};

// The bytes behind their length, and the next gate, closed.
fn framed(alloc: Global, body: &[u8]) -> Result<Vec<u8>, AllocError>
    requires { length body.now ≤ 16777216 }
    ensures { (unit : UnitView) → IsUnit body.now unit → IfOk result (λ piece. IsPiece unit piece.items) }
{
    let size = (body.len() as u32).to_le_bytes();
    let mut piece = Vec::from_slice(alloc, &size)?;
    piece.extend_from_slice(body)?;
    piece.push(0)?;
    Ok(piece)
}

// What is written of a unit.
fn piece_of(alloc: Global, now: Moment, from: &Name, unit: &[Event]) -> Result<Vec<u8>, Memory>
    requires one { length unit.now ≡ 1 }
    requires caller { is_caller from.now ≡ true }
    ensures { IfOk result (λ piece. IsPiece (record { moment = now; caller = from.now; events = unit.now }) piece.items) }
{
    let mut body = Vec::new(alloc);
    Unit::write(now, from, unit, &mut body)?;
    match framed(alloc, body.as_slice()) {
        Ok(piece) => Ok(piece),
        Err(AllocError) => Err(Memory),
    }
}

// How long the journal may become: a restart has no limit.
fn limit(event: &Event, max: u64) -> u64
    ensures limited { is_limited event.now ≡ true → result ≡ max }
    ensures free { is_limited event.now ≡ false → result ≡ 2 ^ 64 - 1 }
{
    match event {
        Event::Restart => u64::MAX,
        _ => max,
    }
}

// What is told where a unit doesn't fit. A restart fits on every disk.
fn full(event: &Event, len: u64, need: u64, max: u64) -> CommitFault
    ensures limited { is_limited event.now ≡ true → result ≡ CommitFault.Full len need max }
    ensures free { is_limited event.now ≡ false → result ≡ CommitFault.Memory }
{
    match event {
        Event::Restart => CommitFault::Memory,
        _ => CommitFault::Full { len, need, max },
    }
}

// Writes a unit behind the last gate.
fn write<D: Disk>(
    alloc: Global,
    disk: &mut D,
    journal: &mut Journal,
    max: u64,
    now: Moment,
    from: &Name,
    unit: &[Event],
) -> Result<(), CommitFault>
    requires rests { (units : List UnitView) × Rests D.tells D.content D.may_leave units journal.old disk.old }
    requires one { length unit.now ≡ 1 }
    requires caller { is_caller from.now ≡ true }
    ensures writes { let v : UnitView = record { moment = now; caller = from.now; events = unit.now } in
        (units : List UnitView) → Rests D.tells D.content D.may_leave units journal.old disk.old →
        (event : Event) → unit.now ≡ event ∷ [] →
        Writes (λ maybe us. JournalFor D.tells D.content D.may_leave maybe us journal.new disk.new)
        (place_of journal.old) max event v units result }
    ensures any_moment { let v : UnitView = record { moment = now; caller = from.now; events = unit.now } in
        (units : List UnitView) → Rests D.tells D.content D.may_leave units journal.old disk.old →
        Vouches (D.tells disk.old) → LeavesOnly D.moment D.left_since disk.old disk.new
        (Became File.Journal (HasUnitsOr units v) (D.may_leave disk.old)) }
    ensures others { SameElsewhere File.Journal (D.content disk.old) (D.content disk.new) }
    ensures telling { D.tells disk.new ≡ D.tells disk.old }
    ensures later { D.faults disk.old ≤ D.faults disk.new }
    ensures cause { result ≡ Err CommitFault.Disk → Rose (D.faults disk.old) (D.faults disk.new) }
{
    let Ok(piece) = piece_of(alloc, now, from, unit) else {
        return Err(CommitFault::Memory);
    };
    match journal.append(disk, piece.as_slice(), limit(&unit[0], max)) {
        Ok(_) => Ok(()),
        Err(AppendError::DiskFault) => Err(CommitFault::Disk),
        Err(AppendError::JournalFull { len, need, max }) => Err(full(&unit[0], len, need, max)),
    }
}

// What is told of a refusal.
fn refused_by(refused: EventRefusal) -> CommitFault
    ensures { result ≡ CommitFault.Refused refused.index refused.refusal }
{
    let EventRefusal { index, refusal } = refused;
    CommitFault::Refused { index, refusal }
}

// Carries out what was decided.
fn finish(core: &mut Core, ready: Ready) -> Receipt
    requires prepared { (caller : List ℕ) × (event : Event) × IsPrepared core.old caller event ready }
    requires stands { (L : Ledger) × Stands core.old L }
    ensures { (caller : List ℕ) (event : Event) → IsPrepared core.old caller event ready → (L : Ledger) → Stands core.old L →
        (unit : UnitView) (units : List UnitView) →
        Receives (λ maybe us M. Stands core.new M) unit units L (outcome ready.moment caller event L) result }
{
    let idle = ready.idle();
    let replies = core.apply(ready);
    Receipt {
        unit: UnitNo::of(core.units()),
        idle,
        replies,
    }
}

/// Commits a unit where no gate is unsure.
pub(crate) fn put<D: Disk>(
    alloc: Global,
    disk: &mut D,
    journal: &mut Journal,
    core: &mut Core,
    max: u64,
    now: Moment,
    from: &Name,
    unit: &[Event],
) -> Result<Receipt, CommitFault>
    requires holds { (units : List UnitView) × (L : Ledger) ×
        Holds D.tells D.content D.may_leave None units L journal.old core.old disk.old }
    requires one { length unit.now ≡ 1 }
    requires caller { is_caller from.now ≡ true }
    ensures comes { let v : UnitView = record { moment = now; caller = from.now; events = unit.now } in
        (units : List UnitView) (L : Ledger) →
        Holds D.tells D.content D.may_leave None units L journal.old core.old disk.old →
        (event : Event) → unit.now ≡ event ∷ [] →
        Comes (λ maybe us M. Holds D.tells D.content D.may_leave maybe us M journal.new core.new disk.new) v units L
        (place_of journal.old) max event (outcome now from.now event L) result }
    ensures any_moment { let v : UnitView = record { moment = now; caller = from.now; events = unit.now } in
        (units : List UnitView) (L : Ledger) →
        Holds D.tells D.content D.may_leave None units L journal.old core.old disk.old →
        (event : Event) → unit.now ≡ event ∷ [] →
        Vouches (D.tells disk.old) → LeavesOnly D.moment D.left_since disk.old disk.new
        (Became File.Journal (MayGrow units v (outcome now from.now event L)) (D.may_leave disk.old)) }
    ensures others { SameElsewhere File.Journal (D.content disk.old) (D.content disk.new) }
    ensures telling { D.tells disk.new ≡ D.tells disk.old }
    ensures later { D.faults disk.old ≤ D.faults disk.new }
    ensures cause { result ≡ Err CommitFault.Disk → Rose (D.faults disk.old) (D.faults disk.new) }
{
    let ready = match core.prepare(alloc, now, from, unit) {
        Ok(ready) => ready,
        Err(Declined::Refused(refused)) => return Err(refused_by(refused)),
        Err(Declined::Memory) => return Err(CommitFault::Memory),
    };
    if ready.idle() {
        return Ok(finish(core, ready));
    }
    match write(alloc, disk, journal, max, now, from, unit) {
        Ok(()) => Ok(finish(core, ready)),
        Err(fault) => Err(fault),
    }
}

/// Heals a gate that is unsure, and commits a unit.
pub(crate) fn heal_and_put<D: Disk>(
    alloc: Global,
    disk: &mut D,
    journal: &mut Journal,
    core: &mut Core,
    max: u64,
    now: Moment,
    from: &Name,
    unit: &[Event],
) -> Result<Receipt, CommitFault>
    requires holds { (maybe : Option UnitView) × (units : List UnitView) × (L : Ledger) ×
        Holds D.tells D.content D.may_leave maybe units L journal.old core.old disk.old }
    requires one { length unit.now ≡ 1 }
    requires caller { is_caller from.now ≡ true }
    ensures commits { let v : UnitView = record { moment = now; caller = from.now; events = unit.now } in
        (maybe : Option UnitView) (units : List UnitView) (L : Ledger) →
        Holds D.tells D.content D.may_leave maybe units L journal.old core.old disk.old →
        (event : Event) → unit.now ≡ event ∷ [] →
        Commits (λ unsure us M. Holds D.tells D.content D.may_leave unsure us M journal.new core.new disk.new) v units L
        maybe (place_of journal.old) max event (outcome now from.now event L) result }
    ensures any_moment { let v : UnitView = record { moment = now; caller = from.now; events = unit.now } in
        (maybe : Option UnitView) (units : List UnitView) (L : Ledger) →
        Holds D.tells D.content D.may_leave maybe units L journal.old core.old disk.old →
        (event : Event) → unit.now ≡ event ∷ [] →
        Vouches (D.tells disk.old) → LeavesOnly D.moment D.left_since disk.old disk.new
        (Became File.Journal (MayHave maybe units v (outcome now from.now event L)) (D.may_leave disk.old)) }
    ensures others { SameElsewhere File.Journal (D.content disk.old) (D.content disk.new) }
    ensures telling { D.tells disk.new ≡ D.tells disk.old }
    ensures later { D.faults disk.old ≤ D.faults disk.new }
    ensures cause { result ≡ Err CommitFault.Disk → Rose (D.faults disk.old) (D.faults disk.new) }
{
    match journal.heal(disk) {
        Ok(()) => put(alloc, disk, journal, core, max, now, from, unit),
        Err(DiskFault) => Err(CommitFault::Disk),
    }
}
