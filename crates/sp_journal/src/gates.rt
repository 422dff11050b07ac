//! The gates of a journal: what is written behind a closed one, and how one is opened and closed.
ghost use Rattle.std.specs.Prelude.{◌≡◌, ◌++◌, [], ◌∷◌, ◌+◌, ◌<◌, ◌≤◌, ◌^◌, ◌↔◌, length, IsTrue, IfOk, OnOk};
ghost use Rattle.sp_base.specs.Causes.{HasCause};
ghost use Rattle.sp_disk.specs.Disk.{SameElsewhere, HoldsOnly, written};
ghost use Rattle.sp_disk.specs.Everywhere.{Became, Everywhere, Reached, Vouches};
ghost use Rattle.sp_disk.specs.Looked.{Looked};
ghost use Rattle.sp_disk.specs.Moments.{LeavesOnly};
ghost use Rattle.sp_unit.specs.UnitBytes.{unit_bytes};
ghost use Rattle.sp_journal.specs.Closing.{IsClosedAt, MayClose};
ghost use Rattle.sp_journal.specs.Format.{EndsAt, IsPiece};
ghost use Rattle.sp_journal.specs.Unsure.{Offers, IsUnsure};

use crate::device::put;
use sp_base::failure::Failed;
use sp_disk::disk::{Disk, File};

// Writes a piece behind the closed gate at a place, and syncs.
fn stage<D: Disk>(disk: &mut D, place: u64, piece: &[u8]) -> Result<(), Failed>
    requires room { place + 1 < 2 ^ 64 }
    requires within { IsTrue (D.tells disk.old).content → place + 1 ≤ length (D.content disk.old File.Journal) }
    ensures written { IsTrue (D.tells disk.old).content →
        OnOk result (D.content disk.new File.Journal ≡ written (D.content disk.old File.Journal) (place + 1) piece.now) }
    ensures staged { (units : _) (unit : _) →
        Everywhere D.tells D.content D.may_leave File.Journal disk.old (EndsAt units place) → IsPiece unit piece.now →
        OnOk result (Everywhere D.tells D.content D.may_leave File.Journal disk.new (Offers units unit place)) }
    ensures kept { (units : _) → Everywhere D.tells D.content D.may_leave File.Journal disk.old (EndsAt units place) →
        Everywhere D.tells D.content D.may_leave File.Journal disk.new (EndsAt units place) }
    ensures moments { (units : _) → Everywhere D.tells D.content D.may_leave File.Journal disk.old (EndsAt units place) →
        Vouches (D.tells disk.old) → LeavesOnly D.moment D.left_since disk.old disk.new
        (Became File.Journal (EndsAt units place) (D.may_leave disk.old)) }
    ensures others { SameElsewhere File.Journal (D.content disk.old) (D.content disk.new) }
    ensures telling { D.tells disk.new ≡ D.tells disk.old }
    ensures cause { HasCause (D.faults disk.old) (D.faults disk.new) result }
{
    put(disk, place + 1, piece)?;
    Ok(())
}

// Opens the gate at a place, behind which a unit stands whole, and syncs.
fn show<D: Disk>(disk: &mut D, place: u64) -> Result<(), Failed>
    requires { IsTrue (D.tells disk.old).content → place ≤ length (D.content disk.old File.Journal) }
    ensures written { IsTrue (D.tells disk.old).content →
        OnOk result (D.content disk.new File.Journal ≡ written (D.content disk.old File.Journal) place (1 ∷ [])) }
    ensures shown { (units : _) (unit : _) →
        Everywhere D.tells D.content D.may_leave File.Journal disk.old (Offers units unit place) →
        OnOk result (Everywhere D.tells D.content D.may_leave File.Journal disk.new
        (EndsAt (units ++ unit ∷ []) (place + (length (unit_bytes unit) + 5)))) }
    ensures kept { (units : _) (unit : _) →
        Everywhere D.tells D.content D.may_leave File.Journal disk.old (Offers units unit place) →
        Everywhere D.tells D.content D.may_leave File.Journal disk.new (Offers units unit place) }
    ensures moments { (units : _) (unit : _) →
        Everywhere D.tells D.content D.may_leave File.Journal disk.old (Offers units unit place) →
        Vouches (D.tells disk.old) → LeavesOnly D.moment D.left_since disk.old disk.new
        (Became File.Journal (Offers units unit place) (D.may_leave disk.old)) }
    ensures others { SameElsewhere File.Journal (D.content disk.old) (D.content disk.new) }
    ensures telling { D.tells disk.new ≡ D.tells disk.old }
    ensures cause { HasCause (D.faults disk.old) (D.faults disk.new) result }
{
    put(disk, place, &[1])?;
    Ok(())
}

// Writes a piece behind the closed gate at a place and opens the gate: four calls of the disk.
pub(crate) fn add<D: Disk>(disk: &mut D, place: u64, piece: &[u8]) -> Result<(), Failed>
    requires room { place + 1 < 2 ^ 64 }
    requires rests { (units : _) × Everywhere D.tells D.content D.may_leave File.Journal disk.old (EndsAt units place) }
    ensures written { IsTrue (D.tells disk.old).content → OnOk result
        (D.content disk.new File.Journal ≡ written (D.content disk.old File.Journal) place (1 ∷ piece.now)) }
    ensures added { (units : _) (unit : _) →
        Everywhere D.tells D.content D.may_leave File.Journal disk.old (EndsAt units place) → IsPiece unit piece.now →
        OnOk result (Everywhere D.tells D.content D.may_leave File.Journal disk.new
        (EndsAt (units ++ unit ∷ []) (place + (length (unit_bytes unit) + 5)))) }
    ensures unsure { (units : _) (unit : _) →
        Everywhere D.tells D.content D.may_leave File.Journal disk.old (EndsAt units place) → IsPiece unit piece.now →
        Everywhere D.tells D.content D.may_leave File.Journal disk.new (IsUnsure units unit place) }
    ensures moments { (units : _) (unit : _) →
        Everywhere D.tells D.content D.may_leave File.Journal disk.old (EndsAt units place) → IsPiece unit piece.now →
        Vouches (D.tells disk.old) → LeavesOnly D.moment D.left_since disk.old disk.new
        (Became File.Journal (IsUnsure units unit place) (D.may_leave disk.old)) }
    ensures others { SameElsewhere File.Journal (D.content disk.old) (D.content disk.new) }
    ensures telling { D.tells disk.new ≡ D.tells disk.old }
    ensures cause { HasCause (D.faults disk.old) (D.faults disk.new) result }
{
    stage(disk, place, piece)?;
    show(disk, place)?;
    Ok(())
}

// Whether a read gives a closed gate at a place.
fn is_closed<D: Disk>(disk: &mut D, at: u64) -> Result<bool, Failed>
    ensures closed { IsTrue (D.tells disk.old).content →
        IfOk result (λ closed. IsTrue closed ↔ IsClosedAt at (D.content disk.old File.Journal)) }
    ensures looked { Looked D.tells D.content D.may_leave D.moment D.left_since disk.old disk.new }
    ensures cause { HasCause (D.faults disk.old) (D.faults disk.new) result }
{
    let mut gate = [0xff];
    let count = disk.read(File::Journal, at, &mut gate)?;
    if count == 0 {
        return Ok(false);
    }
    Ok(gate[0] == 0)
}

// Closes the gate at a place: syncs and reads it, and only where the read doesn't give a closed one
// writes it and syncs again. To write over a closed gate could leave an open one after a crash, before
// bytes that were never synced.
pub(crate) fn close<D: Disk>(disk: &mut D, at: u64) -> Result<(), Failed>
    requires { IsTrue (D.tells disk.old).content → at ≤ length (D.content disk.old File.Journal) }
    ensures closed { IsTrue (D.tells disk.old).content →
        OnOk result (D.content disk.new File.Journal ≡ written (D.content disk.old File.Journal) at (0 ∷ [])) }
    ensures reads { IsTrue (D.tells disk.old).content →
        MayClose at (D.content disk.old File.Journal) (D.content disk.old File.Journal) (D.content disk.new File.Journal) }
    ensures durable { IsTrue (D.tells disk.old).honest →
        OnOk result (HoldsOnly File.Journal (D.content disk.new File.Journal) (D.may_leave disk.new)) }
    ensures moments { Vouches (D.tells disk.old) → LeavesOnly D.moment D.left_since disk.old disk.new
        (Reached File.Journal (MayClose at (D.content disk.old File.Journal)) (D.may_leave disk.old)) }
    ensures others { SameElsewhere File.Journal (D.content disk.old) (D.content disk.new) }
    ensures telling { D.tells disk.new ≡ D.tells disk.old }
    ensures cause { HasCause (D.faults disk.old) (D.faults disk.new) result }
{
    disk.sync(File::Journal)?;
    let closed = is_closed(disk, at)?;
    if closed {
        return Ok(());
    }
    put(disk, at, &[0])?;
    Ok(())
}
