//! What follows from the definitions alone.
ghost use Rattle.std.specs.Prelude.{◌≡◌, List, ℕ, None};
ghost use Rattle.sp_disk.specs.Disk.{Folder};
ghost use Rattle.sp_disk.specs.Everywhere.{Vouches};
ghost use Rattle.sp_journal.specs.Format.{HasUnits};
ghost use Rattle.sp_ledger.specs.Ledger.{Ledger};
ghost use Rattle.sp_store.specs.Opening.{MayOpen};
ghost use Rattle.sp_store.specs.Refused.{IsGood, IsRefusedAt};
ghost use Rattle.sp_store.specs.State.{StandsFor, StoreState};
ghost use Rattle.sp_store.specs.Units.{IsLedgerOf};
ghost use Rattle.sp_unit.specs.UnitBytes.{UnitView};

use sp_disk::disk::{Disk, File};

/// Units lead to one ledger.
pub fn units_have_one_ledger()
    ensures { (units : List UnitView) (L M : Ledger) → IsLedgerOf units L → IsLedgerOf units M → M ≡ L }
{}

/// A journal whose units lead to a ledger has none whose event is refused or changes nothing.
pub fn what_is_good_has_no_refused_unit()
    ensures { (file : List ℕ) (place : ℕ) → IsGood file → ¬ IsRefusedAt place file }
{}

/// Where what a crash might have left before an opening leads to a ledger, so does what a crash since may leave.
pub fn an_opening_keeps_what_is_good()
    ensures { (file : List ℕ) (old : List ℕ) (new : List ℕ) → MayOpen file old new → IsGood old → IsGood new }
{}

/// Where no gate is unsure, a crash leaves the units for which the store stands.
pub fn every_image_has_the_units<D: Disk>()
    ensures { (units : List UnitView) (L : Ledger) (store : StoreState D) →
        StandsFor D.tells D.content D.may_leave None units L store → Vouches (D.tells store.disk) →
        (image : Folder) → D.may_leave store.disk image → HasUnits units (image File.Journal) }
{}
