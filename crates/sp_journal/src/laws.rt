//! What follows from the format alone.
ghost use Rattle.std.specs.Prelude.{◌≡◌, ◌↔◌, ◌++◌, List, ℕ};
ghost use Rattle.sp_unit.specs.UnitBytes.{UnitView};
ghost use Rattle.sp_journal.specs.Damage.{IsDamaged, IsOtherVersion};
ghost use Rattle.sp_journal.specs.Format.{ComesTo, EndsAt, HasUnits, IsUnborn};
ghost use Rattle.sp_journal.specs.Unsure.{KeepsUnits};

/// Bytes have one list of units.
pub fn units_are_one()
    ensures { (file : List ℕ) (some : List UnitView) (other : List UnitView) → HasUnits some file → HasUnits other file →
        some ≡ other }
{}

/// A journal whose units end at a closed gate ends at one place, and is neither damaged, nor of another
/// version, nor unborn.
pub fn ends_are_sound()
    ensures { (file : List ℕ) (units : List UnitView) (place : ℕ) → EndsAt units place file →
        ((others : List UnitView) (other : ℕ) → EndsAt others other file → other ≡ place)
        × ((at : ℕ) → ¬ IsDamaged at file) × ((found : ℕ) → ¬ IsOtherVersion found file) × (¬ IsUnborn file) }
{}

/// Bytes are damaged at one place, and those that are damaged are of no other version and not unborn.
pub fn damage_is_one()
    ensures { (file : List ℕ) (at : ℕ) → IsDamaged at file →
        ((other : ℕ) → IsDamaged other file → other ≡ at) × ((found : ℕ) → ¬ IsOtherVersion found file) × (¬ IsUnborn file) }
{}

/// Bytes are of one other version, and those that are aren't unborn.
pub fn other_version_is_one()
    ensures { (file : List ℕ) (found : ℕ) → IsOtherVersion found file →
        ((other : ℕ) → IsOtherVersion other file → other ≡ found) × (¬ IsUnborn file) }
{}

/// What keeps its units has the units that it had.
pub fn kept_units_are_the_same()
    ensures { (old : List ℕ) (new : List ℕ) (units : List UnitView) → KeepsUnits old new →
        HasUnits units old ↔ HasUnits units new }
{}

/// The units before a gate are the first of the file.
pub fn units_before_a_gate_are_the_first()
    ensures { (file : List ℕ) (before units : List UnitView) (place : ℕ) → ComesTo before place file → HasUnits units file →
        (more : List UnitView) × (units ≡ before ++ more) }
{}
