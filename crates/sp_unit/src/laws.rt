// What holds of the bytes of units.
ghost use Rattle.std.specs.Prelude.{◌≡◌, ◌≤◌, ℕ, List, length};
ghost use Rattle.sp_unit.specs.UnitBytes.{IsUnit, UnitView};

/// A unit has one spelling, and a spelling one unit.
#[tactic(auto, using(crate::proofs::Units::one_spelling, crate::proofs::Units::one_unit))]
pub fn each_unit_has_one_spelling()
    ensures spelling { (a b : List ℕ) (u : UnitView) → IsUnit a u → IsUnit b u → a ≡ b }
    ensures unit { (bytes : List ℕ) (u v : UnitView) → IsUnit bytes u → IsUnit bytes v → u ≡ v }
{}

/// A unit has at least 1 and at most 16,777,216 bytes.
#[tactic(auto, using(crate::proofs::Lengths::unit_some, crate::proofs::Lengths::unit_len))]
pub fn each_unit_is_short()
    ensures least { (bytes : List ℕ) (u : UnitView) → IsUnit bytes u → 1 ≤ length bytes }
    ensures most { (bytes : List ℕ) (u : UnitView) → IsUnit bytes u → length bytes ≤ 16777216 }
{}
