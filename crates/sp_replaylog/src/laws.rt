ghost use Rattle.std.specs.Prelude.{◌≡◌, ◌<◌, ◌≤◌, ◌+◌, ◌++◌, ◌∷◌, [], ℕ, Bool, List, AllPairs, Some, drop};
ghost use Rattle.std.specs.List.{slice_get};
ghost use Rattle.sp_replaylog.specs.Log.{IsLongestFitting, bytes_of, log_after, longest_fitting};
ghost use Rattle.sp_replaylog.specs.Plan.{plan, taken};
ghost use Rattle.sp_replaylog.specs.declared.entry.Entry.{Entry};

/// What a log keeps of entries is a suffix of them whose sizes sum to at most the maximum, and no
/// other such suffix is longer.
pub fn the_log_keeps_the_longest_suffix_that_fits()
    ensures { (most : ℕ) (entries : List Entry) → IsLongestFitting most entries (longest_fitting most entries) }
{}

/// Where a log is too full for a new entry, or for a smaller maximum, the oldest entry may be taken out
/// before: what is kept afterwards is the same. So whoever keeps the messages can see each that goes.
pub fn the_oldest_may_go_before()
    ensures appended { (most : ℕ) (entries : List Entry) (new : Entry) → most < bytes_of entries + new.size →
        log_after most (drop 1 entries) new ≡ log_after most entries new }
    ensures cut { (most : ℕ) (entries : List Entry) → most < bytes_of entries →
        longest_fitting most (drop 1 entries) ≡ longest_fitting most entries }
{}

/// A plan stays what it is while the log goes on: entries after its last aren't in it, and entries
/// before its first may go.
pub fn a_plan_is_fixed()
    ensures later { (takes : Entry → Bool) (first last : ℕ) (entries : List Entry) (new : Entry) → last < new.number →
        plan takes first last (entries ++ new ∷ []) ≡ plan takes first last entries }
    ensures earlier { (takes : Entry → Bool) (first last : ℕ) (oldest : Entry) (entries : List Entry) → oldest.number < first →
        plan takes first last (oldest ∷ entries) ≡ plan takes first last entries }
{}

/// Where numbers rise, a plan is what the endpoint takes of its first entry, and then the plan from the
/// next number on; and from beyond the last there is nothing.
pub fn a_plan_goes_on_by_entries()
    ensures first { (takes : Entry → Bool) (last : ℕ) (entries : List Entry) (place : ℕ) (e : Entry) →
        AllPairs (λ (a b : Entry). a.number < b.number) entries → slice_get entries place ≡ Some e → e.number ≤ last →
        plan takes e.number last entries ≡ taken takes e ++ plan takes (e.number + 1) last entries }
    ensures end { (takes : Entry → Bool) (first last : ℕ) (entries : List Entry) → last < first →
        plan takes first last entries ≡ [] }
{}
