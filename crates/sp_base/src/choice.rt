//! Types whose values are a few choices, each of which has a word.
ghost use Rattle.std.specs.Prelude.{◌≡◌, ◌↔◌, ◌<◌, ℕ, List, Some, IfSome, bytes_eq, find, length, slice_get};
ghost use Rattle.std.specs.Option.{option_copied};
ghost use Rattle.sp_base.specs.Choice.{choice_named, place_named};

/// A type of a few choices, each of which has a word of its own.
pub trait Choice: Copy + 'static {
    ghost word_of: { Self → List ℕ };

    ghost choices: { List Self };

    /// The word for it.
    fn word(self) -> &'static str
        ensures { result.now ≡ word_of self };

    /// All choices, in their order.
    fn all() -> &'static [Self]
        ensures { result.now ≡ choices };

    // Each value is among the choices, and no other one has its word.
    ghost each_by_its_word: { (c : Self) → choice_named word_of choices (word_of c) ≡ Some c };
}

/// The choice that a word stands for. None exactly where it stands for none.
pub fn named<C: Choice>(word: &str) -> Option<C>
    ensures value { result ≡ choice_named C.word_of C.choices word.now }
    ensures exact { (c : C) → (result ≡ Some c) ↔ (C.word_of c ≡ word.now) }
{
    among(C::all(), word).copied()
}

/// The place, from 0, of the choice that a word stands for. None exactly where it stands for none.
pub fn place_named<C: Choice>(word: &str) -> Option<usize>
    ensures value { result ≡ place_named C.word_of C.choices word.now }
    ensures bound { IfSome result (λ place. place < length C.choices) }
{
    C::all().iter().position(|c| c.word() == word)
}

/// The choice at a place, from 0. None exactly where there are no more.
pub fn at_place<C: Choice>(place: usize) -> Option<C>
    ensures { result ≡ slice_get C.choices place }
{
    C::all().get(place).copied()
}

fn among<'a, C: Choice>(all: &'a [C], word: &str) -> Option<&'a C>
    ensures { option_copied result ≡ choice_named C.word_of all.now word.now }
{
    all.iter().find(|c| c.word() == word)
}
