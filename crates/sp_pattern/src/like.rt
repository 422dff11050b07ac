ghost use Rattle.std.specs.Prelude.{◌≡◌, ◌∷◌, ◌<◌, [], length, MatchOption, IfSome};
ghost use Rattle.std.specs.Str.{chars};
ghost use Rattle.sp_pattern.specs.Pattern.{matches};
ghost use Rattle.sp_pattern.specs.Wild.{first_outcome, outcome};

use crate::item::PatternItem;

/// What became of a pattern at a place of a text.
#[derive(Clone, Copy, Debug, PartialEq, Eq)]
pub enum Outcome {
    Match,
    NoMatch,
    /// The text ended before the pattern, so no later place matches.
    TextEnded,
}

/// Whether a text matches a pattern.
#[tactic(auto, using(crate::proofs::Outcomes::match_is, crate::proofs::Outcomes::no_match_is, crate::proofs::Outcomes::ended_is))]
pub fn matches(items: &[PatternItem], text: &str) -> bool
    ensures { result ≡ matches items.now (chars text.now) }
{
    match try_place(items, text) {
        Outcome::Match => true,
        Outcome::NoMatch => false,
        Outcome::TextEnded => false,
    }
}

#[cycle(like)]
fn try_place(items: &[PatternItem], text: &str) -> Outcome
    ensures { result ≡ outcome items.now (chars text.now) }
{
    match items.split_first() {
        None => end_of(text),
        Some((PatternItem::Any, more)) => try_places(more, text),
        Some((PatternItem::One, more)) => match first_char(text) {
            Some((_, rest)) => try_place(more, rest),
            None => Outcome::TextEnded,
        },
        Some((PatternItem::Exactly(expected), more)) => match first_char(text) {
            Some((c, rest)) => {
                if *expected != c {
                    return Outcome::NoMatch;
                }
                try_place(more, rest)
            }
            None => Outcome::TextEnded,
        },
    }
}

fn end_of(text: &str) -> Outcome
    ensures { result ≡ outcome [] (chars text.now) }
{
    match first_char(text) {
        Some(_) => Outcome::NoMatch,
        None => Outcome::Match,
    }
}

/// The first outcome at this place or a later one that isn't NoMatch.
#[cycle(like)]
fn try_places(items: &[PatternItem], text: &str) -> Outcome
    ensures { result ≡ first_outcome (outcome items.now) (chars text.now) }
{
    let mut rest = text;
    loop {
        match try_place(items, rest) {
            Outcome::NoMatch => {}
            Outcome::Match => return Outcome::Match,
            Outcome::TextEnded => return Outcome::TextEnded,
        }
        match first_char(rest) {
            Some((_, more)) => rest = more,
            None => return Outcome::TextEnded,
        }
    }
}

/// The first character of a text and what follows it.
pub fn first_char(text: &str) -> Option<(char, &str)>
    ensures value { MatchOption result (chars text.now ≡ []) (λ x. chars text.now ≡ x.0 ∷ chars x.1.now) }
    ensures shorter { IfSome result (λ x. length x.1.now < length text.now) }
{
    let mut chars = text.chars();
    match chars.next() {
        Some(c) => Some((c, chars.as_str())),
        None => None,
    }
}
