//! The words of the program.
ghost use Rattle.std.specs.Prelude.{◌≡◌};
ghost use Rattle.sp_tape.specs.Words.{form_of, form_of_one, form_of_three, length_from};

use crate::numeral::number_from;

/// What the program is asked for.
#[derive(Clone, Copy, Debug, PartialEq, Eq)]
pub enum Form {
    /// `run`, or `run --max n`: a tape is run over the journal, whose greatest length is so many bytes.
    Run { most: u64 },
    /// `check`: the journal is looked at.
    Check,
}

// The range of a journal's greatest length; the greatest is also the one where none is given.
const SHORTEST_JOURNAL: u64 = 14;

const LONGEST_JOURNAL: u64 = 1 << 32;

/// What words ask for. None where they are no form of the program.
pub fn form_of(words: &[String]) -> Option<Form>
    ensures { result ≡ form_of words.now }
{
    match words {
        [word] => form_of_one(word.as_str()),
        [first, second, third] => form_of_three(first.as_str(), second.as_str(), third.as_str()),
        _ => None,
    }
}

fn form_of_one(word: &str) -> Option<Form>
    ensures { result ≡ form_of_one word.now }
{
    if word == "run" {
        return Some(Form::Run {
            most: LONGEST_JOURNAL,
        });
    }
    if word == "check" {
        return Some(Form::Check);
    }
    None
}

fn form_of_three(first: &str, second: &str, third: &str) -> Option<Form>
    ensures { result ≡ form_of_three first.now second.now third.now }
{
    if first != "run" || second != "--max" {
        return None;
    }
    match length_from(third) {
        Some(most) => Some(Form::Run { most }),
        None => None,
    }
}

// A journal's greatest length in bytes.
fn length_from(word: &str) -> Option<u64>
    ensures { result ≡ length_from word.now }
{
    let most = number_from(word.as_bytes())?;
    if most < SHORTEST_JOURNAL || LONGEST_JOURNAL < most {
        return None;
    }
    Some(most)
}
