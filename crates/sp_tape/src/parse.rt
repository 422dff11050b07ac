ghost use Rattle.std.specs.Prelude.{◌≡◌, ℕ, None, IfOk};
ghost use Rattle.sp_tape.specs.Cut.{cut};
ghost use Rattle.sp_tape.specs.Parse.{ParsesLine};

use crate::entry::Entry;
use crate::head::{Head, cut, read_head};
use std::alloc::{AllocError, Global};

/// The most bytes of an entry's first line, without its line feed: @, a caller of 64, a kind of 7,
/// a moment of 16, a length of 7, and 3 blanks.
const LONGEST_HEAD: usize = 98;

/// An entry, and how many bytes it takes.
#[derive(Debug, Drop)]
pub struct Found {
    pub entry: Entry,
    pub used: usize,
}

/// The first line of an entry.
#[derive(Debug, Drop)]
pub struct FirstLine {
    pub head: Head,
    /// How many bytes the line takes, with its line feed.
    pub len: usize,
}

/// What the front of a tape is.
#[derive(Debug, Drop)]
pub enum Parsed {
    /// It is the first line of an entry.
    Line(FirstLine),
    /// It is none yet: it holds no line feed, and no more bytes than a first line may have.
    Short,
    /// It is none, whatever follows.
    Bad,
}

/// The first line of an entry, with which the bytes begin.
pub fn parse_line(alloc: Global, bytes: &[u8]) -> Result<Parsed, AllocError>
    ensures { IfOk result (λ r. ParsesLine bytes.now r) }
{
    let Some((line, _)) = cut(bytes, b'\n') else {
        return Ok(without_line(bytes));
    };
    match read_head(alloc, line)? {
        Some(head) => Ok(Parsed::Line(FirstLine {
            head,
            len: line.len() + 1,
        })),
        None => Ok(Parsed::Bad),
    }
}

// With no line feed among more bytes than the longest first line has, no entry begins here.
fn without_line(bytes: &[u8]) -> Parsed
    requires { cut 10 bytes.now ≡ None }
    ensures { ParsesLine bytes.now result }
{
    if bytes.len() > LONGEST_HEAD {
        Parsed::Bad
    } else {
        Parsed::Short
    }
}
