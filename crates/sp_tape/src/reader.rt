// Entries, one after another, off a source.
ghost use Rattle.std.specs.Prelude.{◌≡◌, ◌≢◌, ℕ};
ghost use Rattle.sp_base.specs.Causes.{Rose};
ghost use Rattle.sp_tape.specs.Gathering.{LineComes};
ghost use Rattle.sp_tape.specs.Reading.{Comes, Fills};

use crate::body::rest_of_entry;
use crate::parse::{FirstLine, Found, Parsed, parse_line};
use sp_base::io::Source;
use std::alloc::Global;

/// What comes next of a tape.
#[derive(Debug, Drop)]
pub enum Next {
    Found(Found),
    /// The tape was read to its end, and nothing is left.
    End,
    /// The bytes that wait don't begin with an entry: the tape was read to its end, or nothing
    /// that follows can make one.
    Bad,
    Fault,
    Memory,
}

/// What the first line of the next entry is.
#[derive(Debug, Drop)]
pub enum NextLine {
    /// It stands at the front of the bytes that wait.
    Found(FirstLine),
    /// The tape was read to its end, and nothing is left.
    End,
    /// There is none, and nothing that follows can make one.
    Bad,
    Fault,
    Memory,
}

/// How a read of more bytes ended.
#[derive(Clone, Copy, Debug, PartialEq, Eq)]
pub enum Fill {
    More,
    End,
    Fault,
    Memory,
}

/// The next entry of a tape, off the bytes that wait and those that the source gives. It reads on
/// only while the bytes that wait are unfinished: at most 98 without a line feed, or less than their
/// first line announces, where that takes at most `room` bytes.
pub fn next_entry<S: Source>(
    alloc: Global,
    source: &mut S,
    waiting: &mut Vec<u8>,
    room: u64,
) -> Next
    ensures comes { Comes room (S.left source.old) (S.left source.new) waiting.old.items waiting.new.items result }
    ensures fault { result ≡ Next.Fault → Rose (S.faults source.old) (S.faults source.new) }
    ensures no_fault { result ≢ Next.Fault → S.faults source.new ≡ S.faults source.old }
{
    match next_line(alloc, source, waiting) {
        NextLine::Found(line) => rest_of_entry(alloc, source, line, waiting, room),
        NextLine::End => Next::End,
        NextLine::Bad => Next::Bad,
        NextLine::Fault => Next::Fault,
        NextLine::Memory => Next::Memory,
    }
}

// Reads on until a line feed waits, and parses the line before it once.
fn next_line<S: Source>(alloc: Global, source: &mut S, waiting: &mut Vec<u8>) -> NextLine
    ensures comes { LineComes (S.left source.old) (S.left source.new)
        waiting.old.items waiting.new.items result }
    ensures fault { result ≡ NextLine.Fault → Rose (S.faults source.old) (S.faults source.new) }
    ensures no_fault { result ≢ NextLine.Fault → S.faults source.new ≡ S.faults source.old }
{
    for _ in 0..u64::MAX {
        match parse_line(alloc, waiting.as_slice()) {
            Err(_) => return NextLine::Memory,
            Ok(Parsed::Line(line)) => return NextLine::Found(line),
            Ok(Parsed::Bad) => return NextLine::Bad,
            Ok(Parsed::Short) => {}
        }
        match read_more(source, waiting) {
            Fill::More => {}
            Fill::End => {
                return if waiting.as_slice().is_empty() {
                    NextLine::End
                } else {
                    NextLine::Bad
                };
            }
            Fill::Fault => return NextLine::Fault,
            Fill::Memory => return NextLine::Memory,
        }
    }
    NextLine::Memory
}

// Reads once, behind the bytes that wait.
fn read_more<S: Source>(source: &mut S, waiting: &mut Vec<u8>) -> Fill
    ensures fills { Fills (S.left source.old) (S.left source.new) waiting.old.items waiting.new.items result }
    ensures fault { result ≡ Fill.Fault → Rose (S.faults source.old) (S.faults source.new) }
    ensures no_fault { result ≢ Fill.Fault → S.faults source.new ≡ S.faults source.old }
{
    let mut piece = [0; 4096];
    match source.read(&mut piece) {
        Err(_) => Fill::Fault,
        Ok(0) => Fill::End,
        Ok(count) => match waiting.extend_from_slice(&piece[..count]) {
            Ok(()) => Fill::More,
            Err(_) => Fill::Memory,
        },
    }
}
