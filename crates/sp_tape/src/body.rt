// The rest of an entry, behind its first line. Each byte of a body that is read goes straight into
// the buffer that becomes the entry's body, with the line feed behind it as the buffer's last byte.
ghost use Rattle.std.specs.Prelude.{◌≡◌, ◌≢◌, ◌≤◌, ◌+◌, ◌++◌, ℕ, [], drop, vec_len, IfOk, OnOk};
ghost use Rattle.sp_base.specs.Causes.{Rose};
ghost use Rattle.sp_tape.specs.Gathering.{ComesBehind, IsBegun, IsShared, closed, read_so_far};
ghost use Rattle.sp_tape.specs.Parse.{IsLine};
ghost use Rattle.sp_tape.specs.Reading.{Fills};

use crate::entry::Entry;
use crate::head::Head;
use crate::parse::{FirstLine, Found};
use crate::reader::{Fill, Next};
use sp_base::bytes::Bytes;
use sp_base::io::Source;
use std::alloc::{AllocError, Global};

/// The entry whose first line is at the front of the bytes that wait, where it takes at most `room`
/// bytes. It reads on only while the entry isn't whole.
pub fn rest_of_entry<S: Source>(
    alloc: Global,
    source: &mut S,
    line: FirstLine,
    waiting: &mut Vec<u8>,
    room: u64,
) -> Next
    requires { IsLine waiting.old.items line }
    ensures comes { ComesBehind room (S.left source.old) (S.left source.new)
        waiting.old.items waiting.new.items result }
    ensures fault { result ≡ Next.Fault → Rose (S.faults source.old) (S.faults source.new) }
    ensures no_fault { result ≢ Next.Fault → S.faults source.new ≡ S.faults source.old }
{
    let size = line.head.len as usize + 1;
    let used = line.len + size;
    if used as u64 > room {
        return Next::Bad;
    }
    match begin(alloc, line.len, size, waiting) {
        Ok(body) => gather(source, line.head, used, body, waiting),
        Err(_) => Next::Memory,
    }
}

// Takes what waits behind the first line, up to so many bytes, and leaves what follows. There is
// room for all of those bytes, so that none is moved when more are read.
fn begin(
    alloc: Global,
    line: usize,
    size: usize,
    waiting: &mut Vec<u8>,
) -> Result<Vec<u8>, AllocError>
    requires { line ≤ vec_len waiting.old }
    ensures joined { IfOk result (λ body. body.items ++ waiting.new.items ≡ drop line waiting.old.items) }
    ensures shared { IfOk result (λ body. IsShared size body.items waiting.new.items) }
{
    let mut body = Vec::with_capacity(alloc, size)?;
    let mut behind = Vec::new(alloc);
    share(&waiting[line..], size, &mut body, &mut behind)?;
    *waiting = behind;
    Ok(body)
}

// Reads on until the body and the line feed behind it are there.
fn gather<S: Source>(
    source: &mut S,
    head: Head,
    used: usize,
    mut body: Vec<u8>,
    waiting: &mut Vec<u8>,
) -> Next
    requires { IsBegun head used body.items waiting.old.items }
    ensures comes { (room : ℕ) → used ≤ room → ComesBehind room (S.left source.old) (S.left source.new)
        (read_so_far head body.items waiting.old.items) waiting.new.items result }
    ensures fault { result ≡ Next.Fault → Rose (S.faults source.old) (S.faults source.new) }
    ensures no_fault { result ≢ Next.Fault → S.faults source.new ≡ S.faults source.old }
{
    let size = head.len as usize + 1;
    for _ in 0..u64::MAX {
        if body.len() == size {
            return close(head, used, body);
        }
        match read_body(source, size, &mut body, waiting) {
            Fill::More => {}
            Fill::End => return Next::Bad,
            Fill::Fault => return Next::Fault,
            Fill::Memory => return Next::Memory,
        }
    }
    Next::Memory
}

// Reads once, behind what there is of a body.
fn read_body<S: Source>(
    source: &mut S,
    size: usize,
    body: &mut Vec<u8>,
    waiting: &mut Vec<u8>,
) -> Fill
    requires within { vec_len body.old ≤ size }
    requires none { waiting.old.items ≡ [] }
    ensures fills { Fills (S.left source.old) (S.left source.new)
        body.old.items (body.new.items ++ waiting.new.items) result }
    ensures shared { result ≡ Fill.More → IsShared size body.new.items waiting.new.items }
    ensures fault { result ≡ Fill.Fault → Rose (S.faults source.old) (S.faults source.new) }
    ensures no_fault { result ≢ Fill.Fault → S.faults source.new ≡ S.faults source.old }
{
    let mut piece = [0; 4096];
    match source.read(&mut piece) {
        Err(_) => Fill::Fault,
        Ok(0) => Fill::End,
        Ok(count) => match share(&piece[..count], size, body, waiting) {
            Ok(()) => Fill::More,
            Err(_) => Fill::Memory,
        },
    }
}

// Puts bytes behind a body up to its size, and those that are left over where nothing waits yet.
fn share(
    bytes: &[u8],
    size: usize,
    body: &mut Vec<u8>,
    waiting: &mut Vec<u8>,
) -> Result<(), AllocError>
    requires within { vec_len body.old ≤ size }
    requires none { waiting.old.items ≡ [] }
    ensures joined { OnOk result (body.new.items ++ waiting.new.items ≡ body.old.items ++ bytes.now) }
    ensures shared { OnOk result (IsShared size body.new.items waiting.new.items) }
{
    let count = bytes.len().min(size - body.len());
    body.extend_from_slice(&bytes[..count])?;
    waiting.extend_from_slice(&bytes[count..])
}

// The entry of a body and the line feed behind it.
fn close(head: Head, used: usize, mut body: Vec<u8>) -> Next
    requires { vec_len body ≡ head.len + 1 }
    ensures { result ≡ closed head used body.items }
{
    match body.pop() {
        Some(b'\n') => Next::Found(Found {
            entry: Entry {
                caller: head.caller,
                kind: head.kind,
                moment: head.moment,
                body: Bytes::from_vec(body),
            },
            used,
        }),
        _ => Next::Bad,
    }
}
