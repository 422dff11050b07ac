//! What a journal's bytes are.
ghost use Rattle.std.specs.Prelude.{◌≡◌, ◌+◌, [], ◌∷◌, ◌<◌, ◌≤◌, ◌^◌, List, ℕ, length, take, drop, IsTrue, IfOk};
ghost use Rattle.sp_base.specs.Causes.{HasCause, Rose};
ghost use Rattle.sp_disk.specs.Looked.{Looked};
ghost use Rattle.sp_journal.specs.Format.{ComesTo};
ghost use Rattle.sp_journal.specs.Survey.{IsSo, FrameIs, GateIs, HeadIs};

use crate::body::{MAX_BODY, Unread, body_at};
use sp_base::failure::Failed;
use sp_disk::disk::{Disk, File};
use std::alloc::Global;

/// What a journal's bytes are: those of an unborn file, units up to a closed gate at a place, damaged
/// from a place on, or of another version.
#[derive(Clone, Copy, Debug, PartialEq, Eq)]
pub(crate) enum Survey {
    Unborn,
    Ends { place: u64 },
    Damaged { at: u64 },
    OtherVersion { found: u32 },
}

/// What stands at a gate's place: a closed gate, or an open one, before a whole unit with a body of
/// this length or before none.
#[derive(Clone, Copy, Debug, PartialEq, Eq)]
pub(crate) enum Gate {
    Closed,
    Whole { size: u32 },
    Broken,
}

// What a gate and the four bytes behind it are, of which so many were read, where so many are left.
fn frame_of(gate: u8, size: [u8; 4], count: usize, left: u64) -> Gate
    ensures frame { (bytes : List ℕ) → 1 ≤ length bytes → left ≡ length bytes → count ≡ length (take 5 bytes) →
        take count (gate ∷ size) ≡ take 5 bytes → FrameIs result bytes }
    ensures fits { (n : ℕ) → result ≡ Gate.Whole n → n + 6 ≤ left }
{
    if gate == 0 {
        return Gate::Closed;
    }
    if count < 5 {
        return Gate::Broken;
    }
    let size = u32::from_le_bytes(size);
    if size > MAX_BODY {
        return Gate::Broken;
    }
    if left < u64::from(size) + 6 {
        return Gate::Broken;
    }
    Gate::Whole { size }
}

// Reads a gate and the length behind it, from where on so many bytes are left.
fn frame_at<D: Disk>(disk: &mut D, place: u64, left: u64) -> Result<Gate, Failed>
    requires { 1 ≤ left }
    ensures frame { IsTrue (D.tells disk.old).content → left ≡ length (drop place (D.content disk.old File.Journal)) →
        IfOk result (λ gate. FrameIs gate (drop place (D.content disk.old File.Journal))) }
    ensures fits { (n : ℕ) → result ≡ Ok (Gate.Whole n) → n + 6 ≤ left }
    ensures looked { Looked D.tells D.content D.may_leave D.moment D.left_since disk.old disk.new }
    ensures cause { HasCause (D.faults disk.old) (D.faults disk.new) result }
{
    let mut head = [0; 5];
    let count = disk.read(File::Journal, place, &mut head)?;
    let [gate, a, b, c, d] = head;
    Ok(frame_of(gate, [a, b, c, d], count, left))
}

/// Reads what stands at a gate's place, from where on so many bytes are left, and a unit's body.
pub(crate) fn gate_at<D: Disk>(
    alloc: Global,
    disk: &mut D,
    place: u64,
    left: u64,
    into: &mut Vec<u8>,
) -> Result<Gate, Unread>
    requires some { 1 ≤ left }
    requires range { place + left < 2 ^ 64 }
    ensures gate { IsTrue (D.tells disk.old).content → left ≡ length (drop place (D.content disk.old File.Journal)) →
        IfOk result (λ gate. GateIs gate into.new.items (drop place (D.content disk.old File.Journal))) }
    ensures fits { (n : ℕ) → result ≡ Ok (Gate.Whole n) → n + 6 ≤ left }
    ensures looked { Looked D.tells D.content D.may_leave D.moment D.left_since disk.old disk.new }
    ensures later { D.faults disk.old ≤ D.faults disk.new }
    ensures cause { result ≡ Err Unread.DiskFault → Rose (D.faults disk.old) (D.faults disk.new) }
{
    let Ok(gate) = frame_at(disk, place, left) else {
        return Err(Unread::DiskFault);
    };
    let Gate::Whole { size } = gate else {
        return Ok(gate);
    };
    if body_at(alloc, disk, place + 5, size, into)? {
        return Ok(gate);
    }
    Ok(Gate::Broken)
}

// What a file of 14 bytes or more is by its first 13: none where it is a journal of this version.
fn head_of(head: &[u8], len: u64) -> Option<Survey>
    requires long { 14 ≤ len }
    requires size { length head.now ≡ 13 }
    ensures { (file : List ℕ) → len ≡ length file → head.now ≡ take 13 file → HeadIs result file }
{
    if head[0] == 0 {
        if len == 14 {
            return Some(Survey::Unborn);
        }
        return Some(Survey::Damaged { at: 0 });
    }
    if &head[1..9] != b"spooljnl".as_slice() {
        return Some(Survey::Damaged { at: 1 });
    }
    let found = u32::from_le_bytes([head[9], head[10], head[11], head[12]]);
    if found != 1 {
        return Some(Survey::OtherVersion { found });
    }
    None
}

// Goes from the first unit's gate to the first that is closed, or behind which no unit follows.
fn walk<D: Disk>(alloc: Global, disk: &mut D, len: u64) -> Result<Survey, Unread>
    requires long { 14 ≤ len }
    requires born { IsTrue (D.tells disk.old).content →
        (len ≡ length (D.content disk.old File.Journal)) × ComesTo [] 13 (D.content disk.old File.Journal) }
    ensures found { IsTrue (D.tells disk.old).content → IfOk result (λ found. IsSo found (D.content disk.old File.Journal)) }
    ensures looked { Looked D.tells D.content D.may_leave D.moment D.left_since disk.old disk.new }
    ensures later { D.faults disk.old ≤ D.faults disk.new }
    ensures cause { result ≡ Err Unread.DiskFault → Rose (D.faults disk.old) (D.faults disk.new) }
{
    let mut body = Vec::new(alloc);
    let mut place = 13;
    'units: loop {
        match gate_at(alloc, disk, place, len - place, &mut body)? {
            Gate::Closed => return Ok(Survey::Ends { place }),
            Gate::Broken => return Ok(Survey::Damaged { at: place }),
            Gate::Whole { size } => place += u64::from(size) + 5,
        }
    }
}

/// What a journal's bytes are. It only reads, and takes memory for the longest body.
pub(crate) fn inspect<D: Disk>(alloc: Global, disk: &mut D) -> Result<Survey, Unread>
    ensures found { IsTrue (D.tells disk.old).content → IfOk result (λ found. IsSo found (D.content disk.old File.Journal)) }
    ensures looked { Looked D.tells D.content D.may_leave D.moment D.left_since disk.old disk.new }
    ensures later { D.faults disk.old ≤ D.faults disk.new }
    ensures cause { result ≡ Err Unread.DiskFault → Rose (D.faults disk.old) (D.faults disk.new) }
{
    let Ok(len) = disk.len(File::Journal) else {
        return Err(Unread::DiskFault);
    };
    if len < 14 {
        return Ok(Survey::Unborn);
    }
    let mut head = [0; 13];
    let Ok(_) = disk.read(File::Journal, 0, &mut head) else {
        return Err(Unread::DiskFault);
    };
    if let Some(found) = head_of(&head, len) {
        return Ok(found);
    }
    walk(alloc, disk, len)
}
