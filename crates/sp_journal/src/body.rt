//! The body of a unit, which are its bytes.
ghost use Rattle.std.specs.Prelude.{◌≡◌, ◌≤◌, ◌+◌, ◌↔◌, length, take, drop, IsTrue, IfOk};
ghost use Rattle.sp_disk.specs.Looked.{Looked};
ghost use Rattle.sp_base.specs.Causes.{Rose};
ghost use Rattle.sp_journal.specs.Body.{IsBody};

use sp_base::failure::Memory;
use sp_disk::disk::{Disk, File};
use sp_message::codec::ReadError;
use sp_unit::unit::Unit;
use std::alloc::Global;

/// The greatest length of a body, in bytes.
pub(crate) const MAX_BODY: u32 = 16_777_216;

/// Why nothing was read.
#[derive(Clone, Copy, Debug, PartialEq, Eq)]
pub(crate) enum Unread {
    DiskFault,
    Memory,
}

/// Whether bytes are those of a unit. It takes memory for the unit.
pub(crate) fn is_body(alloc: Global, bytes: &[u8]) -> Result<bool, Memory>
    ensures { IfOk result (λ is. IsTrue is ↔ IsBody bytes.now) }
{
    match Unit::read(alloc, bytes) {
        Ok(_) => Ok(true),
        Err(ReadError::NotOne) => Ok(false),
        Err(ReadError::Memory) => Err(Memory),
    }
}

/// Reads so many bytes at an offset of the journal, and tells whether they are there and are a body.
pub(crate) fn body_at<D: Disk>(
    alloc: Global,
    disk: &mut D,
    at: u64,
    size: u32,
    into: &mut Vec<u8>,
) -> Result<bool, Unread>
    ensures bytes { IsTrue (D.tells disk.old).content → at + size ≤ length (D.content disk.old File.Journal) →
        IfOk result (λ _. into.new.items ≡ take size (drop at (D.content disk.old File.Journal))) }
    ensures body { IsTrue (D.tells disk.old).content → at + size ≤ length (D.content disk.old File.Journal) →
        IfOk result (λ is. IsTrue is ↔ IsBody into.new.items) }
    ensures looked { Looked D.tells D.content D.may_leave D.moment D.left_since disk.old disk.new }
    ensures later { D.faults disk.old ≤ D.faults disk.new }
    ensures cause { result ≡ Err Unread.DiskFault → Rose (D.faults disk.old) (D.faults disk.new) }
{
    into.clear();
    let Ok(()) = into.resize(size as usize, 0) else {
        return Err(Unread::Memory);
    };
    let Ok(count) = disk.read(File::Journal, at, into) else {
        return Err(Unread::DiskFault);
    };
    if count < size as usize {
        return Ok(false);
    }
    match is_body(alloc, into) {
        Ok(is) => Ok(is),
        Err(Memory) => Err(Unread::Memory),
    }
}
