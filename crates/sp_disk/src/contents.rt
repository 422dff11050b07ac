//! The bytes of the files of a disk in memory.
ghost use Rattle.std.specs.Prelude.{◌≡◌, ◌≤◌, ◌<◌, ◌+◌, ◌-◌, ◌*◌, [], ℕ, length, take, drop, min, vec_len, IfOk, OnOk, OnErr};
ghost use Rattle.sp_disk.specs.Disk.{SameElsewhere, Fills, written};
ghost use Rattle.std.specs.Borrow.{sem};
ghost use Rattle.sp_disk.specs.Contents.{held};
ghost use Rattle.sp_disk.specs.Lending.{LendsFile};
ghost use Rattle.sp_disk.specs.Calls.{after_call, after_one, first_half};

use crate::call::{Call, Taken};
use crate::disk::File;
use std::alloc::{AllocError, Global};

#[derive(Debug, Drop)]
pub(crate) struct Contents {
    pub(crate) journal: Vec<u8>,
    pub(crate) image: Vec<u8>,
}

impl Contents {
    pub(crate) fn new(alloc: Global) -> Contents
        ensures { (file : _) → held result file ≡ [] }
    {
        Contents {
            journal: Vec::new(alloc),
            image: Vec::new(alloc),
        }
    }

    fn file(&mut self, file: File) -> &mut Vec<u8>
        ensures* writes_back { sem 𝓛 (LendsFile self.entry file result) }
        ensures value { result.now.items ≡ held self.old file }
    {
        match file {
            File::Journal => &mut self.journal,
            File::Image => &mut self.image,
        }
    }

    pub(crate) fn bytes(&self, file: File) -> &[u8]
        ensures { result.now ≡ held self.now file }
    {
        match file {
            File::Journal => self.journal.as_slice(),
            File::Image => self.image.as_slice(),
        }
    }

    /// Puts bytes at an offset, or at the end where that comes first. Where a growth is refused,
    /// nothing has changed.
    pub(crate) fn put(&mut self, file: File, at: usize, bytes: &[u8]) -> Result<(), AllocError>
        ensures ok { OnOk result (held self.new file ≡ written (held self.old file) at bytes.now) }
        ensures err { OnErr result (held self.new file ≡ held self.old file) }
        ensures others { SameElsewhere file (held self.old) (held self.new) }
    {
        put(self.file(file), at, bytes)
    }

    /// Puts other bytes in the place of a file's.
    pub(crate) fn replace(&mut self, file: File, bytes: &[u8]) -> Result<(), AllocError>
        ensures ok { OnOk result (held self.new file ≡ bytes.now) }
        ensures others { SameElsewhere file (held self.old) (held self.new) }
    {
        self.truncate(file, 0);
        self.put(file, 0, bytes)
    }

    /// Does what a call does to its file. Where a growth is refused, nothing has changed.
    pub(crate) fn take(&mut self, taken: &Taken) -> Result<(), AllocError>
        ensures ok { OnOk result ((file : _) → held self.new file ≡ after_one file taken.now (held self.old file)) }
        ensures err { OnErr result ((file : _) → held self.new file ≡ held self.old file) }
    {
        apply(self.file(taken.file), &taken.call, taken.failed)
    }

    pub(crate) fn truncate(&mut self, file: File, len: usize)
        ensures here { held self.new file ≡ take len (held self.old file) }
        ensures others { SameElsewhere file (held self.old) (held self.new) }
    {
        self.file(file).truncate(len);
    }
}

/// Puts bytes at an offset, or at the end where that comes first. Where a growth is refused,
/// nothing has changed.
pub(crate) fn put(file: &mut Vec<u8>, at: usize, bytes: &[u8]) -> Result<(), AllocError>
    ensures ok { OnOk result (file.new.items ≡ written file.old.items at bytes.now) }
    ensures err { OnErr result (file.new.items ≡ file.old.items) }
{
    let at = at.min(file.len());
    let inside = bytes.len().min(file.len() - at);
    file.extend_from_slice(&bytes[inside..])?;
    file[at..at + inside].copy_from_slice(&bytes[..inside]);
    Ok(())
}

/// Does what a call does to the bytes of its file. Where a growth is refused, nothing has changed.
pub(crate) fn apply(file: &mut Vec<u8>, call: &Call, failed: bool) -> Result<(), AllocError>
    ensures ok { OnOk result (file.new.items ≡ after_call call.now failed file.old.items) }
    ensures err { OnErr result (file.new.items ≡ file.old.items) }
{
    match call {
        Call::Write { at, bytes } => {
            if failed {
                put(file, *at as usize, first_half(bytes.as_slice()))
            } else {
                put(file, *at as usize, bytes.as_slice())
            }
        }
        Call::Cut { len } => {
            if !failed {
                file.truncate(*len as usize);
            }
            Ok(())
        }
        Call::Len | Call::Read { .. } | Call::Sync => Ok(()),
    }
}

/// The first half of some bytes, the greater one.
pub(crate) fn first_half(bytes: &[u8]) -> &[u8]
    ensures { result.now ≡ first_half bytes.now }
{
    &bytes[..bytes.len() - bytes.len() / 2]
}

/// Fills the buffer's front with the bytes from an offset, as many as fit.
pub(crate) fn fill(file: &[u8], at: usize, into: &mut [u8]) -> usize
    ensures bound { result ≤ length into.new }
    ensures bytes { Fills (take (length into.old) (drop at file.now)) into.old into.new result }
{
    if at >= file.len() {
        return 0;
    }
    let count = into.len().min(file.len() - at);
    into[..count].copy_from_slice(&file[at..at + count]);
    count
}
