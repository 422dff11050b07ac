//! The images that a number picks.
ghost use Rattle.std.specs.Prelude.{◌≡◌, ◌≤◌, ◌/◌, ◌%◌, length, min, OnOk, IfOk};
ghost use Rattle.sp_disk.specs.Disk.{Torn, Shortened};
ghost use Rattle.sp_disk.specs.Calls.{after_one, IsImage, Leaves, LeavesOne};
ghost use Rattle.sp_disk.specs.Picks.{way_of, laid, torn_by, shortened_by, Pick, pick_call, pick_one, pick_of};
ghost use Rattle.sp_disk.specs.Replays.{picked_in};

use crate::call::{Call, Taken};
use crate::contents::{apply, first_half, put};
use crate::disk::File;
use std::alloc::{AllocError, Global};

// How much of a write or a cut has come to the disk at a crash.
#[derive(Clone, Copy, Debug, PartialEq, Eq)]
pub(crate) enum Way {
    Whole,
    Undone,
    Half,
    // A write's range holds this byte throughout. A cut is half done.
    Other(u8),
}

// A digit to the base 8, as a way.
fn way_of(digit: u64) -> Way
    ensures { result ≡ way_of digit }
{
    match digit {
        0 => Way::Whole,
        1 => Way::Undone,
        2 => Way::Half,
        3 => Way::Other(0x00),
        4 => Way::Other(0x01),
        5 => Way::Other(0x5a),
        6 => Way::Other(0x80),
        _ => Way::Other(0xff),
    }
}

/// A file as its calls are gone through: what a read gives, the image that a number picks, and what
/// is left of the number.
#[derive(Drop)]
pub(crate) struct Replay {
    pub(crate) reads: Vec<u8>,
    pub(crate) image: Vec<u8>,
    pub(crate) rest: u64,
}

/// A file that held these bytes first, after all the calls.
pub(crate) fn replayed(
    alloc: Global,
    first: &[u8],
    file: File,
    calls: &[Taken],
    number: u64,
) -> Result<Replay, AllocError>
    ensures image { IfOk result (λ replay. IsImage file calls.now first.now first.now replay.image.items) }
    ensures picked { IfOk result (λ replay. picked_in replay ≡ pick_of number file calls.now first.now) }
{
    let mut replay = Replay {
        reads: Vec::from_slice(alloc, first)?,
        image: Vec::from_slice(alloc, first)?,
        rest: number,
    };
    for taken in calls {
        replay.step(alloc, file, taken, number)?;
    }
    Ok(replay)
}

impl Replay {
    fn step(
        &mut self,
        alloc: Global,
        file: File,
        taken: &Taken,
        number: u64,
    ) -> Result<(), AllocError>
        ensures reads { OnOk result (self.new.reads.items ≡ after_one file taken.now self.old.reads.items) }
        ensures image { OnOk result (LeavesOne file taken.now self.old.reads.items self.old.image.items self.new.image.items) }
        ensures picked { OnOk result (picked_in self.new ≡ pick_one number file taken.now self.old.reads.items (picked_in self.old)) }
    {
        if taken.file != file {
            return Ok(());
        }
        self.crash(alloc, &taken.call, taken.failed, number)?;
        apply(&mut self.reads, &taken.call, taken.failed)
    }

    // Makes of the image one that a crash after the call may leave.
    fn crash(
        &mut self,
        alloc: Global,
        call: &Call,
        failed: bool,
        number: u64,
    ) -> Result<(), AllocError>
        ensures leaves { OnOk result (Leaves call.now failed self.old.reads.items self.old.image.items self.new.image.items) }
        ensures picked { OnOk result (picked_in self.new ≡ pick_call number call.now failed self.old.reads.items (picked_in self.old)) }
        ensures reads { self.new.reads ≡ self.old.reads }
    {
        match call {
            Call::Write { at, bytes } => {
                let way = self.next_way();
                tear(alloc, &mut self.image, *at as usize, bytes.as_slice(), way)
            }
            Call::Cut { len } => {
                let way = self.next_way();
                shorten(&mut self.image, *len as usize, way);
                Ok(())
            }
            Call::Sync => self.settle(failed, number),
            Call::Len | Call::Read { .. } => Ok(()),
        }
    }

    // Takes the last digit off the number.
    fn next_way(&mut self) -> Way
        ensures way { result ≡ way_of (self.old.rest % 8) }
        ensures rest { self.new.rest ≡ self.old.rest / 8 }
        ensures reads { self.new.reads ≡ self.old.reads }
        ensures image { self.new.image ≡ self.old.image }
    {
        let digit = self.rest % 8;
        self.rest /= 8;
        way_of(digit)
    }

    // After a sync that succeeds there is one image, and the number begins anew.
    fn settle(&mut self, failed: bool, number: u64) -> Result<(), AllocError>
        ensures leaves { OnOk result (Leaves Call.Sync failed self.old.reads.items self.old.image.items self.new.image.items) }
        ensures picked { OnOk result (picked_in self.new ≡ pick_call number Call.Sync failed self.old.reads.items (picked_in self.old)) }
        ensures reads { self.new.reads ≡ self.old.reads }
    {
        if failed {
            return Ok(());
        }
        self.rest = number;
        self.image.clear();
        self.image.extend_from_slice(self.reads.as_slice())
    }
}

fn tear(
    alloc: Global,
    image: &mut Vec<u8>,
    at: usize,
    bytes: &[u8],
    way: Way,
) -> Result<(), AllocError>
    ensures torn { OnOk result (Torn at (length bytes.now) image.old.items image.new.items) }
    ensures by { OnOk result (image.new.items ≡ torn_by way at bytes.now image.old.items) }
{
    match way {
        Way::Whole => lay(image, at, bytes),
        Way::Undone => Ok(()),
        Way::Half => lay(image, at, first_half(bytes)),
        Way::Other(byte) => {
            let other = vec![in alloc; byte; bytes.len()]?;
            lay(image, at, other.as_slice())
        }
    }
}

// Puts bytes at an offset, with zeros before it where the image ends earlier.
fn lay(image: &mut Vec<u8>, at: usize, bytes: &[u8]) -> Result<(), AllocError>
    ensures torn { OnOk result (Torn at (length bytes.now) image.old.items image.new.items) }
    ensures laid { OnOk result (image.new.items ≡ laid at bytes.now image.old.items) }
{
    if image.len() < at {
        image.resize(at, 0)?;
    }
    put(image, at, bytes)
}

fn shorten(image: &mut Vec<u8>, len: usize, way: Way)
    ensures shortened { Shortened len image.old.items image.new.items }
    ensures by { image.new.items ≡ shortened_by way len image.old.items }
{
    let least = image.len().min(len);
    let most = image.len();
    image.truncate(match way {
        Way::Whole => least,
        Way::Undone => most,
        Way::Half | Way::Other(_) => least + (most - least) / 2,
    });
}
