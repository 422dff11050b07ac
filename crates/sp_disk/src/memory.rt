//! A disk in memory that can crash, fail and stop.
ghost use Rattle.std.specs.Prelude.{◌≡◌};
ghost use Rattle.sp_disk.specs.declared.disk.File.{File};
ghost use Rattle.sp_disk.specs.Contents.{held};
ghost use Rattle.sp_disk.specs.Calls.{after_all};
ghost use Rattle.sp_disk.specs.Plan.{is_to_fail, FailedByPlan};

use crate::call::{Call, Taken};
use crate::contents::{Contents, fill};
use crate::crash::{Replay, replayed};
use crate::disk::{Disk, File};
use sp_base::bytes::Bytes;
use sp_base::failure::{Failed, Memory};
use std::alloc::Global;

/// Which calls are to fail.
#[derive(Debug, Drop)]
struct Plan {
    failing: Vec<u64>,
    stop: Option<u64>,
}

impl Plan {
    // Whether the call of a number is to fail.
    fn fails(&self, call: u64) -> bool
        ensures { result ≡ is_to_fail self.now.failing.items self.now.stop call }
    {
        if let Some(stop) = self.stop
            && stop <= call
        {
            return true;
        }
        self.failing.contains(&call)
    }
}

/// A disk in memory that keeps a record of all calls. It tells everything and is honest: a crash may
/// leave whatever the calls since a file's last sync allow.
///
/// A call whose growth is refused fails too, and then does nothing and isn't recorded. The calls that
/// are recorded are counted from 1, and each failed exactly where the plan says so: the list of the
/// calls that fail, and the call at which the disk stops.
#[derive(Debug, Drop)]
pub struct MemoryDisk {
    alloc: Global,
    // The files before the first call, all of them synced.
    first: Contents,
    calls: Vec<Taken>,
    // The files as a read gives them now.
    contents: Contents,
    plan: Plan,
    faults: u64,
    ghost replayed: { (file : File) → held contents file ≡ after_all file calls.items (held first file) },
    ghost planned: { FailedByPlan plan.failing.items plan.stop calls.items },
}

impl MemoryDisk {
    ghost use Rattle.std.specs.Prelude.{◌≡◌, ◌≤◌, [], length, is_err, IfOk, OnOk};
    ghost use Rattle.sp_base.specs.Causes.{HasCause, Rose};
    ghost use Rattle.sp_disk.specs.Contents.{held};
    ghost use Rattle.sp_disk.specs.Calls.{IsImage};
    ghost use Rattle.sp_disk.specs.Plan.{FailedByPlan};
    ghost use Rattle.sp_disk.specs.Picks.{pick_of, picked_by};
    ghost use Rattle.sp_disk.specs.Replays.{picked_in};
    ghost use Rattle.sp_disk.specs.Disk.{SameElsewhere, SameImages, Only};
    ghost use Rattle.sp_disk.specs.Acted.{Acted};
    ghost use Rattle.sp_disk.specs.Moments.{Passes};
    ghost use Rattle.sp_disk.specs.MemoryDisk.{first_of, taken_by, failing_calls, stop_of, Recorded};

    /// A disk whose files are empty, and none of whose calls is to fail.
    pub fn new(alloc: Global) -> MemoryDisk
        ensures content { (file : _) → ⟦<MemoryDisk as Disk>⟧.content result file ≡ [] }
        ensures settled { Only (⟦<MemoryDisk as Disk>⟧.content result) (⟦<MemoryDisk as Disk>⟧.may_leave result) }
        ensures taken { taken_by result ≡ [] }
        ensures failing { failing_calls result ≡ [] }
        ensures stop { stop_of result ≡ None }
        ensures faults { ⟦<MemoryDisk as Disk>⟧.faults result ≡ 0 }
    {
        MemoryDisk {
            alloc,
            first: Contents::new(alloc),
            calls: Vec::new(alloc),
            contents: Contents::new(alloc),
            plan: Plan {
                failing: Vec::new(alloc),
                stop: None,
            },
            faults: 0,
        }
    }

    /// The disk, which took no call yet, with these bytes in a file, all of them synced.
    pub fn with_file(mut self, file: File, bytes: &[u8]) -> Result<MemoryDisk, Memory>
        requires { taken_by self ≡ [] }
        ensures content { IfOk result (λ disk. ⟦<MemoryDisk as Disk>⟧.content disk file ≡ bytes.now) }
        ensures others { IfOk result (λ disk. SameElsewhere file (⟦<MemoryDisk as Disk>⟧.content self) (⟦<MemoryDisk as Disk>⟧.content disk)) }
        ensures settled { IfOk result (λ disk. Only (⟦<MemoryDisk as Disk>⟧.content disk) (⟦<MemoryDisk as Disk>⟧.may_leave disk)) }
        ensures taken { IfOk result (λ disk. taken_by disk ≡ []) }
        ensures failing { IfOk result (λ disk. failing_calls disk ≡ failing_calls self) }
        ensures stop { IfOk result (λ disk. stop_of disk ≡ stop_of self) }
        ensures faults { IfOk result (λ disk. ⟦<MemoryDisk as Disk>⟧.faults disk ≡ ⟦<MemoryDisk as Disk>⟧.faults self) }
    {
        let Ok(()) = self.first.replace(file, bytes) else {
            return Err(Memory);
        };
        let Ok(()) = self.contents.replace(file, bytes) else {
            return Err(Memory);
        };
        Ok(self)
    }

    /// The disk, which took no call yet, the calls of a list of which fail. Calls are counted from 1.
    pub fn failing(mut self, calls: Vec<u64>) -> MemoryDisk
        requires { taken_by self ≡ [] }
        ensures failing { failing_calls result ≡ calls.items }
        ensures stop { stop_of result ≡ stop_of self }
        ensures content { ⟦<MemoryDisk as Disk>⟧.content result ≡ ⟦<MemoryDisk as Disk>⟧.content self }
        ensures images { SameImages (⟦<MemoryDisk as Disk>⟧.may_leave self) (⟦<MemoryDisk as Disk>⟧.may_leave result) }
        ensures taken { taken_by result ≡ taken_by self }
        ensures faults { ⟦<MemoryDisk as Disk>⟧.faults result ≡ ⟦<MemoryDisk as Disk>⟧.faults self }
    {
        self.plan.failing = calls;
        self
    }

    /// The disk, which took no call yet, that stops at a call: that one and all later ones fail. Calls
    /// are counted from 1.
    pub fn stopping(mut self, call: u64) -> MemoryDisk
        requires { taken_by self ≡ [] }
        ensures failing { failing_calls result ≡ failing_calls self }
        ensures stop { stop_of result ≡ Some call }
        ensures content { ⟦<MemoryDisk as Disk>⟧.content result ≡ ⟦<MemoryDisk as Disk>⟧.content self }
        ensures images { SameImages (⟦<MemoryDisk as Disk>⟧.may_leave self) (⟦<MemoryDisk as Disk>⟧.may_leave result) }
        ensures taken { taken_by result ≡ taken_by self }
        ensures faults { ⟦<MemoryDisk as Disk>⟧.faults result ≡ ⟦<MemoryDisk as Disk>⟧.faults self }
    {
        self.plan.stop = Some(call);
        self
    }

    /// The disk after a crash now that leaves the image that a number picks.
    ///
    /// Each write and cut of a file since its last sync that succeeded takes one digit of the number
    /// to the base 8, the last digit first, those of the journal before those of the image: 0 for a
    /// call that is done whole, 1 for one that isn't done, 2 for one that is half done, and 3 to 7 for
    /// a write whose range holds one other byte throughout: 0x00, 0x01, 0x5a, 0x80, 0xff. So 0 picks
    /// what a read gives where no write failed.
    pub fn after_crash(&self, alloc: Global, number: u64) -> Result<MemoryDisk, Memory>
        ensures image { IfOk result (λ disk. ⟦<MemoryDisk as Disk>⟧.may_leave self.now (⟦<MemoryDisk as Disk>⟧.content disk)) }
        ensures picked { IfOk result (λ disk. (file : _) → ⟦<MemoryDisk as Disk>⟧.content disk file ≡ picked_by number (taken_by self.now) (first_of self.now) file) }
        ensures settled { IfOk result (λ disk. Only (⟦<MemoryDisk as Disk>⟧.content disk) (⟦<MemoryDisk as Disk>⟧.may_leave disk)) }
        ensures taken { IfOk result (λ disk. taken_by disk ≡ []) }
        ensures failing { IfOk result (λ disk. failing_calls disk ≡ []) }
        ensures stop { IfOk result (λ disk. stop_of disk ≡ None) }
        ensures faults { IfOk result (λ disk. ⟦<MemoryDisk as Disk>⟧.faults disk ≡ 0) }
    {
        let journal = self.replayed(alloc, File::Journal, number)?;
        let image = self.replayed(alloc, File::Image, journal.rest)?;
        MemoryDisk::new(alloc)
            .with_file(File::Journal, journal.image.as_slice())?
            .with_file(File::Image, image.image.as_slice())
    }

    fn replayed(&self, alloc: Global, file: File, number: u64) -> Result<Replay, Memory>
        ensures image { IfOk result (λ replay. IsImage file self.now.calls.items (held self.now.first file) (held self.now.first file) replay.image.items) }
        ensures picked { IfOk result (λ replay. picked_in replay ≡ pick_of number file self.now.calls.items (held self.now.first file)) }
    {
        let calls = self.calls.as_slice();
        replayed(alloc, self.first.bytes(file), file, calls, number).map_err(|_| Memory)
    }

    /// How often a call has failed. At the greatest `u64` the count stands.
    pub fn faults(&self) -> u64
        ensures { result ≡ ⟦<MemoryDisk as Disk>⟧.faults self.now }
    {
        self.faults
    }

    /// The calls that the disk took, in order. One whose growth was refused isn't among them.
    pub fn calls(&self) -> &[Taken]
        ensures taken { result.now ≡ taken_by self.now }
        ensures planned { FailedByPlan (failing_calls self.now) (stop_of self.now) result.now }
    {
        self.calls.as_slice()
    }

    /// The bytes of a file as a read gives them.
    pub fn bytes(&self, file: File) -> &[u8]
        ensures { result.now ≡ ⟦<MemoryDisk as Disk>⟧.content self.now file }
    {
        self.contents.bytes(file)
    }

    // Counts a fault.
    fn fault(&mut self) -> Failed
        ensures rose { Rose self.old.faults self.new.faults }
        ensures later { self.old.faults ≤ self.new.faults }
        ensures first { self.new.first ≡ self.old.first }
        ensures calls { self.new.calls ≡ self.old.calls }
        ensures plan { self.new.plan ≡ self.old.plan }
        ensures contents { self.new.contents ≡ self.old.contents }
    {
        self.faults = self.faults.saturating_add(1);
        Failed
    }

    // Does the next call and records it, or, where a growth is refused, neither.
    fn act(&mut self, file: File, call: Call) -> Result<(), Failed>
        ensures acted { Acted file call result (⟦<MemoryDisk as Disk>⟧.content self.old) (⟦<MemoryDisk as Disk>⟧.content self.new)
            (⟦<MemoryDisk as Disk>⟧.may_leave self.old) (⟦<MemoryDisk as Disk>⟧.may_leave self.new) }
        ensures time { Passes ⟦<MemoryDisk as Disk>⟧.moment ⟦<MemoryDisk as Disk>⟧.left_since
            ⟦<MemoryDisk as Disk>⟧.may_leave self.old self.new }
        ensures recorded { Recorded file call (is_err result) self.old self.new }
        ensures cause { HasCause self.old.faults self.new.faults result }
        ensures steady { OnOk result (self.new.faults ≡ self.old.faults) }
    {
        let failed = self.plan.fails(self.calls.len() as u64 + 1);
        let taken = Taken { file, call, failed };
        if self.calls.reserve(1).is_err() {
            return Err(self.fault());
        }
        let Ok(()) = self.contents.take(&taken) else {
            return Err(self.fault());
        };
        match self.calls.push(taken) {
            Ok(()) => {}
            Err(_) => unreachable!(),
        }
        if failed { Err(self.fault()) } else { Ok(()) }
    }
}

impl Disk for MemoryDisk {
    ghost use Rattle.std.specs.Prelude.{◌≡◌, ◌≤◌, true, length, take, drop, is_err, IfOk, OnOk, OnErr, IsTrue};
    ghost use Rattle.sp_base.specs.Causes.{HasCause};
    ghost use Rattle.sp_disk.specs.Disk.{Fills, Torn, Shortened, SameElsewhere, SameImages, Follows, AddsNone, HoldsOnly, written};
    ghost use Rattle.sp_disk.specs.Moments.{Passes};
    ghost use Rattle.sp_disk.specs.MemoryDisk.{Recorded};
    ghost use Rattle.sp_disk.specs.Contents.{held};
    ghost use Rattle.sp_disk.specs.Calls.{MayLeave, MightHaveLeft};
    ghost use Rattle.sp_disk.specs.Images.{reads_left, left_now, left_only_now, left_earlier};

    ghost tells = { λ _. record { content = true; images = true; honest = true } };

    ghost content = { λ disk. held disk.contents };

    ghost may_leave = { λ disk. MayLeave (held disk.first) disk.calls.items };

    ghost moment = { λ disk. length disk.calls.items };

    ghost left_since = { λ disk. MightHaveLeft (held disk.first) disk.calls.items };

    ghost faults = { λ disk. disk.faults };

    ghost reads = { λ disk _ _. reads_left (held disk.first) (held disk.contents) disk.calls.items disk.replayed };

    ghost counts_now = { λ disk. left_now (held disk.first) disk.calls.items };

    ghost only_now = { λ disk. left_only_now (held disk.first) disk.calls.items };

    ghost earlier = { λ disk. left_earlier (held disk.first) disk.calls.items };

    fn len(&mut self, file: File) -> Result<u64, Failed>
        ensures length { IsTrue (⟦<MemoryDisk as Disk>⟧.tells self.old).content →
            IfOk result (λ n. n ≡ length (⟦<MemoryDisk as Disk>⟧.content self.old file)) }
        ensures content { ⟦<MemoryDisk as Disk>⟧.content self.new ≡ ⟦<MemoryDisk as Disk>⟧.content self.old }
        ensures images { SameImages (⟦<MemoryDisk as Disk>⟧.may_leave self.old) (⟦<MemoryDisk as Disk>⟧.may_leave self.new) }
        ensures time { Passes ⟦<MemoryDisk as Disk>⟧.moment ⟦<MemoryDisk as Disk>⟧.left_since ⟦<MemoryDisk as Disk>⟧.may_leave self.old self.new }
        ensures telling { ⟦<MemoryDisk as Disk>⟧.tells self.new ≡ ⟦<MemoryDisk as Disk>⟧.tells self.old }
        ensures cause { HasCause (⟦<MemoryDisk as Disk>⟧.faults self.old) (⟦<MemoryDisk as Disk>⟧.faults self.new) result }
        ensures steady { OnOk result (⟦<MemoryDisk as Disk>⟧.faults self.new ≡ ⟦<MemoryDisk as Disk>⟧.faults self.old) }
        ensures recorded { Recorded file (Call.Len) (is_err result) self.old self.new }
    {
        self.act(file, Call::Len)?;
        Ok(self.contents.bytes(file).len() as u64)
    }

    fn read(&mut self, file: File, at: u64, into: &mut [u8]) -> Result<usize, Failed>
        ensures bound { IfOk result (λ n. n ≤ length into.new) }
        ensures bytes { IsTrue (⟦<MemoryDisk as Disk>⟧.tells self.old).content →
            IfOk result (Fills (take (length into.old) (drop at (⟦<MemoryDisk as Disk>⟧.content self.old file))) into.old into.new) }
        ensures content { ⟦<MemoryDisk as Disk>⟧.content self.new ≡ ⟦<MemoryDisk as Disk>⟧.content self.old }
        ensures images { SameImages (⟦<MemoryDisk as Disk>⟧.may_leave self.old) (⟦<MemoryDisk as Disk>⟧.may_leave self.new) }
        ensures time { Passes ⟦<MemoryDisk as Disk>⟧.moment ⟦<MemoryDisk as Disk>⟧.left_since ⟦<MemoryDisk as Disk>⟧.may_leave self.old self.new }
        ensures telling { ⟦<MemoryDisk as Disk>⟧.tells self.new ≡ ⟦<MemoryDisk as Disk>⟧.tells self.old }
        ensures cause { HasCause (⟦<MemoryDisk as Disk>⟧.faults self.old) (⟦<MemoryDisk as Disk>⟧.faults self.new) result }
        ensures steady { OnOk result (⟦<MemoryDisk as Disk>⟧.faults self.new ≡ ⟦<MemoryDisk as Disk>⟧.faults self.old) }
        ensures recorded { Recorded file (Call.Read at (length into.old)) (is_err result) self.old self.new }
    {
        let count = into.len();
        self.act(file, Call::Read { at, count })?;
        Ok(fill(self.contents.bytes(file), at as usize, into))
    }

    fn write(&mut self, file: File, at: u64, bytes: &[u8]) -> Result<(), Failed>
        ensures written { IsTrue (⟦<MemoryDisk as Disk>⟧.tells self.old).content →
            OnOk result (⟦<MemoryDisk as Disk>⟧.content self.new file ≡ written (⟦<MemoryDisk as Disk>⟧.content self.old file) at bytes.now) }
        ensures failed { IsTrue (⟦<MemoryDisk as Disk>⟧.tells self.old).content →
            OnErr result (Torn at (length bytes.now) (⟦<MemoryDisk as Disk>⟧.content self.old file) (⟦<MemoryDisk as Disk>⟧.content self.new file)) }
        ensures others { SameElsewhere file (⟦<MemoryDisk as Disk>⟧.content self.old) (⟦<MemoryDisk as Disk>⟧.content self.new) }
        ensures images { IsTrue (⟦<MemoryDisk as Disk>⟧.tells self.old).honest →
            Follows file (Torn at (length bytes.now)) (⟦<MemoryDisk as Disk>⟧.may_leave self.old) (⟦<MemoryDisk as Disk>⟧.may_leave self.new) }
        ensures time { Passes ⟦<MemoryDisk as Disk>⟧.moment ⟦<MemoryDisk as Disk>⟧.left_since ⟦<MemoryDisk as Disk>⟧.may_leave self.old self.new }
        ensures telling { ⟦<MemoryDisk as Disk>⟧.tells self.new ≡ ⟦<MemoryDisk as Disk>⟧.tells self.old }
        ensures cause { HasCause (⟦<MemoryDisk as Disk>⟧.faults self.old) (⟦<MemoryDisk as Disk>⟧.faults self.new) result }
        ensures steady { OnOk result (⟦<MemoryDisk as Disk>⟧.faults self.new ≡ ⟦<MemoryDisk as Disk>⟧.faults self.old) }
        ensures recorded { Recorded file (Call.Write at bytes.now) (is_err result) self.old self.new }
    {
        match Bytes::copy_of(self.alloc, bytes) {
            Ok(bytes) => self.act(file, Call::Write { at, bytes }),
            Err(_) => Err(self.fault()),
        }
    }

    fn cut(&mut self, file: File, len: u64) -> Result<(), Failed>
        ensures cut { IsTrue (⟦<MemoryDisk as Disk>⟧.tells self.old).content →
            OnOk result (⟦<MemoryDisk as Disk>⟧.content self.new file ≡ take len (⟦<MemoryDisk as Disk>⟧.content self.old file)) }
        ensures failed { IsTrue (⟦<MemoryDisk as Disk>⟧.tells self.old).content →
            OnErr result (Shortened len (⟦<MemoryDisk as Disk>⟧.content self.old file) (⟦<MemoryDisk as Disk>⟧.content self.new file)) }
        ensures others { SameElsewhere file (⟦<MemoryDisk as Disk>⟧.content self.old) (⟦<MemoryDisk as Disk>⟧.content self.new) }
        ensures images { IsTrue (⟦<MemoryDisk as Disk>⟧.tells self.old).honest →
            Follows file (Shortened len) (⟦<MemoryDisk as Disk>⟧.may_leave self.old) (⟦<MemoryDisk as Disk>⟧.may_leave self.new) }
        ensures time { Passes ⟦<MemoryDisk as Disk>⟧.moment ⟦<MemoryDisk as Disk>⟧.left_since ⟦<MemoryDisk as Disk>⟧.may_leave self.old self.new }
        ensures telling { ⟦<MemoryDisk as Disk>⟧.tells self.new ≡ ⟦<MemoryDisk as Disk>⟧.tells self.old }
        ensures cause { HasCause (⟦<MemoryDisk as Disk>⟧.faults self.old) (⟦<MemoryDisk as Disk>⟧.faults self.new) result }
        ensures steady { OnOk result (⟦<MemoryDisk as Disk>⟧.faults self.new ≡ ⟦<MemoryDisk as Disk>⟧.faults self.old) }
        ensures recorded { Recorded file (Call.Cut len) (is_err result) self.old self.new }
    {
        self.act(file, Call::Cut { len })
    }

    fn sync(&mut self, file: File) -> Result<(), Failed>
        ensures durable { IsTrue (⟦<MemoryDisk as Disk>⟧.tells self.old).honest →
            OnOk result (HoldsOnly file (⟦<MemoryDisk as Disk>⟧.content self.old file) (⟦<MemoryDisk as Disk>⟧.may_leave self.new)) }
        ensures content { ⟦<MemoryDisk as Disk>⟧.content self.new ≡ ⟦<MemoryDisk as Disk>⟧.content self.old }
        ensures images { AddsNone (⟦<MemoryDisk as Disk>⟧.may_leave self.old) (⟦<MemoryDisk as Disk>⟧.may_leave self.new) }
        ensures time { Passes ⟦<MemoryDisk as Disk>⟧.moment ⟦<MemoryDisk as Disk>⟧.left_since ⟦<MemoryDisk as Disk>⟧.may_leave self.old self.new }
        ensures telling { ⟦<MemoryDisk as Disk>⟧.tells self.new ≡ ⟦<MemoryDisk as Disk>⟧.tells self.old }
        ensures cause { HasCause (⟦<MemoryDisk as Disk>⟧.faults self.old) (⟦<MemoryDisk as Disk>⟧.faults self.new) result }
        ensures steady { OnOk result (⟦<MemoryDisk as Disk>⟧.faults self.new ≡ ⟦<MemoryDisk as Disk>⟧.faults self.old) }
        ensures recorded { Recorded file (Call.Sync) (is_err result) self.old self.new }
    {
        self.act(file, Call::Sync)
    }
}
