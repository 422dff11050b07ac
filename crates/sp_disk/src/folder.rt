//! A disk over the files of a folder.
ghost use Rattle.std.specs.Prelude.{◌≡◌, Ok, IfOk, OnOk};
ghost use Rattle.sp_base.specs.Causes.{HasCause};
ghost use Rattle.sp_disk.specs.Disk.{Telling};

use crate::disk::{Disk, File};
use crate::locked_files::LockedFiles;
use sp_base::failure::Failed;
use std::fs::Files;
use std::{fs, io};

/// The paths of a folder and of the files in it.
#[derive(Clone, Copy, Debug)]
pub struct Paths {
    pub folder: &'static str,
    pub journal: &'static str,
    pub image: &'static str,
}

/// The disk of a running program: the files of a folder, each made at its first write. A file that
/// isn't there reads as empty, and its sync does nothing. It tells nothing: what its files hold is the
/// system's.
///
/// Its first call, also one that only reads, opens the folder and takes the system's lock on it. The
/// disk keeps the lock while it lives. A call answers [`Failed`] where the folder can't be opened, or
/// where another disk has the lock, in this program or in another. No call waits for the lock, and
/// after one that was refused the next call asks for it again.
#[derive(Drop)]
pub struct FolderDisk<R: Files<File = fs::File>> {
    files: LockedFiles<R>,
    faults: u64,
}

impl<R: Files<File = fs::File>> FolderDisk<R> {
    /// The disk of `journal.sp` and `image.sp` in the folder in which the runtime works. Nothing is
    /// opened, locked or made yet.
    pub fn new(runtime: R) -> FolderDisk<R>
        ensures { ⟦<FolderDisk<R> as Disk>⟧.faults result ≡ 0 }
    {
        let here = Paths {
            folder: ".",
            journal: "journal.sp",
            image: "image.sp",
        };
        FolderDisk::at(runtime, here)
    }

    /// The disk of the files at these paths, whose folder has to be there at the first call. Nothing is
    /// opened, locked or made yet.
    pub fn at(runtime: R, paths: Paths) -> FolderDisk<R>
        ensures { ⟦<FolderDisk<R> as Disk>⟧.faults result ≡ 0 }
    {
        FolderDisk {
            files: LockedFiles::new(runtime, paths),
            faults: 0,
        }
    }
}

impl<R: Files<File = fs::File>> Disk for FolderDisk<R> {
    ghost use Rattle.std.specs.Prelude.{[], false};
    ghost use Rattle.std.proofs.Common.{rules};

    // No contract can say what a real file holds.
    ghost tells = { λ _. record { content = false; images = false; honest = false } };

    ghost content = { λ _ _. [] };

    ghost may_leave = { λ _ _. ⊥ };

    ghost moment = { λ _. 0 };

    ghost left_since = { λ _ _ _. ⊥ };

    ghost faults = { λ disk. disk.faults };

    ghost reads = { λ _ told _. Prim.search rules };

    ghost counts_now = { λ _ _ _ _ image. image };

    ghost only_now = { λ _ _ left. left };

    ghost earlier = { λ _ _ _ _ _ left. left };

    fn len(&mut self, file: File) -> Result<u64, Failed> {
        let answer = self.files.len(file);
        counted(&mut self.faults, answer)
    }

    fn read(&mut self, file: File, at: u64, into: &mut [u8]) -> Result<usize, Failed> {
        let answer = self.files.read(file, at, into);
        counted(&mut self.faults, answer)
    }

    fn write(&mut self, file: File, at: u64, bytes: &[u8]) -> Result<(), Failed> {
        let answer = self.files.write(file, at, bytes);
        counted(&mut self.faults, answer)
    }

    fn cut(&mut self, file: File, len: u64) -> Result<(), Failed> {
        let answer = self.files.cut(file, len);
        counted(&mut self.faults, answer)
    }

    fn sync(&mut self, file: File) -> Result<(), Failed> {
        let answer = self.files.sync(file);
        counted(&mut self.faults, answer)
    }
}

// Counts an error of the system.
fn counted<T: Drop>(faults: &mut u64, answer: io::Result<T>) -> Result<T, Failed>
    ensures ok { IfOk result (λ value. answer ≡ Ok value) }
    ensures cause { HasCause faults.old faults.new result }
    ensures steady { OnOk result (faults.new ≡ faults.old) }
{
    match answer {
        Ok(value) => Ok(value),
        Err(_) => {
            *faults = faults.saturating_add(1);
            Err(Failed)
        }
    }
}
