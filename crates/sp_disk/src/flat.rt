//! A disk of bytes alone.
ghost use Rattle.std.specs.Prelude.{◌≡◌, ◌≤◌, [], length};
ghost use Rattle.sp_disk.specs.Disk.{Telling};

use crate::contents::{Contents, fill};
use crate::disk::{Disk, File};
use sp_base::failure::Failed;
use std::alloc::Global;

/// A disk in memory that keeps bytes and nothing else: it tells its content and no images, so it is
/// honest. Its one fault is that a growth was refused.
#[derive(Debug, Drop)]
pub struct FlatDisk {
    contents: Contents,
    faults: u64,
}

impl FlatDisk {
    ghost use Rattle.std.specs.Prelude.{◌≡◌, []};

    /// A disk whose files are empty.
    pub fn new(alloc: Global) -> FlatDisk
        ensures content { (file : _) → ⟦<FlatDisk as Disk>⟧.content result file ≡ [] }
        ensures faults { ⟦<FlatDisk as Disk>⟧.faults result ≡ 0 }
    {
        FlatDisk {
            contents: Contents::new(alloc),
            faults: 0,
        }
    }

    /// The bytes of a file.
    pub fn bytes(&self, file: File) -> &[u8]
        ensures { result.now ≡ ⟦<FlatDisk as Disk>⟧.content self.now file }
    {
        self.contents.bytes(file)
    }
}

impl Disk for FlatDisk {
    ghost use Rattle.std.specs.Prelude.{true, false};
    ghost use Rattle.std.proofs.Common.{rules};
    ghost use Rattle.sp_disk.specs.Contents.{held};

    ghost tells = { λ _. record { content = true; images = false; honest = true } };

    ghost content = { λ disk. held disk.contents };

    ghost may_leave = { λ _ _. ⊥ };

    ghost moment = { λ _. 0 };

    ghost left_since = { λ _ _ _. ⊥ };

    ghost faults = { λ disk. disk.faults };

    ghost reads = { λ _ _ told. Prim.search rules };

    ghost counts_now = { λ _ _ _ _ image. image };

    ghost only_now = { λ _ _ left. left };

    ghost earlier = { λ _ _ _ _ _ left. left };

    fn len(&mut self, file: File) -> Result<u64, Failed> {
        Ok(self.contents.bytes(file).len() as u64)
    }

    fn read(&mut self, file: File, at: u64, into: &mut [u8]) -> Result<usize, Failed> {
        Ok(fill(self.contents.bytes(file), at as usize, into))
    }

    fn write(&mut self, file: File, at: u64, bytes: &[u8]) -> Result<(), Failed> {
        match self.contents.put(file, at as usize, bytes) {
            Ok(()) => Ok(()),
            Err(_) => {
                self.faults = self.faults.saturating_add(1);
                Err(Failed)
            }
        }
    }

    fn cut(&mut self, file: File, len: u64) -> Result<(), Failed> {
        self.contents.truncate(file, len as usize);
        Ok(())
    }

    fn sync(&mut self, _file: File) -> Result<(), Failed> {
        Ok(())
    }
}
