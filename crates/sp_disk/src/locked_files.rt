//! The files of a folder that is locked before one of them is touched.
ghost use Rattle.std.specs.Prelude.{◌≤◌, length, IfOk};

use crate::disk::File;
use crate::folder::Paths;
use crate::named_file::NamedFile;
use std::fs::Files;
use std::{fs, io};

// Each call locks the folder first, if that isn't done yet, and is the system's error where the lock
// is refused.
#[derive(Drop)]
pub(crate) struct LockedFiles<R: Files<File = fs::File>> {
    runtime: R,
    folder: Folder,
    files: NamedFiles,
}

impl<R: Files<File = fs::File>> LockedFiles<R> {
    pub(crate) fn new(runtime: R, paths: Paths) -> LockedFiles<R> {
        LockedFiles {
            runtime,
            folder: Folder::new(paths.folder),
            files: NamedFiles::new(paths),
        }
    }

    pub(crate) fn len(&mut self, file: File) -> io::Result<u64> {
        self.folder.locked(&self.runtime)?;
        self.files.of(file).len(&self.runtime)
    }

    pub(crate) fn read(&mut self, file: File, at: u64, into: &mut [u8]) -> io::Result<usize>
        ensures { IfOk result (λ count. count ≤ length into.new) }
    {
        self.folder.locked(&self.runtime)?;
        self.files.of(file).read(&self.runtime, at, into)
    }

    pub(crate) fn write(&mut self, file: File, at: u64, bytes: &[u8]) -> io::Result<()> {
        self.folder.locked(&self.runtime)?;
        self.files.of(file).write(&self.runtime, at, bytes)
    }

    pub(crate) fn cut(&mut self, file: File, len: u64) -> io::Result<()> {
        self.folder.locked(&self.runtime)?;
        self.files.of(file).cut(&self.runtime, len)
    }

    pub(crate) fn sync(&mut self, file: File) -> io::Result<()> {
        let folder = self.folder.locked(&self.runtime)?;
        self.files.of(file).sync(&self.runtime, folder)
    }
}

// A folder that is opened and locked when it is first asked for.
#[derive(Drop)]
struct Folder {
    path: &'static str,
    // The system lets the lock go when this is closed.
    locked: Option<fs::File>,
}

impl Folder {
    fn new(path: &'static str) -> Folder {
        Folder { path, locked: None }
    }

    fn locked<R: Files<File = fs::File>>(&mut self, runtime: &R) -> io::Result<&fs::File> {
        let folder = match self.locked.take() {
            Some(folder) => folder,
            None => open_locked(runtime, self.path)?,
        };
        Ok(self.locked.insert(folder))
    }
}

// Waits for nobody: a lock that another open of the folder has is an error.
fn open_locked<R: Files<File = fs::File>>(runtime: &R, path: &str) -> io::Result<fs::File> {
    let folder = fs::File::open(runtime, path)?;
    folder.try_lock()?;
    Ok(folder)
}

#[derive(Drop)]
struct NamedFiles {
    journal: NamedFile,
    image: NamedFile,
}

impl NamedFiles {
    fn new(paths: Paths) -> NamedFiles {
        NamedFiles {
            journal: NamedFile::new(paths.journal),
            image: NamedFile::new(paths.image),
        }
    }

    fn of(&mut self, file: File) -> &mut NamedFile {
        match file {
            File::Journal => &mut self.journal,
            File::Image => &mut self.image,
        }
    }
}
