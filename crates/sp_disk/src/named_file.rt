//! A file of a folder, opened once it is there and made at its first write.
ghost use Rattle.std.specs.Prelude.{◌≤◌, ◌<◌, length, IfOk};

use std::fs::{Files, OpenOptions};
use std::io::ErrorKind;
use std::os::unix::fs::FileExt;
use std::{fs, io};

// A file of the folder, which need not be there.
#[derive(Drop)]
pub(crate) struct NamedFile {
    path: &'static str,
    open: Option<fs::File>,
    // Whether the whole file and the folder's entry for it were synced since it was opened or made.
    entered: bool,
}

impl NamedFile {
    pub(crate) fn new(path: &'static str) -> NamedFile {
        NamedFile {
            path,
            open: None,
            entered: false,
        }
    }

    // Opens the file where it is there.
    fn find<R: Files<File = fs::File>>(&mut self, runtime: &R) -> io::Result<()> {
        if self.open.is_none() {
            match OpenOptions::new()
                .read(true)
                .write(true)
                .open(runtime, self.path)
            {
                Ok(file) => self.open = Some(file),
                Err(e) => {
                    if e.kind() != ErrorKind::NotFound {
                        return Err(e);
                    }
                }
            }
        }
        Ok(())
    }

    pub(crate) fn len<R: Files<File = fs::File>>(&mut self, runtime: &R) -> io::Result<u64> {
        self.find(runtime)?;
        match &self.open {
            Some(file) => Ok(file.metadata()?.len()),
            None => Ok(0),
        }
    }

    pub(crate) fn read<R: Files<File = fs::File>>(
        &mut self,
        runtime: &R,
        at: u64,
        into: &mut [u8],
    ) -> io::Result<usize>
        ensures { IfOk result (λ count. count ≤ length into.new) }
    {
        self.find(runtime)?;
        match &self.open {
            Some(file) => read_all_at(file, at, into),
            None => Ok(0),
        }
    }

    pub(crate) fn write<R: Files<File = fs::File>>(
        &mut self,
        runtime: &R,
        at: u64,
        bytes: &[u8],
    ) -> io::Result<()> {
        self.find(runtime)?;
        if self.open.is_none() {
            let made = OpenOptions::new()
                .read(true)
                .write(true)
                .create(true)
                .open(runtime, self.path)?;
            self.open = Some(made);
        }
        match &self.open {
            Some(file) => file.write_all_at(bytes, at),
            None => Ok(()),
        }
    }

    // A cut never makes a file longer.
    pub(crate) fn cut<R: Files<File = fs::File>>(
        &mut self,
        runtime: &R,
        len: u64,
    ) -> io::Result<()> {
        self.find(runtime)?;
        match &self.open {
            Some(file) => {
                if len < file.metadata()?.len() {
                    file.set_len(len)?;
                }
                Ok(())
            }
            None => Ok(()),
        }
    }

    // The first sync is of the whole file and of the folder, which has the file's entry. From then on
    // the file's content and length are all that changes, and a sync of its data has both.
    pub(crate) fn sync<R: Files<File = fs::File>>(
        &mut self,
        runtime: &R,
        folder: &fs::File,
    ) -> io::Result<()> {
        self.find(runtime)?;
        let Some(file) = &self.open else {
            return Ok(());
        };
        if self.entered {
            return file.sync_data();
        }
        file.sync_all()?;
        folder.sync_all()?;
        self.entered = true;
        Ok(())
    }
}

// Reads up to the end of the buffer or the file.
fn read_all_at(file: &fs::File, at: u64, into: &mut [u8]) -> io::Result<usize>
    ensures { IfOk result (λ count. count ≤ length into.new) }
{
    let mut filled = 0;
    while filled < into.len() {
        let Some(place) = at.checked_add(filled as u64) else {
            break;
        };
        let count = file.read_at(&mut into[filled..], place)?;
        if count == 0 {
            break;
        }
        filled += count;
    }
    Ok(filled)
}
