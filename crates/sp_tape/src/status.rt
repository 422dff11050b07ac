ghost use Rattle.std.specs.Prelude.{◌≡◌, IfOk, Some, string_bytes, option_map};

use sp_journal::journal::OpenError;
use std::alloc::{AllocError, Global};

/// How a run ended.
#[derive(Clone, Copy, Debug, PartialEq, Eq)]
pub enum Status {
    /// The tape was read to its end, and each entry was answered.
    Done,
    /// The words aren't a form of the program.
    Usage,
    /// The bytes at this offset of the tape, counted from 0, don't begin with an entry, which
    /// would be the one of this number, counted from 1: the tape ended, or nothing that follows
    /// can make one. All entries before were answered.
    BadTape { entry: u64, offset: u64 },
    /// The source failed.
    ReadFault,
    /// The sink failed. What it took is a front of the output.
    WriteFault,
    /// The disk failed while the journal was opened or looked at, at a restart too.
    DiskFault,
    /// A file's bytes are damaged from an offset on, or hold there a unit whose event is refused, or changes
    /// nothing, on the ledger of the units before it. The journal is file 0.
    Damaged { file: u8, at: u64 },
    /// There was no memory.
    Memory,
    /// The journal is of another version.
    OtherVersion { found: u32 },
}

impl Status {
    ghost use Rattle.sp_tape.specs.Status.{status_of, status_number, status_line};

    /// The status of a journal that wasn't opened.
    pub fn of_open(error: OpenError) -> Status
        ensures { result ≡ status_of error }
    {
        match error {
            OpenError::DiskFault => Status::DiskFault,
            OpenError::Damaged { file, at } => Status::Damaged { file, at },
            OpenError::OtherVersion { found } => Status::OtherVersion { found },
            OpenError::Memory => Status::Memory,
        }
    }

    /// The exit status of the program.
    pub fn number(self) -> u8
        ensures { result ≡ status_number self }
    {
        match self {
            Status::Done => 0,
            Status::Usage => 2,
            Status::BadTape { .. } => 3,
            Status::ReadFault => 4,
            Status::WriteFault => 5,
            Status::DiskFault => 6,
            Status::Damaged { .. } => 7,
            Status::Memory => 8,
            Status::OtherVersion { .. } => 9,
        }
    }

    /// The line on standard error, without its line feed. None where the run was done.
    pub fn line(self, alloc: Global) -> Result<Option<String>, AllocError>
        ensures { IfOk result (λ line. option_map string_bytes line ≡ status_line self) }
    {
        match self {
            Status::Done => Ok(None),
            Status::Usage => text(
                alloc,
                "usage: spoolrun run [--max n] | check | drill seed n",
            ),
            Status::BadTape { entry, offset } => Ok(Some(format!(in alloc;
                "bad tape: entry {entry} at byte {offset}"
            )?)),
            Status::ReadFault => text(alloc, "read fault"),
            Status::WriteFault => text(alloc, "write fault"),
            Status::DiskFault => text(alloc, "disk fault"),
            Status::Damaged { file, at } => Ok(Some(format!(in alloc;
                "journal damaged: file {file} at byte {at}"
            )?)),
            Status::Memory => text(alloc, "want of memory"),
            Status::OtherVersion { found } => Ok(Some(format!(in alloc;
                "journal version {found} is not known"
            )?)),
        }
    }
}

fn text(alloc: Global, line: &str) -> Result<Option<String>, AllocError>
    ensures { IfOk result (λ told. option_map string_bytes told ≡ Some line.now) }
{
    Ok(Some(String::from_str(alloc, line)?))
}
