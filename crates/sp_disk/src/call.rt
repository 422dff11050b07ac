//! The calls that a disk in memory took.
use crate::disk::File;
use sp_base::bytes::Bytes;

/// What was asked of a file.
#[derive(Debug, Drop)]
pub enum Call {
    Len,
    Read { at: u64, count: usize },
    Write { at: u64, bytes: Bytes },
    Cut { len: u64 },
    Sync,
}

/// A call that a disk took, and whether it failed.
#[derive(Debug, Drop)]
pub struct Taken {
    pub file: File,
    pub call: Call,
    pub failed: bool,
}
