use crate::call::Call;
use crate::disk::{Disk, File};
use crate::flat::FlatDisk;
use crate::folder::{FolderDisk, Paths};
use crate::memory::MemoryDisk;
use sp_base::failure::Failed;
use std::test::Fail;
use std::{env, fs};

const J: File = File::Journal;

const I: File = File::Image;

// A call whose answer a test doesn't look at.
#[derive(Clone, Copy)]
enum Step {
    Write(File, u64, &'static [u8]),
    Cut(File, u64),
    Sync(File),
}

fn take_all(disk: &mut MemoryDisk, steps: &[Step]) {
    for step in steps {
        take(disk, *step);
    }
}

fn take(disk: &mut MemoryDisk, step: Step) {
    match step {
        Step::Write(file, at, bytes) => {
            if at <= disk.bytes(file).len() as u64 {
                let _ = disk.write(file, at, bytes);
            }
        }
        Step::Cut(file, len) => {
            if len <= disk.bytes(file).len() as u64 {
                let _ = disk.cut(file, len);
            }
        }
        Step::Sync(file) => {
            let _ = disk.sync(file);
        }
    }
}

const WRITTEN: &[Step] = &[Step::Write(J, 0, b"abcd")];

const OVERWRITTEN: &[Step] = &[
    Step::Write(J, 0, b"abcd"),
    Step::Sync(J),
    Step::Write(J, 2, b"xyz"),
];

const SHORTENED: &[Step] = &[Step::Write(J, 0, b"abcd"), Step::Sync(J), Step::Cut(J, 1)];

const WRITTEN_AFTER_A_CUT: &[Step] = &[
    Step::Write(J, 0, b"abcd"),
    Step::Sync(J),
    Step::Cut(J, 1),
    Step::Write(J, 1, b"xy"),
];

const IN_TWO_PIECES: &[Step] = &[Step::Write(J, 0, b"ab"), Step::Write(J, 2, b"cd")];

const BOTH_FILES: &[Step] = &[Step::Write(J, 0, b"ab"), Step::Write(I, 0, b"cd")];

const ONE_FILE_SYNCED: &[Step] = &[
    Step::Write(J, 0, b"ab"),
    Step::Write(I, 0, b"cd"),
    Step::Sync(J),
];

// The calls on empty files, the number, and what a crash by that number leaves of both files.
const CRASHES: [(&[Step], u64, &[u8], &[u8]); 21] = [
    (WRITTEN, 0, b"abcd", b""),
    (WRITTEN, 1, b"", b""),
    (WRITTEN, 2, b"ab", b""),
    (WRITTEN, 3, b"\0\0\0\0", b""),
    (OVERWRITTEN, 0, b"abxyz", b""),
    (OVERWRITTEN, 1, b"abcd", b""),
    (OVERWRITTEN, 2, b"abxy", b""),
    (OVERWRITTEN, 5, b"abZZZ", b""),
    (SHORTENED, 0, b"a", b""),
    (SHORTENED, 1, b"abcd", b""),
    (SHORTENED, 2, b"ab", b""),
    (SHORTENED, 7, b"ab", b""),
    // The last digit to the base 8 is the cut's, the one before it the write's.
    (WRITTEN_AFTER_A_CUT, 0, b"axy", b""),
    (WRITTEN_AFTER_A_CUT, 1, b"axyd", b""),
    (WRITTEN_AFTER_A_CUT, 8, b"a", b""),
    (WRITTEN_AFTER_A_CUT, 9, b"abcd", b""),
    (IN_TWO_PIECES, 1, b"\0\0cd", b""),
    (IN_TWO_PIECES, 8, b"ab", b""),
    (BOTH_FILES, 1, b"", b"cd"),
    (BOTH_FILES, 8, b"ab", b""),
    (ONE_FILE_SYNCED, 1, b"ab", b""),
];

#[test]
fn a_number_picks_what_a_crash_leaves(rt: HostRuntime) -> Result<(), Fail> {
    let alloc = rt.alloc();
    for (steps, number, journal, image) in CRASHES {
        let mut disk = MemoryDisk::new(alloc);
        take_all(&mut disk, steps);
        let left = disk.after_crash(alloc, number)?;
        assert!(rt; left.bytes(J) == journal);
        assert!(rt; left.bytes(I) == image);
    }
    Ok(())
}

// What a write of `wx` over `ab`, and one of `yz` over `cd`, may leave: it is whole, not done, half
// done, or other bytes.
const FIRST: [&[u8]; 8] = [
    b"wx",
    b"ab",
    b"wb",
    b"\0\0",
    b"\x01\x01",
    b"ZZ",
    b"\x80\x80",
    b"\xff\xff",
];

const SECOND: [&[u8]; 8] = [
    b"yz",
    b"cd",
    b"yd",
    b"\0\0",
    b"\x01\x01",
    b"ZZ",
    b"\x80\x80",
    b"\xff\xff",
];

#[test]
fn two_writes_leave_every_mix(rt: HostRuntime) -> Result<(), Fail> {
    let alloc = rt.alloc();
    let mut one = MemoryDisk::new(alloc).with_file(J, b"abcd")?;
    take_all(
        &mut one,
        &[Step::Write(J, 0, b"wx"), Step::Write(J, 2, b"yz")],
    );
    let mut two = MemoryDisk::new(alloc)
        .with_file(J, b"ab")?
        .with_file(I, b"cd")?;
    take_all(
        &mut two,
        &[Step::Write(J, 0, b"wx"), Step::Write(I, 0, b"yz")],
    );
    for number in 0..64 {
        let first = FIRST[number % 8];
        let second = SECOND[number / 8];
        let mut both = Vec::from_slice(alloc, first)?;
        both.extend_from_slice(second)?;
        let left = one.after_crash(alloc, number as u64)?;
        assert!(rt; left.bytes(J) == both.as_slice(), "{number}");
        let left = two.after_crash(alloc, number as u64)?;
        assert!(rt;
            left.bytes(J) == first && left.bytes(I) == second,
            "{number}"
        );
    }
    Ok(())
}

#[test]
fn a_call_of_the_list_fails_and_is_recorded(rt: HostRuntime) -> Result<(), Fail> {
    let alloc = rt.alloc();
    let failing = Vec::from_slice(alloc, &[2, 4])?;
    let mut disk = MemoryDisk::new(alloc)
        .with_file(J, b"abcd")?
        .failing(failing);
    let mut into = [0u8; 8];
    assert_eq!(rt; disk.len(J), Ok(4));
    assert_eq!(rt; disk.read(J, 0, &mut into), Err(Failed));
    assert_eq!(rt; disk.read(J, 1, &mut into), Ok(3));
    assert!(rt; into[..4] == b"bcd\0"[..]);
    // Of a write that fails the first half is done, and a crash may leave it whole.
    assert_eq!(rt; disk.write(J, 0, b"wxyz"), Err(Failed));
    assert!(rt; disk.bytes(J) == b"wxcd".as_slice());
    assert!(rt; disk.after_crash(alloc, 0)?.bytes(J) == b"wxyz".as_slice());
    assert!(rt; disk.after_crash(alloc, 1)?.bytes(J) == b"abcd".as_slice());
    assert_eq!(rt; disk.sync(J), Ok(()));
    assert!(rt; disk.after_crash(alloc, 1)?.bytes(J) == b"wxcd".as_slice());
    let failed = [false, true, false, true, false];
    assert_eq!(rt; disk.calls().len(), failed.len());
    for (taken, failed) in disk.calls().iter().zip(failed.iter()) {
        assert_eq!(rt; taken.failed, *failed);
    }
    assert!(rt; matches!(disk.calls().last(), Some(taken) if matches!(taken.call, Call::Sync)));
    Ok(())
}

#[test]
fn a_disk_that_stops_fails_from_then_on(rt: HostRuntime) -> Result<(), Fail> {
    let alloc = rt.alloc();
    let mut disk = MemoryDisk::new(alloc).with_file(J, b"abcd")?.stopping(2);
    take_all(&mut disk, &[Step::Cut(J, 2)]);
    assert_eq!(rt; disk.sync(J), Err(Failed));
    assert_eq!(rt; disk.len(J), Err(Failed));
    assert!(rt; disk.after_crash(alloc, 1)?.bytes(J) == b"abcd".as_slice());
    Ok(())
}

#[test]
fn a_flat_disk_keeps_bytes(rt: HostRuntime) -> Result<(), Fail> {
    let mut disk = FlatDisk::new(rt.alloc());
    let mut into = [0u8; 2];
    assert_eq!(rt; disk.write(I, 0, b"abcd"), Ok(()));
    assert!(rt; disk.bytes(I) == b"abcd".as_slice());
    assert_eq!(rt; disk.cut(I, 3), Ok(()));
    assert_eq!(rt; disk.sync(I), Ok(()));
    assert_eq!(rt; disk.len(I), Ok(3));
    assert_eq!(rt; disk.read(I, 2, &mut into), Ok(1));
    assert_eq!(rt; into, *b"c\0");
    assert_eq!(rt; disk.len(J), Ok(0));
    Ok(())
}

const OWN: Paths = Paths {
    folder: "folder_of_a_test",
    journal: "folder_of_a_test/journal.sp",
    image: "folder_of_a_test/image.sp",
};

#[test]
fn a_folder_keeps_its_files(rt: HostRuntime) -> Result<(), Fail> {
    let _ = fs::remove_dir_all(&rt, OWN.folder);
    fs::create_dir(&rt, OWN.folder)?;
    let mut disk = FolderDisk::at(&rt, OWN);
    let mut into = [0u8; 8];
    // Files that aren't there read as empty, and nothing makes them but a write.
    assert_eq!(rt; disk.len(J), Ok(0));
    assert_eq!(rt; disk.read(J, 0, &mut into), Ok(0));
    assert_eq!(rt; disk.cut(J, 0), Ok(()));
    assert_eq!(rt; disk.sync(J), Ok(()));
    assert_eq!(rt; disk.len(J), Ok(0));
    assert!(rt; fs::metadata(&rt, OWN.journal).is_err());
    assert_eq!(rt; disk.write(J, 0, b"abcd"), Ok(()));
    assert_eq!(rt; disk.sync(J), Ok(()));
    assert_eq!(rt; disk.read(J, 1, &mut into), Ok(3));
    assert!(rt; into[..4] == b"bcd\0"[..]);
    assert_eq!(rt; disk.cut(J, 2), Ok(()));
    assert_eq!(rt; disk.len(J), Ok(2));
    assert_eq!(rt; disk.sync(J), Ok(()));
    assert_eq!(rt; disk.len(I), Ok(0));
    assert_eq!(rt; fs::metadata(&rt, OWN.journal)?.len(), 2);
    drop(disk);
    let mut reopened = FolderDisk::at(&rt, OWN);
    assert_eq!(rt; reopened.len(J), Ok(2));
    assert_eq!(rt; reopened.read(J, 0, &mut into), Ok(2));
    assert!(rt; into[..2] == b"ab"[..]);
    assert_eq!(rt; reopened.sync(J), Ok(()));
    fs::remove_dir_all(&rt, OWN.folder)?;
    Ok(())
}

// In a folder of its own, since whoever runs the tests may have a lock on the one that they are run in.
#[test]
fn a_program_has_the_folder_that_it_runs_in(rt: HostRuntime) -> Result<(), Fail> {
    let _ = fs::remove_dir_all(&rt, "folder_of_a_program");
    fs::create_dir(&rt, "folder_of_a_program")?;
    env::set_current_dir(&rt, "folder_of_a_program")?;
    let mut disk = FolderDisk::new(&rt);
    assert_eq!(rt; disk.len(J), Ok(0));
    assert_eq!(rt; disk.write(I, 0, b"abcd"), Ok(()));
    assert_eq!(rt; fs::metadata(&rt, "image.sp")?.len(), 4);
    assert_eq!(rt; FolderDisk::new(&rt).len(J), Err(Failed));
    drop(disk);
    assert_eq!(rt; FolderDisk::new(&rt).len(I), Ok(4));
    env::set_current_dir(&rt, "..")?;
    fs::remove_dir_all(&rt, "folder_of_a_program")?;
    Ok(())
}

const SHARED: Paths = Paths {
    folder: "folder_of_two_disks",
    journal: "folder_of_two_disks/journal.sp",
    image: "folder_of_two_disks/image.sp",
};

#[test]
fn a_folder_is_one_disk_at_a_time(rt: HostRuntime) -> Result<(), Fail> {
    let _ = fs::remove_dir_all(&rt, SHARED.folder);
    fs::create_dir(&rt, SHARED.folder)?;
    // A disk that wasn't called yet has no lock.
    let mut second = FolderDisk::at(&rt, SHARED);
    let mut into = [0u8; 8];
    let mut first = FolderDisk::at(&rt, SHARED);
    assert_eq!(rt; first.len(J), Ok(0));
    assert_eq!(rt; second.len(J), Err(Failed));
    assert_eq!(rt; second.read(I, 0, &mut into), Err(Failed));
    assert_eq!(rt; second.write(J, 0, b"wxyz"), Err(Failed));
    assert_eq!(rt; second.cut(J, 0), Err(Failed));
    assert_eq!(rt; second.sync(I), Err(Failed));
    assert!(rt; fs::metadata(&rt, SHARED.journal).is_err());
    // The first one goes on, on both of its files.
    assert_eq!(rt; first.write(J, 0, b"abcd"), Ok(()));
    assert_eq!(rt; first.sync(J), Ok(()));
    assert_eq!(rt; first.write(I, 0, b"ef"), Ok(()));
    assert_eq!(rt; first.sync(I), Ok(()));
    assert_eq!(rt; second.cut(J, 0), Err(Failed));
    assert_eq!(rt; first.len(J), Ok(4));
    drop(first);
    assert_eq!(rt; second.len(J), Ok(4));
    assert_eq!(rt; second.read(I, 0, &mut into), Ok(2));
    assert!(rt; into[..2] == b"ef"[..]);
    assert_eq!(rt; second.write(J, 4, b"gh"), Ok(()));
    assert_eq!(rt; second.sync(J), Ok(()));
    assert_eq!(rt; second.cut(J, 5), Ok(()));
    assert_eq!(rt; second.sync(J), Ok(()));
    assert_eq!(rt; FolderDisk::at(&rt, SHARED).len(J), Err(Failed));
    fs::remove_dir_all(&rt, SHARED.folder)?;
    Ok(())
}

const MISSING: Paths = Paths {
    folder: "folder_not_there",
    journal: "folder_not_there/journal.sp",
    image: "folder_not_there/image.sp",
};

#[test]
fn a_folder_has_to_be_there(rt: HostRuntime) -> Result<(), Fail> {
    let _ = fs::remove_dir_all(&rt, MISSING.folder);
    let mut disk = FolderDisk::at(&rt, MISSING);
    assert_eq!(rt; disk.len(J), Err(Failed));
    fs::create_dir(&rt, MISSING.folder)?;
    assert_eq!(rt; disk.len(J), Ok(0));
    fs::remove_dir_all(&rt, MISSING.folder)?;
    Ok(())
}
