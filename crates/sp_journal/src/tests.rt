ghost use Rattle.std.specs.Prelude.{◌≡◌, ◌++◌, [], ◌∷◌, IfOk};
ghost use Rattle.sp_journal.specs.Format.{IsPiece};
ghost use Rattle.sp_journal.specs.State.{Rests, StandsFor};

use crate::journal::{AppendError, DiskFault, FIRST_PLACE, Journal, OpenError, UnitError};
use sp_disk::disk::{Disk, File};
use sp_disk::folder::{FolderDisk, Paths};
use sp_disk::memory::MemoryDisk;
use sp_message::codec::ReadError;
use sp_unit::unit::Unit;
use std::alloc::{AllocError, Global};
use std::fs;
use std::test::Fail;

pub(crate) const J: File = File::Journal;

// The provision of the queue `q1` by `ann` at moment 0, as a body.
const PROVISION: &[u8] = b"\0\0\0\0\0\0\0\0\x03ann\x01\x01\x02\0\0\0q1\0\0";

// Her publish of `hello` to it.
const PUBLISH: &[u8] =
    b"\0\0\0\0\0\0\0\0\x03ann\x01\x06\x01\x02\0\0\0q1\x05\0\0\0hello\0\0\0\0\0\0\0\0\0\0";

// The journal that has it alone.
pub(crate) const ONE_UNIT: &[u8] =
    b"\x01spooljnl\x01\0\0\0\x01\x16\0\0\0\0\0\0\0\0\0\0\0\x03ann\x01\x01\x02\0\0\0q1\0\0\0";

// A length, a body and a closed gate.
fn joined(alloc: Global, size: &[u8], body: &[u8]) -> Result<Vec<u8>, AllocError>
    ensures { IfOk result (λ piece. piece.items ≡ (size.now ++ body.now) ++ 0 ∷ []) }
{
    let mut piece = Vec::from_slice(alloc, size)?;
    piece.extend_from_slice(body)?;
    piece.push(0)?;
    Ok(piece)
}

// What `append` writes of a body that is a unit's.
fn piece_of(alloc: Global, body: &[u8]) -> Result<Vec<u8>, ReadError>
    ensures { IfOk result (λ piece. (unit : _) × IsPiece unit piece.items) }
{
    let _unit = Unit::read(alloc, body)?;
    if body.len() > 16_777_216 {
        return Err(ReadError::NotOne);
    }
    let size = (body.len() as u32).to_le_bytes();
    match joined(alloc, &size, body) {
        Ok(piece) => Ok(piece),
        Err(AllocError) => Err(ReadError::Memory),
    }
}

// What is done with a journal that was opened.
#[derive(Clone, Copy, PartialEq, Eq)]
pub(crate) enum Until {
    Opened,
    Appended,
    Healed,
    HealedAgain,
    AppendedAgain,
}

// Opens a journal, appends a unit, heals where that failed, a second time where that failed too, and
// appends the unit again; as far as is said. Then where the units end.
pub(crate) fn place_after<D: Disk>(
    alloc: Global,
    disk: &mut D,
    until: Until,
) -> Result<u64, OpenError> {
    let Ok(piece) = piece_of(alloc, PROVISION) else {
        return Err(OpenError::Memory);
    };
    let mut journal = Journal::open(alloc, disk)?;
    if until == Until::Opened {
        return Ok(journal.place());
    }
    let Err(AppendError::DiskFault) = journal.append(disk, piece.as_slice(), 100) else {
        return Ok(journal.place());
    };
    if until == Until::Appended {
        return Ok(journal.place());
    }
    heal_once(journal, disk, piece.as_slice(), until)
}

fn heal_once<D: Disk>(
    mut journal: Journal,
    disk: &mut D,
    piece: &[u8],
    until: Until,
) -> Result<u64, OpenError>
    requires stands { (maybe : _) × (units : _) ×
        StandsFor D.tells D.content D.may_leave maybe units journal disk.old }
    requires piece { (unit : _) × IsPiece unit piece.now }
{
    match journal.heal(disk) {
        Ok(()) => again(journal, disk, piece, until),
        Err(DiskFault) => {
            if until == Until::Healed {
                return Ok(journal.place());
            }
            heal_twice(journal, disk, piece, until)
        }
    }
}

fn heal_twice<D: Disk>(
    mut journal: Journal,
    disk: &mut D,
    piece: &[u8],
    until: Until,
) -> Result<u64, OpenError>
    requires stands { (maybe : _) × (units : _) ×
        StandsFor D.tells D.content D.may_leave maybe units journal disk.old }
    requires piece { (unit : _) × IsPiece unit piece.now }
{
    match journal.heal(disk) {
        Ok(()) => again(journal, disk, piece, until),
        Err(DiskFault) => Err(OpenError::DiskFault),
    }
}

// Appends a unit if that is asked for. Then where the units end.
fn again<D: Disk>(
    mut journal: Journal,
    disk: &mut D,
    piece: &[u8],
    until: Until,
) -> Result<u64, OpenError>
    requires rests { (units : _) × Rests D.tells D.content D.may_leave units journal disk.old }
    requires piece { (unit : _) × IsPiece unit piece.now }
{
    if until != Until::AppendedAgain {
        return Ok(journal.place());
    }
    match journal.append(disk, piece, 100) {
        Ok(place) => Ok(place),
        Err(_) => Err(OpenError::DiskFault),
    }
}

// Opens a journal and appends one unit.
fn append_to<D: Disk>(
    alloc: Global,
    disk: &mut D,
    body: &[u8],
    max: u64,
) -> Result<Result<u64, AppendError>, OpenError> {
    let Ok(piece) = piece_of(alloc, body) else {
        return Err(OpenError::Memory);
    };
    let mut journal = Journal::open(alloc, disk)?;
    Ok(journal.append(disk, piece.as_slice(), max))
}

fn look_in<D: Disk>(alloc: Global, disk: &mut D) -> Result<u64, OpenError> {
    let journal = Journal::look(alloc, disk)?;
    Ok(journal.place())
}

// Appends so many units.
fn append_often<D: Disk>(alloc: Global, disk: &mut D, count: usize) -> Result<u64, OpenError> {
    let Ok(piece) = piece_of(alloc, PROVISION) else {
        return Err(OpenError::Memory);
    };
    let mut journal = Journal::open(alloc, disk)?;
    'units: for _ in 0..count {
        let Ok(_) = journal.append(disk, piece.as_slice(), u64::MAX) else {
            return Err(OpenError::DiskFault);
        };
    }
    Ok(journal.place())
}

// How many units there are, each of which has to be `PROVISION`, or else there is damage.
fn count_provisions<D: Disk>(alloc: Global, disk: &mut D) -> Result<u64, UnitError> {
    let Ok(journal) = Journal::look(alloc, disk) else {
        return Err(UnitError::DiskFault);
    };
    let mut body = Vec::new(alloc);
    let mut place = FIRST_PLACE;
    'units: for count in 0..u64::MAX {
        let Some(next) = journal.unit(alloc, disk, place, &mut body)? else {
            return Ok(count);
        };
        if body.as_slice() != PROVISION {
            return Err(UnitError::Damaged { file: 0, at: place });
        }
        place = next;
    }
    Err(UnitError::Memory)
}

#[test]
fn a_journal_has_its_bytes(rt: HostRuntime) -> Result<(), Fail> {
    let alloc = rt.alloc();
    let mut disk = MemoryDisk::new(alloc);
    assert_eq!(rt; look_in(alloc, &mut disk), Ok(0));
    assert_eq!(rt; place_after(alloc, &mut disk, Until::Opened), Ok(13));
    assert!(rt; disk.bytes(J) == b"\x01spooljnl\x01\0\0\0\0".as_slice());
    assert_eq!(rt; place_after(alloc, &mut disk, Until::Appended), Ok(40));
    assert!(rt; disk.bytes(J) == ONE_UNIT);
    assert_eq!(rt; count_provisions(alloc, &mut disk), Ok(1));
    Ok(())
}

#[test]
fn a_changed_byte_is_found(rt: HostRuntime) -> Result<(), Fail> {
    let alloc = rt.alloc();
    let table = [
        (0, 0, Err(OpenError::Damaged { file: 0, at: 0 })),
        (0, 255, Ok(40)),
        (1, b'x', Err(OpenError::Damaged { file: 0, at: 1 })),
        (9, 3, Err(OpenError::OtherVersion { found: 3 })),
        (13, 0, Ok(13)),
        (14, 255, Err(OpenError::Damaged { file: 0, at: 13 })),
        (17, 1, Err(OpenError::Damaged { file: 0, at: 13 })),
        (40, 1, Err(OpenError::Damaged { file: 0, at: 40 })),
        // A body without its last byte, one of no bytes, and an event of the tag 13.
        (14, 21, Err(OpenError::Damaged { file: 0, at: 13 })),
        (14, 0, Err(OpenError::Damaged { file: 0, at: 13 })),
        (31, 13, Err(OpenError::Damaged { file: 0, at: 13 })),
    ];
    for (at, byte, answer) in table {
        let mut bytes = Vec::from_slice(alloc, ONE_UNIT)?;
        if let Some(place) = bytes.get_mut(at) {
            *place = byte;
        }
        let mut disk = MemoryDisk::new(alloc).with_file(J, bytes.as_slice())?;
        assert_eq!(rt; look_in(alloc, &mut disk), answer, "{at}");
        assert_eq!(rt;
            place_after(alloc, &mut disk, Until::Opened),
            answer,
            "{at}"
        );
    }
    Ok(())
}

#[test]
fn a_full_journal_takes_no_more(rt: HostRuntime) -> Result<(), Fail> {
    let alloc = rt.alloc();
    let mut disk = MemoryDisk::new(alloc);
    let full = AppendError::JournalFull {
        len: 85,
        need: 46,
        max: 100,
    };
    assert_eq!(rt; append_to(alloc, &mut disk, PROVISION, 100), Ok(Ok(40)));
    assert_eq!(rt; append_to(alloc, &mut disk, PUBLISH, 100), Ok(Ok(85)));
    assert_eq!(rt; append_to(alloc, &mut disk, PUBLISH, 100), Ok(Err(full)));
    assert_eq!(rt; disk.bytes(J).len(), 86);
    // The openings make 10, 6 and 8 calls, and the first two units four each.
    assert_eq!(rt; disk.calls().len(), 32);
    Ok(())
}

const OWN: Paths = Paths {
    folder: "folder_of_a_journal",
    journal: "folder_of_a_journal/journal.sp",
    image: "folder_of_a_journal/image.sp",
};

#[test]
fn a_thousand_units_are_read_again(rt: HostRuntime) -> Result<(), Fail> {
    let alloc = rt.alloc();
    let _ = fs::remove_dir_all(&rt, OWN.folder);
    fs::create_dir(&rt, OWN.folder)?;
    let mut disk = FolderDisk::at(&rt, OWN);
    assert_eq!(rt; append_often(alloc, &mut disk, 1000), Ok(27_013));
    drop(disk);
    let mut disk = FolderDisk::at(&rt, OWN);
    assert_eq!(rt; place_after(alloc, &mut disk, Until::Opened), Ok(27_013));
    assert_eq!(rt; count_provisions(alloc, &mut disk), Ok(1000));
    fs::remove_dir_all(&rt, OWN.folder)?;
    Ok(())
}
