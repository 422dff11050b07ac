//! The journal on a disk.
ghost use Rattle.std.specs.Prelude.{◌≡◌, ◌++◌, [], ◌∷◌, ◌+◌, ◌<◌, ◌≤◌, length, IsTrue, IfOk, OnOk, OnErr};
ghost use Rattle.sp_base.specs.Causes.{HasCause, Rose};
ghost use Rattle.sp_disk.specs.Disk.{HoldsOnly, SameElsewhere, written};
ghost use Rattle.sp_disk.specs.Everywhere.{Became, Reached, Vouches};
ghost use Rattle.sp_disk.specs.Looked.{Looked};
ghost use Rattle.sp_disk.specs.Moments.{LeavesOnly};
ghost use Rattle.sp_journal.specs.Closing.{MayClose};
ghost use Rattle.sp_journal.specs.Damage.{IsDamaged, IsOtherVersion, StopsAt};
ghost use Rattle.sp_journal.specs.Format.{ComesTo, HasUnits, IsPiece, IsUnborn};
ghost use Rattle.sp_journal.specs.State.{Doubts, IsLookOf, IsNotBorn, Rests, StandsFor, place_of};
ghost use Rattle.sp_journal.specs.Survey.{GivesUnit};
ghost use Rattle.sp_journal.specs.Unsure.{HasUnitsMaybe, HasUnitsOr, KeepsUnits};

use crate::birth::birth;
use crate::body::Unread;
use crate::gates::{add, close};
use crate::survey::{Gate, Survey, gate_at, inspect};
use sp_base::failure::Failed;
use sp_disk::disk::{Disk, File};
use std::alloc::Global;

/// The place of the first unit's gate in a journal: an offset in bytes.
pub const FIRST_PLACE: u64 = 13;

/// A journal on a disk: where its units end. A unit's place is the offset of its gate, in bytes.
#[derive(Debug, Drop)]
pub struct Journal {
    place: u64,
    state: State,
}

// What is known of a journal's last gate.
#[derive(Clone, Copy, Debug, PartialEq, Eq)]
enum State {
    // A look found a file that isn't born.
    NotBorn,
    // A look found a closed gate.
    Looked,
    // It was opened, and the gate is closed after any crash.
    Settled,
    // It was opened, and the writing of a unit there failed.
    Unsure,
}

/// Why a journal wasn't opened.
#[derive(Clone, Copy, Debug, PartialEq, Eq)]
pub enum OpenError {
    /// A call of the disk failed.
    DiskFault,
    /// A file's bytes are damaged from an offset on. The journal is file 0.
    Damaged { file: u8, at: u64 },
    /// The journal is of another version.
    OtherVersion { found: u32 },
    /// There was no memory.
    Memory,
}

/// Why no unit was read.
#[derive(Clone, Copy, Debug, PartialEq, Eq)]
pub enum UnitError {
    /// A call of the disk failed.
    DiskFault,
    /// No unit follows an open gate at an offset of a file. The journal is file 0.
    Damaged { file: u8, at: u64 },
    /// There was no memory.
    Memory,
}

/// Why no unit was added.
#[derive(Clone, Copy, Debug, PartialEq, Eq)]
pub enum AppendError {
    /// A call of the disk failed.
    DiskFault,
    /// The unit needs so many bytes from the last gate's place on, and together they would be more than
    /// the limit.
    JournalFull { len: u64, need: u64, max: u64 },
}

/// A call of the disk failed.
#[derive(Clone, Copy, Debug, PartialEq, Eq)]
pub struct DiskFault;

impl Journal {
    /// Opens a journal: syncs it, reads its units and finds the first closed gate. An unborn file is
    /// born. It takes memory for the longest body and for the unit that this is.
    ///
    /// Where several errors apply, a fault or want of memory comes as soon as a call meets it.
    pub fn open<D: Disk>(alloc: Global, disk: &mut D) -> Result<Journal, OpenError>
        ensures units { IfOk result (λ journal. (units : _) × Rests D.tells D.content D.may_leave units journal disk.new
            × (IsTrue (D.tells disk.old).content → HasUnits units (D.content disk.old File.Journal))) }
        ensures first { IsTrue (D.tells disk.old).content →
            IfOk result (λ _. ComesTo [] 13 (D.content disk.new File.Journal)) }
        ensures synced { IsTrue (D.tells disk.old).honest →
            OnOk result (HoldsOnly File.Journal (D.content disk.new File.Journal) (D.may_leave disk.new)) }
        // A file that is born isn't written.
        ensures born { IsTrue (D.tells disk.old).content → ¬ IsUnborn (D.content disk.old File.Journal) →
            D.content disk.new ≡ D.content disk.old }
        ensures born_images { Vouches (D.tells disk.old) → ¬ IsUnborn (D.content disk.old File.Journal) →
            LeavesOnly D.moment D.left_since disk.old disk.new (D.may_leave disk.old) }
        ensures damaged { IsTrue (D.tells disk.old).content → (file : _) (at : _) → result ≡ Err (OpenError.Damaged file at) →
            (file ≡ 0) × IsDamaged at (D.content disk.old File.Journal) }
        ensures other { IsTrue (D.tells disk.old).content → (found : _) → result ≡ Err (OpenError.OtherVersion found) →
            IsOtherVersion found (D.content disk.old File.Journal) }
        ensures memory { result ≡ Err OpenError.Memory → D.content disk.new ≡ D.content disk.old }
        // A crash at any moment of the call leaves a journal with the units of one that a crash before might have left.
        ensures any_moment { Vouches (D.tells disk.old) → LeavesOnly D.moment D.left_since disk.old disk.new
            (Reached File.Journal KeepsUnits (D.may_leave disk.old)) }
        ensures others { SameElsewhere File.Journal (D.content disk.old) (D.content disk.new) }
        ensures telling { D.tells disk.new ≡ D.tells disk.old }
        ensures later { D.faults disk.old ≤ D.faults disk.new }
        ensures cause { result ≡ Err OpenError.DiskFault → Rose (D.faults disk.old) (D.faults disk.new) }
    {
        let Ok(()) = disk.sync(File::Journal) else {
            return Err(OpenError::DiskFault);
        };
        let found = match inspect(alloc, disk) {
            Ok(found) => found,
            Err(Unread::DiskFault) => return Err(OpenError::DiskFault),
            Err(Unread::Memory) => return Err(OpenError::Memory),
        };
        match found {
            Survey::Damaged { at } => Err(OpenError::Damaged { file: 0, at }),
            Survey::OtherVersion { found } => Err(OpenError::OtherVersion { found }),
            Survey::Ends { place } => Ok(Journal {
                place,
                state: State::Settled,
            }),
            Survey::Unborn => match birth(disk) {
                Ok(()) => Ok(Journal {
                    place: FIRST_PLACE,
                    state: State::Settled,
                }),
                Err(Failed) => Err(OpenError::DiskFault),
            },
        }
    }

    /// Opens a journal to read it alone: it writes, cuts and syncs nothing. Its answers are those of
    /// `open`, but an unborn file stays unborn, and nothing may be appended to what it gives.
    pub fn look<D: Disk>(alloc: Global, disk: &mut D) -> Result<Journal, OpenError>
        ensures found { IsTrue (D.tells disk.old).content → IfOk result (IsLookOf (D.content disk.old File.Journal)) }
        ensures first { IsTrue (D.tells disk.old).content →
            IfOk result (λ journal. ¬ IsNotBorn journal → ComesTo [] 13 (D.content disk.old File.Journal)) }
        ensures damaged { IsTrue (D.tells disk.old).content → (file : _) (at : _) → result ≡ Err (OpenError.Damaged file at) →
            (file ≡ 0) × IsDamaged at (D.content disk.old File.Journal) }
        ensures other { IsTrue (D.tells disk.old).content → (found : _) → result ≡ Err (OpenError.OtherVersion found) →
            IsOtherVersion found (D.content disk.old File.Journal) }
        ensures looked { Looked D.tells D.content D.may_leave D.moment D.left_since disk.old disk.new }
        ensures later { D.faults disk.old ≤ D.faults disk.new }
        ensures cause { result ≡ Err OpenError.DiskFault → Rose (D.faults disk.old) (D.faults disk.new) }
    {
        let found = match inspect(alloc, disk) {
            Ok(found) => found,
            Err(Unread::DiskFault) => return Err(OpenError::DiskFault),
            Err(Unread::Memory) => return Err(OpenError::Memory),
        };
        match found {
            Survey::Damaged { at } => Err(OpenError::Damaged { file: 0, at }),
            Survey::OtherVersion { found } => Err(OpenError::OtherVersion { found }),
            Survey::Ends { place } => Ok(Journal {
                place,
                state: State::Looked,
            }),
            Survey::Unborn => Ok(Journal {
                place: 0,
                state: State::NotBorn,
            }),
        }
    }

    /// The place of the gate at which the units end, and 0 before the journal is born.
    pub fn place(&self) -> u64
        ensures { result ≡ place_of self.now }
    {
        self.place
    }

    /// Reads the bytes of the unit at a place into the buffer, and gives the next place. None exactly at
    /// the end, and of a journal that isn't born. The place is the first one or one that this call gave.
    /// It takes memory for the bytes and the unit. After an error the buffer may hold anything.
    pub fn unit<D: Disk>(
        &self,
        alloc: Global,
        disk: &mut D,
        at: u64,
        into: &mut Vec<u8>,
    ) -> Result<Option<u64>, UnitError>
        requires { IsTrue (D.tells disk.old).content → ¬ IsNotBorn self.now →
            (units : _) × ComesTo units at (D.content disk.old File.Journal) }
        ensures unit { IsTrue (D.tells disk.old).content → ¬ IsNotBorn self.now → (units : _) →
            ComesTo units at (D.content disk.old File.Journal) →
            IfOk result (GivesUnit units at into.new.items (D.content disk.old File.Journal)) }
        ensures unborn { IsNotBorn self.now → result ≡ Ok None }
        ensures onward { (next : _) → result ≡ Ok (Some next) → at < next }
        ensures damaged { IsTrue (D.tells disk.old).content → ¬ IsNotBorn self.now → (units : _) →
            ComesTo units at (D.content disk.old File.Journal) → (file : _) (place : _) →
            result ≡ Err (UnitError.Damaged file place) →
            (file ≡ 0) × (place ≡ at) × StopsAt units at (D.content disk.old File.Journal) }
        ensures looked { Looked D.tells D.content D.may_leave D.moment D.left_since disk.old disk.new }
        ensures later { D.faults disk.old ≤ D.faults disk.new }
        ensures cause { result ≡ Err UnitError.DiskFault → Rose (D.faults disk.old) (D.faults disk.new) }
    {
        if self.state == State::NotBorn {
            return Ok(None);
        }
        let Ok(len) = disk.len(File::Journal) else {
            return Err(UnitError::DiskFault);
        };
        if len <= at {
            return Err(UnitError::Damaged { file: 0, at });
        }
        match gate_at(alloc, disk, at, len - at, into) {
            Ok(Gate::Closed) => Ok(None),
            Ok(Gate::Broken) => Err(UnitError::Damaged { file: 0, at }),
            Ok(Gate::Whole { size }) => Ok(Some(at + u64::from(size) + 5)),
            Err(Unread::DiskFault) => Err(UnitError::DiskFault),
            Err(Unread::Memory) => Err(UnitError::Memory),
        }
    }

    /// Adds a unit to a journal that was opened and none of whose gates is unsure, and gives the new
    /// place: four calls of the disk, and no memory. The piece is the length of the unit's bytes in four
    /// bytes, the lowest first, those bytes, and 0x00. With the gate before it, it needs one byte more
    /// than its own length, and no byte of it may come to stand past `max`. After a fault the gate is
    /// unsure.
    pub fn append<D: Disk>(
        &mut self,
        disk: &mut D,
        piece: &[u8],
        max: u64,
    ) -> Result<u64, AppendError>
        requires rests { (units : _) × Rests D.tells D.content D.may_leave units self.old disk.old }
        requires piece { (unit : _) × IsPiece unit piece.now }
        ensures place { IfOk result (λ place. (place ≡ place_of self.old + length piece.now) × (place ≡ place_of self.new)) }
        // Once it is Ok, every image has the unit.
        ensures added { (units : _) (unit : _) → Rests D.tells D.content D.may_leave units self.old disk.old →
            IsPiece unit piece.now →
            OnOk result (Rests D.tells D.content D.may_leave (units ++ unit ∷ []) self.new disk.new) }
        ensures written { IsTrue (D.tells disk.old).content → OnOk result (D.content disk.new File.Journal ≡
            written (D.content disk.old File.Journal) (place_of self.old) (1 ∷ piece.now)) }
        ensures unsure { (units : _) (unit : _) → Rests D.tells D.content D.may_leave units self.old disk.old →
            IsPiece unit piece.now → result ≡ Err AppendError.DiskFault →
            Doubts D.tells D.content D.may_leave units unit self.new disk.new }
        // A crash at any moment of the call leaves the units from before it, or those and the new one.
        ensures any_moment { (units : _) (unit : _) → Rests D.tells D.content D.may_leave units self.old disk.old →
            IsPiece unit piece.now → Vouches (D.tells disk.old) → LeavesOnly D.moment D.left_since disk.old disk.new
            (Became File.Journal (HasUnitsOr units unit) (D.may_leave disk.old)) }
        ensures full { max < place_of self.old + (length piece.now + 1) →
            (result ≡ Err (AppendError.JournalFull (place_of self.old) (length piece.now + 1) max))
            × (self.new ≡ self.old) × (disk.new ≡ disk.old) }
        ensures not_full { place_of self.old + (length piece.now + 1) ≤ max →
            OnErr result (result ≡ Err AppendError.DiskFault) }
        ensures others { SameElsewhere File.Journal (D.content disk.old) (D.content disk.new) }
        ensures telling { D.tells disk.new ≡ D.tells disk.old }
        ensures later { D.faults disk.old ≤ D.faults disk.new }
        ensures cause { result ≡ Err AppendError.DiskFault → Rose (D.faults disk.old) (D.faults disk.new) }
    {
        let need = piece.len() as u64 + 1;
        if max < need || max - need < self.place {
            return Err(AppendError::JournalFull {
                len: self.place,
                need,
                max,
            });
        }
        match add(disk, self.place, piece) {
            Ok(()) => {
                self.place += need - 1;
                Ok(self.place)
            }
            Err(Failed) => {
                self.state = State::Unsure;
                Err(AppendError::DiskFault)
            }
        }
    }

    /// Closes the gate of a journal that was opened, if that is unsure: afterwards none is. Where none
    /// is unsure it calls the disk not once. After a fault the gate is as unsure as before.
    pub fn heal<D: Disk>(&mut self, disk: &mut D) -> Result<(), DiskFault>
        requires { (maybe : _) × (units : _) × StandsFor D.tells D.content D.may_leave maybe units self.old disk.old }
        ensures healed { (maybe : _) (units : _) → StandsFor D.tells D.content D.may_leave maybe units self.old disk.old →
            OnOk result (Rests D.tells D.content D.may_leave units self.new disk.new) }
        ensures kept { (maybe : _) (units : _) → StandsFor D.tells D.content D.may_leave maybe units self.old disk.old →
            OnErr result (StandsFor D.tells D.content D.may_leave maybe units self.new disk.new) }
        ensures place { place_of self.new ≡ place_of self.old }
        ensures sure { (units : _) → Rests D.tells D.content D.may_leave units self.old disk.old →
            (result ≡ Ok tt) × (self.new ≡ self.old) × (disk.new ≡ disk.old) }
        // Where a read gives a closed gate, nothing is written.
        ensures writes { IsTrue (D.tells disk.old).content → MayClose (place_of self.old)
            (D.content disk.old File.Journal) (D.content disk.old File.Journal) (D.content disk.new File.Journal) }
        ensures moments { Vouches (D.tells disk.old) → LeavesOnly D.moment D.left_since disk.old disk.new
            (Reached File.Journal (MayClose (place_of self.old) (D.content disk.old File.Journal)) (D.may_leave disk.old)) }
        // A crash at any moment of the call leaves the units, or those and the unsure one.
        ensures any_moment { (maybe : _) (units : _) →
            StandsFor D.tells D.content D.may_leave maybe units self.old disk.old → Vouches (D.tells disk.old) →
            LeavesOnly D.moment D.left_since disk.old disk.new
            (Became File.Journal (HasUnitsMaybe maybe units) (D.may_leave disk.old)) }
        ensures others { SameElsewhere File.Journal (D.content disk.old) (D.content disk.new) }
        ensures telling { D.tells disk.new ≡ D.tells disk.old }
        ensures cause { HasCause (D.faults disk.old) (D.faults disk.new) result }
    {
        if self.state != State::Unsure {
            return Ok(());
        }
        match close(disk, self.place) {
            Ok(()) => {
                self.state = State::Settled;
                Ok(())
            }
            Err(Failed) => Err(DiskFault),
        }
    }
}
