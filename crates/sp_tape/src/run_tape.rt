ghost use Rattle.std.specs.Prelude.{◌≡◌, ◌≢◌, ◌↔◌, ◌⊎◌, ◌≤◌, IsTrue, List, ℕ};
ghost use Rattle.sp_base.specs.Causes.{Rose};
ghost use Rattle.sp_disk.specs.Looked.{Looked};
ghost use Rattle.sp_journal.specs.Damage.{IsDamaged, IsOtherVersion};
ghost use Rattle.sp_ledger.specs.Sound.{IsLedger};
ghost use Rattle.sp_store.specs.Refused.{IsGood, IsRefusedAt};
ghost use Rattle.sp_tape.specs.Check.{Checks};
ghost use Rattle.sp_tape.specs.Complete.{IsTapeOf};
ghost use Rattle.sp_tape.specs.Runs.{GoesFrom, RunsOrFails};
ghost use Rattle.sp_tape.specs.Serves.{IsIn};
ghost use Rattle.sp_tape.specs.State.{RunState};
ghost use Rattle.sp_tape.specs.Words.{form_of};

use crate::check::check;
use crate::entry::Entry;
use crate::reader::{Next, next_entry};
use crate::reopen::ready;
use crate::status::Status;
use crate::turn::{Served, serve};
use crate::words::{Form, form_of};
use sp_base::io::{Sink, Source};
use sp_disk::disk::{Disk, File};
use sp_store::store::Store;
use std::alloc::Global;

// An entry ends at or before this byte of the tape.
const LONGEST_TAPE: u64 = 1 << 40;

/// How a run of the program ended, and its disk.
#[derive(Drop)]
pub struct Ran<D> {
    pub status: Status,
    pub disk: D,
}

/// Runs the program of these words over a disk.
///
/// `run` opens the journal, reads a tape off the source, answers it entry by entry, each event of it in the
/// journal before the answer, and writes a line for each to the sink. `check` prints the tally of all
/// endpoints in the ledger of the journal's units.
pub fn run<S: Source, K: Sink, D: Disk>(
    words: &[String],
    source: &mut S,
    sink: &mut K,
    disk: D,
    alloc: Global,
) -> Ran<D>
    ensures usage { (result.status ≡ Status.Usage) ↔ (form_of words.now ≡ None) }
    ensures nothing { form_of words.now ≡ None → (S.left source.new ≡ S.left source.old)
        × (K.written sink.new ≡ K.written sink.old) × (result.disk ≡ disk) }
    ensures tape { (most : ℕ) → form_of words.now ≡ Some (Form.Run most) →
        RunsOrFails D.tells D.content D.may_leave D.moment D.left_since D.faults disk result.disk most
        (S.left source.old) (S.left source.new) (K.written sink.old) (K.written sink.new) result.status }
    ensures check { form_of words.now ≡ Some Form.Check →
        Checks (D.tells disk).content (D.content disk File.Journal) (K.written sink.old) (K.written sink.new) result.status
        × (S.left source.new ≡ S.left source.old)
        × Looked D.tells D.content D.may_leave D.moment D.left_since disk result.disk }
    ensures damaged { IsTrue (D.tells disk).content → (file : _) (at : _) → result.status ≡ Status.Damaged file at →
        (file ≡ 0) × (IsDamaged at (D.content disk File.Journal) ⊎ IsRefusedAt at (D.content disk File.Journal)) }
    ensures other { IsTrue (D.tells disk).content → (found : _) → result.status ≡ Status.OtherVersion found →
        IsOtherVersion found (D.content disk File.Journal) }
    ensures read_fault { result.status ≡ Status.ReadFault → Rose (S.faults source.old) (S.faults source.new) }
    ensures no_read_fault { result.status ≢ Status.ReadFault → S.faults source.new ≡ S.faults source.old }
    ensures write_fault { result.status ≡ Status.WriteFault → Rose (K.faults sink.old) (K.faults sink.new) }
    ensures no_write_fault { result.status ≢ Status.WriteFault → K.faults sink.new ≡ K.faults sink.old }
    ensures disk_fault { result.status ≡ Status.DiskFault → Rose (D.faults disk) (D.faults result.disk) }
    ensures later { D.faults disk ≤ D.faults result.disk }

    // Over a tape of whole entries and a journal whose units lead to a ledger, where nothing failed, all is done but
    // for want of memory.
    ensures complete { (most : ℕ) → form_of words.now ≡ Some (Form.Run most) →
        (entries : List Entry) → IsTapeOf (S.left source.old) entries →
        IsTrue (D.tells disk).content → IsGood (D.content disk File.Journal) →
        ¬ Rose (S.faults source.old) (S.faults source.new) → ¬ Rose (K.faults sink.old) (K.faults sink.new) →
        ¬ Rose (D.faults disk) (D.faults result.disk) →
        (result.status ≡ Status.Done) ⊎ (result.status ≡ Status.Memory) }
{
    match form_of(words) {
        None => Ran {
            status: Status::Usage,
            disk,
        },
        Some(Form::Check) => {
            let mut disk = disk;
            let status = check(alloc, &mut disk, sink);
            Ran { status, disk }
        }
        Some(Form::Run { most }) => run_over(alloc, most, source, sink, disk),
    }
}

fn run_over<S: Source, K: Sink, D: Disk>(
    alloc: Global,
    most: u64,
    source: &mut S,
    sink: &mut K,
    disk: D,
) -> Ran<D>
    ensures tape { RunsOrFails D.tells D.content D.may_leave D.moment D.left_since D.faults disk result.disk most
        (S.left source.old) (S.left source.new) (K.written sink.old) (K.written sink.new) result.status }
    ensures no_usage { result.status ≢ Status.Usage }
    ensures damaged { IsTrue (D.tells disk).content → (file : _) (at : _) → result.status ≡ Status.Damaged file at →
        (file ≡ 0) × (IsDamaged at (D.content disk File.Journal) ⊎ IsRefusedAt at (D.content disk File.Journal)) }
    ensures other { IsTrue (D.tells disk).content → (found : _) → result.status ≡ Status.OtherVersion found →
        IsOtherVersion found (D.content disk File.Journal) }
    ensures read_fault { result.status ≡ Status.ReadFault → Rose (S.faults source.old) (S.faults source.new) }
    ensures no_read_fault { result.status ≢ Status.ReadFault → S.faults source.new ≡ S.faults source.old }
    ensures write_fault { result.status ≡ Status.WriteFault → Rose (K.faults sink.old) (K.faults sink.new) }
    ensures no_write_fault { result.status ≢ Status.WriteFault → K.faults sink.new ≡ K.faults sink.old }
    ensures later { D.faults disk ≤ D.faults result.disk }
{
    match Store::open(alloc, disk, most) {
        Ok(store) => run_tape(alloc, store, most, source, sink),
        Err((disk, error)) => Ran {
            status: Status::of_open(error),
            disk,
        },
    }
}

fn run_tape<S: Source, K: Sink, D: Disk>(
    alloc: Global,
    store: Store<D>,
    most: u64,
    source: &mut S,
    sink: &mut K,
) -> Ran<D>
    requires stands { (start : RunState) × IsIn D.tells D.content D.may_leave start store × IsLedger start.ledger }
    requires max { store.max ≡ most }
    ensures tape { (start : RunState) → IsIn D.tells D.content D.may_leave start store → IsLedger start.ledger →
        GoesFrom D.tells D.content D.may_leave D.moment D.left_since D.faults store.disk result.disk most start
        (S.left source.old) (S.left source.new) (K.written sink.old) (K.written sink.new) result.status }
    ensures no_usage { result.status ≢ Status.Usage }
    ensures read_fault { result.status ≡ Status.ReadFault → Rose (S.faults source.old) (S.faults source.new) }
    ensures no_read_fault { result.status ≢ Status.ReadFault → S.faults source.new ≡ S.faults source.old }
    ensures write_fault { result.status ≡ Status.WriteFault → Rose (K.faults sink.old) (K.faults sink.new) }
    ensures no_write_fault { result.status ≢ Status.WriteFault → K.faults sink.new ≡ K.faults sink.old }
    ensures later { D.faults store.disk ≤ D.faults result.disk }
{
    let mut store = store;
    let mut waiting = Vec::new(alloc);
    let mut offset = 0;
    for number in 0..u64::MAX {
        let found = match next_entry(alloc, source, &mut waiting, LONGEST_TAPE - offset) {
            Next::Found(found) => found,
            Next::End => return ended(Status::Done, store),
            Next::Bad => {
                let entry = number + 1;
                return ended(Status::BadTape { entry, offset }, store);
            }
            Next::Fault => return ended(Status::ReadFault, store),
            Next::Memory => return ended(Status::Memory, store),
        };
        store = match ready(alloc, store, most, found.entry.kind) {
            Ok(store) => store,
            Err((disk, error)) => {
                let status = Status::of_open(error);
                return Ran { status, disk };
            }
        };
        match serve(alloc, &mut store, sink, &found.entry) {
            Served::Done => offset += found.used as u64,
            Served::Fault => return ended(Status::WriteFault, store),
            Served::Memory => return ended(Status::Memory, store),
        }
    }
    ended(Status::Memory, store)
}

fn ended<D: Disk>(status: Status, store: Store<D>) -> Ran<D>
    ensures { result ≡ record { status = status; disk = store.disk } }
{
    Ran {
        status,
        disk: store.into_disk(),
    }
}
