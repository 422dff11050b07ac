// The journal is looked at.
ghost use Rattle.std.specs.Prelude.{◌≡◌, ◌≢◌, ◌⊎◌, ◌≤◌, IfOk, IsTrue, true};
ghost use Rattle.sp_base.specs.Causes.{Rose};
ghost use Rattle.sp_base.specs.Name.{is_caller};
ghost use Rattle.sp_core.specs.Stands.{Stands};
ghost use Rattle.sp_disk.specs.Looked.{Looked};
ghost use Rattle.sp_journal.specs.Damage.{IsDamaged, IsOtherVersion};
ghost use Rattle.sp_ledger.specs.Ledger.{Ledger};
ghost use Rattle.sp_store.specs.Refused.{IsRefusedAt};
ghost use Rattle.sp_tape.specs.Check.{Checks, tally_line};

use crate::status::Status;
use crate::turn::put;
use sp_base::failure::Memory;
use sp_base::io::Sink;
use sp_base::moment::Moment;
use sp_base::name::Name;
use sp_core::state::Core;
use sp_disk::disk::{Disk, File};
use sp_event::answer::Answered;
use sp_event::request::Query;
use sp_flowline::line::line;
use sp_store::store::Store;
use std::alloc::Global;

/// Prints the tally of all endpoints in the ledger of a journal's units. The disk is only read.
pub fn check<K: Sink, D: Disk>(alloc: Global, disk: &mut D, sink: &mut K) -> Status
    ensures checks { Checks (D.tells disk.old).content (D.content disk.old File.Journal)
        (K.written sink.old) (K.written sink.new) result }
    ensures looked { Looked D.tells D.content D.may_leave D.moment D.left_since disk.old disk.new }
    ensures damaged { IsTrue (D.tells disk.old).content → (file : _) (at : _) → result ≡ Status.Damaged file at →
        (file ≡ 0) × (IsDamaged at (D.content disk.old File.Journal) ⊎ IsRefusedAt at (D.content disk.old File.Journal)) }
    ensures other { IsTrue (D.tells disk.old).content → (found : _) → result ≡ Status.OtherVersion found →
        IsOtherVersion found (D.content disk.old File.Journal) }
    ensures later { D.faults disk.old ≤ D.faults disk.new }
    ensures disk_fault { result ≡ Status.DiskFault → Rose (D.faults disk.old) (D.faults disk.new) }
    ensures write_fault { result ≡ Status.WriteFault → Rose (K.faults sink.old) (K.faults sink.new) }
    ensures no_write_fault { result ≢ Status.WriteFault → K.faults sink.new ≡ K.faults sink.old }
{
    let core = match Store::look(alloc, disk) {
        Ok(core) => core,
        Err(error) => return Status::of_open(error),
    };
    let Ok(text) = tally(alloc, &core) else {
        return Status::Memory;
    };
    match put(sink, text.as_slice()) {
        Ok(()) => Status::Done,
        Err(_) => Status::WriteFault,
    }
}

// The line of the tally of all endpoints.
fn tally(alloc: Global, core: &Core) -> Result<Vec<u8>, Memory>
    ensures { IfOk result (λ text. (L : Ledger) → Stands core.now L → text.items ≡ tally_line L) }
{
    let Ok(caller) = Name::read(alloc, b"check") else {
        return Err(Memory);
    };
    let query = Query::Tally { endpoint: None };
    let Ok(reply) = core.query(alloc, Moment::START, &caller, &query) else {
        return Err(Memory);
    };
    let mut text = Vec::new(alloc);
    let Ok(()) = line(alloc, &Answered::Gave(reply), core.units(), &mut text) else {
        return Err(Memory);
    };
    Ok(text)
}
