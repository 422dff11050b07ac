ghost use Rattle.sp_base.specs.Name.{is_caller};
ghost use Rattle.sp_disk.specs.MemoryDisk.{taken_by};
ghost use Rattle.std.specs.Prelude.{◌≡◌, [], IfSome, true};

use crate::receipt::{CommitFault, Receipt};
use crate::store::Store;
use sp_base::bytes::Bytes;
use sp_base::failure::Memory;
use sp_base::moment::Moment;
use sp_base::name::Name;
use sp_base::number::{CopyNo, FlowNo};
use sp_config::attr::Attr;
use sp_config::kind::EndpointKind;
use sp_config::setting::Setting;
use sp_config::settings::Settings;
use sp_config::value::AttrValue;
use sp_copies::closed::Fate;
use sp_disk::disk::File;
use sp_disk::memory::MemoryDisk;
use sp_event::answer::Reply;
use sp_event::request::{Event, Outcome, PullCount, Query};
use sp_journal::journal::OpenError;
use sp_message::message::{Dest, Message, TimeToLive};
use sp_message::payload::Payload;
use sp_message::property::Properties;
use std::alloc::Global;
use std::slice;

// An event of ann at the first moment, on q1 or on the dead-message queue.
#[derive(Clone, Copy)]
enum Step {
    Provision,
    ProvisionOnce,
    ProvisionDead,
    Publish,
    Bind,
    Pull,
    Fail,
}

// The journal that has the provision of q1 alone.
const ONE_UNIT: &[u8] =
    b"\x01spooljnl\x01\0\0\0\x01\x16\0\0\0\0\0\0\0\0\0\0\0\x03ann\x01\x01\x02\0\0\0q1\0\0\0";

fn ann(alloc: Global) -> Option<Name>
    ensures { IfSome result (λ n. is_caller n ≡ true) }
{
    let ann = Name::read(alloc, b"ann").ok()?;
    if !ann.is_caller() {
        return None;
    }
    Some(ann)
}

fn queue(alloc: Global, name: &[u8], attributes: Settings) -> Option<Event> {
    Some(Event::Provision {
        endpoint: Name::read(alloc, name).ok()?,
        kind: EndpointKind::Queue,
        attributes,
    })
}

// A copy is handed out again once.
fn once(alloc: Global) -> Option<Settings> {
    let setting = Setting {
        attr: Attr::MaxRedeliveryCount,
        value: AttrValue::Whole(1),
    };
    Settings::from_vec(vec![in alloc; setting].ok()?)
}

fn publish(alloc: Global) -> Option<Event> {
    let payload = Bytes::copy_of(alloc, b"hello").ok()?;
    let message = Message {
        dest: Dest::Queue(Name::read(alloc, b"q1").ok()?),
        payload: Payload::from_bytes(payload),
        ttl: TimeToLive::of(0),
        eligible: true,
        properties: Properties::none(alloc),
    };
    Some(Event::Publish { message })
}

fn on_flow(step: Step) -> Event {
    let flow = FlowNo::of(1);
    match step {
        Step::Fail => Event::Settle {
            flow,
            copy: CopyNo::of(1),
            outcome: Outcome::Failed,
        },
        _ => Event::Pull {
            flow,
            count: PullCount::of(1),
        },
    }
}

fn event(alloc: Global, step: Step) -> Option<Event> {
    match step {
        Step::Provision => queue(alloc, b"q1", Settings::none(alloc)),
        Step::ProvisionOnce => queue(alloc, b"q1", once(alloc)?),
        Step::ProvisionDead => queue(alloc, b"#DEAD_MSG_QUEUE", Settings::none(alloc)),
        Step::Publish => publish(alloc),
        Step::Bind => Some(Event::Bind {
            endpoint: Name::read(alloc, b"q1").ok()?,
            selector: None,
            topic: None,
        }),
        step => Some(on_flow(step)),
    }
}

fn commit(
    alloc: Global,
    store: &mut Store<MemoryDisk>,
    step: Step,
) -> Option<Result<Receipt, CommitFault>> {
    let event = event(alloc, step)?;
    let ann = ann(alloc)?;
    Some(store.commit(alloc, Moment::START, &ann, slice::from_ref(&event)))
}

// A store on a disk, after these events, each of which is accepted.
fn after(alloc: Global, disk: MemoryDisk, steps: &[Step]) -> Option<Store<MemoryDisk>> {
    let mut store = Store::open(alloc, disk, u64::MAX).ok()?;
    for step in steps {
        let _receipt = commit(alloc, &mut store, *step)?.ok()?;
    }
    Some(store)
}

fn disk_with(alloc: Global, bytes: &[u8]) -> Option<MemoryDisk>
    ensures { IfSome result (λ disk. taken_by disk ≡ []) }
{
    MemoryDisk::new(alloc).with_file(File::Journal, bytes).ok()
}

// What has become of copy 1, and how often it was handed out.
fn first_copy(alloc: Global, store: &Store<MemoryDisk>) -> Option<(Fate, u64)> {
    let query = Query::Copy {
        copy: CopyNo::of(1),
    };
    let ann = ann(alloc)?;
    match &store.ask(alloc, Moment::START, &ann, &query).ok()? {
        Reply::Copy {
            fate,
            details: Some(details),
            ..
        } => Some((*fate, details.attempts)),
        _ => None,
    }
}

fn open_error(alloc: Global, disk: MemoryDisk) -> Option<OpenError> {
    let (_disk, error) = Store::open(alloc, disk, u64::MAX).err()?;
    Some(error)
}

fn look_error(alloc: Global, mut disk: MemoryDisk) -> Option<OpenError> {
    Store::look(alloc, &mut disk).err()
}

#[test]
fn a_restart_gives_back_what_was_held_and_a_second_one_changes_nothing(
    rt: HostRuntime,
) -> Result<(), Memory> {
    let alloc = rt.alloc();
    let steps = [
        Step::ProvisionOnce,
        Step::ProvisionDead,
        Step::Publish,
        Step::Bind,
        Step::Pull,
        Step::Fail,
        Step::Pull,
    ];
    let Some(store) = after(alloc, MemoryDisk::new(alloc), &steps) else {
        return Err(Memory);
    };
    assert_eq!(rt; store.units(), 7);
    let Some(store) = after(alloc, store.into_disk(), &[]) else {
        return Err(Memory);
    };
    assert_eq!(rt; store.units(), 8);
    let moved = Some((Fate::Moved(CopyNo::of(2)), 2));
    assert!(rt; first_copy(alloc, &store) == moved);
    let Some(store) = after(alloc, store.into_disk(), &[]) else {
        return Err(Memory);
    };
    assert_eq!(rt; store.units(), 8);
    assert!(rt; first_copy(alloc, &store) == moved);
    Ok(())
}

#[test]
fn a_unit_that_does_not_fit_is_refused_with_its_bytes(rt: HostRuntime) -> Result<(), Memory> {
    let alloc = rt.alloc();
    let Ok(mut store) = Store::open(alloc, MemoryDisk::new(alloc), 100) else {
        return Err(Memory);
    };
    for step in [Step::Provision, Step::Publish] {
        assert!(rt; matches!(commit(alloc, &mut store, step), Some(Ok(_))));
    }
    let third = commit(alloc, &mut store, Step::Publish);
    assert!(rt;
        matches!(
            third,
            Some(Err(CommitFault::Full {
                len: 85,
                need: 46,
                max: 100
            }))
        )
    );
    assert_eq!(rt; store.units(), 2);
    Ok(())
}

// The journal with one unit and another byte at a place.
fn changed(alloc: Global, place: usize, byte: u8) -> Option<MemoryDisk> {
    let mut bytes = Vec::from_slice(alloc, ONE_UNIT).ok()?;
    *bytes.get_mut(place)? = byte;
    disk_with(alloc, bytes.as_slice())
}

#[test]
fn a_journal_is_the_bytes_of_its_units_and_others_are_told_apart(
    rt: HostRuntime,
) -> Result<(), Memory> {
    let alloc = rt.alloc();
    let Some(store) = after(alloc, MemoryDisk::new(alloc), &[Step::Provision]) else {
        return Err(Memory);
    };
    assert!(rt; store.into_disk().bytes(File::Journal) == ONE_UNIT);
    let table = [
        (1, 0, OpenError::Damaged { file: 0, at: 1 }),
        (9, 3, OpenError::OtherVersion { found: 3 }),
        (14, 255, OpenError::Damaged { file: 0, at: 13 }),
    ];
    for (place, byte, error) in table {
        let (Some(disk), Some(other)) = (changed(alloc, place, byte), changed(alloc, place, byte))
        else {
            return Err(Memory);
        };
        assert!(rt; open_error(alloc, disk) == Some(error));
        assert!(rt; look_error(alloc, other) == Some(error));
    }
    Ok(())
}

// The journal that provisions q1 twice.
fn twice(alloc: Global) -> Option<MemoryDisk> {
    let mut bytes = Vec::from_slice(alloc, ONE_UNIT).ok()?;
    let _gate = bytes.pop();
    bytes.extend_from_slice(&ONE_UNIT[13..]).ok()?;
    disk_with(alloc, bytes.as_slice())
}

#[test]
fn a_unit_whose_event_is_refused_is_damage_at_its_gate(rt: HostRuntime) -> Result<(), Memory> {
    let alloc = rt.alloc();
    let Some(disk) = twice(alloc) else {
        return Err(Memory);
    };
    assert!(rt; open_error(alloc, disk) == Some(OpenError::Damaged { file: 0, at: 40 }));
    Ok(())
}

// Whether each of the first 64 images of a disk has as many units, and opens.
fn images_have(alloc: Global, disk: &MemoryDisk, least: u64, most: u64) -> Option<bool> {
    for number in 0..64 {
        let mut image = disk.after_crash(alloc, number).ok()?;
        let units = Store::look(alloc, &mut image).ok()?.units();
        if units < least || most < units {
            return Some(false);
        }
        let _store = after(alloc, image, &[])?;
    }
    Some(true)
}

// How a call of the disk fails: alone, or with all that follow.
#[derive(Clone, Copy)]
enum Failure {
    Once,
    Stop,
}

// A disk with this journal that fails at a call, counted from 1.
fn failing(alloc: Global, journal: &[u8], call: u64, failure: Failure) -> Option<MemoryDisk> {
    let disk = disk_with(alloc, journal)?;
    match failure {
        Failure::Once => Some(disk.failing(vec![in alloc; call].ok()?)),
        Failure::Stop => Some(disk.stopping(call)),
    }
}

// The journal of q1 with a flow that holds a copy: four units, and a restart is due.
fn held(alloc: Global) -> Option<MemoryDisk> {
    let steps = [Step::Provision, Step::Publish, Step::Bind, Step::Pull];
    Some(after(alloc, MemoryDisk::new(alloc), &steps)?.into_disk())
}

// How many calls of the disk an opening makes.
fn calls_of_opening(alloc: Global, journal: &[u8]) -> Option<u64> {
    let disk = disk_with(alloc, journal)?;
    let disk = after(alloc, disk, &[])?.into_disk();
    Some(disk.calls().len() as u64)
}

// Whether an opening that fails at a call gives the disk back, with the four units or those and the restart.
fn opening_fails_well(alloc: Global, journal: &[u8], call: u64, failure: Failure) -> Option<bool> {
    let disk = failing(alloc, journal, call, failure)?;
    let (disk, error) = Store::open(alloc, disk, u64::MAX).err()?;
    Some(error == OpenError::DiskFault && images_have(alloc, &disk, 4, 5)?)
}

#[test]
fn an_opening_that_fails_at_any_call_leaves_the_units(rt: HostRuntime) -> Result<(), Memory> {
    let alloc = rt.alloc();
    let Some(disk) = held(alloc) else {
        return Err(Memory);
    };
    let journal = disk.bytes(File::Journal);
    let Some(calls) = calls_of_opening(alloc, journal) else {
        return Err(Memory);
    };
    assert!(rt; calls > 8);
    for call in 1..=calls {
        assert!(rt; opening_fails_well(alloc, journal, call, Failure::Once) == Some(true));
        assert!(rt; opening_fails_well(alloc, journal, call, Failure::Stop) == Some(true));
    }
    Ok(())
}

// Whether a publish whose commit fails at a call leaves the one unit or both, and is committed by the
// next call, unless the disk has stopped.
fn commit_fails_well(alloc: Global, call: u64, failure: Failure) -> Option<bool> {
    let disk = failing(alloc, ONE_UNIT, call, failure)?;
    let mut store = after(alloc, disk, &[])?;
    if !matches!(
        commit(alloc, &mut store, Step::Publish)?,
        Err(CommitFault::Disk)
    ) {
        return Some(false);
    }
    if let Failure::Stop = failure {
        let again = commit(alloc, &mut store, Step::Publish)?;
        let failed = matches!(again, Err(CommitFault::Disk)) && store.units() == 1;
        return Some(failed && images_have(alloc, &store.into_disk(), 1, 2)?);
    }
    let receipt = commit(alloc, &mut store, Step::Publish)?.ok()?;
    let copy = first_copy(alloc, &store)?;
    let same = receipt.unit.value() == 2 && copy == (Fate::Spooled, 0);
    Some(same && images_have(alloc, &store.into_disk(), 2, 2)?)
}

#[test]
fn a_commit_that_fails_at_any_call_leaves_the_units_and_the_next_heals(
    rt: HostRuntime,
) -> Result<(), Memory> {
    let alloc = rt.alloc();
    let Some(opening) = calls_of_opening(alloc, ONE_UNIT) else {
        return Err(Memory);
    };
    for call in 1..5 {
        assert!(rt;
            commit_fails_well(alloc, opening.saturating_add(call), Failure::Once) == Some(true)
        );
        assert!(rt;
            commit_fails_well(alloc, opening.saturating_add(call), Failure::Stop) == Some(true)
        );
    }
    Ok(())
}
