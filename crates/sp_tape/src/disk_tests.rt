ghost use Rattle.sp_disk.specs.MemoryDisk.{taken_by};
ghost use Rattle.std.specs.Prelude.{◌≡◌, IfSome, [], IfOk};

use crate::status::Status;
use crate::tests::{Over, SMALLEST, exchanged, is_answered, ran_over};
use sp_disk::disk::File;
use sp_disk::folder::{FolderDisk, Paths};
use sp_disk::memory::MemoryDisk;
use std::alloc::{AllocError, Global};
use std::fs;
use std::test::Fail;

// The journal that has the provision of q1 alone.
const ONE_UNIT: &[u8] =
    b"\x01spooljnl\x01\0\0\0\x01\x16\0\0\0\0\0\0\0\0\0\0\0\x03ann\x01\x01\x02\0\0\0q1\0\0\0";

const PUBLISH: &str = r#"{"op":"publish","queue":"q1","payload":"hello"}"#;

#[test]
fn a_restart_gives_back_what_was_held_once(rt: HostRuntime) -> Result<(), Fail> {
    let turns = [
        (
            r#"{"op":"provision","endpoint":"q1","attributes":{"maxRedeliveryCount":1}}"#,
            r#"{"endpoint":"q1","number":1,"ok":"provision","unit":1}"#,
        ),
        (
            r##"{"op":"provision","endpoint":"#DEAD_MSG_QUEUE"}"##,
            r##"{"endpoint":"#DEAD_MSG_QUEUE","number":2,"ok":"provision","unit":2}"##,
        ),
        (
            r#"{"op":"publish","queue":"q1","dmq":true}"#,
            r#"{"copies":[{"copy":1,"endpoint":"q1","fate":"spooled"}],"message":1,"ok":"publish","unit":3}"#,
        ),
        (
            r#"{"op":"bind","endpoint":"q1"}"#,
            r#"{"discarded":0,"endpoint":"q1","flow":1,"ok":"bind","unit":4}"#,
        ),
        (
            r#"{"op":"pull","flow":1}"#,
            r#"{"deliveries":[{"attempt":1,"copy":1,"message":1,"payload":"","properties":{},"queue":"q1"}],"flow":1,"ok":"pull","unit":5}"#,
        ),
        (
            r#"{"op":"settle","flow":1,"copy":1,"outcome":"failed"}"#,
            r#"{"copy":1,"fate":"spooled","ok":"settle","unit":6}"#,
        ),
        (
            r#"{"op":"pull","flow":1}"#,
            r#"{"deliveries":[{"attempt":2,"copy":1,"message":1,"payload":"","properties":{},"queue":"q1"}],"flow":1,"ok":"pull","unit":7}"#,
        ),
        ("", r#"{"ok":"restart","unit":8}"#),
        (
            r#"{"op":"copy","copy":1}"#,
            r#"{"attempts":2,"copy":1,"endpoint":1,"fate":"moved","message":1,"ok":"copy","to":2,"unit":8}"#,
        ),
        ("", r#"{"ok":"restart","unit":8}"#),
        (
            r#"{"op":"tally"}"#,
            r#"{"accepted":0,"causes":{},"discarded":0,"made":2,"moved":1,"ok":"tally","spooled":1,"unit":8,"used":66}"#,
        ),
    ];
    assert!(rt; is_answered(rt.alloc(), &turns)?);
    Ok(())
}

fn disk_with(alloc: Global, bytes: &[u8]) -> Result<MemoryDisk, AllocError>
    ensures { IfOk result (λ disk. taken_by disk ≡ []) }
{
    match MemoryDisk::new(alloc).with_file(File::Journal, bytes) {
        Ok(disk) => Ok(disk),
        Err(_) => Err(AllocError),
    }
}

// Whether a run of words over a tape and a disk is done, and wrote these lines.
fn writes(
    alloc: Global,
    line: &str,
    turns: &[(&str, &str)],
    disk: MemoryDisk,
) -> Result<bool, AllocError> {
    let told = exchanged(alloc, turns)?;
    let over = ran_over(alloc, line, told.tape.as_slice(), disk)?;
    Ok(over.status == Status::Done && over.output.as_slice() == told.lines.as_slice())
}

#[test]
fn a_full_journal_takes_no_more(rt: HostRuntime) -> Result<(), Fail> {
    let alloc = rt.alloc();
    let turns = [
        SMALLEST[0],
        SMALLEST[1],
        (PUBLISH, r#"{"full":{"len":85,"max":100,"need":46}}"#),
        SMALLEST[2],
    ];
    assert!(rt; writes(alloc, "run --max 100", &turns, MemoryDisk::new(alloc))?);
    Ok(())
}

#[test]
fn a_journal_is_looked_at(rt: HostRuntime) -> Result<(), Fail> {
    let alloc = rt.alloc();
    let over = ran_over(alloc, "check", b"", disk_with(alloc, ONE_UNIT)?)?;
    assert_eq!(rt; over.status, Status::Done);
    let tally =
        "{\"accepted\":0,\"causes\":{},\"discarded\":0,\"made\":0,\"moved\":0,\"ok\":\"tally\",\"spooled\":0,\"unit\":1,\"used\":0}\n";
    assert!(rt; over.output.as_slice() == tally.as_bytes());
    assert!(rt; over.disk.bytes(File::Journal) == ONE_UNIT);
    for (place, byte, status) in [
        (1, 0, Status::Damaged { file: 0, at: 1 }),
        (9, 3, Status::OtherVersion { found: 3 }),
        (14, 255, Status::Damaged { file: 0, at: 13 }),
    ] {
        let mut bytes = Vec::from_slice(alloc, ONE_UNIT)?;
        if let Some(there) = bytes.get_mut(place) {
            *there = byte;
        }
        for line in ["check", "run"] {
            let over = ran_over(alloc, line, b"", disk_with(alloc, bytes.as_slice())?)?;
            assert_eq!(rt; over.status, status);
            assert!(rt; over.output.is_empty());
        }
    }
    Ok(())
}

// How many calls of the disk a run over no entry makes.
fn calls_of_opening(alloc: Global, bytes: &[u8]) -> Result<u64, AllocError> {
    let over = ran_over(alloc, "run", b"", disk_with(alloc, bytes)?)?;
    Ok(over.disk.calls().len() as u64)
}

#[test]
fn a_publish_whose_commit_failed_is_healed_by_the_next(rt: HostRuntime) -> Result<(), Fail> {
    let alloc = rt.alloc();
    let opening = calls_of_opening(alloc, ONE_UNIT)?;
    let call = opening.saturating_add(4);
    let disk = disk_with(alloc, ONE_UNIT)?.failing(vec![in alloc; call]?);
    let turns = [(PUBLISH, r#"{"fault":"disk"}"#), SMALLEST[1], SMALLEST[2]];
    assert!(rt; writes(alloc, "run", &turns, disk)?);
    Ok(())
}

// Whether each of the first 8 images of a disk can be looked at, and opened.
fn images_open(alloc: Global, disk: &MemoryDisk) -> Result<bool, AllocError> {
    for number in 0..8 {
        let Ok(image) = disk.after_crash(alloc, number) else {
            return Err(AllocError);
        };
        let Over {
            status: looked,
            disk: image,
            ..
        } = ran_over(alloc, "check", b"", image)?;
        let opened = ran_over(alloc, "run", b"", image)?;
        if looked != Status::Done || opened.status != Status::Done {
            return Ok(false);
        }
    }
    Ok(true)
}

#[test]
fn a_disk_that_stops_leaves_a_journal_that_opens(rt: HostRuntime) -> Result<(), Fail> {
    let alloc = rt.alloc();
    let told = exchanged(alloc, &SMALLEST)?;
    let mut stops = 0;
    for call in 1..64 {
        let disk = MemoryDisk::new(alloc).stopping(call);
        let over = ran_over(alloc, "run", told.tape.as_slice(), disk)?;
        assert!(rt; images_open(alloc, &over.disk)?);
        if over.disk.faults() == 0 {
            break;
        }
        assert!(rt; over.status == Status::DiskFault || over.status == Status::Done);
        stops = call;
    }
    // Each of the two commits makes four calls.
    assert_eq!(rt; stops, calls_of_opening(alloc, b"")?.saturating_add(8));
    Ok(())
}

const OWN: Paths = Paths {
    folder: "folder_of_a_tape",
    journal: "folder_of_a_tape/journal.sp",
    image: "folder_of_a_tape/image.sp",
};

#[test]
fn a_folder_keeps_what_a_run_was_told(rt: HostRuntime) -> Result<(), Fail> {
    let alloc = rt.alloc();
    let _ = fs::remove_dir_all(&rt, OWN.folder);
    fs::create_dir(&rt, OWN.folder)?;
    let told = exchanged(alloc, &SMALLEST)?;
    let first = ran_over(alloc, "run", told.tape.as_slice(), FolderDisk::at(&rt, OWN))?;
    assert!(rt; first.output.as_slice() == told.lines.as_slice());
    drop(first);
    let looked = ran_over(alloc, "check", b"", FolderDisk::at(&rt, OWN))?;
    let tally =
        "{\"accepted\":0,\"causes\":{},\"discarded\":0,\"made\":1,\"moved\":0,\"ok\":\"tally\",\"spooled\":1,\"unit\":2,\"used\":71}\n";
    assert!(rt; looked.output.as_slice() == tally.as_bytes());
    drop(looked);
    let turns = [
        (
            PUBLISH,
            r#"{"copies":[{"copy":2,"endpoint":"q1","fate":"spooled"}],"message":2,"ok":"publish","unit":3}"#,
        ),
        (
            r#"{"op":"tally","endpoint":"q1"}"#,
            r#"{"accepted":0,"causes":{},"discarded":0,"made":2,"moved":0,"ok":"tally","spooled":2,"unit":3,"used":142}"#,
        ),
    ];
    let told = exchanged(alloc, &turns)?;
    let second = ran_over(alloc, "run", told.tape.as_slice(), FolderDisk::at(&rt, OWN))?;
    assert_eq!(rt; second.status, Status::Done);
    assert!(rt; second.output.as_slice() == told.lines.as_slice());
    drop(second);
    fs::remove_dir_all(&rt, OWN.folder)?;
    Ok(())
}
