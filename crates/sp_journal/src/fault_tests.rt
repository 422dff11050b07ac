use crate::journal::OpenError;
use crate::tests::{J, ONE_UNIT, Until, place_after};
use sp_disk::memory::MemoryDisk;
use std::test::Fail;

// The least and the greatest place at which the units end in what a crash now may leave.
fn places_after_a_crash(rt: HostRuntime, disk: &MemoryDisk) -> Result<(u64, u64), Fail> {
    let mut least = u64::MAX;
    let mut greatest = 0;
    for number in 0..64 {
        let mut left = disk.after_crash(rt.alloc(), number)?;
        let place = place_after(rt.alloc(), &mut left, Until::Opened)?;
        least = least.min(place);
        greatest = greatest.max(place);
    }
    Ok((least, greatest))
}

#[test]
fn a_birth_may_stop_at_any_call(rt: HostRuntime) -> Result<(), Fail> {
    let alloc = rt.alloc();
    for call in 1..12 {
        let mut disk = MemoryDisk::new(alloc).stopping(call);
        let born = if call == 11 {
            Ok(13)
        } else {
            Err(OpenError::DiskFault)
        };
        assert_eq!(rt;
            place_after(alloc, &mut disk, Until::Opened),
            born,
            "{call}"
        );
        assert_eq!(rt; places_after_a_crash(rt, &disk)?, (13, 13), "{call}");
    }
    Ok(())
}

// A journal with one unit, on a disk two of whose calls fail.
fn disk_failing(rt: HostRuntime, first: u64, second: u64) -> Result<MemoryDisk, Fail> {
    let failing = Vec::from_slice(rt.alloc(), &[first, second])?;
    let disk = MemoryDisk::new(rt.alloc()).with_file(J, ONE_UNIT)?;
    Ok(disk.failing(failing))
}

// A call of the disk that fails while a second unit is appended: those of `append` are 7 to 10. Then
// the least and the greatest place that a crash leaves, and how many calls there are once `heal` has made
// two or four: it writes only where the gate's own write was begun.
const FAILURES: [(u64, u64, u64, usize); 4] = [
    (7, 40, 40, 9),
    (8, 40, 40, 10),
    (9, 40, 67, 13),
    (10, 40, 67, 14),
];

#[test]
fn a_failed_append_leaves_its_unit_or_none(rt: HostRuntime) -> Result<(), Fail> {
    let alloc = rt.alloc();
    for (call, least, greatest, calls) in FAILURES {
        let mut disk = disk_failing(rt, call, call)?;
        assert_eq!(rt;
            place_after(alloc, &mut disk, Until::Appended),
            Ok(40),
            "{call}"
        );
        assert_eq!(rt;
            places_after_a_crash(rt, &disk)?,
            (least, greatest),
            "{call}"
        );
        let mut disk = MemoryDisk::new(alloc)
            .with_file(J, ONE_UNIT)?
            .stopping(call);
        assert_eq!(rt;
            place_after(alloc, &mut disk, Until::Appended),
            Ok(40),
            "{call}"
        );
        assert_eq!(rt;
            places_after_a_crash(rt, &disk)?,
            (least, greatest),
            "{call}"
        );
        let mut disk = disk_failing(rt, call, call)?;
        assert_eq!(rt;
            place_after(alloc, &mut disk, Until::Healed),
            Ok(40),
            "{call}"
        );
        assert_eq!(rt; disk.calls().len(), calls, "{call}");
        assert_eq!(rt; places_after_a_crash(rt, &disk)?, (40, 40), "{call}");
        let mut disk = disk_failing(rt, call, call)?;
        assert_eq!(rt;
            place_after(alloc, &mut disk, Until::AppendedAgain),
            Ok(67),
            "{call}"
        );
        assert_eq!(rt; places_after_a_crash(rt, &disk)?, (67, 67), "{call}");
    }
    Ok(())
}

// A call of `heal` that fails after the gate's write in `append` failed: the sync, the read, the write,
// the last sync. Then the least and the greatest place that a crash leaves.
const HEALS: [(u64, u64, u64); 4] = [(10, 40, 67), (11, 67, 67), (12, 40, 67), (13, 40, 67)];

#[test]
fn a_failed_heal_is_done_again(rt: HostRuntime) -> Result<(), Fail> {
    let alloc = rt.alloc();
    for (call, least, greatest) in HEALS {
        let mut disk = disk_failing(rt, 9, call)?;
        assert_eq!(rt;
            place_after(alloc, &mut disk, Until::Healed),
            Ok(40),
            "{call}"
        );
        assert_eq!(rt;
            places_after_a_crash(rt, &disk)?,
            (least, greatest),
            "{call}"
        );
        let mut disk = MemoryDisk::new(alloc)
            .with_file(J, ONE_UNIT)?
            .failing(Vec::from_slice(alloc, &[9])?)
            .stopping(call);
        assert_eq!(rt;
            place_after(alloc, &mut disk, Until::Healed),
            Ok(40),
            "{call}"
        );
        assert_eq!(rt;
            places_after_a_crash(rt, &disk)?,
            (least, greatest),
            "{call}"
        );
        let mut disk = disk_failing(rt, 9, call)?;
        assert_eq!(rt;
            place_after(alloc, &mut disk, Until::HealedAgain),
            Ok(40),
            "{call}"
        );
        assert_eq!(rt; places_after_a_crash(rt, &disk)?, (40, 40), "{call}");
    }
    Ok(())
}
