//! A write and a sync.
ghost use Rattle.std.specs.Prelude.{◌≡◌, ◌≤◌, length, IsTrue, OnOk};
ghost use Rattle.sp_base.specs.Causes.{HasCause};
ghost use Rattle.sp_disk.specs.Disk.{Torn, HoldsOnly, SameElsewhere, written};
ghost use Rattle.sp_disk.specs.Everywhere.{Reached};
ghost use Rattle.sp_disk.specs.Moments.{LeavesOnly};

use sp_base::failure::Failed;
use sp_disk::disk::{Disk, File};

// Writes bytes at an offset of the journal, and syncs it.
pub(crate) fn put<D: Disk>(disk: &mut D, at: u64, bytes: &[u8]) -> Result<(), Failed>
    requires { IsTrue (D.tells disk.old).content → at ≤ length (D.content disk.old File.Journal) }
    ensures written { IsTrue (D.tells disk.old).content →
        OnOk result (D.content disk.new File.Journal ≡ written (D.content disk.old File.Journal) at bytes.now) }
    ensures torn { IsTrue (D.tells disk.old).content →
        Torn at (length bytes.now) (D.content disk.old File.Journal) (D.content disk.new File.Journal) }
    ensures others { SameElsewhere File.Journal (D.content disk.old) (D.content disk.new) }
    ensures durable { IsTrue (D.tells disk.old).honest →
        OnOk result (HoldsOnly File.Journal (D.content disk.new File.Journal) (D.may_leave disk.new)) }
    ensures moments { IsTrue (D.tells disk.old).honest → LeavesOnly D.moment D.left_since disk.old disk.new
        (Reached File.Journal (Torn at (length bytes.now)) (D.may_leave disk.old)) }
    ensures telling { D.tells disk.new ≡ D.tells disk.old }
    ensures cause { HasCause (D.faults disk.old) (D.faults disk.new) result }
{
    disk.write(File::Journal, at, bytes)?;
    disk.sync(File::Journal)?;
    Ok(())
}
