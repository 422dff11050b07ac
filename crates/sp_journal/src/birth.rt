//! How a file becomes a journal.
ghost use Rattle.std.specs.Prelude.{◌≡◌, ◌≤◌, [], IsTrue, OnOk};
ghost use Rattle.sp_base.specs.Causes.{HasCause};
ghost use Rattle.sp_disk.specs.Disk.{HoldsOnly, SameElsewhere};
ghost use Rattle.sp_disk.specs.Everywhere.{Everywhere, Reached, Vouches};
ghost use Rattle.sp_disk.specs.Moments.{LeavesOnly};
ghost use Rattle.sp_journal.specs.Birth.{IsBlank, IsNamed};
ghost use Rattle.sp_journal.specs.Format.{IsUnborn, EndsAt, HasUnits};
ghost use Rattle.sp_journal.specs.Unsure.{KeepsUnits};

use crate::device::put;
use crate::gates::close;
use sp_base::failure::Failed;
use sp_disk::disk::{Disk, File};

// Closes the birth gate of an unborn file.
fn blank<D: Disk>(disk: &mut D) -> Result<(), Failed>
    requires { IsTrue (D.tells disk.old).content → IsUnborn (D.content disk.old File.Journal) }
    ensures blank { OnOk result (Everywhere D.tells D.content D.may_leave File.Journal disk.new IsBlank) }
    ensures unborn { IsTrue (D.tells disk.old).content → IsUnborn (D.content disk.new File.Journal) }
    ensures moments { Vouches (D.tells disk.old) →
        LeavesOnly D.moment D.left_since disk.old disk.new (Reached File.Journal KeepsUnits (D.may_leave disk.old)) }
    ensures others { SameElsewhere File.Journal (D.content disk.old) (D.content disk.new) }
    ensures telling { D.tells disk.new ≡ D.tells disk.old }
    ensures cause { HasCause (D.faults disk.old) (D.faults disk.new) result }
{
    close(disk, 0)?;
    Ok(())
}

// Writes the heading and the first unit's gate behind the closed birth gate.
fn name<D: Disk>(disk: &mut D) -> Result<(), Failed>
    requires { Everywhere D.tells D.content D.may_leave File.Journal disk.old IsBlank }
    ensures named { OnOk result (Everywhere D.tells D.content D.may_leave File.Journal disk.new IsNamed) }
    ensures blank { IsTrue (D.tells disk.old).content → IsBlank (D.content disk.new File.Journal) }
    ensures moments { Vouches (D.tells disk.old) →
        LeavesOnly D.moment D.left_since disk.old disk.new (Reached File.Journal KeepsUnits (D.may_leave disk.old)) }
    ensures others { SameElsewhere File.Journal (D.content disk.old) (D.content disk.new) }
    ensures telling { D.tells disk.new ≡ D.tells disk.old }
    ensures cause { HasCause (D.faults disk.old) (D.faults disk.new) result }
{
    put(disk, 1, b"spooljnl\x01\0\0\0\0")?;
    Ok(())
}

// Opens the birth gate.
fn reveal<D: Disk>(disk: &mut D) -> Result<(), Failed>
    requires { Everywhere D.tells D.content D.may_leave File.Journal disk.old IsNamed }
    ensures born { OnOk result (Everywhere D.tells D.content D.may_leave File.Journal disk.new (EndsAt [] 13)) }
    ensures reads { IsTrue (D.tells disk.old).content → HasUnits [] (D.content disk.new File.Journal) }
    ensures durable { IsTrue (D.tells disk.old).honest →
        OnOk result (HoldsOnly File.Journal (D.content disk.new File.Journal) (D.may_leave disk.new)) }
    ensures moments { Vouches (D.tells disk.old) →
        LeavesOnly D.moment D.left_since disk.old disk.new (Reached File.Journal KeepsUnits (D.may_leave disk.old)) }
    ensures others { SameElsewhere File.Journal (D.content disk.old) (D.content disk.new) }
    ensures telling { D.tells disk.new ≡ D.tells disk.old }
    ensures cause { HasCause (D.faults disk.old) (D.faults disk.new) result }
{
    put(disk, 0, &[1])?;
    Ok(())
}

// Makes an unborn file a journal with no units.
pub(crate) fn birth<D: Disk>(disk: &mut D) -> Result<(), Failed>
    requires { IsTrue (D.tells disk.old).content → IsUnborn (D.content disk.old File.Journal) }
    ensures born { OnOk result (Everywhere D.tells D.content D.may_leave File.Journal disk.new (EndsAt [] 13)) }
    ensures reads { IsTrue (D.tells disk.old).content → HasUnits [] (D.content disk.new File.Journal) }
    ensures durable { IsTrue (D.tells disk.old).honest →
        OnOk result (HoldsOnly File.Journal (D.content disk.new File.Journal) (D.may_leave disk.new)) }
    ensures moments { Vouches (D.tells disk.old) →
        LeavesOnly D.moment D.left_since disk.old disk.new (Reached File.Journal KeepsUnits (D.may_leave disk.old)) }
    ensures others { SameElsewhere File.Journal (D.content disk.old) (D.content disk.new) }
    ensures telling { D.tells disk.new ≡ D.tells disk.old }
    ensures cause { HasCause (D.faults disk.old) (D.faults disk.new) result }
{
    blank(disk)?;
    name(disk)?;
    reveal(disk)?;
    Ok(())
}
