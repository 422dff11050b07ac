ghost use Rattle.std.specs.Prelude.{◌≡◌, ◌≤◌, ◌+◌, ◌-◌, ◌^◌, ◌==◌, length, min, if◌then◌else◌};
ghost use Rattle.sp_copies.specs.History.{attempted, let_go};

use sp_base::number::{CopyNo, FlowNo};
use sp_base::rows::Rows;

/// A copy that a flow holds.
#[derive(Clone, Copy, Debug, PartialEq, Eq)]
pub struct HeldCopy {
    pub copy: CopyNo,
    pub flow: FlowNo,
}

/// How often a copy was handed out.
#[derive(Clone, Copy, Debug, PartialEq, Eq)]
pub struct CopyAttempts {
    pub copy: CopyNo,
    /// It stops at the greatest u64.
    pub count: u64,
}

// No flow holds the copy any more. The room of its rows stays.
pub fn let_go(held: &mut Rows<HeldCopy>, copy: CopyNo)
    ensures items { held.new.items ≡ let_go copy held.old.items }
    ensures room { held.old.room + length held.old.items ≡ held.new.room + length held.new.items }
    ensures kept { held.old.room ≤ held.new.room }
{
    held.retain(|row| row.copy != copy);
}

// Counts that a copy was handed out once more. The room of the rows stays.
pub fn count_attempt(attempts: &mut Rows<CopyAttempts>, copy: CopyNo)
    ensures items { attempts.new.items ≡ attempted copy attempts.old.items }
    ensures room { attempts.new.room ≡ attempts.old.room }
{
    count_in(attempts.as_mut_slice(), copy);
}

fn count_in(rows: &mut [CopyAttempts], copy: CopyNo)
    ensures { rows.new ≡ attempted copy rows.old }
{
    for row in rows.iter_mut() {
        *row = counted(*row, copy);
    }
}

fn counted(row: CopyAttempts, copy: CopyNo) -> CopyAttempts
    ensures { result ≡ (if row.copy == copy then record row { count = min (row.count + 1) (2 ^ 64 - 1) } else row) }
{
    if row.copy == copy {
        CopyAttempts {
            copy: row.copy,
            count: row.count.saturating_add(1),
        }
    } else {
        row
    }
}
