use sp_base::number::UnitNo;
use sp_base::refusal::Refusal;
use sp_event::answer::Reply;

/// What an accepted unit gave.
#[derive(Debug, Drop)]
pub struct Receipt {
    /// How many units there are now: the number of this one, unless it is idle.
    pub unit: UnitNo,
    /// Whether the unit changed nothing; then it isn't in the journal.
    pub idle: bool,
    pub replies: Vec<Reply>,
}

/// Why a unit wasn't committed.
#[derive(Debug, Drop)]
pub enum CommitFault {
    /// The event at a place of the unit, from 0, is refused.
    Refused { index: u32, refusal: Refusal },
    /// There was no memory.
    Memory,
    /// The journal ends at `len` bytes with its last gate, the unit needs `need` bytes from that gate on,
    /// and together they are more than `max`.
    Full { len: u64, need: u64, max: u64 },
    /// A call of the disk failed.
    Disk,
}
