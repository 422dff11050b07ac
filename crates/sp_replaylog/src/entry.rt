use sp_base::moment::Moment;
use sp_base::number::MessageNo;

/// What the replay log keeps of a message: who keeps the messages finds it by its number.
#[derive(Clone, Copy, Debug, PartialEq, Eq)]
pub struct Entry {
    pub number: MessageNo,
    /// When it was published.
    pub moment: Moment,
    /// The bytes that a copy of it counts against a quota, which are those that it counts in the log.
    pub size: u64,
}
