use sp_base::number::{EndpointNo, MessageNo, ReplayNo};

/// A replay that runs: it gives an endpoint copies of logged messages, from the next to the last.
#[derive(Clone, Copy, Debug, PartialEq, Eq)]
pub struct Replay {
    pub number: ReplayNo,
    pub endpoint: EndpointNo,
    /// The entry of the log that it comes to next.
    pub next: MessageNo,
    /// The log's last entry when it started.
    pub last: MessageNo,
    /// How many copies it has made.
    pub made: u64,
}
