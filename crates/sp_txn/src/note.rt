ghost use Rattle.std.specs.Prelude.{◌≡◌};
ghost use Rattle.sp_txn.specs.Notes.{added_to, bytes_added, bytes_taken, closes, taken_from};

use sp_base::number::{CopyNo, EndpointNo};

/// What is noted on a sheet.
#[derive(Clone, Copy, Debug, PartialEq, Eq)]
pub enum Note {
    /// So many bytes come to an endpoint.
    Added(EndpointNo, u64),
    /// So many bytes leave an endpoint.
    Taken(EndpointNo, u64),
    /// A copy is closed, or is no longer held by its flow.
    Closed(CopyNo),
}

impl Note {
    /// The bytes that it adds to an endpoint.
    pub fn added_to(&self, endpoint: EndpointNo) -> u64
        ensures { result ≡ added_to endpoint self.now }
    {
        match self {
            Note::Added(at, bytes) if *at == endpoint => *bytes,
            _ => 0,
        }
    }

    /// The bytes that it takes from an endpoint.
    pub fn taken_from(&self, endpoint: EndpointNo) -> u64
        ensures { result ≡ taken_from endpoint self.now }
    {
        match self {
            Note::Taken(at, bytes) if *at == endpoint => *bytes,
            _ => 0,
        }
    }

    /// The bytes that it adds anywhere.
    pub fn added(&self) -> u64
        ensures { result ≡ bytes_added self.now }
    {
        match self {
            Note::Added(_, bytes) => *bytes,
            _ => 0,
        }
    }

    /// The bytes that it takes anywhere.
    pub fn taken(&self) -> u64
        ensures { result ≡ bytes_taken self.now }
    {
        match self {
            Note::Taken(_, bytes) => *bytes,
            _ => 0,
        }
    }

    /// Whether it closes a copy.
    pub fn closes(&self, copy: CopyNo) -> bool
        ensures { result ≡ closes copy self.now }
    {
        match self {
            Note::Closed(closed) => *closed == copy,
            _ => false,
        }
    }
}
