/// The number that each kind begins with, from 1 to 2^62, and the copies' at most 2^61 + 1.
#[derive(Clone, Copy, Debug, PartialEq, Eq)]
pub struct Numbers {
    pub endpoint: u64,
    pub message: u64,
    pub copy: u64,
    pub flow: u64,
    pub replay: u64,
    pub unit: u64,
}

impl Numbers {
    /// The numbers of a spool that has done nothing yet.
    pub const FIRST: Numbers = Numbers {
        endpoint: 1,
        message: 1,
        copy: 1,
        flow: 1,
        replay: 1,
        unit: 1,
    };
}
