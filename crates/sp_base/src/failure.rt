/// A source, sink, disk or peer failed. Its count of faults has risen.
#[derive(Clone, Copy, Debug, PartialEq, Eq)]
pub struct Failed;

/// There was no memory. It may come in place of any answer of a call that takes memory.
#[derive(Clone, Copy, Debug, PartialEq, Eq)]
pub struct Memory;
