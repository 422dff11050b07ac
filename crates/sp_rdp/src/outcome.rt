/// What a consumer's response makes of the copy that was posted to it.
#[derive(Clone, Copy, Debug, PartialEq, Eq)]
pub enum Outcome {
    /// The consumer has it.
    Accepted,
    /// The consumer refuses it, or nobody knows.
    Failed,
}
