//! The answer to a request.

/// The reason why a request is refused.
#[derive(Clone, Copy, Debug, PartialEq, Eq)]
pub enum StepRefusal {
    /// The batch is not a list of submissions, or a claim does not have exactly one submission.
    BadBatch,
    /// The bytes that it passes as a state are not one.
    BadState,
    /// Its batch has more than 4,096 submissions.
    TooMany,
    /// The timestamp is too far after that of the state.
    TooFar,
    /// The partial tiles are not those of the state, or are not a list of contents.
    Edge,
    /// The partial data tile is not that of the state.
    Entries,
    /// The timestamp is not later than that of the state.
    ClockBack,
    /// The log would have more than 2^40 leaves.
    Full,
    /// A data tile would have 2^32 bytes or more.
    TooLong,
    /// The staged batch is not that of the state.
    Bundle,
    /// The audit path does not lead from the claimed entry to the root of the state.
    Claim,
}

/// The bytes of a reply, or a refusal.
#[derive(Drop)]
pub enum Answer {
    /// The bytes.
    Text(Vec<u8>),
    /// The refusal.
    Refused(StepRefusal),
}
