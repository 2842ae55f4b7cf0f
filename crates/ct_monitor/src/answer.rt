//! The results of calls.

use crate::Verdict;
use crate::entries::{FaultyEntry, LaterEntry};

/// A verdict, and the state after it.
#[derive(Drop)]
pub struct Answer {
    /// The verdict.
    pub verdict: Verdict,
    /// The number of leaves of the accepted head.
    pub leaves_accepted: u64,
    /// The number of leaves that were read: the index of the next one that is wanted.
    pub leaves_read: u64,
    /// The number of leaves of the waiting head. If no head waits, the number of leaves that were read.
    pub leaves_wanted: u64,
    /// The bytes of the state.
    pub state: Vec<u8>,
}

/// A verdict on entries, the state after it, and the report on the entries that were read.
#[derive(Drop)]
pub struct EntriesAnswer {
    /// The verdict and the state.
    pub answer: Answer,
    /// The timestamp of the head that waited before the call, in milliseconds. If no head waited, 0.
    pub head_timestamp: u64,
    /// The first entry that is later than the head that waited for it.
    pub later: Option<LaterEntry>,
    /// The first entry that is not a leaf.
    pub faulty: Option<FaultyEntry>,
}
