//! The newest timestamps of known heads.

/// The newest timestamp that was handed out of a head with the size and the root of the accepted head, and of one with those of the waiting
/// head, in milliseconds.
#[derive(Clone, Copy, PartialEq, Eq, Debug)]
pub struct Newest {
    /// Of the accepted head. It has no meaning if no head is accepted.
    pub accepted: u64,
    /// Of the waiting head. It has no meaning if no head waits.
    pub waiting: u64,
}
