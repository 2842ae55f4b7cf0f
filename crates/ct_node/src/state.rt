//! The content of the lock.

/// A state of a log, reduced to what decides the order.
#[derive(Clone, Copy, Debug, PartialEq, Eq)]
pub struct State {
    /// Its timestamp, in milliseconds.
    pub moment: u64,
    /// The timestamp of the state that it was made from.
    pub before: u64,
    /// A number that distinguishes it from other states with that timestamp.
    pub salt: u64,
}
