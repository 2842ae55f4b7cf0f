//! Tree heads.

/// A tree head without its signature (RFC 6962, section 3.5).
#[derive(Clone, Copy, Debug, PartialEq, Eq)]
pub struct Head {
    /// The number of leaves of the tree.
    pub tree_size: u64,
    /// The time when it was made, in milliseconds.
    pub timestamp: u64,
    /// The root of the first `tree_size` leaves.
    pub root: [u8; 32],
}
