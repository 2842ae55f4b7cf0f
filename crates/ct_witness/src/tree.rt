//! Trees, as checkpoints describe them.

/// A log's tree: the part of a head that a checkpoint's text contains besides the origin (C2SP tlog-checkpoint).
#[derive(Clone, Copy, Debug, PartialEq, Eq)]
pub struct Tree {
    /// Its number of leaves.
    pub size: u64,
    /// Its root (RFC 6962, section 2.1).
    pub root: [u8; 32],
}
