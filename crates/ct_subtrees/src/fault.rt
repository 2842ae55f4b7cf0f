//! Why a proof of a subtree is refused.

use thiserror::Error;

/// Why a proof of a subtree is refused.
#[derive(Clone, Copy, PartialEq, Eq, Debug, Error)]
pub enum SubtreeFault {
    /// The range is empty, or its start is not a multiple of the smallest power of two that is not below its length.
    #[error("the range is not a subtree: its start must be a multiple of a power of two that is not below its length")]
    NotASubtree,
    /// The subtree ends beyond the tree.
    #[error("the subtree ends beyond the tree")]
    BeyondTree,
    /// The leaf index is not in the subtree.
    #[error("the leaf index is not in the subtree")]
    IndexOutOfRange,
    /// The proof has more elements than the proof of this subtree, or of this leaf, has.
    #[error("the proof has more elements than a proof of this subtree has")]
    PathTooLong,
    /// The proof has fewer elements than that.
    #[error("the proof has fewer elements than a proof of this subtree has")]
    PathTooShort,
    /// A consistency proof leads to another hash of the subtree.
    #[error("the proof leads to another hash of the subtree than the given one")]
    FirstMismatch,
    /// A consistency proof leads to another root of the tree.
    #[error("the proof leads to another root than the tree head's")]
    RootMismatch,
}
