//! Why a proof is refused.

use thiserror::Error;

/// Why a proof is refused.
#[derive(Clone, Copy, PartialEq, Eq, Debug, Error)]
pub enum ProofFault {
    /// The leaf index is not below the tree size.
    #[error("the leaf index is not below the tree size")]
    IndexOutOfRange,
    /// The path has more elements than the proof of that leaf, or between those two sizes, has.
    #[error("the path has more elements than a proof at this place has")]
    PathTooLong,
    /// The path has fewer elements than that.
    #[error("the path has fewer elements than a proof at this place has")]
    PathTooShort,
    /// The path leads to another root (in a consistency proof: of the second tree).
    #[error("the path leads to another root than the tree head's")]
    RootMismatch,
    /// A consistency proof without elements.
    #[error("the consistency proof has no elements")]
    EmptyPath,
    /// A consistency proof leads to another root of the first tree.
    #[error("the path leads to another root than the first tree head's")]
    FirstMismatch,
    /// The two sizes are not `0 < first < second`.
    #[error("the first tree is empty, or is not smaller than the second")]
    SizesOutOfRange,
}
