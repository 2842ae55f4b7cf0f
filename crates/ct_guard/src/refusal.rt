//! The reasons for which a guard refuses.

use ct_codec::DecodeFault;
use ct_verify::ProofFault;
use thiserror::Error;

/// The reason for which a tree head is not let through.
#[derive(Clone, Copy, PartialEq, Eq, Debug, Error)]
pub enum HeadRefusal {
    /// The head has fewer leaves than the last one.
    #[error("the head has fewer leaves than the last one")]
    SizeFalls,
    /// The head is another than the last one, and not later.
    #[error("the head is not later than the last one")]
    MomentNotLater,
    /// The head has the size of the last one, and another root.
    #[error("the head has the size of the last one, and another root")]
    Fork,
    /// No consistency proof leads from the last head to this one: the proof is refused for this reason.
    #[error("the consistency proof is refused: {0}")]
    Inconsistent(ProofFault),
}

/// The reason for which a receipt is not let through.
#[derive(Clone, Copy, PartialEq, Eq, Debug, Error)]
pub enum ReceiptRefusal {
    /// No head was let through yet.
    #[error("no head was let through yet")]
    NoHead,
    /// The bytes are no leaf.
    #[error("the bytes are no leaf: {0}")]
    NoLeaf(DecodeFault),
    /// No audit path leads from the leaf to the last head's root: the path is refused for this reason.
    #[error("the audit path is refused: {0}")]
    NotThere(ProofFault),
    /// The leaf's timestamp is later than the last head's.
    #[error("the leaf is later than the last head")]
    LaterLeaf,
    /// The leaf has extensions that are not only its index.
    #[error("the leaf's extensions are not its index alone")]
    OtherIndex,
}
