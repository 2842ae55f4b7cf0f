//! Why there is no checkpoint.

ghost use Rattle.std.specs.Prelude.{◌≡◌};
ghost use Rattle.ct_checkpoint.specs.Checkpoint.{of_decoding};
ghost use Rattle.ct_checkpoint.specs.declared.fault.CheckpointFault.TheVariants.{Memory};

use base64::DecodeAllocError;
use std::alloc::AllocError;
use thiserror::Error;

/// Why a text is not a checkpoint. A fault's text is its name.
#[derive(Clone, Copy, Debug, PartialEq, Eq, Error)]
pub enum CheckpointFault {
    /// There is no first line, or the origin in it is empty.
    #[error("BadOrigin")]
    BadOrigin,
    /// There is no second line, or it is not a number below 2^64.
    #[error("BadSize")]
    BadSize,
    /// The text after the second line is not the base64 of 32 bytes and one more byte. A text with an extension line is refused so.
    #[error("BadRoot")]
    BadRoot,
    /// The text is not the one that is written for this origin, size and root: the size has a leading zero or a plus, or the last byte is
    /// not a line end.
    #[error("NotAsWritten")]
    NotAsWritten,
    /// Memory could not be allocated.
    #[error("Memory")]
    Memory,
}

impl From<AllocError> for CheckpointFault {
    ghost from_gives = { λ _ e. e ≡ Memory };

    fn from(_e: AllocError) -> CheckpointFault {
        CheckpointFault::Memory
    }
}

impl From<DecodeAllocError> for CheckpointFault {
    ghost from_gives = { λ error fault. fault ≡ of_decoding error };

    fn from(error: DecodeAllocError) -> CheckpointFault {
        match error {
            DecodeAllocError::DecodeError(_) => CheckpointFault::BadRoot,
            DecodeAllocError::OutOfMemory => CheckpointFault::Memory,
        }
    }
}
