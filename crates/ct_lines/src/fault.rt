//! The reasons why serving ends early.

ghost use Rattle.std.specs.Prelude.{◌≡◌};
ghost use Rattle.ct_lines.specs.declared.fault.ServeFault.TheVariants.{Read, Write, Memory};

use std::alloc::AllocError;
use std::io;
use thiserror::Error;

/// The reason why serving ended early, and the number of replies that were written whole.
#[derive(Clone, Copy, Debug, PartialEq, Eq, Error)]
pub enum ServeFault {
    /// The reader failed.
    #[error("the reader failed after {0} replies")]
    Read(u64),
    /// The writer failed, or accepted no bytes.
    #[error("the writer failed or took no bytes after {0} replies")]
    Write(u64),
    /// Memory was refused.
    #[error("memory was refused after {0} replies")]
    Memory(u64),
    /// The reader was called 2^50 times, and returned bytes each time.
    #[error("the input had not ended after {0} replies and 2^50 reads")]
    Endless(u64),
}

// The reader's error, after this many replies.
#[derive(Drop)]
pub(crate) struct ReadFailed {
    pub(crate) count: u64,
    pub(crate) error: io::Error,
}

impl From<ReadFailed> for ServeFault {
    ghost from_gives = { λ failed fault. fault ≡ Read failed.count };

    fn from(failed: ReadFailed) -> ServeFault {
        let ReadFailed { count, error: _ } = failed;
        ServeFault::Read(count)
    }
}

// The writer's error, or `WriteZero` if it accepted no bytes, after this many replies.
#[derive(Drop)]
pub(crate) struct WriteFailed {
    pub(crate) count: u64,
    pub(crate) error: io::Error,
}

impl From<WriteFailed> for ServeFault {
    ghost from_gives = { λ failed fault. fault ≡ Write failed.count };

    fn from(failed: WriteFailed) -> ServeFault {
        let WriteFailed { count, error: _ } = failed;
        ServeFault::Write(count)
    }
}

// A refusal of memory, after this many replies.
#[derive(Drop)]
pub(crate) struct GrowthRefused {
    pub(crate) count: u64,
    pub(crate) error: AllocError,
}

impl From<GrowthRefused> for ServeFault {
    ghost from_gives = { λ refused fault. fault ≡ Memory refused.count };

    fn from(refused: GrowthRefused) -> ServeFault {
        let GrowthRefused { count, error: _ } = refused;
        ServeFault::Memory(count)
    }
}
