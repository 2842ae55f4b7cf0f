//! The reasons why bytes do not begin with a tile leaf, or are not a data tile.

ghost use Rattle.std.specs.Prelude.{◌≡◌};
ghost use Rattle.ct_data_tiles.specs.declared.fault.TileFault.TheVariants.{Field};
ghost use Rattle.ct_data_tiles.specs.declared.fault.DataTileFault.TheVariants.{Memory};

use ct_codec::DecodeFault;
use std::alloc::{AllocError, AllocFailed};
use thiserror::Error;

/// The reason why bytes do not begin with a tile leaf: the first fault from the left. A fault's text is its name.
#[derive(Clone, Copy, Debug, PartialEq, Eq, Error)]
pub enum TileFault {
    /// A field that the codec reads is missing or wrong: `Truncated`, `BadEntryType` or `EmptyVector`.
    #[error("{0}")]
    Field(DecodeFault),
    /// The length of the fingerprints is not a multiple of 32.
    #[error("PartialFingerprint")]
    PartialFingerprint,
}

impl From<DecodeFault> for TileFault {
    ghost from_gives = { λ fault e. e ≡ Field fault };

    fn from(fault: DecodeFault) -> TileFault {
        TileFault::Field(fault)
    }
}

/// The reason why bytes are not a data tile: the first fault from the left. A fault's text is its name, and the index of its leaf.
#[derive(Clone, Copy, Debug, PartialEq, Eq, Error)]
pub enum DataTileFault {
    /// At this index in the tile, which begins at 0, there is no leaf. All leaves before it are complete and valid.
    #[error("{1} at leaf {0}")]
    AtLeaf(usize, TileFault),
    /// Memory could not be allocated. The bytes have no fault.
    #[error("Memory")]
    Memory,
}

impl From<AllocError> for DataTileFault {
    ghost from_gives = { λ _ e. e ≡ Memory };

    fn from(_e: AllocError) -> DataTileFault {
        DataTileFault::Memory
    }
}

impl<T: Drop> From<AllocFailed<T>> for DataTileFault {
    ghost from_gives = { λ _ e. e ≡ Memory };

    fn from(_e: AllocFailed<T>) -> DataTileFault {
        DataTileFault::Memory
    }
}
