//! The reasons why watched names cannot be looked for.

ghost use Rattle.std.specs.Prelude.{◌≡◌};
ghost use Rattle.ct_names.specs.declared.list_fault.WatchedFault.TheVariants.{Unread};
ghost use Rattle.ct_names.specs.declared.fault.NamesFault.TheVariants.{Memory};

use crate::NamesFault;
use std::alloc::AllocError;
use thiserror::Error;

/// The reason why watched names cannot be looked for.
#[derive(Clone, Copy, Debug, PartialEq, Eq, Error)]
pub enum WatchedFault {
    /// The bytes are not a list of watched names.
    #[error("BadList")]
    BadList,
    /// The names of the certificate cannot be read, or memory could not be allocated.
    #[error("{0}")]
    Unread(NamesFault),
}

impl From<NamesFault> for WatchedFault {
    ghost from_gives = { λ fault e. e ≡ Unread fault };

    fn from(fault: NamesFault) -> WatchedFault {
        WatchedFault::Unread(fault)
    }
}

impl From<AllocError> for WatchedFault {
    ghost from_gives = { λ _ e. e ≡ Unread Memory };

    fn from(_e: AllocError) -> WatchedFault {
        WatchedFault::Unread(NamesFault::Memory)
    }
}
