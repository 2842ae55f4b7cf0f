//! Why a certificate's names cannot be read.

ghost use Rattle.std.specs.Prelude.{◌≡◌};
ghost use Rattle.ct_names.specs.declared.fault.NamesFault.TheVariants.{Memory, At};

use ct_promise::Unread;
use std::alloc::{AllocError, AllocFailed};
use thiserror::Error;

/// Why there are no names.
#[derive(Clone, Copy, Debug, PartialEq, Eq, Error)]
pub enum NamesFault {
    /// The bytes are not a certificate, or a TBSCertificate, in the grammar of `specs/Certificate.antt`. The value is the first fault that
    /// reading finds. Reading goes through the frame of the certificate, the frame of the TBSCertificate, the subject and then the
    /// extensions.
    #[error("{0}")]
    At(Unread),
    /// Memory could not be allocated. The bytes may have no fault.
    #[error("Memory")]
    Memory,
}

impl From<Unread> for NamesFault {
    ghost from_gives = { λ u e. e ≡ At u };

    fn from(unread: Unread) -> NamesFault {
        NamesFault::At(unread)
    }
}

impl From<AllocError> for NamesFault {
    ghost from_gives = { λ _ e. e ≡ Memory };

    fn from(_e: AllocError) -> NamesFault {
        NamesFault::Memory
    }
}

impl<T: Drop> From<AllocFailed<T>> for NamesFault {
    ghost from_gives = { λ _ e. e ≡ Memory };

    fn from(_e: AllocFailed<T>) -> NamesFault {
        NamesFault::Memory
    }
}
