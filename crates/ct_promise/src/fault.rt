//! Why there is no cut, no entry and no leaf.

ghost use Rattle.std.specs.Prelude.{◌≡◌};
ghost use Rattle.ct_promise.specs.declared.fault.PromiseFault.TheVariants.{Memory, Unfit as Refused};
ghost use Rattle.ct_promise.specs.Unkept.{unkept_of};

use crate::field::Unread;
use ct_verify::ProofFault;
use std::alloc::{AllocError, AllocFailed};
use thiserror::Error;

/// Why there is no cut.
#[derive(Clone, Copy, Debug, PartialEq, Eq, Error)]
pub enum CutFault {
    /// The bytes are not in the grammar of `specs/Tbs.antt`, as far as they were read.
    #[error("{0}")]
    At(Unread),
    /// No extension has this identifier.
    #[error("no-extension")]
    NoExtension,
    /// Two extensions have this identifier.
    #[error("second-extension")]
    SecondExtension,
}

/// The document that has a fault. Its text is its name.
#[derive(Clone, Copy, Debug, PartialEq, Eq, Error)]
pub enum Document {
    /// The certificate or precertificate.
    #[error("certificate")]
    Certificate,
    /// The certificate of its issuer.
    #[error("issuer")]
    Issuer,
}

/// Why a document has no entry.
#[derive(Clone, Copy, Debug, PartialEq, Eq, Error)]
pub enum Unfit {
    /// It cannot be read, or it does not have the extension exactly once: the first fault that reading finds.
    #[error("{1} in the {0}")]
    Uncut(Document, CutFault),
    /// The poison is not critical, or its value is not NULL (RFC 6962, section 3.1).
    #[error("bad-poison")]
    BadPoison,
    /// The TBSCertificate has 2^24 bytes or more (RFC 6962, section 3.2).
    #[error("too-long")]
    TooLong,
}

/// Why there is no entry and no leaf.
#[derive(Clone, Copy, Debug, PartialEq, Eq, Error)]
pub enum PromiseFault {
    /// The documents have none.
    #[error("{0}")]
    Unfit(Unfit),
    /// Memory could not be allocated.
    #[error("Memory")]
    Memory,
}

impl From<Unfit> for PromiseFault {
    ghost from_gives = { λ u e. e ≡ Refused u };

    fn from(unfit: Unfit) -> PromiseFault {
        PromiseFault::Unfit(unfit)
    }
}

impl From<AllocError> for PromiseFault {
    ghost from_gives = { λ _ e. e ≡ Memory };

    fn from(_e: AllocError) -> PromiseFault {
        PromiseFault::Memory
    }
}

impl<T: Drop> From<AllocFailed<T>> for PromiseFault {
    ghost from_gives = { λ _ e. e ≡ Memory };

    fn from(_e: AllocFailed<T>) -> PromiseFault {
        PromiseFault::Memory
    }
}

/// Why it is not shown that a promise was kept.
#[derive(Clone, Copy, Debug, PartialEq, Eq, Error)]
pub enum Unkept {
    /// There is no leaf.
    #[error("{0}")]
    NoLeaf(Unfit),
    /// The audit path does not lead from the leaf to the root.
    #[error("{0}")]
    NotThere(ProofFault),
    /// Memory could not be allocated.
    #[error("Memory")]
    Memory,
}

impl From<PromiseFault> for Unkept {
    ghost from_gives = { λ fault unkept. unkept ≡ unkept_of fault };

    fn from(fault: PromiseFault) -> Unkept {
        match fault {
            PromiseFault::Unfit(unfit) => Unkept::NoLeaf(unfit),
            PromiseFault::Memory => Unkept::Memory,
        }
    }
}
