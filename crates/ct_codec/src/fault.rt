//! Why bytes are not a leaf or a chain.

ghost use Rattle.std.specs.Prelude.{◌≡◌};
ghost use Rattle.ct_codec.specs.declared.fault.DecodeFault.TheVariants.{Memory};

use std::alloc::{AllocError, AllocFailed};
use std::fmt;
use std::fmt::{Debug, Display, Formatter, Write};
use thiserror::Error;

/// The reason why bytes are not a leaf or a chain: the first fault from the left. A fault's text is its name.
#[derive(Clone, Copy, Debug, PartialEq, Eq, Error)]
pub enum DecodeFault {
    /// The input, or the chain that contains a certificate, ends before a field is whole.
    Truncated,
    /// The version is not 0, which means v1 (RFC 6962 section 3.2).
    BadVersion,
    /// The leaf type is not 0, which means timestamped_entry (RFC 6962 section 3.4).
    BadLeafType,
    /// The entry type is neither 0, x509_entry, nor 1, precert_entry (RFC 6962 section 3.1).
    BadEntryType,
    /// A length that must be at least 1 is 0.
    EmptyVector,
    /// Bytes follow the last field.
    Trailing,
    /// Memory could not be allocated. The bytes have no fault.
    Memory,
}

impl Display for DecodeFault {
    fn fmt<W: Write>(&self, f: &mut Formatter<W>) -> fmt::Result {
        Debug::fmt(self, f)
    }
}

impl From<AllocError> for DecodeFault {
    ghost from_gives = { λ _ e. e ≡ Memory };

    fn from(_e: AllocError) -> DecodeFault {
        DecodeFault::Memory
    }
}

impl<T: Drop> From<AllocFailed<T>> for DecodeFault {
    ghost from_gives = { λ _ e. e ≡ Memory };

    fn from(_e: AllocFailed<T>) -> DecodeFault {
        DecodeFault::Memory
    }
}
