//! Why bytes do not begin with an element.

ghost use Rattle.std.specs.Prelude.{◌≡◌};
ghost use Rattle.ct_promise.specs.DerFaultName.{der_fault_name};

use thiserror::Error;

/// Why bytes do not begin with an element: the first fault from the left (X.690, sections 8.1 and 10.1). A fault's text is its name.
#[derive(Clone, Copy, Debug, PartialEq, Eq, Error)]
pub enum DerFault {
    /// The bytes end before the element is whole.
    #[error("truncated")]
    Truncated,
    /// The tag has more than one byte: its low five bits are 31 (X.690, section 8.1.2.4).
    #[error("long-tag")]
    LongTag,
    /// The length is indefinite, which BER allows (X.690, sections 8.1.3.6 and 10.1).
    #[error("indefinite-length")]
    IndefiniteLength,
    /// The length has more than four bytes after the first.
    #[error("long-length")]
    LongLength,
    /// The length has more bytes than it needs, which BER allows (X.690, section 10.1).
    #[error("padded-length")]
    PaddedLength,
    /// The element has a different tag from the expected one.
    #[error("other-tag")]
    OtherTag,
    /// Bytes follow the last element.
    #[error("trailing")]
    Trailing,
}

impl DerFault {
    /// The fault's name.
    pub fn name(self) -> &'static str
        ensures { result.now ≡ der_fault_name self }
    {
        match self {
            DerFault::Truncated => "truncated",
            DerFault::LongTag => "long-tag",
            DerFault::IndefiniteLength => "indefinite-length",
            DerFault::LongLength => "long-length",
            DerFault::PaddedLength => "padded-length",
            DerFault::OtherTag => "other-tag",
            DerFault::Trailing => "trailing",
        }
    }
}
