//! The fields of a certificate, and the first fault that reading finds in one.

ghost use Rattle.std.specs.Prelude.{◌≡◌};
ghost use Rattle.ct_promise.specs.FieldName.{field_name};

use crate::DerFault;
use thiserror::Error;

/// The field of a certificate (RFC 5280, section 4.1) that has a fault. A place's text is its name.
#[derive(Clone, Copy, Debug, PartialEq, Eq, Error)]
pub enum Place {
    /// The certificate as a whole.
    #[error("certificate")]
    Certificate,
    /// The TBSCertificate as a whole.
    #[error("tbs")]
    Tbs,
    /// The algorithm next to the signature.
    #[error("outer-algorithm")]
    OuterAlgorithm,
    /// The signature.
    #[error("signature")]
    Signature,
    /// The version.
    #[error("version")]
    Version,
    /// The serial number.
    #[error("serial")]
    Serial,
    /// The algorithm within the TBSCertificate.
    #[error("algorithm")]
    Algorithm,
    /// The issuer.
    #[error("issuer")]
    Issuer,
    /// The validity.
    #[error("validity")]
    Validity,
    /// The subject, with its attributes.
    #[error("subject")]
    Subject,
    /// The subject's key.
    #[error("key")]
    Key,
    /// The issuer's unique identifier.
    #[error("issuer-id")]
    IssuerId,
    /// The subject's unique identifier.
    #[error("subject-id")]
    SubjectId,
    /// The list of extensions, and each extension.
    #[error("extensions")]
    Extensions,
    /// The value of a subjectAltName.
    #[error("alt-names")]
    AltNames,
}

impl Place {
    /// The field's name.
    pub fn name(self) -> &'static str
        ensures { result.now ≡ field_name self }
    {
        match self {
            Place::Certificate => "certificate",
            Place::Tbs => "tbs",
            Place::OuterAlgorithm => "outer-algorithm",
            Place::Signature => "signature",
            Place::Version => "version",
            Place::Serial => "serial",
            Place::Algorithm => "algorithm",
            Place::Issuer => "issuer",
            Place::Validity => "validity",
            Place::Subject => "subject",
            Place::Key => "key",
            Place::IssuerId => "issuer-id",
            Place::SubjectId => "subject-id",
            Place::Extensions => "extensions",
            Place::AltNames => "alt-names",
        }
    }
}

/// The first fault that reading finds, and its field. The text names the fault and the field, as in `indefinite-length in extensions`.
#[derive(Clone, Copy, Debug, PartialEq, Eq, Error)]
#[error("{fault} in {place}")]
pub struct Unread {
    /// The field.
    pub place: Place,
    /// The fault of the field.
    pub fault: DerFault,
}
