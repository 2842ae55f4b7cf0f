//! A name as a view of the input (RFC 5280, sections 4.1.2.6 and 4.2.1.6).

/// The kind of a name.
#[derive(Clone, Copy, Debug, PartialEq, Eq)]
pub enum NameKind {
    /// A common name of the subject, in a string of bytes: PrintableString, UTF8String, IA5String, TeletexString or another of ASN.1's own.
    Common,
    /// A common name of the subject, with two bytes per character (BMPString).
    WideCommon,
    /// A common name of the subject, with four bytes per character (UniversalString).
    WidestCommon,
    /// A dNSName of subjectAltName.
    Dns,
    /// An rfc822Name of subjectAltName: a mail address.
    Mail,
    /// A uniformResourceIdentifier of subjectAltName.
    Uri,
    /// An iPAddress of subjectAltName: 4 or 16 bytes, if it is well formed.
    Address,
}

/// A name as a view of the input.
#[derive(Clone, Copy)]
pub struct Name<'a> {
    /// Its kind.
    pub kind: NameKind,
    /// Its bytes, as they are in the input.
    pub bytes: &'a [u8],
}
