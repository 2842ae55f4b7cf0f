//! The names in a certificate or a TBSCertificate (RFC 5280, section 4), as views of the input or as bytes, and the watched names that they
//! cover.
//!
//! - [`names_of_certificate`] and [`names_of_tbs`] return the common names of the subject and the names of subjectAltName, or the first
//!   fault that reading finds, with its field. They are exact: anything that is read is in the grammar of `specs/Certificate.antt`, with
//!   these names, and anything in the grammar is read.
//! - [`covers`] reports whether a name is a watched one, is below it, or is a wildcard that matches it, by labels.
//! - [`find_watched`] reports in which of a certificate's names a watched one is found, either by itself (`www.example.org`) or with
//!   everything below it (`.example.org`).
//! - [`is_name_in`] reports whether a watched name is in the bytes of a certificate, also if these cannot be read.
//! - [`laws`] shows that no bytes have two readings, that each proper prefix of a certificate is refused, and that the names stay the same
//!   if an extension other than subjectAltName is cut out, as in an entry of a precertificate.
//!
//! Validity times, keys, signatures, the order of a SET and the characters of strings are not examined: more is read than DER allows.
//!
//! # The names as bytes
//!
//! The names of a certificate, and the watched names that are found in it, are written in the presentation language of RFC 5246 (section 4).
//!
//! - [`names_text`] writes the names that are read.
//! - [`found_text`] reads a list of watched names, and writes the position of each one that is found.
//! - [`in_bytes_text`] reads such a list, and writes the position of each one whose text is in some bytes, for example in all bytes of a
//!   certificate that cannot be read.
//! - The functions of [`bytes_laws`] do nothing. Their contracts state that the bytes of names are the bytes of no other names, and that
//!   finding is by labels.
//!
//! `specs/NameBytes.antt` has the names' bytes, and `specs/FoundBytes.antt` and `specs/FoundInBytes.antt` have those of the watched names.
#![tactic(auto)]

pub mod bytes_laws;
mod fault;
mod found_bytes;
mod found_in_bytes;
mod hosts;
mod in_bytes;
pub mod laws;
mod list_fault;
mod matching;
mod name;
mod name_bytes;
mod name_lists;
mod reading;
mod watched;

pub use fault::NamesFault;
pub use found_bytes::found_text;
pub use found_in_bytes::in_bytes_text;
pub use in_bytes::{is_name_in, lowered};
pub use list_fault::WatchedFault;
pub use matching::{covers, narrowed, without_dot};
pub use name::{Name, NameKind};
pub use name_bytes::{EntryKind, names_text};
pub use reading::{names_of_certificate, names_of_tbs};
pub use watched::{FoundIn, find_watched, is_told_for};
