//! The promises that a log made about a certificate, computed from its DER: the entry of a precertificate, and the leaf that a timestamp
//! embedded in the final certificate promises (RFC 6962, sections 3.1 to 3.4). Each is computed by cutting one extension out of a
//! TBSCertificate (RFC 5280, sections 4.1 and 4.2).
//!
//! - [`cut_extension`] finds the one extension with an identifier: the part before it, the extension, and the part after it, as slices.
//!   [`push_without`] writes the TBSCertificate without it: all other bytes are unchanged, except the lengths around them. An empty list of
//!   extensions is left out.
//! - [`tbs_of`] and [`key_of`] return a certificate's TBSCertificate, and its SubjectPublicKeyInfo, each as all its bytes.
//! - [`entry_of_precertificate`] is the TBSCertificate that goes into the log, without the poison.
//! - [`promised_leaf`] is the leaf of a timestamp embedded in a certificate. It consists of the certificate without the list of timestamps,
//!   and the hash of its issuer's key. These bytes are also the bytes that the log signed (section 3.2).
//! - [`check_promise`] reports whether that very leaf is in a tree, by an audit path: its theorem begins at the certificate's own bytes.
//! - All are exact: anything that is read is in the grammar of `specs/Tbs.antt`, and anything in the grammar is read. A [`CutFault`] is the
//!   first fault that reading finds, with its field.
//! - [`laws`] shows that no bytes have two cuts, that putting a cut back gives the bytes again, and what follows from a promise that was
//!   kept.
//!
//! The caller must check which timestamps a certificate has, and whether the log's key signed them. Names, validity times, keys, signatures
//! and the values of extensions are not examined: more is read than DER allows.
//!
//! # Elements of DER
//!
//! Elements (ITU-T X.690, sections 8.1 and 10.1) are read in place, so that nothing is copied and no memory is taken, and written.
//!
//! - An element is a tag of one byte, a definite length in the fewest bytes, at most four after the first, and as many bytes of content.
//! - [`next_element`] reads an element from the front of bytes; [`expected`], [`only`] and [`optional`] read an element with a given tag.
//! - [`push_element`] writes an element, in its only text.
//! - A [`DerFault`] is the first fault from the left. The forms that BER allows besides DER (indefinite and padded lengths), tags of
//!   several bytes, and lengths of 2^32 and more are each refused with a fault of their own.
//! - [`der_laws`] shows that an element that is read is present, that an element that is present is read, that no bytes begin with two
//!   elements, and that each proper prefix of an element is refused as truncated. An element has exactly one text.
#![tactic(auto)]

mod checking;
mod cutting;
mod der_fault;
pub mod der_laws;
mod der_reading;
mod der_writing;
mod entry;
mod fault;
mod field;
pub mod laws;
mod leaf;
mod reading;

pub use checking::check_promise;
pub use cutting::{Cut, cut_extension, push_without};
pub use der_fault::DerFault;
pub use der_reading::{Element, expected, next_element, only, optional};
pub use der_writing::push_element;
pub use entry::entry_of_precertificate;
pub use fault::{CutFault, Document, PromiseFault, Unfit, Unkept};
pub use field::{Place, Unread};
pub use leaf::promised_leaf;
pub use reading::{key_of, tbs_of};
