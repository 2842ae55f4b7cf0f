//! The entry of a precertificate, and the leaf that a timestamp in a certificate promises (RFC 6962, sections 3.1 to 3.4).

ghost use Rattle.std.specs.Prelude.{◌≡◌, ◌+◌};
ghost use Rattle.libwagtenib.specs.Certificates.{der_code, cut_code, unfit_code, place_number, document_number, cut_place, unfit_field};
ghost use Rattle.libwagtenib.specs.Certificates.{WritesEntry, WritesPromised, ChecksPromise};

use crate::codes::OUT_OF_MEMORY;
use crate::output::write_output;
use crate::{codes, proofs};
use ct_promise::{
    CutFault, DerFault, Document, Place, PromiseFault, Unfit, Unkept, check_promise,
    entry_of_precertificate, promised_leaf,
};
use std::alloc::Global;

// The number of a fault of an element.
pub(crate) fn number_of_der(fault: DerFault) -> u32
    ensures { result ≡ der_code fault }
{
    match fault {
        DerFault::Truncated => codes::DER_TRUNCATED,
        DerFault::LongTag => codes::DER_LONG_TAG,
        DerFault::IndefiniteLength => codes::DER_INDEFINITE_LENGTH,
        DerFault::LongLength => codes::DER_LONG_LENGTH,
        DerFault::PaddedLength => codes::DER_PADDED_LENGTH,
        DerFault::OtherTag => codes::DER_OTHER_TAG,
        DerFault::Trailing => codes::DER_TRAILING,
    }
}

// The number of the reason why an extension cannot be cut out.
fn number_of_cut(fault: CutFault) -> u32
    ensures { result ≡ cut_code fault }
{
    match fault {
        CutFault::At(unread) => number_of_der(unread.fault),
        CutFault::NoExtension => codes::NO_EXTENSION,
        CutFault::SecondExtension => codes::SECOND_EXTENSION,
    }
}

// The number of the reason why a certificate gives nothing.
fn number_of(unfit: Unfit) -> u32
    ensures { result ≡ unfit_code unfit }
{
    match unfit {
        Unfit::Uncut(_, fault) => number_of_cut(fault),
        Unfit::BadPoison => codes::BAD_POISON,
        Unfit::TooLong => codes::TBS_TOO_LONG,
    }
}

// The number of a field.
pub(crate) fn number_of_place(place: Place) -> u32
    ensures { result ≡ place_number place }
{
    match place {
        Place::Certificate => 1,
        Place::Tbs => 2,
        Place::OuterAlgorithm => 3,
        Place::Signature => 4,
        Place::Version => 5,
        Place::Serial => 6,
        Place::Algorithm => 7,
        Place::Issuer => 8,
        Place::Validity => 9,
        Place::Subject => 10,
        Place::Key => 11,
        Place::IssuerId => 12,
        Place::SubjectId => 13,
        Place::Extensions => 14,
        Place::AltNames => 15,
    }
}

// The field in which the reason is.
fn place_of(fault: CutFault) -> Place
    ensures { result ≡ cut_place fault }
{
    match fault {
        CutFault::At(unread) => unread.place,
        CutFault::NoExtension | CutFault::SecondExtension => Place::Extensions,
    }
}

// The number of the field in which the reason is, by the document.
fn field_in(document: Document, place: Place) -> u32
    ensures { result ≡ document_number document + place_number place }
{
    let number = number_of_place(place);
    match document {
        Document::Certificate => number,
        Document::Issuer => 16 + number,
    }
}

// The number of the field in which the reason is.
fn field_of(unfit: Unfit) -> u32
    ensures { result ≡ unfit_field unfit }
{
    match unfit {
        Unfit::Uncut(document, fault) => field_in(document, place_of(fault)),
        Unfit::BadPoison => 14,
        Unfit::TooLong => 2,
    }
}

/// Writes the entry of the precertificate with this TBSCertificate: the same without the poison (RFC 6962, section 3.2). 80 to 90: there is none, and
/// `field` has the number of the field in which the first reason is.
#[unsafe(no_mangle)]
pub extern "C" fn wagtenib_precertificate_entry(
    alloc: Global,
    tbs: &[u8],
    entry: &mut [u8],
    length: &mut u64,
    field: &mut u32,
) -> u32
    ensures { WritesEntry tbs.now result entry.old entry.new length.old length.new field.old field.new }
{
    match entry_of_precertificate(alloc, tbs) {
        Ok(found) => write_output(&found, entry, length),
        Err(PromiseFault::Unfit(unfit)) => {
            *field = field_of(unfit);
            number_of(unfit)
        }
        Err(PromiseFault::Memory) => OUT_OF_MEMORY,
    }
}

/// Writes the leaf that a timestamp in this certificate promises, at this time and with these extensions, by the certificate of its issuer (RFC 6962,
/// sections 3.2 to 3.4). A log signs these bytes. 80 to 90: there is none, and `field` has the number of the field in which the first reason is.
#[unsafe(no_mangle)]
pub extern "C" fn wagtenib_promised_leaf(
    alloc: Global,
    certificate: &[u8],
    issuer: &[u8],
    timestamp: u64,
    extensions: &[u8],
    leaf: &mut [u8],
    length: &mut u64,
    field: &mut u32,
) -> u32
    ensures { WritesPromised certificate.now issuer.now timestamp extensions.now result leaf.old leaf.new length.old length.new field.old field.new }
{
    if extensions.len() >= 65_536 {
        return codes::EXTENSIONS_TOO_LONG;
    }
    match promised_leaf(alloc, certificate, issuer, timestamp, extensions) {
        Ok(found) => write_output(&found, leaf, length),
        Err(PromiseFault::Unfit(unfit)) => {
            *field = field_of(unfit);
            number_of(unfit)
        }
        Err(PromiseFault::Memory) => OUT_OF_MEMORY,
    }
}

/// Checks that the leaf that such a timestamp promises is in a tree, by an audit path. 0: it is at this index of the tree with this root. 1 to 4: the path
/// does not lead to the root. 80 to 90: there is no such leaf, and `field` has the number of the field in which the first reason is.
#[unsafe(no_mangle)]
pub extern "C" fn wagtenib_check_promise(
    alloc: Global,
    certificate: &[u8],
    issuer: &[u8],
    timestamp: u64,
    extensions: &[u8],
    leaf_index: u64,
    tree_size: u64,
    path: &[[u8; 32]],
    root: &[u8; 32],
    field: &mut u32,
) -> u32
    ensures { ChecksPromise certificate.now issuer.now timestamp extensions.now leaf_index tree_size path.now root.now result field.old field.new }
{
    if extensions.len() >= 65_536 {
        return codes::EXTENSIONS_TOO_LONG;
    }
    match check_promise(
        alloc,
        certificate,
        issuer,
        timestamp,
        extensions,
        leaf_index,
        tree_size,
        path,
        root,
    ) {
        Ok(()) => codes::OK,
        Err(Unkept::NotThere(fault)) => proofs::number_of(fault),
        Err(Unkept::NoLeaf(unfit)) => {
            *field = field_of(unfit);
            number_of(unfit)
        }
        Err(Unkept::Memory) => OUT_OF_MEMORY,
    }
}
