//! The names of a certificate, and the watched names that are found in it or in any bytes (`ct_names`).

ghost use Rattle.std.specs.Prelude.{◌≡◌};
ghost use Rattle.libwagtenib.specs.Names.{entry_kind, WritesNamesOf, WritesFoundOf, WritesCertificateNames, WritesWatchedNames, WritesNamesInBytes};

use crate::certificates::{number_of_der, number_of_place};
use crate::codes;
use crate::codes::OUT_OF_MEMORY;
use crate::output::write_output;
use ct_names::{EntryKind, NamesFault, WatchedFault, found_text, in_bytes_text, names_text};
use std::alloc::{AllocError, Global};

// Returns the part of a certificate that an entry of this type contains.
fn kind_of(entry_type: u32) -> Option<EntryKind>
    ensures { result ≡ entry_kind entry_type }
{
    match entry_type {
        0 => Some(EntryKind::X509),
        1 => Some(EntryKind::Precert),
        _ => None,
    }
}

// Writes the names of an entry's certificate or TBSCertificate.
fn write_names(
    alloc: Global,
    kind: EntryKind,
    certificate: &[u8],
    names: &mut [u8],
    length: &mut u64,
    field: &mut u32,
) -> u32
    ensures { WritesNamesOf kind certificate.now result names.old names.new length.old length.new field.old field.new }
{
    match names_text(alloc, kind, certificate) {
        Ok(text) => write_output(&text, names, length),
        Err(NamesFault::At(unread)) => {
            *field = number_of_place(unread.place);
            number_of_der(unread.fault)
        }
        Err(NamesFault::Memory) => OUT_OF_MEMORY,
    }
}

// Writes the watched names that are found in an entry's certificate or TBSCertificate.
fn write_found(
    alloc: Global,
    kind: EntryKind,
    certificate: &[u8],
    watched: &[u8],
    found: &mut [u8],
    length: &mut u64,
    field: &mut u32,
) -> u32
    ensures { WritesFoundOf kind certificate.now watched.now result found.old found.new length.old length.new field.old field.new }
{
    match found_text(alloc, kind, certificate, watched) {
        Ok(text) => write_output(&text, found, length),
        Err(WatchedFault::BadList) => codes::BAD_WATCHED,
        Err(WatchedFault::Unread(NamesFault::At(unread))) => {
            *field = number_of_place(unread.place);
            number_of_der(unread.fault)
        }
        Err(WatchedFault::Unread(NamesFault::Memory)) => OUT_OF_MEMORY,
    }
}

/// Writes the names of a certificate (`entry_type` 0) or of a TBSCertificate (1): the common names of its subject, and the names of its subjectAltName (RFC
/// 5280, sections 4.1.2.6 and 4.2.1.6). 80 to 86: they can't be read, and `field` has the number of the field in which the first reason is.
#[unsafe(no_mangle)]
pub extern "C" fn wagtenib_certificate_names(
    alloc: Global,
    entry_type: u32,
    certificate: &[u8],
    names: &mut [u8],
    length: &mut u64,
    field: &mut u32,
) -> u32
    ensures { WritesCertificateNames entry_type certificate.now result names.old names.new length.old length.new field.old field.new }
{
    let Some(kind) = kind_of(entry_type) else {
        return codes::BAD_ENTRY_TYPE;
    };
    write_names(alloc, kind, certificate, names, length, field)
}

/// Writes which of the watched names are found in a certificate (`entry_type` 0) or in a TBSCertificate (1), by the labels of its names (RFC 9525, section
/// 6.3). 144: the watched names are no list. 80 to 86: the names of the certificate can't be read, and `field` has the number of the field in which the
/// first reason is.
#[unsafe(no_mangle)]
pub extern "C" fn wagtenib_watched_names(
    alloc: Global,
    entry_type: u32,
    certificate: &[u8],
    watched: &[u8],
    found: &mut [u8],
    length: &mut u64,
    field: &mut u32,
) -> u32
    ensures { WritesWatchedNames entry_type certificate.now watched.now result found.old found.new length.old length.new field.old field.new }
{
    let Some(kind) = kind_of(entry_type) else {
        return codes::BAD_ENTRY_TYPE;
    };
    write_found(alloc, kind, certificate, watched, found, length, field)
}

/// Writes which of the watched names are somewhere in the bytes, whatever these are, without regard to the case of ASCII letters. 144: the watched names are no list.
#[unsafe(no_mangle)]
pub extern "C" fn wagtenib_names_in_bytes(
    alloc: Global,
    bytes: &[u8],
    watched: &[u8],
    found: &mut [u8],
    length: &mut u64,
) -> u32
    ensures { WritesNamesInBytes bytes.now watched.now result found.old found.new length.old length.new }
{
    match in_bytes_text(alloc, bytes, watched) {
        Ok(Some(text)) => write_output(&text, found, length),
        Ok(None) => codes::BAD_WATCHED,
        Err(AllocError) => OUT_OF_MEMORY,
    }
}
