//! The bytes of a certificate's names.

ghost use Rattle.std.specs.Prelude.{◌≡◌, ◌++◌, IfOk, IfErr, OnOk};
ghost use Rattle.ct_names.specs.Names.{standing, named_all};
ghost use Rattle.ct_names.specs.Reading.{GivesNames, Fails};
ghost use Rattle.ct_names.specs.NameBytes.{kind_number, name_bytes, names_bytes, names_read, AreNames, IsNamesText};

use crate::{Name, NameKind, NamesFault, names_of_certificate, names_of_tbs};
use ct_codec::numbers::number_bytes_8;
use std::alloc::{AllocError, Global};

/// The part of a certificate that an entry of a log contains (RFC 6962, section 3.1).
#[derive(Clone, Copy, Debug, PartialEq, Eq)]
pub enum EntryKind {
    /// The certificate.
    X509,
    /// The TBSCertificate, in place of a precertificate.
    Precert,
}

// Returns the number of a kind of names.
fn number_of(kind: NameKind) -> u8
    ensures { result ≡ kind_number kind }
{
    match kind {
        NameKind::Common => 1,
        NameKind::WideCommon => 2,
        NameKind::WidestCommon => 3,
        NameKind::Dns => 4,
        NameKind::Mail => 5,
        NameKind::Uri => 6,
        NameKind::Address => 7,
    }
}

// Appends a name.
fn push_name(text: &mut Vec<u8>, name: &Name<'_>) -> Result<(), AllocError>
    ensures { OnOk result (text.new.items ≡ text.old.items ++ name_bytes (standing name.now)) }
{
    text.push(number_of(name.kind))?;
    text.extend_from_slice(&number_bytes_8(name.bytes.len() as u64))?;
    text.extend_from_slice(name.bytes)?;
    Ok(())
}

// Writes names, one after the other.
fn text_of(alloc: Global, names: &[Name<'_>]) -> Result<Vec<u8>, AllocError>
    ensures { IfOk result (λ t. t.items ≡ names_bytes (named_all names.now)) }
{
    let mut text = Vec::new(alloc);
    for name in names {
        push_name(&mut text, name)?;
    }
    Ok(text)
}

/// Reads the names of an entry's certificate or TBSCertificate. They are parts of the bytes.
pub(crate) fn read_names(
    alloc: Global,
    kind: EntryKind,
    bytes: &[u8],
) -> Result<Vec<Name<'_>>, NamesFault>
    ensures found { IfOk result (λ v. AreNames kind (named_all v.items) bytes.now) }
    ensures exact { GivesNames (λ v. named_all v.items) result (names_read kind bytes.now) }
{
    match kind {
        EntryKind::X509 => names_of_certificate(alloc, bytes),
        EntryKind::Precert => names_of_tbs(alloc, bytes),
    }
}

/// Returns the bytes of the names of an entry's certificate or TBSCertificate: the common names of its subject, and after them the names of
/// its subjectAltName, in order.
///
/// # Errors
///
/// `At`, the first fault that reading finds, if the bytes have no names that can be read. `Memory` if memory runs out.
pub fn names_text(alloc: Global, kind: EntryKind, bytes: &[u8]) -> Result<Vec<u8>, NamesFault>
    ensures written { IfOk result (λ t. IsNamesText kind bytes.now t.items) }
    ensures refused { IfErr result (λ f. Fails f (names_read kind bytes.now)) }
{
    let names = read_names(alloc, kind, bytes)?;
    let text = text_of(alloc, &names)?;
    Ok(text)
}
