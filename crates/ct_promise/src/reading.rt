//! Fields and extensions, read from the front of bytes (RFC 5280, sections 4.1 and 4.2).

ghost use Rattle.std.specs.Prelude.{◌≡◌, ◌<◌, ℕ, List, length, Ok, IfOk};
ghost use Rattle.std.specs.Option.{option_map};
ghost use Rattle.ct_promise.specs.DerReading.{Gives, expected_at, only_at, optional_at};
ghost use Rattle.ct_promise.specs.Tbs.{must, may, before_key, tbs_fields, IsTbsOf, IsKeyOf};
ghost use Rattle.ct_promise.specs.Reading.{put_at, before, field_after, after_fields, extension_with_at, others_at, sole_at, list_at, whole_tbs_at, key_at};

use crate::fault::CutFault;
use crate::field::{Place, Unread};
use crate::{expected, only, optional};

// The content of the element with this tag that the bytes of a field begin with, and the bytes after it.
fn expected_in(place: Place, tag: u8, bytes: &[u8]) -> Result<(&[u8], &[u8]), CutFault>
    ensures gives { Gives (λ x. (x.0.now, x.1.now)) result (put_at place (expected_at tag bytes.now)) }
    ensures shorter { IfOk result (λ x. length x.1.now < length bytes.now) }
{
    match expected(tag, bytes) {
        Ok(found) => Ok(found),
        Err(fault) => Err(CutFault::At(Unread { place, fault })),
    }
}

// The content of the element with this tag that the bytes of a field consist of.
pub(crate) fn only_in(place: Place, tag: u8, bytes: &[u8]) -> Result<&[u8], CutFault>
    ensures { Gives (λ x. x.now) result (put_at place (only_at tag bytes.now)) }
{
    match only(tag, bytes) {
        Ok(found) => Ok(found),
        Err(fault) => Err(CutFault::At(Unread { place, fault })),
    }
}

// The content of the element with this tag, if the bytes of a field begin with one, and the bytes after it.
fn optional_in(place: Place, tag: u8, bytes: &[u8]) -> Result<(Option<&[u8]>, &[u8]), CutFault>
    ensures { Gives (λ x. (option_map (λ c. c.now) x.0, x.1.now)) result (put_at place (optional_at tag bytes.now)) }
{
    match optional(tag, bytes) {
        Ok(found) => Ok(found),
        Err(fault) => Err(CutFault::At(Unread { place, fault })),
    }
}

// The bytes before the rest of some bytes.
pub(crate) fn before<'a>(whole: &'a [u8], rest: &[u8]) -> &'a [u8]
    ensures { result.now ≡ before whole.now rest.now }
{
    let (front, _) = whole.split_at(whole.len().saturating_sub(rest.len()));
    front
}

// The bytes after a required field.
#[tactic(auto, unfolding(crate::specs::Reading::field_after))]
fn after_must(tag: u8, place: Place, bytes: &[u8]) -> Result<&[u8], CutFault>
    ensures { Gives (λ r. r.now) result (field_after (must tag place) bytes.now) }
{
    let (_, rest) = expected_in(place, tag, bytes)?;
    Ok(rest)
}

// The bytes after an optional field.
#[tactic(auto, unfolding(crate::specs::Reading::field_after))]
fn after_may(tag: u8, place: Place, bytes: &[u8]) -> Result<&[u8], CutFault>
    ensures { Gives (λ r. r.now) result (field_after (may tag place) bytes.now) }
{
    let (_, rest) = optional_in(place, tag, bytes)?;
    Ok(rest)
}

// The bytes after the fields before the key.
fn after_subject(fields: &[u8]) -> Result<&[u8], CutFault>
    ensures { Gives (λ r. r.now) result (after_fields before_key fields.now) }
{
    let rest = after_may(160, Place::Version, fields)?;
    let rest = after_must(2, Place::Serial, rest)?;
    let rest = after_must(48, Place::Algorithm, rest)?;
    let rest = after_must(48, Place::Issuer, rest)?;
    let rest = after_must(48, Place::Validity, rest)?;
    after_must(48, Place::Subject, rest)
}

// The bytes after all fields except the extensions.
pub(crate) fn after_subject_id(fields: &[u8]) -> Result<&[u8], CutFault>
    ensures { Gives (λ r. r.now) result (after_fields tbs_fields fields.now) }
{
    let rest = after_subject(fields)?;
    let rest = after_must(48, Place::Key, rest)?;
    let rest = after_may(129, Place::IssuerId, rest)?;
    after_may(130, Place::SubjectId, rest)
}

// An extension as a view of the input: its identifier and its value.
#[derive(Clone, Copy)]
pub(crate) struct Extension<'a> {
    pub(crate) identifier: &'a [u8],
    pub(crate) value: &'a [u8],
}

// The extension that the bytes begin with, and the bytes after it.
#[tactic(auto, unfolding(crate::specs::Reading::extension_with_at))]
pub(crate) fn next_extension(bytes: &[u8]) -> Result<(Extension<'_>, &[u8]), CutFault>
    ensures gives { Gives (λ x. (x.0.identifier.now, x.0.value.now, x.1.now)) result (extension_with_at bytes.now) }
    ensures shorter { IfOk result (λ x. length x.1.now < length bytes.now) }
{
    let (extension, rest) = expected_in(Place::Extensions, 48, bytes)?;
    let (identifier, behind) = expected_in(Place::Extensions, 6, extension)?;
    let (_, behind) = optional_in(Place::Extensions, 1, behind)?;
    let value = only_in(Place::Extensions, 4, behind)?;
    Ok((Extension { identifier, value }, rest))
}

// The extensions in their field, or none if the field is missing.
#[tactic(auto, unfolding(crate::specs::Reading::list_at))]
pub(crate) fn extensions_in(bytes: &[u8]) -> Result<&[u8], CutFault>
    ensures { Gives (λ x. x.now) result (list_at bytes.now) }
{
    match bytes {
        [] => Ok(bytes),
        [..] => {
            let list = only_in(Place::Extensions, 163, bytes)?;
            only_in(Place::Extensions, 48, list)
        }
    }
}

// The TBSCertificate of a certificate, in terms of reading.
#[tactic(auto, unfolding(crate::specs::Reading::whole_tbs_at))]
fn read_tbs(certificate: &[u8]) -> Result<&[u8], CutFault>
    ensures { Gives (λ x. x.now) result (whole_tbs_at certificate.now) }
{
    let fields = only_in(Place::Certificate, 48, certificate)?;
    let (_, behind) = expected_in(Place::Tbs, 48, fields)?;
    let (_, rest) = expected_in(Place::OuterAlgorithm, 48, behind)?;
    only_in(Place::Signature, 3, rest)?;
    Ok(before(fields, behind))
}

/// The TBSCertificate of a certificate (RFC 5280, section 4.1), all its bytes.
///
/// # Errors
///
/// `At`, the first fault that reading finds, if the bytes are not a certificate of the grammar.
pub fn tbs_of(certificate: &[u8]) -> Result<&[u8], CutFault>
    // A TBSCertificate is returned only if the bytes are in the grammar.
    ensures found { IfOk result (λ x. IsTbsOf x.now certificate.now) }
    // Each certificate in the grammar is read.
    ensures every { (t : List ℕ) → IsTbsOf t certificate.now → Gives (λ x. x.now) result (Ok t) }
    // The fault is exactly that of reading.
    ensures exact { Gives (λ x. x.now) result (whole_tbs_at certificate.now) }
{
    read_tbs(certificate)
}

// The key of a TBSCertificate, in terms of reading.
#[tactic(auto, unfolding(crate::specs::Reading::key_at))]
fn read_key(tbs: &[u8]) -> Result<&[u8], CutFault>
    ensures { Gives (λ x. x.now) result (key_at tbs.now) }
{
    let fields = only_in(Place::Tbs, 48, tbs)?;
    let rest = after_subject(fields)?;
    let (_, behind) = expected_in(Place::Key, 48, rest)?;
    Ok(before(rest, behind))
}

/// The key of a TBSCertificate: its SubjectPublicKeyInfo (RFC 5280, section 4.1.2.7), all its bytes. The bytes after it are not examined.
///
/// # Errors
///
/// `At`, the first fault that reading finds, if the bytes are not in the grammar up to the key.
pub fn key_of(tbs: &[u8]) -> Result<&[u8], CutFault>
    // A key is returned only if the bytes are in the grammar.
    ensures found { IfOk result (λ x. IsKeyOf x.now tbs.now) }
    // Each TBSCertificate in the grammar is read.
    ensures every { (k : List ℕ) → IsKeyOf k tbs.now → Gives (λ x. x.now) result (Ok k) }
    // The fault is exactly that of reading.
    ensures exact { Gives (λ x. x.now) result (key_at tbs.now) }
{
    read_key(tbs)
}
