//! Names read from a certificate (RFC 5280, section 4).

ghost use Rattle.std.specs.Prelude.{◌≡◌, ◌&&◌, ◌||◌, ◌<◌, ◌++◌, List, length, OnOk, IfOk};
ghost use Rattle.std.specs.Option.{option_map};
ghost use Rattle.ct_promise.specs.DerReading.{Gives, element_at, expected_at, only_at, optional_at};
ghost use Rattle.ct_names.specs.Certificate.{NamesOf, BareNamesOf};
ghost use Rattle.ct_names.specs.Names.{Named, named_all, is_common, is_alt, is_bad_alt, is_bad_common, alt_of, common_of};
ghost use Rattle.ct_names.specs.Reading.{placed, GivesNames, Adds, AddsAll, all_of, alt_at, attribute_at, rdn_at, extension_at};
ghost use Rattle.ct_names.specs.Reading.{extensions_at, front_at, behind_at, parts_at, tbs_at, tbs_names, certificate_names, bare_names};

use crate::fault::NamesFault;
use crate::name::{Name, NameKind};
use ct_promise::{DerFault, Element, Place, Unread, expected, next_element, only, optional};
use std::alloc::{AllocError, Global};

// The element that the bytes of a field begin with, and the bytes after it.
fn element_in(place: Place, bytes: &[u8]) -> Result<(Element<'_>, &[u8]), Unread>
    ensures gives { Gives (λ x. (x.0.tag, x.0.content.now, x.1.now)) result (placed place (element_at bytes.now)) }
    ensures shorter { IfOk result (λ x. length x.1.now < length bytes.now) }
{
    match next_element(bytes) {
        Ok(found) => Ok(found),
        Err(fault) => Err(Unread { place, fault }),
    }
}

// The content of the element with this tag that the bytes of a field begin with, and the bytes after it.
fn expected_in(place: Place, tag: u8, bytes: &[u8]) -> Result<(&[u8], &[u8]), Unread>
    ensures gives { Gives (λ x. (x.0.now, x.1.now)) result (placed place (expected_at tag bytes.now)) }
    ensures shorter { IfOk result (λ x. length x.1.now < length bytes.now) }
{
    match expected(tag, bytes) {
        Ok(found) => Ok(found),
        Err(fault) => Err(Unread { place, fault }),
    }
}

// The content of the element with this tag that the bytes of a field consist of.
fn only_in(place: Place, tag: u8, bytes: &[u8]) -> Result<&[u8], Unread>
    ensures { Gives (λ x. x.now) result (placed place (only_at tag bytes.now)) }
{
    match only(tag, bytes) {
        Ok(found) => Ok(found),
        Err(fault) => Err(Unread { place, fault }),
    }
}

// The content of the element with this tag, if the bytes of a field begin with one, and the bytes after it.
fn optional_in(place: Place, tag: u8, bytes: &[u8]) -> Result<(Option<&[u8]>, &[u8]), Unread>
    ensures { Gives (λ x. (option_map (λ c. c.now) x.0, x.1.now)) result (placed place (optional_at tag bytes.now)) }
{
    match optional(tag, bytes) {
        Ok(found) => Ok(found),
        Err(fault) => Err(Unread { place, fault }),
    }
}

// Reports whether these are the bytes of the object identifier of a common name, 2.5.4.3.
fn is_common_name(oid: &[u8]) -> bool
    ensures { result ≡ is_common oid.now }
{
    match oid {
        [a, b, c] => *a == 85 && *b == 4 && *c == 3,
        _ => false,
    }
}

// Reports whether these are the bytes of the object identifier of subjectAltName, 2.5.29.17.
fn is_alt_names(oid: &[u8]) -> bool
    ensures { result ≡ is_alt oid.now }
{
    match oid {
        [a, b, c] => *a == 85 && *b == 29 && *c == 17,
        _ => false,
    }
}

// Reports whether this is the tag of the constructed form of a name, which DER does not have (X.690, section 10.2).
fn is_constructed_name(tag: u8) -> bool
    ensures { result ≡ is_bad_alt tag }
{
    tag == 161 || tag == 162 || tag == 166 || tag == 167
}

// Reports whether the attribute is a common name and the tag is not one of ASN.1's own strings in the primitive form.
fn is_other_string(oid: &[u8], tag: u8) -> bool
    ensures { result ≡ is_bad_common oid.now tag }
{
    is_common_name(oid) && tag > 31
}

// Adds the name in a general name with this tag, if the tag is one of the four (RFC 5280, section 4.2.1.6).
fn push_kind<'a>(names: &mut Vec<Name<'a>>, tag: u8, content: &'a [u8]) -> Result<(), AllocError>
    ensures { OnOk result (named_all names.new.items ≡ named_all names.old.items ++ alt_of tag content.now) }
{
    if tag == 129 {
        names.push(Name {
            kind: NameKind::Mail,
            bytes: content,
        })?;
    } else if tag == 130 {
        names.push(Name {
            kind: NameKind::Dns,
            bytes: content,
        })?;
    } else if tag == 134 {
        names.push(Name {
            kind: NameKind::Uri,
            bytes: content,
        })?;
    } else if tag == 135 {
        names.push(Name {
            kind: NameKind::Address,
            bytes: content,
        })?;
    }
    Ok(())
}

// Adds the common name in an attribute, if it has one (RFC 5280, section 4.1.2.6).
fn push_common<'a>(
    names: &mut Vec<Name<'a>>,
    oid: &[u8],
    tag: u8,
    content: &'a [u8],
) -> Result<(), AllocError>
    ensures { OnOk result (named_all names.new.items ≡ named_all names.old.items ++ common_of oid.now tag content.now) }
{
    if is_common_name(oid) {
        if tag == 30 {
            names.push(Name {
                kind: NameKind::WideCommon,
                bytes: content,
            })?;
        } else if tag == 28 {
            names.push(Name {
                kind: NameKind::WidestCommon,
                bytes: content,
            })?;
        } else {
            names.push(Name {
                kind: NameKind::Common,
                bytes: content,
            })?;
        }
    }
    Ok(())
}

// Adds the name of the general name that the bytes begin with, and returns the bytes after it (RFC 5280, section 4.2.1.6).
#[tactic(auto, unfolding(crate::specs::Reading::alt_at))]
fn push_alt<'a>(names: &mut Vec<Name<'a>>, bytes: &'a [u8]) -> Result<&'a [u8], NamesFault>
    ensures adds { Adds (λ r. r.now) (named_all names.old.items) (named_all names.new.items) result (alt_at bytes.now) }
    ensures shorter { IfOk result (λ r. length r.now < length bytes.now) }
{
    let (found, rest) = element_in(Place::AltNames, bytes)?;
    if is_constructed_name(found.tag) {
        return Err(NamesFault::At(Unread {
            place: Place::AltNames,
            fault: DerFault::OtherTag,
        }));
    }
    push_kind(names, found.tag, found.content)?;
    Ok(rest)
}

// Adds the names of the general names that the bytes consist of.
fn push_alts<'a>(names: &mut Vec<Name<'a>>, bytes: &'a [u8]) -> Result<(), NamesFault>
    ensures { AddsAll (named_all names.old.items) (named_all names.new.items) result (all_of alt_at bytes.now) }
{
    let mut rest = bytes;
    'items: while !rest.is_empty() {
        rest = push_alt(names, rest)?;
    }
    Ok(())
}

// Adds the common name of the attribute that the bytes begin with, and returns the bytes after it (RFC 5280, section 4.1.2.4).
#[tactic(auto, unfolding(crate::specs::Reading::attribute_at))]
fn push_attribute<'a>(names: &mut Vec<Name<'a>>, bytes: &'a [u8]) -> Result<&'a [u8], NamesFault>
    ensures adds { Adds (λ r. r.now) (named_all names.old.items) (named_all names.new.items) result (attribute_at bytes.now) }
    ensures shorter { IfOk result (λ r. length r.now < length bytes.now) }
{
    let (pair, rest) = expected_in(Place::Subject, 48, bytes)?;
    let (oid, behind) = expected_in(Place::Subject, 6, pair)?;
    let (value, end) = element_in(Place::Subject, behind)?;
    if !end.is_empty() {
        return Err(NamesFault::At(Unread {
            place: Place::Subject,
            fault: DerFault::Trailing,
        }));
    }
    if is_other_string(oid, value.tag) {
        return Err(NamesFault::At(Unread {
            place: Place::Subject,
            fault: DerFault::OtherTag,
        }));
    }
    push_common(names, oid, value.tag, value.content)?;
    Ok(rest)
}

// Adds the common names of the attributes that the bytes consist of.
fn push_attributes<'a>(names: &mut Vec<Name<'a>>, bytes: &'a [u8]) -> Result<(), NamesFault>
    ensures { AddsAll (named_all names.old.items) (named_all names.new.items) result (all_of attribute_at bytes.now) }
{
    let mut rest = bytes;
    'items: while !rest.is_empty() {
        rest = push_attribute(names, rest)?;
    }
    Ok(())
}

// Adds the common names of the relative distinguished name that the bytes begin with, and returns the bytes after it (RFC 5280, section
// 4.1.2.4).
#[tactic(auto, unfolding(crate::specs::Reading::rdn_at))]
fn push_rdn<'a>(names: &mut Vec<Name<'a>>, bytes: &'a [u8]) -> Result<&'a [u8], NamesFault>
    ensures adds { Adds (λ r. r.now) (named_all names.old.items) (named_all names.new.items) result (rdn_at bytes.now) }
    ensures shorter { IfOk result (λ r. length r.now < length bytes.now) }
{
    let (set, rest) = expected_in(Place::Subject, 49, bytes)?;
    push_attributes(names, set)?;
    Ok(rest)
}

// Adds the common names of the relative distinguished names that the bytes consist of.
fn push_rdns<'a>(names: &mut Vec<Name<'a>>, bytes: &'a [u8]) -> Result<(), NamesFault>
    ensures { AddsAll (named_all names.old.items) (named_all names.new.items) result (all_of rdn_at bytes.now) }
{
    let mut rest = bytes;
    'items: while !rest.is_empty() {
        rest = push_rdn(names, rest)?;
    }
    Ok(())
}

// Adds the names of the extension that the bytes begin with, and returns the bytes after it (RFC 5280, section 4.2).
#[tactic(auto, unfolding(crate::specs::Reading::extension_at))]
fn push_extension<'a>(names: &mut Vec<Name<'a>>, bytes: &'a [u8]) -> Result<&'a [u8], NamesFault>
    ensures adds { Adds (λ r. r.now) (named_all names.old.items) (named_all names.new.items) result (extension_at bytes.now) }
    ensures shorter { IfOk result (λ r. length r.now < length bytes.now) }
{
    let (extension, rest) = expected_in(Place::Extensions, 48, bytes)?;
    let (oid, behind) = expected_in(Place::Extensions, 6, extension)?;
    let (_, behind) = optional_in(Place::Extensions, 1, behind)?;
    let value = only_in(Place::Extensions, 4, behind)?;
    if is_alt_names(oid) {
        let alts = only_in(Place::AltNames, 48, value)?;
        push_alts(names, alts)?;
    }
    Ok(rest)
}

// Adds the names of the extensions that the bytes consist of.
fn push_extensions<'a>(names: &mut Vec<Name<'a>>, bytes: &'a [u8]) -> Result<(), NamesFault>
    ensures { AddsAll (named_all names.old.items) (named_all names.new.items) result (all_of extension_at bytes.now) }
{
    let mut rest = bytes;
    'items: while !rest.is_empty() {
        rest = push_extension(names, rest)?;
    }
    Ok(())
}

// The content of the list of extensions, or no bytes if there is no list.
#[tactic(auto, unfolding(crate::specs::Reading::extensions_at))]
fn extensions_of(bytes: &[u8]) -> Result<&[u8], Unread>
    ensures { Gives (λ x. x.now) result (extensions_at bytes.now) }
{
    match bytes {
        [] => Ok(bytes),
        [..] => {
            let explicit = only_in(Place::Extensions, 163, bytes)?;
            only_in(Place::Extensions, 48, explicit)
        }
    }
}

// The bytes of a TBSCertificate after its validity.
#[tactic(auto, unfolding(crate::specs::Reading::front_at))]
fn behind_validity(tbs: &[u8]) -> Result<&[u8], Unread>
    ensures { Gives (λ x. x.now) result (front_at tbs.now) }
{
    let (_, rest) = optional_in(Place::Version, 160, tbs)?;
    let (_, rest) = expected_in(Place::Serial, 2, rest)?;
    let (_, rest) = expected_in(Place::Algorithm, 48, rest)?;
    let (_, rest) = expected_in(Place::Issuer, 48, rest)?;
    let (_, rest) = expected_in(Place::Validity, 48, rest)?;
    Ok(rest)
}

// The list of extensions of a TBSCertificate, read from the key on.
#[tactic(auto, unfolding(crate::specs::Reading::behind_at))]
fn behind_subject(bytes: &[u8]) -> Result<&[u8], Unread>
    ensures { Gives (λ x. x.now) result (behind_at bytes.now) }
{
    let (_, rest) = expected_in(Place::Key, 48, bytes)?;
    let (_, rest) = optional_in(Place::IssuerId, 129, rest)?;
    let (_, rest) = optional_in(Place::SubjectId, 130, rest)?;
    extensions_of(rest)
}

// The subject of a TBSCertificate, and its extensions.
#[tactic(auto, unfolding(crate::specs::Reading::parts_at))]
fn parts_of(tbs: &[u8]) -> Result<(&[u8], &[u8]), Unread>
    ensures { Gives (λ x. (x.0.now, x.1.now)) result (parts_at tbs.now) }
{
    let rest = behind_validity(tbs)?;
    let (subject, rest) = expected_in(Place::Subject, 48, rest)?;
    let extensions = behind_subject(rest)?;
    Ok((subject, extensions))
}

// The content of the TBSCertificate of a certificate.
#[tactic(auto, unfolding(crate::specs::Reading::tbs_at))]
fn tbs_of(bytes: &[u8]) -> Result<&[u8], Unread>
    ensures { Gives (λ x. x.now) result (tbs_at bytes.now) }
{
    let fields = only_in(Place::Certificate, 48, bytes)?;
    let (tbs, rest) = expected_in(Place::Tbs, 48, fields)?;
    let (_, rest) = expected_in(Place::OuterAlgorithm, 48, rest)?;
    only_in(Place::Signature, 3, rest)?;
    Ok(tbs)
}

// The names in the content of a TBSCertificate.
#[tactic(auto, unfolding(crate::specs::Reading::tbs_names))]
fn names_in(alloc: Global, tbs: &[u8]) -> Result<Vec<Name<'_>>, NamesFault>
    ensures { GivesNames (λ v. named_all v.items) result (tbs_names tbs.now) }
{
    let (subject, extensions) = parts_of(tbs)?;
    let mut names = Vec::new(alloc);
    push_rdns(&mut names, subject)?;
    push_extensions(&mut names, extensions)?;
    Ok(names)
}

// The names of a certificate, in terms of reading.
#[tactic(auto, unfolding(crate::specs::Reading::certificate_names))]
fn read_certificate(alloc: Global, bytes: &[u8]) -> Result<Vec<Name<'_>>, NamesFault>
    ensures { GivesNames (λ v. named_all v.items) result (certificate_names bytes.now) }
{
    let tbs = tbs_of(bytes)?;
    names_in(alloc, tbs)
}

/// The names in a certificate (RFC 5280, section 4.1): the common names of its subject, followed by the names of its subjectAltName, in
/// order.
///
/// # Errors
///
/// `At`, the first fault that reading finds, if the bytes are not a certificate in the grammar. `Memory` if memory runs out.
pub fn names_of_certificate(alloc: Global, bytes: &[u8]) -> Result<Vec<Name<'_>>, NamesFault>
    // Names are returned only if the bytes are a certificate in the grammar with these names.
    ensures found { IfOk result (λ v. NamesOf (named_all v.items) bytes.now) }
    // The names of each certificate in the grammar are read, unless memory is refused.
    ensures every { (ns : List Named) → NamesOf ns bytes.now → GivesNames (λ v. named_all v.items) result (Ok ns) }
    // The fault is exactly that of reading.
    ensures exact { GivesNames (λ v. named_all v.items) result (certificate_names bytes.now) }
{
    read_certificate(alloc, bytes)
}

// The names of a TBSCertificate, in terms of reading.
#[tactic(auto, unfolding(crate::specs::Reading::bare_names))]
fn read_tbs(alloc: Global, bytes: &[u8]) -> Result<Vec<Name<'_>>, NamesFault>
    ensures { GivesNames (λ v. named_all v.items) result (bare_names bytes.now) }
{
    let tbs = only_in(Place::Tbs, 48, bytes)?;
    names_in(alloc, tbs)
}

/// The names in a TBSCertificate (RFC 5280, section 4.1.2), as the entry of a precertificate has it (RFC 6962, section 3.2), read like
/// those of a certificate.
///
/// # Errors
///
/// `At`, the first fault that reading finds, if the bytes are not a TBSCertificate in the grammar. `Memory` if memory runs out.
pub fn names_of_tbs(alloc: Global, bytes: &[u8]) -> Result<Vec<Name<'_>>, NamesFault>
    // Names are returned only if the bytes are a TBSCertificate in the grammar with these names.
    ensures found { IfOk result (λ v. BareNamesOf (named_all v.items) bytes.now) }
    // The names of each TBSCertificate in the grammar are read, unless memory is refused.
    ensures every { (ns : List Named) → BareNamesOf ns bytes.now → GivesNames (λ v. named_all v.items) result (Ok ns) }
    // The fault is exactly that of reading.
    ensures exact { GivesNames (λ v. named_all v.items) result (bare_names bytes.now) }
{
    read_tbs(alloc, bytes)
}
