//! The watched names that a certificate matches.

ghost use Rattle.std.specs.Prelude.{◌≡◌, IfOk};
ghost use Rattle.std.specs.Option.{option_map};
ghost use Rattle.ct_names.specs.Covers.{plain_of};
ghost use Rattle.ct_names.specs.Names.{standing, named_all};
ghost use Rattle.ct_names.specs.Watched.{held, host_told, told_for, narrow_wide, kind_told, is_alt_kind, is_sought, some_told, found_in, IsFound};

use crate::hosts::{behind_last, host_of_uri, is_address};
use crate::matching::{covers, is_wildcard_over, narrowed, without_dot};
use crate::name::{Name, NameKind};
use std::alloc::{AllocError, Global};

/// The kind of a certificate's names in which a watched one is found.
#[derive(Clone, Copy, Debug, PartialEq, Eq)]
pub enum FoundIn {
    /// A name of subjectAltName.
    AltName,
    /// A common name of the subject.
    CommonName,
}

// Reports whether a name is the watched one, or a wildcard that matches it.
#[tactic(auto, unfolding(crate::specs::Watched::held))]
fn holds_for(name: &[u8], watched: &[u8]) -> bool
    ensures { result ≡ held name.now watched.now }
{
    let name = without_dot(name);
    name.eq_ignore_ascii_case(watched) || is_wildcard_over(name, watched)
}

/// Reports whether a host name of a certificate matches a watched one (RFC 9525, section 6.3). If the watched name begins with a dot, all
/// names below it are watched too: the name must cover the part after the dot, as [`covers`] defines it. Any other watched name is watched
/// by itself: the name must be the same name, or a wildcard that matches it. The case of ASCII letters makes no difference, and one dot at
/// the end of the certificate's name is ignored.
#[tactic(auto, unfolding(crate::specs::Watched::told_for))]
pub fn is_told_for(name: &[u8], watched: &[u8]) -> bool
    ensures { result ≡ told_for name.now watched.now }
{
    match watched {
        [] => holds_for(name, watched),
        [first, behind @ ..] => {
            if *first == 46 {
                return covers(name, behind);
            }
            holds_for(name, watched)
        }
    }
}

// The characters of a UniversalString (X.690, section 8.23), one byte each, with 255 for characters above 255.
pub(crate) fn narrowed_wide(alloc: Global, bytes: &[u8]) -> Result<Vec<u8>, AllocError>
    ensures { IfOk result (λ v. v.items ≡ narrow_wide bytes.now) }
{
    let mut out = Vec::new(alloc);
    let mut rest = bytes;
    'rest: while let [first, second, third, low, after @ ..] = rest {
        out.push(if *first == 0 && *second == 0 && *third == 0 {
            *low
        } else {
            255
        })?;
        rest = after;
    }
    Ok(out)
}

// Reports whether there is a host, and it matches a watched name.
fn is_host_told(host: Option<&[u8]>, watched: &[u8]) -> bool
    ensures { result ≡ host_told (option_map (λ h. h.now) host.entry) watched.now }
{
    match host {
        Some(host) => is_told_for(host, watched),
        None => false,
    }
}

// Reports whether a name matches a watched one.
#[tactic(auto, unfolding(crate::specs::Watched::kind_told))]
fn is_kind_told(
    alloc: Global,
    kind: NameKind,
    bytes: &[u8],
    watched: &[u8],
) -> Result<bool, AllocError>
    ensures { IfOk result (λ told. told ≡ kind_told kind bytes.now watched.now) }
{
    match kind {
        NameKind::Common | NameKind::Dns => Ok(is_told_for(bytes, watched)),
        NameKind::WideCommon => {
            let text = narrowed(alloc, bytes)?;
            Ok(is_told_for(&text, watched))
        }
        NameKind::WidestCommon => {
            let text = narrowed_wide(alloc, bytes)?;
            Ok(is_told_for(&text, watched))
        }
        NameKind::Mail => Ok(is_host_told(behind_last(64, bytes), watched)),
        NameKind::Uri => Ok(is_host_told(host_of_uri(bytes), watched)),
        NameKind::Address => is_address(alloc, bytes, watched),
    }
}

// Reports whether a kind is one of subjectAltName's.
fn is_of_alt_names(kind: NameKind) -> bool
    ensures { result ≡ is_alt_kind kind }
{
    match kind {
        NameKind::Common | NameKind::WideCommon | NameKind::WidestCommon => false,
        NameKind::Dns | NameKind::Mail | NameKind::Uri | NameKind::Address => true,
    }
}

// Reports whether a kind is one of subjectAltName's, if `alt` is true, and otherwise whether it is a kind of common name.
fn is_sought(alt: bool, kind: NameKind) -> bool
    ensures { result ≡ is_sought alt kind }
{
    if alt {
        is_of_alt_names(kind)
    } else {
        !is_of_alt_names(kind)
    }
}

// Reports whether some name matches the watched one: among the names of subjectAltName if `alt` is true, and otherwise among the common
// names.
#[tactic(auto, unfolding(crate::specs::Watched::some_told))]
fn is_some_told(
    alloc: Global,
    names: &[Name<'_>],
    alt: bool,
    watched: &[u8],
) -> Result<bool, AllocError>
    ensures { IfOk result (λ told. told ≡ some_told alt (named_all names.now) watched.now) }
{
    let mut rest = names;
    'rest: while let [name, after @ ..] = rest {
        if is_sought(alt, name.kind) {
            let told = is_kind_told(alloc, name.kind, name.bytes, watched)?;
            if told {
                return Ok(true);
            }
        }
        rest = after;
    }
    Ok(false)
}

// The kind of a certificate's names in which a watched one is found.
#[tactic(auto, unfolding(crate::specs::Watched::found_in))]
fn found_among(
    alloc: Global,
    names: &[Name<'_>],
    watched: &[u8],
) -> Result<Option<FoundIn>, AllocError>
    ensures { IfOk result (λ found. found ≡ found_in (named_all names.now) watched.now) }
{
    let watched = without_dot(watched);
    if is_some_told(alloc, names, true, watched)? {
        Ok(Some(FoundIn::AltName))
    } else if is_some_told(alloc, names, false, watched)? {
        Ok(Some(FoundIn::CommonName))
    } else {
        Ok(None)
    }
}

/// Returns the kind of a certificate's names in which a watched one is found: a name of subjectAltName; otherwise a common name, whatever
/// string type it has; or none. Names match as [`is_told_for`] defines it: a dNSName and a common name by their characters, a mail address
/// by the part after its last `@`, and a URI by its host (RFC 3986, section 3.2.2). An IP address of 4 or 16 octets matches by its text
/// (RFC 5952). One dot at the watched name's end is ignored.
///
/// # Errors
///
/// Returns an error if memory runs out.
pub fn find_watched(
    alloc: Global,
    names: &[Name<'_>],
    watched: &[u8],
) -> Result<Option<FoundIn>, AllocError>
    ensures found { IfOk result (λ found. found ≡ found_in (named_all names.now) watched.now) }
    // .. which is by labels, and exact.
    ensures named { IfOk result (λ found. IsFound found (named_all names.now) (plain_of watched.now)) }
{
    found_among(alloc, names, watched)
}
