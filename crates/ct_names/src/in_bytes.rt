//! The search for watched names in all bytes of a certificate.

ghost use Rattle.std.specs.Prelude.{◌≡◌, ◌↔◌, IfOk, IsTrue};
ghost use Rattle.std.specs.Str.{str_to_ascii_lowercase};
ghost use Rattle.ct_names.specs.InBytes.{behind_dot, bare_of, StandsIn, IsNameIn};

use crate::matching::{parent_of_star, without_dot};
use memchr::memmem;
use std::alloc::{AllocError, Global};

// The name without one dot in front.
fn behind_dot(name: &[u8]) -> &[u8]
    ensures { result.now ≡ behind_dot name.now }
{
    match name {
        [first, behind @ ..] => {
            if *first == 46 {
                return behind;
            }
            name
        }
        [] => name,
    }
}

// The text of a watched name: without one dot at its end, and without the `*.` or the dot in front.
fn bare_of(watched: &[u8]) -> &[u8]
    ensures { result.now ≡ bare_of watched.now }
{
    let name = without_dot(watched);
    match parent_of_star(name) {
        Some(parent) => parent,
        None => behind_dot(name),
    }
}

// Reports whether a text is somewhere in the bytes.
fn is_in(bytes: &[u8], text: &[u8]) -> bool
    ensures { IsTrue result ↔ StandsIn bytes.now text.now }
{
    memmem::find(bytes, text).is_some()
}

/// Returns the bytes with a small letter for each capital letter (ASCII), as [`is_name_in`] needs them.
///
/// # Errors
///
/// Returns an error if memory runs out.
pub fn lowered(alloc: Global, bytes: &[u8]) -> Result<Vec<u8>, AllocError>
    ensures { IfOk result (λ v. v.items ≡ str_to_ascii_lowercase bytes.now) }
{
    bytes.to_ascii_lowercase(alloc)
}

/// Reports whether the text of a watched name is somewhere in bytes of which `low` is what [`lowered`] returns. The text is the name without
/// one dot at its end, and without the `*.` or the dot in front. The case of ASCII letters makes no difference. A name without any text is
/// in all bytes.
///
/// # Errors
///
/// Returns an error if memory runs out.
pub fn is_name_in(alloc: Global, low: &[u8], watched: &[u8]) -> Result<bool, AllocError>
    ensures { IfOk result (λ found. IsTrue found ↔ IsNameIn low.now watched.now) }
{
    let text = lowered(alloc, bare_of(watched))?;
    Ok(is_in(low, &text))
}
