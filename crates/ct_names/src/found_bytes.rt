//! The watched names that are found in a certificate, as bytes.

ghost use Rattle.std.specs.Prelude.{◌≡◌, ◌++◌, ◌∷◌, [], IfOk, IfErr, OnOk, map};
ghost use Rattle.ct_codec.specs.Bytes.{num};
ghost use Rattle.ct_names.specs.Names.{named_all};
ghost use Rattle.ct_names.specs.Watched.{found_in};
ghost use Rattle.ct_names.specs.FoundBytes.{found_number, found_bytes, found_from, IsFoundText, FailsWatched};

use crate::list_fault::WatchedFault;
use crate::name_bytes::{EntryKind, read_names};
use crate::name_lists::list_of;
use crate::{FoundIn, Name, find_watched};
use ct_codec::numbers::number_bytes_8;
use std::alloc::{AllocError, Global};

// Returns the number of the kind of names in which a watched name is found.
fn number_of(place: FoundIn) -> u8
    ensures { result ≡ found_number place }
{
    match place {
        FoundIn::AltName => 1,
        FoundIn::CommonName => 2,
    }
}

// Appends the position of a watched name, and the kind of names in which it is found.
fn push_place(text: &mut Vec<u8>, position: u64, place: FoundIn) -> Result<(), AllocError>
    ensures { OnOk result (text.new.items ≡ text.old.items ++ (num 8 position ++ found_number place ∷ [])) }
{
    text.extend_from_slice(&number_bytes_8(position))?;
    text.push(number_of(place))?;
    Ok(())
}

// Appends a watched name, if it is found.
fn push_if_found(
    alloc: Global,
    text: &mut Vec<u8>,
    position: u64,
    names: &[Name<'_>],
    watched: &[u8],
) -> Result<(), AllocError>
    ensures { OnOk result (text.new.items ≡ text.old.items ++ found_bytes position (found_in (named_all names.now) watched.now)) }
{
    match find_watched(alloc, names, watched)? {
        Some(place) => push_place(text, position, place),
        None => Ok(()),
    }
}

// Writes the watched names that are found among a certificate's names.
#[tactic(auto, unfolding(crate::specs::FoundBytes::found_from))]
fn text_of(alloc: Global, names: &[Name<'_>], watched: &[&[u8]]) -> Result<Vec<u8>, AllocError>
    ensures { IfOk result (λ t. t.items ≡ found_from 0 (named_all names.now) (map (λ w. w.now) watched.now)) }
{
    let mut text = Vec::new(alloc);
    let mut position = 0;
    let mut rest = watched;
    'rest: while let [name, after @ ..] = rest {
        push_if_found(alloc, &mut text, position, names, name)?;
        position += 1;
        rest = after;
    }
    Ok(text)
}

/// Returns the bytes of the watched names that are found in an entry's certificate or TBSCertificate. They are the position of each one in
/// the list, and the kind of names in which it is found: subjectAltName, or only a common name.
///
/// # Errors
///
/// `BadList` if the watched names are not a list. Otherwise the errors of [`names_text`](crate::names_text).
pub fn found_text(
    alloc: Global,
    kind: EntryKind,
    bytes: &[u8],
    watched: &[u8],
) -> Result<Vec<u8>, WatchedFault>
    ensures written { IfOk result (λ t. IsFoundText kind bytes.now watched.now t.items) }
    ensures refused { IfErr result (λ f. FailsWatched f kind bytes.now watched.now) }
{
    let Some(list) = list_of(alloc, watched)? else {
        return Err(WatchedFault::BadList);
    };
    let names = read_names(alloc, kind, bytes)?;
    let text = text_of(alloc, &names, &list)?;
    Ok(text)
}
