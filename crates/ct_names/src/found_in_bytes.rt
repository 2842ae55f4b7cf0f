//! The watched names that are in some bytes, as bytes.

ghost use Rattle.std.specs.Prelude.{◌≡◌, ◌++◌, ℕ, List, IfOk, OnOk, option_map, map};
ghost use Rattle.ct_names.specs.FoundInBytes.{place_bytes, TellsName, TellsNames, IsInBytesText};

use crate::name_lists::list_of;
use crate::{is_name_in, lowered};
use ct_codec::numbers::number_bytes_8;
use std::alloc::{AllocError, Global};

// Appends the position of a watched name that is in the bytes, and the number that says so.
fn push_place(text: &mut Vec<u8>, position: u64) -> Result<(), AllocError>
    ensures { OnOk result (text.new.items ≡ text.old.items ++ place_bytes position) }
{
    text.extend_from_slice(&number_bytes_8(position))?;
    text.push(3)?;
    Ok(())
}

// Appends a watched name, if it is in the bytes, whose letters are small.
fn push_if_in(
    alloc: Global,
    text: &mut Vec<u8>,
    position: u64,
    low: &[u8],
    name: &[u8],
) -> Result<(), AllocError>
    ensures { OnOk result ((here : List ℕ) × TellsName position low.now name.now here × (text.new.items ≡ text.old.items ++ here)) }
{
    if is_name_in(alloc, low, name)? {
        push_place(text, position)?;
        return Ok(());
    }
    Ok(())
}

// Writes the watched names that are in the bytes, whose letters are small.
fn text_of(alloc: Global, low: &[u8], watched: &[&[u8]]) -> Result<Vec<u8>, AllocError>
    ensures { IfOk result (λ t. TellsNames 0 low.now (map (λ w. w.now) watched.now) t.items) }
{
    let mut text = Vec::new(alloc);
    let mut position = 0;
    let mut rest = watched;
    'rest: while let [name, after @ ..] = rest {
        push_if_in(alloc, &mut text, position, low, name)?;
        position += 1;
        rest = after;
    }
    Ok(text)
}

/// Returns the bytes of the watched names whose text is in some bytes, for example in all bytes of a certificate. They are the position of
/// each one in the list, and the number 3. Returns `None` if the watched names are not a list. [`crate::is_name_in`] says what the text
/// of a watched name is. The bytes may be any bytes.
///
/// # Errors
///
/// Returns an error if memory runs out.
pub fn in_bytes_text(
    alloc: Global,
    bytes: &[u8],
    watched: &[u8],
) -> Result<Option<Vec<u8>>, AllocError>
    ensures { IfOk result (λ o. IsInBytesText bytes.now watched.now (option_map (λ v. v.items) o)) }
{
    let Some(list) = list_of(alloc, watched)? else {
        return Ok(None);
    };
    let low = lowered(alloc, bytes)?;
    let text = text_of(alloc, &low, &list)?;
    Ok(Some(text))
}
