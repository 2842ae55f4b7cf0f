//! A list of watched names, read from bytes.

ghost use Rattle.std.specs.Prelude.{◌≡◌, ◌++◌, ◌<◌, ◌^◌, ℕ, List, IfOk, IfSome, IfNone, option_map, map, length};
ghost use Rattle.ct_codec.specs.Bytes.{vec};
ghost use Rattle.ct_names.specs.FoundBytes.{IsListText};

use ct_codec::Reader;
use std::alloc::{AllocError, Global};

// Reads a name with a length of 8 bytes.
#[tactic(auto, using(crate::proofs::Listing::no_length))]
fn name_at<'a>(reader: &mut Reader<'a>) -> Option<&'a [u8]>
    ensures some { IfSome result (λ x. (length x.now < 2 ^ 64) × (reader.old ≡ vec 8 x.now ++ reader.new)) }
    ensures none { IfNone result ((x r : List ℕ) → length x < 2 ^ 64 → reader.old ≡ vec 8 x ++ r → ⊥) }
{
    let Some(length) = reader.number_8() else {
        return None;
    };
    let Some(name) = reader.bytes(length as usize) else {
        return None;
    };
    Some(name)
}

/// Reads a list of watched names. The names are parts of the bytes.
pub(crate) fn list_of(alloc: Global, bytes: &[u8]) -> Result<Option<Vec<&[u8]>>, AllocError>
    ensures { IfOk result (λ o. IsListText bytes.now (option_map (λ v. map (λ b. b.now) v.items) o)) }
{
    let mut names = Vec::new(alloc);
    let mut reader = Reader::new(bytes);
    'names: while !reader.is_at_end() {
        let Some(name) = name_at(&mut reader) else {
            return Ok(None);
        };
        names.push(name)?;
    }
    Ok(Some(names))
}
