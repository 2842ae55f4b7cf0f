//! Writes the objects of a step as one byte string, and reads them.

ghost use Rattle.std.specs.Prelude.{◌≡◌, ◌<◌, ◌^◌, ◌++◌, ℕ, List, length, map, OnOk, IfSome, IfNone, IfOk, MatchBool};
ghost use Rattle.ct_codec.specs.Bytes.{num, vec};
ghost use Rattle.ct_step.specs.Bundle.{IsObject, bundled_text, IsBundleOf};
ghost use Rattle.ct_step.specs.Resumed.{object_parts, IsSomeBundle, NoBundle};

use ct_codec::Reader;
use ct_codec::numbers::{number_bytes_2, number_of_2};
use std::alloc::{AllocError, Global};

/// An object of a step, which borrows its parts from its staged batch (called a bundle here): a tile of hashes or of entries, with its
/// name.
#[derive(Clone, Copy, Debug, PartialEq, Eq)]
pub struct Object<'a> {
    /// The name, as ASCII (C2SP tlog-tiles and static-ct-api).
    pub name: &'a [u8],
    /// The bytes of the tile.
    pub content: &'a [u8],
}

// Returns the four bytes of a number.
fn number_bytes_4(n: u32) -> [u8; 4]
    ensures { result ≡ num 4 n }
{
    n.to_be_bytes()
}

// Returns the number that four bytes represent.
fn number_of_4(bytes: &[u8; 4]) -> u32
    ensures { num 4 result ≡ bytes.now }
{
    u32::from_be_bytes(*bytes)
}

/// Appends an object to the staged batch. Its name must have fewer than 2^16 bytes, and its content fewer than 2^32.
pub fn push_object(bundle: &mut Vec<u8>, name: &[u8], content: &[u8]) -> Result<(), AllocError>
    requires name { length name.now < 2 ^ 16 }
    requires content { length content.now < 2 ^ 32 }
    ensures { OnOk result (bundle.new.items ≡ bundle.old.items ++ bundled_text (name.now, content.now)) }
{
    bundle.extend_from_slice(&number_bytes_2(name.len() as u16))?;
    bundle.extend_from_slice(name)?;
    bundle.extend_from_slice(&number_bytes_4(content.len() as u32))?;
    bundle.extend_from_slice(content)?;
    Ok(())
}

// Reads a vector whose length has two bytes.
#[tactic(auto, using(crate::proofs::Bundles::no_length, crate::proofs::Bundles::no_content))]
fn vector_2_at<'a>(reader: &mut Reader<'a>) -> Option<&'a [u8]>
    ensures some { IfSome result (λ x. (length x.now < 2 ^ 16) × (reader.old ≡ vec 2 x.now ++ reader.new)) }
    ensures none { IfNone result ((x r : List ℕ) → length x < 2 ^ 16 → reader.old ≡ vec 2 x ++ r → ⊥) }
{
    let Some(length) = reader.number_2() else {
        return None;
    };
    let Some(content) = reader.bytes(length as usize) else {
        return None;
    };
    Some(content)
}

// Reads a number of four bytes.
fn number_4_at(reader: &mut Reader<'_>) -> Option<u32>
    ensures some { IfSome result (λ n. (n < 2 ^ 32) × (reader.old ≡ num 4 n ++ reader.new)) }
    ensures none { IfNone result (length reader.old < 4) }
{
    let Some(field) = reader.bytes(4) else {
        return None;
    };
    match field.first_chunk::<4>() {
        Some(bytes) => Some(number_of_4(bytes)),
        None => unreachable!(),
    }
}

// Reads a vector whose length has four bytes.
#[tactic(auto, using(crate::proofs::Bundles::no_length, crate::proofs::Bundles::no_content))]
fn vector_4_at<'a>(reader: &mut Reader<'a>) -> Option<&'a [u8]>
    ensures some { IfSome result (λ x. (length x.now < 2 ^ 32) × (reader.old ≡ vec 4 x.now ++ reader.new)) }
    ensures none { IfNone result ((x r : List ℕ) → length x < 2 ^ 32 → reader.old ≡ vec 4 x ++ r → ⊥) }
{
    let Some(length) = number_4_at(reader) else {
        return None;
    };
    let Some(content) = reader.bytes(length as usize) else {
        return None;
    };
    Some(content)
}

// Reads the object at the front of the bytes.
fn object_at<'a>(reader: &mut Reader<'a>) -> Option<Object<'a>>
    ensures some { IfSome result (λ o. IsObject (object_parts o) × (reader.old ≡ bundled_text (object_parts o) ++ reader.new)) }
    ensures none { IfNone result ((o : List ℕ × List ℕ) (r : List ℕ) → IsObject o → reader.old ≡ bundled_text o ++ r → ⊥) }
{
    let Some(name) = vector_2_at(reader) else {
        return None;
    };
    let Some(content) = vector_4_at(reader) else {
        return None;
    };
    Some(Object { name, content })
}

// Reports whether the bytes are a staged batch. Allocates no memory.
pub(crate) fn is_bundle(bundle: &[u8]) -> bool
    ensures { MatchBool result (IsSomeBundle bundle.now) (NoBundle bundle.now) }
{
    let mut reader = Reader::new(bundle);
    'objects: while !reader.is_at_end() {
        let Some(_object) = object_at(&mut reader) else {
            return false;
        };
    }
    true
}

// Returns the objects of a staged batch, which borrow their parts from it. Allocates the list.
pub(crate) fn objects_of<'a>(alloc: Global, bundle: &'a [u8]) -> Result<Vec<Object<'a>>, AllocError>
    requires { IsSomeBundle bundle.now }
    ensures { IfOk result (λ objects. IsBundleOf (map object_parts objects.items) bundle.now) }
{
    let mut objects = Vec::new(alloc);
    let mut reader = Reader::new(bundle);
    'objects: while !reader.is_at_end() {
        match object_at(&mut reader) {
            Some(object) => objects.push(object)?,
            None => unreachable!(),
        }
    }
    Ok(objects)
}
