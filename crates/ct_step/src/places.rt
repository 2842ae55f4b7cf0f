//! Finds the offsets of the objects of a step in its staged batch.

ghost use Rattle.std.specs.Prelude.{◌≡◌, ◌<◌, ◌^◌, IfOk, map};
ghost use Rattle.sha2.specs.Sha256.{sha256};
ghost use Rattle.ct_step.specs.Resumed.{object_parts};
ghost use Rattle.ct_step.specs.StepWords.{bundle_size, place_parts, references_of};

use crate::Object;
use ct_tree::{NodeHash, Sha256Hash};
use std::alloc::{AllocError, Global};

// The position of an object in a staged batch: its name, the byte offset and the length of its content, and the content's SHA-256 digest.
#[derive(Drop)]
pub struct Place<'a> {
    pub(crate) name: &'a [u8],
    pub(crate) start: u64,
    pub(crate) length: u64,
    pub(crate) digest: [u8; 32],
}

// Returns the SHA-256 digest of a content. It is not computed again if the content is the partial data tile, whose digest is known.
fn digest_of(content: &[u8], partial: &[u8], known: &[u8; 32]) -> [u8; 32]
    requires { known.now ≡ sha256 partial.now }
    ensures { result ≡ sha256 content.now }
{
    if content == partial {
        *known
    } else {
        Sha256Hash.hash(&[content])
    }
}

// Returns the positions of the objects of a staged batch. A partial data tile with a known digest is not hashed again.
pub(crate) fn places_of<'a>(
    alloc: Global,
    objects: &[Object<'a>],
    partial: &[u8],
    known: &[u8; 32],
) -> Result<Vec<Place<'a>>, AllocError>
    requires size { bundle_size (map object_parts objects.now) < 2 ^ 64 }
    requires known { known.now ≡ sha256 partial.now }
    ensures { IfOk result (λ places. map place_parts places.items ≡ references_of sha256 (map object_parts objects.now)) }
{
    let mut places = Vec::new(alloc);
    let mut end = 0u64;
    for object in objects {
        let start = end + (6 + object.name.len() as u64);
        let length = object.content.len() as u64;
        places.push(Place {
            name: object.name,
            start,
            length,
            digest: digest_of(object.content, partial, known),
        })?;
        end = start + length;
    }
    Ok(places)
}
