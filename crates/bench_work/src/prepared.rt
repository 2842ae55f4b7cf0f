//! Certificates of 1,500 bytes, each with a number: their submissions, and items with the hashes of their leaves.

ghost use Rattle.std.specs.Prelude.{◌≡◌};
ghost use Rattle.ct_core.specs.Leaf.{leaf_at};
ghost use Rattle.ct_core.specs.Tree.{sha256_leaf};

use ct_codec::{Item, Refusal, Submission, leaf_input};
use ct_tree::{Sha256Hash, leaf_hash};
use std::alloc::{AllocError, Global};

// An item, and the hash of the leaf that it gets if it is settled at that timestamp.
#[derive(Drop)]
pub(crate) struct ReadyItem {
    pub(crate) item: Item,
    pub(crate) hash: [u8; 32],
    pub(crate) moment: u64,
    ghost hashed: { hash ≡ sha256_leaf (leaf_at item.submission moment) },
}

// Returns the certificate with that number.
fn certificate(heap: Global, number: u64) -> Result<Vec<u8>, AllocError> {
    let mut certificate = Vec::with_capacity(heap, 1_500)?;
    certificate.extend_from_slice(&number.to_be_bytes())?;
    certificate.resize(1_500, 7)?;
    Ok(certificate)
}

// Returns the submission of the certificate with that number.
pub(crate) fn submission(heap: Global, number: u64) -> Result<Submission, Refusal> {
    let mut chain = Vec::new(heap);
    chain.push(certificate(heap, number)?)?;
    Submission::x509(chain)
}

// Returns the item of the certificate with that number, for that timestamp.
#[tactic(auto, unfolding(ct_core::specs::Leaf::leaf_at, ct_core::specs::Tree::sha256_leaf))]
pub(crate) fn prepare(heap: Global, number: u64, moment: u64) -> Result<ReadyItem, Refusal> {
    let submission = submission(heap, number)?;
    let hash = leaf_hash(&Sha256Hash, &leaf_input(heap, &submission, moment)?);
    let item = Item {
        front: 0,
        ticket: number,
        submission,
    };
    Ok(ReadyItem { item, hash, moment })
}

// Returns the items of `count` certificates, from the one with the number `first` on.
pub(crate) fn prepare_all(
    heap: Global,
    first: u64,
    count: u64,
    moment: u64,
) -> Result<Vec<ReadyItem>, Refusal> {
    let mut items = Vec::new(heap);
    for k in 0..count {
        items.push(prepare(heap, first.wrapping_add(k), moment)?)?;
    }
    Ok(items)
}
