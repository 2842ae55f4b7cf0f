//! Reads the input of a call from bytes: a batch, and the contents of the objects at a log's right edge.

ghost use Rattle.std.specs.Prelude.{◌≡◌, ◌++◌, ◌<◌, ◌^◌, ℕ, List, IfOk, IfSome, IfNone, option_map, map, length};
ghost use Rattle.ct_codec.specs.Bytes.{vec};
ghost use Rattle.ct_codec.specs.Decoded.{entry_lent};
ghost use Rattle.ct_data_tiles.specs.DataTile.{tiled_all};
ghost use Rattle.ct_data_tiles.specs.Lent.{tiled};
ghost use Rattle.ct_step.specs.Entries.{AreShort};
ghost use Rattle.ct_step.specs.StepBytes.{entry_parts, certificate_in, precertificate_in, submitted_in, chain_in, is_submitted, submission_in, batch_in, IsBatchText, IsContentsText};

use crate::entry::Entry;
use crate::fault::NoTile;
use ct_codec::{LentEntry, Reader, Submission};
use ct_data_tiles::{TileLeaf, tile_leaves};
use std::alloc::{AllocError, Global};

// Returns the fingerprints of a chain, or None if there are more than 2,047.
fn chain_of(alloc: Global, fingerprints: &[u8]) -> Result<Option<Vec<[u8; 32]>>, AllocError>
    ensures chain { IfOk result (λ o. option_map (λ c. c.items) o ≡ chain_in fingerprints.now) }
    ensures short { IfOk result (λ o. IfSome o (λ c. AreShort c.items)) }
{
    let (hashes, _) = fingerprints.as_chunks::<32>();
    if hashes.len() < 2048 {
        Ok(Some(Vec::from_slice(alloc, hashes)?))
    } else {
        Ok(None)
    }
}

// Returns the submission of a certificate.
fn certificate_of(alloc: Global, certificate: &[u8]) -> Result<Option<Submission>, AllocError>
    ensures { IfOk result (λ o. o ≡ certificate_in certificate.now) }
{
    let mut chain = Vec::new(alloc);
    chain.push(Vec::from_slice(alloc, certificate)?)?;
    Ok(Submission::x509(chain).ok())
}

// Returns the submission of a precertificate, with its TBSCertificate and the hash of its issuer's key.
fn precertificate_of(
    alloc: Global,
    key_hash: [u8; 32],
    tbs: &[u8],
    precertificate: &[u8],
) -> Result<Option<Submission>, AllocError>
    ensures { IfOk result (λ o. o ≡ precertificate_in key_hash tbs.now precertificate.now) }
{
    let tbs = Vec::from_slice(alloc, tbs)?;
    let mut chain = Vec::new(alloc);
    chain.push(Vec::from_slice(alloc, precertificate)?)?;
    Ok(Submission::precert(key_hash, tbs, chain).ok())
}

// Returns the submission of a tile leaf.
fn submitted_of(alloc: Global, leaf: &TileLeaf<'_>) -> Result<Option<Submission>, AllocError>
    ensures { IfOk result (λ o. o ≡ submitted_in (entry_lent leaf.now.entry) leaf.now.precertificate.now) }
{
    match leaf.entry {
        LentEntry::X509(certificate) => certificate_of(alloc, certificate),
        LentEntry::Precert(key_hash, tbs) => {
            precertificate_of(alloc, key_hash, tbs, leaf.precertificate)
        }
    }
}

// Reports whether a tile leaf has the timestamp 0 and no extensions.
fn is_submitted(leaf: &TileLeaf<'_>) -> bool
    ensures { result ≡ is_submitted (tiled leaf.now) }
{
    leaf.timestamp == 0 && leaf.extensions.is_empty()
}

// Returns the submission that a tile leaf represents, with its chain's fingerprints.
fn entry_of(alloc: Global, leaf: &TileLeaf<'_>) -> Result<Option<Entry>, AllocError>
    ensures { IfOk result (λ o. option_map entry_parts o ≡ submission_in (tiled leaf.now)) }
{
    if !is_submitted(leaf) {
        return Ok(None);
    }
    let Some(chain) = chain_of(alloc, leaf.fingerprints)? else {
        return Ok(None);
    };
    match submitted_of(alloc, leaf)? {
        Some(submission) => Ok(Some(Entry { submission, chain })),
        None => Ok(None),
    }
}

// Returns the batch of tile leaves, if each of them represents a submission.
fn batch_of_leaves(alloc: Global, leaves: &[TileLeaf<'_>]) -> Result<Option<Vec<Entry>>, AllocError>
    ensures { IfOk result (λ o. option_map (λ b. map entry_parts b.items) o ≡ batch_in (tiled_all leaves.now)) }
{
    let mut batch = Vec::new(alloc);
    for leaf in leaves {
        let Some(entry) = entry_of(alloc, leaf)? else {
            return Ok(None);
        };
        batch.push(entry)?;
    }
    Ok(Some(batch))
}

/// Returns the batch that the bytes represent, if they are one.
pub(crate) fn batch_of(alloc: Global, bytes: &[u8]) -> Result<Option<Vec<Entry>>, AllocError>
    ensures { IfOk result (λ o. IsBatchText bytes.now (option_map (λ b. map entry_parts b.items) o)) }
{
    match tile_leaves(alloc, bytes) {
        Ok(leaves) => batch_of_leaves(alloc, &leaves),
        Err(fault) => {
            NoTile::from(fault).told?;
            Ok(None)
        }
    }
}

// Reads a content whose length has 8 bytes.
#[tactic(auto, using(crate::proofs::Contents::no_length))]
fn content_at<'a>(reader: &mut Reader<'a>) -> Option<&'a [u8]>
    ensures some { IfSome result (λ x. (length x.now < 2 ^ 64) × (reader.old ≡ vec 8 x.now ++ reader.new)) }
    ensures none { IfNone result ((x r : List ℕ) → length x < 2 ^ 64 → reader.old ≡ vec 8 x ++ r → ⊥) }
{
    let Some(length) = reader.number_8() else {
        return None;
    };
    let Some(content) = reader.bytes(length as usize) else {
        return None;
    };
    Some(content)
}

/// Returns the contents that the bytes represent, if they are such a list.
pub(crate) fn contents_of(alloc: Global, bytes: &[u8]) -> Result<Option<Vec<Vec<u8>>>, AllocError>
    ensures { IfOk result (λ o. IsContentsText bytes.now (option_map (λ v. map (λ b. b.items) v.items) o)) }
{
    let mut contents = Vec::new(alloc);
    let mut reader = Reader::new(bytes);
    'contents: while !reader.is_at_end() {
        let Some(content) = content_at(&mut reader) else {
            return Ok(None);
        };
        contents.push(Vec::from_slice(alloc, content)?)?;
    }
    Ok(Some(contents))
}
