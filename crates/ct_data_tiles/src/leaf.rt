//! A leaf in the form that a data tile has it.

ghost use Rattle.std.specs.Prelude.{◌≡◌, ◌<◌, ◌^◌, length};
ghost use Rattle.ct_codec.specs.Submitted.{entry_of, precertificate_text};
ghost use Rattle.ct_codec.specs.Parts.{joined};
ghost use Rattle.ct_codec.specs.Decoded.{entry_lent};
ghost use Rattle.ct_data_tiles.specs.TileLeaf.{IsTileLeaf, IsBesideEntry, beside_text};
ghost use Rattle.ct_data_tiles.specs.Lent.{tiled};

use ct_codec::{LentEntry, Submission};
use std::alloc::Allocator;

/// A leaf in the form that a data tile has it (TileLeaf, C2SP static-ct-api). Its parts are borrowed.
#[derive(Clone, Copy)]
pub struct TileLeaf<'a> {
    /// The timestamp, in milliseconds.
    pub timestamp: u64,
    /// The entry of the leaf: a certificate, or a precertificate's TBSCertificate and the hash of its issuer's key.
    pub entry: LentEntry<'a>,
    /// The extensions, 0 to 65,535 bytes.
    pub extensions: &'a [u8],
    /// The precertificate, or no bytes if the entry is a certificate.
    pub precertificate: &'a [u8],
    /// The SHA-256 fingerprints of the chain's issuers, 32 bytes each, in order, at most 2,047.
    pub fingerprints: &'a [u8],
}

// Returns the entry of the submission's leaf.
fn lent_entry<S: Allocator>(submission: &Submission<S>) -> LentEntry<'_>
    ensures { entry_lent result ≡ entry_of submission.now }
{
    match submission.issuer_key_hash() {
        None => LentEntry::X509(submission.signed()),
        Some(key_hash) => LentEntry::Precert(*key_hash, submission.signed()),
    }
}

// Returns the precertificate, or no bytes if a certificate was submitted.
fn precertificate_of<S: Allocator>(submission: &Submission<S>) -> &[u8]
    ensures beside { IsBesideEntry (entry_of submission.now) result.now }
    ensures text { beside_text (entry_of submission.now) result.now ≡ precertificate_text submission.now }
{
    submission.in_range();
    match submission.issuer_key_hash() {
        None => &[],
        Some(_) => submission.end_entity(),
    }
}

/// Returns the tile leaf of a submission, with this timestamp in milliseconds, these extensions (at most 65,535 bytes), and the
/// fingerprints of its chain's issuers (at most 2,047). If a precertificate was submitted, it is the first certificate of the submission's
/// chain.
pub fn tile_leaf_of<'a, S: Allocator>(
    submission: &'a Submission<S>,
    timestamp: u64,
    extensions: &'a [u8],
    fingerprints: &'a [[u8; 32]],
) -> TileLeaf<'a>
    requires extensions { length extensions.now < 2 ^ 16 }
    requires fingerprints { length fingerprints.now < 2 ^ 11 }
    ensures leaf { IsTileLeaf (tiled result) }
    ensures timestamp { result.timestamp ≡ timestamp }
    ensures entry { entry_lent result.entry ≡ entry_of submission.now }
    ensures extensions { result.extensions.now ≡ extensions.now }
    ensures precertificate { beside_text (entry_of submission.now) result.precertificate.now ≡ precertificate_text submission.now }
    ensures fingerprints { result.fingerprints.now ≡ joined fingerprints.now }
{
    submission.in_range();
    let precertificate = precertificate_of(submission);
    TileLeaf {
        timestamp,
        entry: lent_entry(submission),
        extensions,
        precertificate,
        fingerprints: fingerprints.as_flattened(),
    }
}
