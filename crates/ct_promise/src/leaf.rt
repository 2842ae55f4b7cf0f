//! The leaf that a timestamp embedded in a certificate promises (RFC 6962, sections 3.2 to 3.4).

ghost use Rattle.std.specs.Prelude.{◌≡◌, ◌<◌, ◌^◌, ◌++◌, ℕ, List, length, Ok, IfOk};
ghost use Rattle.sha2.specs.Sha256.{sha256};
ghost use Rattle.ct_codec.specs.Leaf.{precertificate, leaf_text};
ghost use Rattle.ct_promise.specs.DerReading.{Gives};
ghost use Rattle.ct_promise.specs.Reading.{whole_tbs_at, key_at};
ghost use Rattle.ct_promise.specs.Promise.{in_document, promised_leaf_at, promised_at, GivesPromise, IsPromised};

use crate::entry::{cut_in, without_cut};
use crate::fault::{Document, PromiseFault, Unfit};
use crate::reading::{key_of, tbs_of};
use ct_codec::numbers::{number_bytes_2, number_bytes_3, number_bytes_8};
use ct_tree::{NodeHash, Sha256Hash};
use std::alloc::Global;

// The contents of the object identifier of the list of timestamps, 1.3.6.1.4.1.11129.2.4.2.
const LIST_IDENTIFIER: [u8; 10] = [43, 6, 1, 4, 1, 214, 121, 2, 4, 2];

// The TBSCertificate of a document.
fn tbs_in(document: Document, bytes: &[u8]) -> Result<&[u8], Unfit>
    ensures { Gives (λ x. x.now) result (in_document document (whole_tbs_at bytes.now)) }
{
    match tbs_of(bytes) {
        Ok(tbs) => Ok(tbs),
        Err(fault) => Err(Unfit::Uncut(document, fault)),
    }
}

// The key of a document's TBSCertificate.
fn key_in(document: Document, tbs: &[u8]) -> Result<&[u8], Unfit>
    ensures { Gives (λ x. x.now) result (in_document document (key_at tbs.now)) }
{
    match key_of(tbs) {
        Ok(key) => Ok(key),
        Err(fault) => Err(Unfit::Uncut(document, fault)),
    }
}

// SHA-256 of a key.
#[tactic(auto, using(std::proofs::lemmas::Grind::common_steps))]
fn key_hash(key: &[u8]) -> [u8; 32]
    ensures { result ≡ sha256 key.now }
{
    Sha256Hash.hash(&[key])
}

// The leaf of an entry.
fn written_leaf(
    alloc: Global,
    timestamp: u64,
    hash: &[u8; 32],
    entry: &[u8],
    extensions: &[u8],
) -> Result<Vec<u8>, PromiseFault>
    requires entry { length entry.now < 16777216 }
    requires extensions { length extensions.now < 2 ^ 16 }
    ensures { GivesPromise (λ v. v.items) result (Ok (leaf_text timestamp (precertificate hash.now entry.now) extensions.now)) }
{
    let mut out = Vec::new(alloc);
    out.extend_from_slice(&[0, 0])?;
    out.extend_from_slice(&number_bytes_8(timestamp))?;
    out.extend_from_slice(&number_bytes_2(1))?;
    out.extend_from_slice(hash)?;
    out.extend_from_slice(&number_bytes_3(entry.len() as u32))?;
    out.extend_from_slice(entry)?;
    out.extend_from_slice(&number_bytes_2(extensions.len() as u16))?;
    out.extend_from_slice(extensions)?;
    Ok(out)
}

// The leaf of an entry, if the entry is in range.
fn leaf_of(
    alloc: Global,
    timestamp: u64,
    key: &[u8],
    entry: &[u8],
    extensions: &[u8],
) -> Result<Vec<u8>, PromiseFault>
    requires { length extensions.now < 2 ^ 16 }
    ensures { GivesPromise (λ v. v.items) result (promised_leaf_at timestamp key.now entry.now extensions.now) }
{
    if entry.len() >= 16777216 {
        return Err(PromiseFault::Unfit(Unfit::TooLong));
    }
    let hash = key_hash(key);
    written_leaf(alloc, timestamp, &hash, entry, extensions)
}

// The parts of the leaf: the key, and the certificate's parts.
#[tactic(auto, unfolding(crate::specs::Promise::promised_at))]
fn read_promised(
    alloc: Global,
    certificate: &[u8],
    issuer: &[u8],
    timestamp: u64,
    extensions: &[u8],
) -> Result<Vec<u8>, PromiseFault>
    requires { length extensions.now < 2 ^ 16 }
    ensures { GivesPromise (λ v. v.items) result (promised_at certificate.now issuer.now timestamp extensions.now) }
{
    let tbs = tbs_in(Document::Certificate, certificate)?;
    let cut = cut_in(Document::Certificate, &LIST_IDENTIFIER, tbs)?;
    let issuer_tbs = tbs_in(Document::Issuer, issuer)?;
    let key = key_in(Document::Issuer, issuer_tbs)?;
    let entry = without_cut(alloc, &cut)?;
    leaf_of(alloc, timestamp, key, &entry, extensions)
}

/// The leaf that a timestamp embedded in a certificate promises, with this timestamp, in milliseconds, and these extensions, at most 65,535
/// bytes. It consists of the certificate without the list of timestamps, and of SHA-256 of its issuer's key (RFC 6962, sections 3.2 to
/// 3.4). Both documents are given in DER. These bytes are also the bytes that the log signed.
///
/// # Errors
///
/// `Unfit`, the first fault that reading finds; `Memory` if memory runs out.
pub fn promised_leaf(
    alloc: Global,
    certificate: &[u8],
    issuer: &[u8],
    timestamp: u64,
    extensions: &[u8],
) -> Result<Vec<u8>, PromiseFault>
    requires { length extensions.now < 2 ^ 16 }
    // The returned bytes are always that leaf.
    ensures found { IfOk result (λ v. IsPromised certificate.now issuer.now timestamp extensions.now v.items) }
    // Each promised leaf is returned, unless memory is refused.
    ensures every { (leaf : List ℕ) → IsPromised certificate.now issuer.now timestamp extensions.now leaf
        → GivesPromise (λ v. v.items) result (Ok leaf) }
    // The fault is exactly that of reading.
    ensures exact { GivesPromise (λ v. v.items) result (promised_at certificate.now issuer.now timestamp extensions.now) }
{
    read_promised(alloc, certificate, issuer, timestamp, extensions)
}
