//! The bytes of identities, leaves and chains (RFC 6962 sections 3.1, 3.4 and 4.6).

ghost use Rattle.std.specs.Prelude.{◌≡◌, ◌<◌, ◌^◌, ◌++◌, [], List, map, length, IfOk, OnOk, IsOkUnless};
ghost use Rattle.std.specs.Str.{bytes_eq};
ghost use Rattle.ct_codec.specs.Bytes.{vec};
ghost use Rattle.ct_codec.specs.Leaf.{chain_bytes, LeafText, timestamped_text, index_extension, type_of, key_hash_of};
ghost use Rattle.ct_codec.specs.Submitted.{entry_of, identity_of, precertificate_text, ExtraData};

use crate::numbers::{number_bytes_2, number_bytes_3, number_bytes_5, number_bytes_8};
use crate::refusal::Refusal;
use crate::submission::Submission;
use std::alloc::Allocator;

/// Writes a certificate or TBSCertificate: its length in three bytes, and its bytes.
pub fn push_vector<A: Allocator>(out: &mut Vec<u8, A>, bytes: &[u8]) -> Result<(), Refusal>
    requires { length bytes.now < 2 ^ 24 }
    ensures written { OnOk result (out.new.items ≡ out.old.items ++ vec 3 bytes.now) }
    ensures memory { IsOkUnless result Refusal.Memory }
{
    out.extend_from_slice(&number_bytes_3(bytes.len() as u32))?;
    out.extend_from_slice(bytes)?;
    Ok(())
}

// The number of the entry type, and the hash of the issuer's key, which is empty if a certificate was submitted.
pub(crate) fn type_and_key_hash<S: Allocator>(submission: &Submission<S>) -> (u16, &[u8])
    ensures number { result.0 ≡ type_of (entry_of submission.now) }
    ensures key_hash { result.1.now ≡ key_hash_of (entry_of submission.now) }
{
    match submission.issuer_key_hash() {
        None => (0, &[]),
        Some(key_hash) => (1, key_hash),
    }
}

// Writes the entry type and the signed entry.
fn push_entry<A: Allocator, S: Allocator>(
    out: &mut Vec<u8, A>,
    submission: &Submission<S>,
) -> Result<(), Refusal>
    ensures written { OnOk result (out.new.items ≡ out.old.items ++ identity_of submission.now) }
    ensures memory { IsOkUnless result Refusal.Memory }
{
    let (entry_type, key_hash) = type_and_key_hash(submission);
    out.extend_from_slice(&number_bytes_2(entry_type))?;
    out.extend_from_slice(key_hash)?;
    push_vector(out, submission.signed())
}

/// The submission's identity: the entry type and the signed entry, without timestamp and chain. For a precertificate, the signed entry is
/// the hash of its issuer's key and its TBSCertificate, so the precertificate itself does not count.
pub fn identity<A: Allocator, S: Allocator>(
    alloc: A,
    submission: &Submission<S>,
) -> Result<Vec<u8, A>, Refusal>
    ensures text { IfOk result (λ b. b.items ≡ identity_of submission.now) }
    ensures memory { IsOkUnless result Refusal.Memory }
{
    let mut text = Vec::new(alloc);
    push_entry(&mut text, submission)?;
    Ok(text)
}

/// Reports whether two submissions have the same identity. It copies no byte of either.
pub fn same_identity<A: Allocator, B: Allocator>(a: &Submission<A>, b: &Submission<B>) -> bool
    ensures { result ≡ bytes_eq (identity_of a.now) (identity_of b.now) }
{
    a.in_range();
    b.in_range();
    let (a_type, a_key_hash) = type_and_key_hash(a);
    let (b_type, b_key_hash) = type_and_key_hash(b);
    a_type == b_type && a_key_hash == b_key_hash && a.signed() == b.signed()
}

/// Writes the timestamped entry (TimestampedEntry, RFC 6962 section 3.4) of the submission with this timestamp, in milliseconds, and these
/// extensions, at most 65,535 bytes.
pub fn push_timestamped_entry<A: Allocator, S: Allocator>(
    out: &mut Vec<u8, A>,
    submission: &Submission<S>,
    timestamp: u64,
    extensions: &[u8],
) -> Result<(), Refusal>
    requires { length extensions.now < 2 ^ 16 }
    ensures written { OnOk result (out.new.items ≡ out.old.items ++ timestamped_text timestamp (entry_of submission.now) extensions.now) }
    ensures memory { IsOkUnless result Refusal.Memory }
{
    out.extend_from_slice(&number_bytes_8(timestamp))?;
    push_entry(out, submission)?;
    out.extend_from_slice(&number_bytes_2(extensions.len() as u16))?;
    out.extend_from_slice(extensions)?;
    Ok(())
}

/// The bytes of the submission's leaf (MerkleTreeLeaf, RFC 6962 section 3.4) with this timestamp, in milliseconds, and these extensions, at
/// most 65,535 bytes.
pub fn leaf_input_with_extensions<A: Allocator, S: Allocator>(
    alloc: A,
    submission: &Submission<S>,
    timestamp: u64,
    extensions: &[u8],
) -> Result<Vec<u8, A>, Refusal>
    requires { length extensions.now < 2 ^ 16 }
    ensures text { IfOk result (λ b. LeafText timestamp (entry_of submission.now) extensions.now b.items) }
    ensures memory { IsOkUnless result Refusal.Memory }
{
    submission.in_range();
    let mut bytes = Vec::new(alloc);
    bytes.extend_from_slice(&[0, 0])?;
    push_timestamped_entry(&mut bytes, submission, timestamp, extensions)?;
    Ok(bytes)
}

/// The bytes of the submission's leaf (MerkleTreeLeaf, RFC 6962 section 3.4) with this timestamp, in milliseconds, and no extensions.
pub fn leaf_input<A: Allocator, S: Allocator>(
    alloc: A,
    submission: &Submission<S>,
    timestamp: u64,
) -> Result<Vec<u8, A>, Refusal>
    ensures text { IfOk result (λ b. LeafText timestamp (entry_of submission.now) [] b.items) }
    ensures memory { IsOkUnless result Refusal.Memory }
{
    leaf_input_with_extensions(alloc, submission, timestamp, &[])
}

/// The extensions of a leaf that contain its index in the log and nothing else (leaf_index, C2SP static-ct-api), for an index below 2^40.
#[tactic(auto, unfolding(crate::specs::Bytes::num))]
pub fn index_extension(index: u64) -> [u8; 8]
    requires { index < 2 ^ 40 }
    ensures { result ≡ index_extension index }
{
    let i = number_bytes_5(index);
    [0, 0, 5, i[0], i[1], i[2], i[3], i[4]]
}

// The number of bytes of the certificates one after the other, each as a vector.
fn chain_size<S: Allocator>(certificates: &[Vec<u8, S>]) -> u32
    requires { length (chain_bytes (map (λ c. c.items) certificates.now)) < 2 ^ 24 }
    ensures { result ≡ length (chain_bytes (map (λ c. c.items) certificates.now)) }
{
    let mut size = 0;
    for certificate in certificates {
        size += 3 + certificate.len() as u32;
    }
    size
}

// Writes certificates as a chain.
fn push_chain<A: Allocator, S: Allocator>(
    out: &mut Vec<u8, A>,
    certificates: &[Vec<u8, S>],
) -> Result<(), Refusal>
    requires { length (chain_bytes (map (λ c. c.items) certificates.now)) < 2 ^ 24 }
    ensures written { OnOk result (out.new.items ≡ out.old.items ++ vec 3 (chain_bytes (map (λ c. c.items) certificates.now))) }
    ensures memory { IsOkUnless result Refusal.Memory }
{
    out.extend_from_slice(&number_bytes_3(chain_size(certificates)))?;
    for certificate in certificates {
        push_vector(out, certificate)?;
    }
    Ok(())
}

/// Writes the precertificate as a vector, if one was submitted.
pub fn push_precertificate<A: Allocator, S: Allocator>(
    out: &mut Vec<u8, A>,
    submission: &Submission<S>,
) -> Result<(), Refusal>
    ensures written { OnOk result (out.new.items ≡ out.old.items ++ precertificate_text submission.now) }
    ensures memory { IsOkUnless result Refusal.Memory }
{
    if submission.issuer_key_hash().is_some() {
        submission.in_range();
        push_vector(out, submission.end_entity())?;
    }
    Ok(())
}

/// The bytes that accompany the submission's leaf (RFC 6962 section 4.6): the certificates after the first, as a chain. If a precertificate
/// was submitted, it comes before them as a vector (PrecertChainEntry).
pub fn extra_data<A: Allocator, S: Allocator>(
    alloc: A,
    submission: &Submission<S>,
) -> Result<Vec<u8, A>, Refusal>
    ensures text { IfOk result (λ b. ExtraData submission.now b.items) }
    ensures memory { IsOkUnless result Refusal.Memory }
{
    let mut bytes = Vec::new(alloc);
    push_precertificate(&mut bytes, submission)?;
    push_chain(&mut bytes, &submission.certificates()[1..])?;
    Ok(bytes)
}
