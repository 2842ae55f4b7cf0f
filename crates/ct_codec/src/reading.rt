//! Leaves, chains and chains of precertificates read from bytes (RFC 6962 sections 3.1, 3.4 and 4.6).

ghost use Rattle.std.specs.Prelude.{◌≡◌, ◌≢◌, ◌<◌, ◌≤◌, ◌^◌, ◌++◌, [], ◌∷◌, ℕ, List, map, length, IfOk, IfErr};
ghost use Rattle.std.specs.Prelude.{OnOk, ◌⊎◌};
ghost use Rattle.std.specs.List.{AllByRecursion};
ghost use Rattle.ct_codec.specs.Bytes.{num, vec};
ghost use Rattle.ct_codec.specs.Leaf.{SignedEntry, IsCertificate, IsEntry, LeafText, entry_text, chain_bytes, AreCertificates, ChainText, PreChainText};
ghost use Rattle.ct_codec.specs.Faults.{EntryFaulty, LeafFaulty, CertificatesFaulty, ChainFaulty, PreChainFaulty};
ghost use Rattle.ct_codec.specs.declared.fault.DecodeFault.TheVariants.{Memory};
ghost use Rattle.ct_codec.specs.Decoded.{entry_in, entry_lent, certificates_in, IsTextOf, GivesLeaf, GivesChain, GivesPreChain};

use crate::copies::push_copy;
use crate::fault::DecodeFault;
use crate::reader::Reader;
use std::alloc::{AllocError, Allocator, Global};

/// The subject of a leaf (RFC 6962 sections 3.1 and 3.2).
#[derive(Debug, PartialEq, Eq, Drop)]
pub enum LeafEntry<A: Allocator = Global> {
    /// A certificate.
    X509(Vec<u8, A>),
    /// The hash of the issuer's key, and a TBSCertificate.
    Precert([u8; 32], Vec<u8, A>),
}

/// A leaf as it was read (RFC 6962 section 3.4).
#[derive(Debug, PartialEq, Eq, Drop)]
pub struct Leaf<A: Allocator = Global> {
    /// The timestamp, in milliseconds.
    pub timestamp: u64,
    /// The subject of the leaf.
    pub entry: LeafEntry<A>,
    /// The extensions, 0 to 65,535 bytes.
    pub extensions: Vec<u8, A>,
}

/// The subject of a leaf, as a view of the input (RFC 6962 sections 3.1 and 3.2).
#[derive(Clone, Copy)]
pub enum LentEntry<'a> {
    /// A certificate.
    X509(&'a [u8]),
    /// The hash of the issuer's key, and a TBSCertificate.
    Precert([u8; 32], &'a [u8]),
}

/// A leaf, as a view of the input (RFC 6962 section 3.4).
#[derive(Clone, Copy)]
pub struct LentLeaf<'a> {
    /// The timestamp, in milliseconds.
    pub timestamp: u64,
    /// The subject of the leaf.
    pub entry: LentEntry<'a>,
    /// The extensions, 0 to 65,535 bytes.
    pub extensions: &'a [u8],
}

// The version, the leaf type and the timestamp.
fn timestamp_at(reader: &mut Reader<'_>) -> Result<u64, DecodeFault>
    ensures found { IfOk result (λ t. (t < 2 ^ 64) × (reader.old ≡ 0 ∷ 0 ∷ (num 8 t ++ reader.new))) }
    ensures fault { IfErr result (λ f. LeafFaulty f reader.old) }
    ensures named { IfErr result (λ f. f ≢ Memory) }
{
    let Some(version) = reader.number_1() else {
        return Err(DecodeFault::Truncated);
    };
    if version != 0 {
        return Err(DecodeFault::BadVersion);
    }
    let Some(leaf_type) = reader.number_1() else {
        return Err(DecodeFault::Truncated);
    };
    if leaf_type != 0 {
        return Err(DecodeFault::BadLeafType);
    }
    let Some(timestamp) = reader.number_8() else {
        return Err(DecodeFault::Truncated);
    };
    Ok(timestamp)
}

/// The entry type and the signed entry, read from the front as a view of the input. It takes no memory.
///
/// The fault is the first from the left, and never `Memory`.
pub fn entry_at<'a>(reader: &mut Reader<'a>) -> Result<LentEntry<'a>, DecodeFault>
    ensures found { IfOk result (λ e. IsEntry (entry_lent e) × (reader.old ≡ entry_text (entry_lent e) ++ reader.new)) }
    ensures fault { IfErr result (λ f. EntryFaulty f reader.old) }
    ensures named { IfErr result (λ f. f ≢ Memory) }
{
    let Some(entry_type) = reader.number_2() else {
        return Err(DecodeFault::Truncated);
    };
    match entry_type {
        0 => Ok(LentEntry::X509(reader.certificate()?)),
        1 => {
            let Some(key_hash) = reader.key_hash() else {
                return Err(DecodeFault::Truncated);
            };
            Ok(LentEntry::Precert(*key_hash, reader.certificate()?))
        }
        _ => Err(DecodeFault::BadEntryType),
    }
}

/// The leaf that all of the bytes encode, as a view of the input. It takes no memory.
///
/// The fault is the first from the left, and never `Memory`.
pub fn lend_leaf(bytes: &[u8]) -> Result<LentLeaf<'_>, DecodeFault>
    // A leaf is returned only if the bytes are its text.
    ensures found { IfOk result (λ l. LeafText l.timestamp (entry_lent l.entry) l.extensions.now bytes.now) }
    // A fault is returned only if the bytes have it.
    ensures fault { IfErr result (λ f. LeafFaulty f bytes.now) }
    // The text of a leaf is always read, because no memory can be refused.
    ensures named { IfErr result (λ f. f ≢ Memory) }
{
    let mut input = Reader::new(bytes);
    let timestamp = timestamp_at(&mut input)?;
    let entry = entry_at(&mut input)?;
    let Some(extensions) = input.vector_2() else {
        return Err(DecodeFault::Truncated);
    };
    if !input.is_at_end() {
        return Err(DecodeFault::Trailing);
    }
    Ok(LentLeaf {
        timestamp,
        entry,
        extensions,
    })
}

// The entry, copied out of the input.
fn copy_entry<A: Allocator>(alloc: A, entry: LentEntry<'_>) -> Result<LeafEntry<A>, AllocError>
    ensures { IfOk result (λ e. entry_in e ≡ entry_lent entry.entry) }
{
    match entry {
        LentEntry::X509(certificate) => {
            let certificate = Vec::from_slice(alloc, certificate)?;
            Ok(LeafEntry::X509(certificate))
        }
        LentEntry::Precert(key_hash, certificate) => {
            let certificate = Vec::from_slice(alloc, certificate)?;
            Ok(LeafEntry::Precert(key_hash, certificate))
        }
    }
}

/// The leaf that all of the bytes encode. The faults of the bytes are found before memory is taken.
pub fn decode_leaf<A: Allocator + Clone>(alloc: A, bytes: &[u8]) -> Result<Leaf<A>, DecodeFault>
    // A leaf is returned only if the bytes are its text.
    ensures found { IfOk result (λ l. IsTextOf l bytes.now) }
    // The text of a leaf is always read, unless memory is refused.
    ensures every { (t : ℕ) (e : SignedEntry) (x : List ℕ) → LeafText t e x bytes.now → GivesLeaf t e x result }
    // A fault is returned only if the bytes have it.
    ensures fault { IfErr result (λ f. LeafFaulty f bytes.now) }
{
    let leaf = lend_leaf(bytes)?;
    let entry = copy_entry(alloc.clone()?, leaf.entry)?;
    let extensions = Vec::from_slice(alloc, leaf.extensions)?;
    Ok(Leaf {
        timestamp: leaf.timestamp,
        entry,
        extensions,
    })
}

// Walks over the certificates that the bytes consist of, one after the other. It takes no memory.
fn check_certificates(bytes: &[u8]) -> Result<(), DecodeFault>
    ensures found { OnOk result (AreCertificates bytes.now) }
    ensures fault { IfErr result (λ f. CertificatesFaulty f bytes.now) }
{
    let mut reader = Reader::new(bytes);
    'certificates: while !reader.is_at_end() {
        reader.certificate()?;
    }
    Ok(())
}

// The certificates that the bytes consist of, one after the other, copied out of the input.
fn copy_certificates<A: Allocator + Clone>(
    alloc: A,
    bytes: &[u8],
) -> Result<Vec<Vec<u8, A>, A>, DecodeFault>
    ensures found { IfOk result (λ cs. AllByRecursion IsCertificate (certificates_in cs) × (bytes.now ≡ chain_bytes (certificates_in cs))) }
    ensures fault { IfErr result (λ f. (f ≡ Memory) ⊎ CertificatesFaulty f bytes.now) }
{
    let mut certificates = Vec::new(alloc.clone()?);
    let mut reader = Reader::new(bytes);
    'certificates: while !reader.is_at_end() {
        let certificate = reader.certificate()?;
        push_copy(&alloc, &mut certificates, certificate)?;
    }
    Ok(certificates)
}

// The bytes of the certificates of the chain that ends the input. It takes no memory.
fn last_chain<'a>(reader: &mut Reader<'a>) -> Result<&'a [u8], DecodeFault>
    ensures found { IfOk result (λ y. (length y.now < 2 ^ 24) × (reader.old ≡ vec 3 y.now) × AreCertificates y.now) }
    ensures fault { IfErr result (λ f. ChainFaulty f reader.old) }
{
    let Some(certificates) = reader.vector_3() else {
        return Err(DecodeFault::Truncated);
    };
    check_certificates(certificates)?;
    if !reader.is_at_end() {
        return Err(DecodeFault::Trailing);
    }
    Ok(certificates)
}

/// The certificates of the chain that all of the bytes encode. The faults of the bytes are found before memory is taken.
pub fn decode_chain<A: Allocator + Clone>(
    alloc: A,
    bytes: &[u8],
) -> Result<Vec<Vec<u8, A>, A>, DecodeFault>
    // A chain is returned only if the bytes are its text.
    ensures found { IfOk result (λ cs. ChainText (certificates_in cs) bytes.now) }
    // The text of a chain is always read, unless memory is refused.
    ensures every { (cs : List (List ℕ)) → ChainText cs bytes.now → GivesChain cs result }
    // A fault is returned only if the bytes have it.
    ensures fault { IfErr result (λ f. ChainFaulty f bytes.now) }
{
    let mut reader = Reader::new(bytes);
    let certificates = last_chain(&mut reader)?;
    copy_certificates(alloc, certificates)
}

/// The precertificate that the bytes begin with, and the certificates of the chain after it (PrecertChainEntry, RFC 6962 sections 3.1 and
/// 4.6). They are all of the bytes. The faults of the bytes are found before memory is taken.
pub fn decode_pre_chain<A: Allocator + Clone>(
    alloc: A,
    bytes: &[u8],
) -> Result<(Vec<u8, A>, Vec<Vec<u8, A>, A>), DecodeFault>
    // A precertificate and a chain are returned only if the bytes are their text.
    ensures found { IfOk result (λ v. PreChainText v.0.items (certificates_in v.1) bytes.now) }
    // The text of a precertificate with its chain is always read, unless memory is refused.
    ensures every { (c : List ℕ) (cs : List (List ℕ)) → PreChainText c cs bytes.now → GivesPreChain c cs result }
    // A fault is returned only if the bytes have it.
    ensures fault { IfErr result (λ f. PreChainFaulty f bytes.now) }
{
    let mut reader = Reader::new(bytes);
    let first = reader.certificate()?;
    let others = last_chain(&mut reader)?;
    let precertificate = Vec::from_slice(alloc.clone()?, first)?;
    let certificates = copy_certificates(alloc, others)?;
    Ok((precertificate, certificates))
}
