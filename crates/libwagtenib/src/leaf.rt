//! Leaves (RFC 6962 section 3.4).
ghost use Rattle.std.specs.Prelude.{◌≡◌, IfOk, IfErr};
ghost use Rattle.sha2.specs.Sha256.{sha256};
ghost use Rattle.ct_tree.specs.Tree.{hash_leaf};
ghost use Rattle.ct_codec.specs.Faults.{LeafFaulty};
ghost use Rattle.libwagtenib.specs.Codes.{leaf_code, DecodesLeaf};

use ct_codec::{DecodeFault, LentEntry, lend_leaf};
use ct_tree::{Sha256Hash, leaf_hash};

/// The fields of a leaf. Its certificate or TBSCertificate begins at byte 15 (entry type 0) or 47 (entry type 1), and its
/// extensions end the leaf. The timestamp is in milliseconds, the lengths are in bytes.
#[repr(C)]
#[derive(Clone, Copy)]
pub struct LeafInfo {
    pub timestamp: u64,
    pub certificate_length: u64,
    pub extensions_length: u64,
    pub entry_type: u32,
}

// The number of a leaf's fault.
pub(crate) fn number_of(fault: DecodeFault) -> u32
    ensures { result ≡ leaf_code fault }
{
    match fault {
        DecodeFault::Memory => 8,
        DecodeFault::Truncated => 17,
        DecodeFault::BadVersion => 18,
        DecodeFault::BadLeafType => 19,
        DecodeFault::BadEntryType => 20,
        DecodeFault::EmptyVector => 21,
        DecodeFault::Trailing => 22,
    }
}

/// The hash of a leaf, SHA-256(00 || leaf) (RFC 6962 section 2.1).
#[unsafe(no_mangle)]
pub extern "C" fn wagtenib_leaf_hash(leaf: &[u8], out: &mut [u8; 32])
    ensures { out.new ≡ hash_leaf sha256 leaf.now }
{
    *out = leaf_hash(&Sha256Hash, leaf);
}

/// Reads a leaf (MerkleTreeLeaf, v1). 0: the bytes are one, and `out` describes it. Otherwise 17 to 22, the first fault from the
/// left, and `out` is unchanged.
#[unsafe(no_mangle)]
pub extern "C" fn wagtenib_decode_leaf(leaf: &[u8], out: &mut LeafInfo) -> u32
    ensures { DecodesLeaf result out.old out.new leaf.now }
{
    let read = match lend_leaf(leaf) {
        Ok(read) => read,
        Err(fault) => return number_of(fault),
    };
    let (entry_type, certificate) = match read.entry {
        LentEntry::X509(certificate) => (0, certificate),
        LentEntry::Precert(_, certificate) => (1, certificate),
    };
    *out = LeafInfo {
        timestamp: read.timestamp,
        certificate_length: certificate.len() as u64,
        extensions_length: read.extensions.len() as u64,
        entry_type,
    };
    0
}
