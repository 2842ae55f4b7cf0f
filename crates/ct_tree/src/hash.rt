//! The hash function of a tree, and its two uses.
ghost use Rattle.std.specs.Prelude.{◌≡◌, ◌↔◌, ◌++◌, ◌∷◌, [], ℕ, List, length, IsTrue};
ghost use Rattle.std.specs.List.{flat_map};
ghost use Rattle.sha2.specs.Sha256.{sha256};
ghost use Rattle.sha2.proofs.Facts256.{length-sha256};
ghost use Rattle.ct_tree.specs.Tree.{hash_leaf, hash_node};

use sha2::{Digest, Sha256};

/// A hash function on byte strings, with digests of 32 bytes. The value of a call depends only on the joined bytes.
pub trait NodeHash {
    // The digest of a message. Every value of the type computes this one function.
    ghost digest: { List ℕ → List ℕ };

    /// The digest of the joined parts.
    fn hash(&self, parts: &[&[u8]]) -> [u8; 32]
        ensures { result ≡ digest (flat_map (λ part. part.now) parts.now) };

    // A digest has 32 bytes.
    ghost length_digest: { (message : List ℕ) → length (digest message) ≡ 32 };
}

/// SHA-256 (FIPS 180-4).
#[derive(Clone, Copy)]
pub struct Sha256Hash;

impl NodeHash for Sha256Hash {
    ghost digest = { sha256 };

    fn hash(&self, parts: &[&[u8]]) -> [u8; 32] {
        let mut hasher = Sha256::new();
        for part in parts {
            hasher.update(*part);
        }
        hasher.finalize()
    }

    ghost length_digest = { length-sha256 };
}

/// The hash of a leaf: H(00 || leaf) (RFC 6962, section 2.1). It takes no memory.
pub fn leaf_hash<H: NodeHash>(h: &H, leaf: &[u8]) -> [u8; 32]
    ensures { result ≡ hash_leaf H.digest leaf.now }
{
    h.hash(&[&[0], leaf])
}

/// The hash of an inner node: H(01 || left || right) (RFC 6962, section 2.1). It takes no memory.
pub fn node_hash<H: NodeHash>(h: &H, left: &[u8; 32], right: &[u8; 32]) -> [u8; 32]
    ensures { result ≡ hash_node H.digest left.now right.now }
{
    h.hash(&[&[1], left, right])
}

/// Reports whether two digests are equal.
pub fn is_same_digest(a: &[u8; 32], b: &[u8; 32]) -> bool
    ensures { IsTrue result ↔ (a.now ≡ b.now) }
{
    *a == *b
}

/// The root of no leaves: H().
pub fn empty_root<H: NodeHash>(h: &H) -> [u8; 32]
    ensures { result ≡ H.digest [] }
{
    h.hash(&[])
}

/// The hash of the leaf whose bytes are the five parts joined. It takes no memory.
pub fn leaf_hash_parts<H: NodeHash>(h: &H, parts: [&[u8]; 5]) -> [u8; 32]
    ensures { result ≡ hash_leaf H.digest (flat_map (λ part. part.now) parts.entry) }
{
    let [first, second, third, fourth, fifth] = parts;
    h.hash(&[&[0], first, second, third, fourth, fifth])
}
