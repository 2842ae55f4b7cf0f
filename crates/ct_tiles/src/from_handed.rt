//! Computes roots, audit paths and consistency proofs from the bytes of tiles that the caller passes.
ghost use Rattle.std.specs.Prelude.{◌≡◌, ◌<◌, ◌≤◌, ◌⊎◌, ℕ, List, length, take, None, OnOk, IfOk, IfErr};
ghost use Rattle.ct_tree.specs.Tree.{mth, path as path_of, proof as proof_of};
ghost use Rattle.ct_verify.specs.Evidence.{IsAudited};
ghost use Rattle.ct_verify.specs.InclusionEvidence.{IsAccepted};
ghost use Rattle.ct_verify.specs.ConsistencyEvidence.{IsAcceptedFor, IsBeginning};
ghost use Rattle.ct_verify.specs.Laws.{AreHashes};
ghost use Rattle.ct_verify.specs.Hashed.{CollideAmong};
ghost use Rattle.ct_verify.specs.ListLaws.{IsHashedInAudit, IsHashedBetween};
ghost use Rattle.ct_tiles.specs.Needed.{root_tiles, path_tiles, proof_tiles};
ghost use Rattle.ct_tiles.specs.Handed.{contents_in, handed_fault, IsHandedFault, AreTilesOf};
ghost use Rattle.ct_tiles.specs.declared.handed.HandedFault.TheVariants.{Memory};

use crate::handed::{HandedFault, HandedTiles};
use crate::needed::{tiles_for_path, tiles_for_proof, tiles_for_root};
use crate::walk::{path, proof, root_at};
use ct_tree::NodeHash;
use std::alloc::Global;

// A lemma, which does nothing: a hash has 32 bytes.
fn is_hash(hash: &[u8; 32])
    ensures { length hash.now ≡ 32 }
{
    let _ = hash;
}

// A lemma, which does nothing: each of the hashes has 32 bytes.
fn are_hashes(hashes: &[[u8; 32]])
    ensures { AreHashes hashes.now }
{
    for hash in hashes {
        is_hash(hash);
    }
}

/// Returns the root of the first `n` leaves (MTH of RFC 6962, section 2.1), computed from the bytes of the tiles that [`tiles_for_root`]
/// lists, in this order.
///
/// Errors: `Missing` and `BadLength` name the first of these tiles that has no bytes, or not 32 for each of its hashes. `Memory` is
/// returned if memory could not be allocated.
pub fn root_of_handed<H: NodeHash>(
    alloc: Global,
    h: &H,
    n: u64,
    contents: &[Vec<u8>],
) -> Result<[u8; 32], HandedFault>
    requires { 0 < n }
    // If the tiles are those of a list of leaves, the root is that of the list.
    ensures root { IfOk result (λ root. (D : List (List ℕ)) → AreTilesOf H.digest D (root_tiles n) (contents_in contents.now) → n ≤ length D
        → root ≡ mth H.digest (take n D)) }
    // A result is returned only if each tile has bytes of the right length.
    ensures whole { OnOk result (handed_fault (root_tiles n) (contents_in contents.now) ≡ None) }
    // The fault that is returned.
    ensures fault { IfErr result (λ fault. IsHandedFault fault (root_tiles n) (contents_in contents.now)) }
    // The tiles of a list of leaves are not refused, unless memory is.
    ensures never_refused { IfErr result (λ fault. (D : List (List ℕ)) → AreTilesOf H.digest D (root_tiles n) (contents_in contents.now) → fault ≡ Memory) }
{
    let needed = tiles_for_root(alloc, n)?;
    let tiles = HandedTiles::new(&needed, contents)?;
    Ok(root_at(h, &tiles, n))
}

/// Returns the audit path of the leaf at index `m` in the tree of the first `n` leaves (PATH of RFC 6962, section 2.1.1), computed from the
/// bytes of the tiles that [`tiles_for_path`] lists, in this order. `ct_verify::verify_inclusion` decides whether it leads to a root.
///
/// Errors: as those of [`root_of_handed`].
pub fn path_of_handed<H: NodeHash>(
    alloc: Global,
    h: &H,
    m: u64,
    n: u64,
    contents: &[Vec<u8>],
) -> Result<Vec<[u8; 32]>, HandedFault>
    requires { m < n }
    // If the tiles are those of a list of leaves, the path is that of the list.
    ensures path { IfOk result (λ path. (D : List (List ℕ)) → AreTilesOf H.digest D (path_tiles m n) (contents_in contents.now) → n ≤ length D
        → path.items ≡ path_of H.digest m (take n D)) }
    // A result is returned only if each tile has bytes of the right length.
    ensures whole { OnOk result (handed_fault (path_tiles m n) (contents_in contents.now) ≡ None) }
    // The fault that is returned.
    ensures fault { IfErr result (λ fault. IsHandedFault fault (path_tiles m n) (contents_in contents.now)) }
    // The tiles of a list of leaves are not refused, unless memory is.
    ensures never_refused { IfErr result (λ fault. (D : List (List ℕ)) → AreTilesOf H.digest D (path_tiles m n) (contents_in contents.now) → fault ≡ Memory) }
    // For any bytes: if the verifier accepts the path for a leaf and the root of some leaves, then that leaf is one of them and the path is
    // theirs, or two of the strings that are hashed collide.
    ensures tells { IfOk result (λ path. (D : List (List ℕ)) (leaf : List ℕ) → IsAccepted H.digest D leaf m path.items
        → IsAudited H.digest D leaf m path.items ⊎ CollideAmong H.digest (IsHashedInAudit H.digest D leaf m path.items)) }
{
    let needed = tiles_for_path(alloc, m, n)?;
    let tiles = HandedTiles::new(&needed, contents)?;
    let path = path(alloc, h, &tiles, m, n)?;
    Ok(path)
}

/// Returns the consistency proof from the tree of the first `m` leaves to that of the first `n` (PROOF of RFC 6962, section 2.1.2),
/// computed from the bytes of the tiles that [`tiles_for_proof`] lists, in this order. `ct_verify::verify_consistency` decides whether it
/// leads to two roots.
///
/// Errors: as those of [`root_of_handed`].
pub fn proof_of_handed<H: NodeHash>(
    alloc: Global,
    h: &H,
    m: u64,
    n: u64,
    contents: &[Vec<u8>],
) -> Result<Vec<[u8; 32]>, HandedFault>
    requires positive { 0 < m }
    requires below { m < n }
    // If the tiles are those of a list of leaves, the proof is that of the list.
    ensures proof { IfOk result (λ proof. (D : List (List ℕ)) → AreTilesOf H.digest D (proof_tiles m n) (contents_in contents.now) → n ≤ length D
        → proof.items ≡ proof_of H.digest m (take n D)) }
    // A result is returned only if each tile has bytes of the right length.
    ensures whole { OnOk result (handed_fault (proof_tiles m n) (contents_in contents.now) ≡ None) }
    // The fault that is returned.
    ensures fault { IfErr result (λ fault. IsHandedFault fault (proof_tiles m n) (contents_in contents.now)) }
    // The tiles of a list of leaves are not refused, unless memory is.
    ensures never_refused { IfErr result (λ fault. (D : List (List ℕ)) → AreTilesOf H.digest D (proof_tiles m n) (contents_in contents.now) → fault ≡ Memory) }
    // Each of its hashes has 32 bytes.
    ensures hashes { IfOk result (λ proof. AreHashes proof.items) }
    // For any bytes: if the verifier accepts the proof for the roots of two lists of leaves, then the first list is a beginning of the
    // second, or two of the strings that are hashed collide.
    ensures tells { IfOk result (λ proof. (E : List (List ℕ)) (D : List (List ℕ)) → IsAcceptedFor H.digest E D proof.items
        → IsBeginning E D ⊎ CollideAmong H.digest (IsHashedBetween H.digest E D proof.items)) }
{
    let needed = tiles_for_proof(alloc, m, n)?;
    let tiles = HandedTiles::new(&needed, contents)?;
    let proof = proof(alloc, h, &tiles, m, n)?;
    are_hashes(&proof);
    Ok(proof)
}
