//! Hashes and proofs of subtrees, made from the bytes of tiles that the caller passes.
ghost use Rattle.std.specs.Prelude.{◌≡◌, ◌<◌, ◌≤◌, ℕ, List, length, take, None, OnOk, IfOk, IfErr};
ghost use Rattle.ct_tiles.specs.Handed.{contents_in, handed_fault, IsHandedFault, AreTilesOf};
ghost use Rattle.ct_tiles.specs.declared.handed.HandedFault.TheVariants.{Memory};
ghost use Rattle.ct_subtrees.specs.Subtrees.{IsSubtree, subtree_hash, subtree_path, subtree_proof};
ghost use Rattle.ct_subtrees.specs.Tiles.{subtree_path_tiles, subtree_proof_tiles};

use crate::parts::{above, inside, is_proof_of_end, root_over};
use ct_tiles::{
    HandedFault, HandedTiles, NeededTile, TileSource, path, path_of_handed, proof_of_handed,
    tiles_for_path, tiles_for_proof,
};
use ct_tree::NodeHash;
use std::alloc::{AllocError, Global};

/// Returns the tiles from which [`subtree_path_of_handed`] computes the inclusion proof of the leaf at `index` in a subtree that ends with
/// `end`, each once, the lowest level first. [`subtree_hash_of_handed`] needs those of the subtree's first leaf.
pub fn tiles_for_subtree_path(
    alloc: Global,
    index: u64,
    end: u64,
) -> Result<Vec<NeededTile>, AllocError>
    requires { index < end }
    ensures { IfOk result (λ tiles. tiles.items ≡ subtree_path_tiles index end) }
{
    tiles_for_path(alloc, index, end)
}

/// Returns the tiles from which [`subtree_proof_of_handed`] computes the consistency proof of the subtree `[start, end)` in the tree of the
/// first `n` leaves, each once, the lowest level first.
pub fn tiles_for_subtree_proof(
    alloc: Global,
    start: u64,
    end: u64,
    n: u64,
) -> Result<Vec<NeededTile>, AllocError>
    requires some { start < end }
    requires below { end ≤ n }
    ensures { IfOk result (λ tiles. tiles.items ≡ subtree_proof_tiles start end n) }
{
    if is_proof_of_end(start, end, n) {
        tiles_for_proof(alloc, end, n)
    } else {
        tiles_for_path(alloc, start, n)
    }
}

/// Returns the hash of the subtree `[start, end)`, computed from the bytes of the tiles that [`tiles_for_subtree_path`] lists for its first
/// leaf, in this order.
///
/// Errors: `Missing` and `BadLength` name the first of these tiles that has no bytes, or not 32 for each of its hashes. `Memory` is
/// returned if memory could not be allocated.
pub fn subtree_hash_of_handed<H: NodeHash>(
    alloc: Global,
    h: &H,
    start: u64,
    end: u64,
    contents: &[Vec<u8>],
) -> Result<[u8; 32], HandedFault>
    requires { IsSubtree start end }
    // If the tiles are those of a list of leaves, the hash is that of the list's subtree.
    ensures hash { IfOk result (λ hash. (D : List (List ℕ)) → AreTilesOf H.digest D (subtree_path_tiles start end) (contents_in contents.now)
        → end ≤ length D → hash ≡ subtree_hash H.digest start end D) }
    // A result is returned only if each tile has bytes of the right length.
    ensures whole { OnOk result (handed_fault (subtree_path_tiles start end) (contents_in contents.now) ≡ None) }
    // The fault that is returned.
    ensures fault { IfErr result (λ fault. IsHandedFault fault (subtree_path_tiles start end) (contents_in contents.now)) }
    // The tiles of a list of leaves are not refused, unless memory is.
    ensures never_refused { IfErr result (λ fault. (D : List (List ℕ))
        → AreTilesOf H.digest D (subtree_path_tiles start end) (contents_in contents.now) → fault ≡ Memory) }
{
    let needed = tiles_for_path(alloc, start, end)?;
    let tiles = HandedTiles::new(&needed, contents)?;
    let path = path(alloc, h, &tiles, start, end)?;
    let leaf = tiles.hash(0, start);
    let right = inside(path, 0, end - start);
    Ok(root_over(h, &leaf, &right))
}

/// Returns the inclusion proof of the leaf at `index` in the subtree `[start, end)`, computed from the bytes of the tiles that
/// [`tiles_for_subtree_path`] lists, in this order. `evaluate_subtree_inclusion` returns the hash to which it leads.
///
/// Errors: as those of [`subtree_hash_of_handed`].
pub fn subtree_path_of_handed<H: NodeHash>(
    alloc: Global,
    h: &H,
    index: u64,
    start: u64,
    end: u64,
    contents: &[Vec<u8>],
) -> Result<Vec<[u8; 32]>, HandedFault>
    requires subtree { IsSubtree start end }
    requires from { start ≤ index }
    requires below { index < end }
    // If the tiles are those of a list of leaves, the path is that of the leaf in the list's subtree.
    ensures path { IfOk result (λ path. (D : List (List ℕ)) → AreTilesOf H.digest D (subtree_path_tiles index end) (contents_in contents.now)
        → end ≤ length D → path.items ≡ subtree_path H.digest index start end D) }
    // A result is returned only if each tile has bytes of the right length.
    ensures whole { OnOk result (handed_fault (subtree_path_tiles index end) (contents_in contents.now) ≡ None) }
    // The fault that is returned.
    ensures fault { IfErr result (λ fault. IsHandedFault fault (subtree_path_tiles index end) (contents_in contents.now)) }
    // The tiles of a list of leaves are not refused, unless memory is.
    ensures never_refused { IfErr result (λ fault. (D : List (List ℕ))
        → AreTilesOf H.digest D (subtree_path_tiles index end) (contents_in contents.now) → fault ≡ Memory) }
{
    match path_of_handed(alloc, h, index, end, contents) {
        Ok(path) => Ok(inside(path, index - start, end - start)),
        Err(fault) => Err(fault),
    }
}

/// Returns the consistency proof of the subtree `[start, end)` in the tree of the first `n` leaves, computed from the bytes of the tiles
/// that [`tiles_for_subtree_proof`] lists, in this order. `verify_subtree_consistency` decides whether it is valid.
///
/// Errors: as those of [`subtree_hash_of_handed`].
pub fn subtree_proof_of_handed<H: NodeHash>(
    alloc: Global,
    h: &H,
    start: u64,
    end: u64,
    n: u64,
    contents: &[Vec<u8>],
) -> Result<Vec<[u8; 32]>, HandedFault>
    requires subtree { IsSubtree start end }
    requires below { end ≤ n }
    // If the tiles are those of a list of leaves, the proof is that of the list's subtree.
    ensures proof { IfOk result (λ proof. (D : List (List ℕ)) → AreTilesOf H.digest D (subtree_proof_tiles start end n) (contents_in contents.now)
        → n ≤ length D → proof.items ≡ subtree_proof H.digest start end (take n D)) }
    // A result is returned only if each tile has bytes of the right length.
    ensures whole { OnOk result (handed_fault (subtree_proof_tiles start end n) (contents_in contents.now) ≡ None) }
    // The fault that is returned.
    ensures fault { IfErr result (λ fault. IsHandedFault fault (subtree_proof_tiles start end n) (contents_in contents.now)) }
    // The tiles of a list of leaves are not refused, unless memory is.
    ensures never_refused { IfErr result (λ fault. (D : List (List ℕ))
        → AreTilesOf H.digest D (subtree_proof_tiles start end n) (contents_in contents.now) → fault ≡ Memory) }
{
    if is_proof_of_end(start, end, n) {
        match proof_of_handed(alloc, h, end, n, contents) {
            Ok(proof) => Ok(proof),
            Err(fault) => Err(fault),
        }
    } else {
        match path_of_handed(alloc, h, start, n, contents) {
            Ok(path) => {
                let rest = above(alloc, &path, end - start)?;
                Ok(rest)
            }
            Err(fault) => Err(fault),
        }
    }
}
