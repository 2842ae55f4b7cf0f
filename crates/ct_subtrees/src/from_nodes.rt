//! Hashes and proofs of subtrees, made from the nodes of a list's tree.
ghost use Rattle.std.specs.Prelude.{◌≡◌, ◌<◌, ◌≤◌, ℕ, List, length, take, IfOk};
ghost use Rattle.ct_tree.specs.Walk.{IsPathNode, AreNodesGiven};
ghost use Rattle.ct_subtrees.specs.Subtrees.{IsSubtree, subtree_hash as subtree_hash_of, subtree_path as subtree_path_of, subtree_proof as subtree_proof_of};
ghost use Rattle.ct_subtrees.specs.Made.{IsSubtreeProofNode};

use crate::parts::{above, inside, is_proof_of_end, root_over};
use ct_tree::NodeHash;
use ct_tree::walk::{self, NodeSource};
use std::alloc::{AllocError, Global};

/// Returns the hash of the subtree `[start, end)`: MTH of its leaves (RFC 6962, section 2.1). It takes memory once, for the path of the first
/// leaf.
pub fn subtree_hash<H: NodeHash, S: NodeSource<H>>(
    alloc: Global,
    h: &H,
    source: &S,
    start: u64,
    end: u64,
) -> Result<[u8; 32], AllocError>
    requires subtree { IsSubtree start end }
    requires within { end ≤ S.covers source.now }
    ensures { IfOk result (λ hash. (D : List (List ℕ)) → AreNodesGiven (IsPathNode start end) (S.gives source.now D) → end ≤ length D
        → hash ≡ subtree_hash_of H.digest start end D) }
{
    let path = subtree_path(alloc, h, source, start, start, end)?;
    let leaf = source.leaf_at(start);
    Ok(root_over(h, &leaf, &path))
}

/// Returns the inclusion proof of the leaf at `index` in the subtree `[start, end)`: PATH among its leaves (RFC 6962, section 2.1.1). The
/// hash nearest the root of the subtree is the last one.
pub fn subtree_path<H: NodeHash, S: NodeSource<H>>(
    alloc: Global,
    h: &H,
    source: &S,
    index: u64,
    start: u64,
    end: u64,
) -> Result<Vec<[u8; 32]>, AllocError>
    requires subtree { IsSubtree start end }
    requires from { start ≤ index }
    requires below { index < end }
    requires within { end ≤ S.covers source.now }
    ensures { IfOk result (λ path. (D : List (List ℕ)) → AreNodesGiven (IsPathNode index end) (S.gives source.now D) → end ≤ length D
        → path.items ≡ subtree_path_of H.digest index start end D) }
{
    let path = walk::path(alloc, h, source, index, end)?;
    Ok(inside(path, index - start, end - start))
}

/// Returns the consistency proof of the subtree `[start, end)` in the tree of the first `n` leaves (as
/// draft-ietf-plants-merkle-tree-certs, section 4.4). The hash nearest the root is the last one. If the subtree is the whole tree, the proof
/// is empty.
pub fn subtree_proof<H: NodeHash, S: NodeSource<H>>(
    alloc: Global,
    h: &H,
    source: &S,
    start: u64,
    end: u64,
    n: u64,
) -> Result<Vec<[u8; 32]>, AllocError>
    requires subtree { IsSubtree start end }
    requires below { end ≤ n }
    requires within { n ≤ S.covers source.now }
    ensures { IfOk result (λ proof. (D : List (List ℕ)) → AreNodesGiven (IsSubtreeProofNode start end n) (S.gives source.now D) → n ≤ length D
        → proof.items ≡ subtree_proof_of H.digest start end (take n D)) }
{
    if is_proof_of_end(start, end, n) {
        let proof = walk::proof(alloc, h, source, end, n)?;
        Ok(proof)
    } else {
        let path = walk::path(alloc, h, source, start, n)?;
        let rest = above(alloc, &path, end - start)?;
        Ok(rest)
    }
}
