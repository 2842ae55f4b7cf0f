//! The walk from the leaves to the root: roots, audit paths and consistency proofs of a tree, wherever its nodes are kept.
ghost use Rattle.std.specs.Prelude.{◌≡◌, ◌+◌, ◌-◌, ◌*◌, ◌/◌, ◌%◌, ◌^◌, ◌<◌, ◌≤◌, ℕ, true, List, [], length, take, IfOk, MatchOption};
ghost use Rattle.ct_tree.specs.Tree.{hash_node, mth, path as path_of, proof as proof_of};
ghost use Rattle.ct_tree.specs.Lengths.{path_length as path_length_of, subproof_length};
ghost use Rattle.ct_tree.specs.Levels.{subtree, beside, node_or_edge};
ghost use Rattle.ct_tree.specs.Walk.{IsEdgeNode, IsPathNode, IsProofNode, AreNodesGiven};

use crate::hash::{NodeHash, empty_root, node_hash};
use std::alloc::{AllocError, Allocator};

/// A store of a tree's nodes. Nothing is required of the nodes: each contract speaks of every list of leaves whose nodes the store returns.
pub trait NodeSource<H: NodeHash> {
    // The largest number of leaves of a tree for which it is asked.
    ghost covers: { Self → ℕ };

    // The value returned for an index of a level is that node of the tree of the leaves with the hashes D.
    ghost gives: { Self → List (List ℕ) → ℕ → ℕ → Type 0 };

    /// The hash of the leaf at an index.
    fn leaf_at(&self, index: u64) -> [u8; 32]
        requires { index < covers self.now }
        ensures { (D : List (List ℕ)) → gives self.now D 0 index → result ≡ subtree H.digest 0 index D };

    /// The root of the perfect subtree of 2^level leaves at an index of its level. The subtree ends before the last leaf.
    fn node_at(&self, h: &H, level: u64, index: u64) -> [u8; 32]
        requires { (index + 1) * 2 ^ level < covers self.now }
        ensures { (D : List (List ℕ)) → gives self.now D level index → result ≡ subtree H.digest level index D };
}

// The length of the audit path of a node, in a tree of `last` + 1 nodes.
fn path_length(mut node: u64, mut last: u64) -> usize
    requires { node ≤ last }
    ensures length { result ≡ path_length_of node (last + 1) }
    ensures small { result ≤ last }
{
    let mut length = 0;
    while last > 0 {
        if node % 2 == 1 || node < last {
            length += 1;
        }
        node /= 2;
        last /= 2;
    }
    length
}

// The last node of the level above, if `edge` is the last node of a level.
fn edge_above<H: NodeHash, S: NodeSource<H>>(
    h: &H,
    source: &S,
    level: u64,
    last: u64,
    edge: &[u8; 32],
) -> [u8; 32]
    requires { last * 2 ^ level < S.covers source.now }
    ensures joined { last % 2 ≡ 1 → (D : List (List ℕ)) → S.gives source.now D level (last - 1)
        → result ≡ hash_node H.digest (subtree H.digest level (last - 1) D) edge.now }
    ensures lone { last % 2 ≡ 0 → result ≡ edge.now }
{
    if last % 2 == 0 {
        return *edge;
    }
    let left = source.node_at(h, level, last - 1);
    node_hash(h, &left, edge)
}

// The sibling of a node, in a level whose last node is `edge`. A last node without a pair has no sibling.
fn sibling<H: NodeHash, S: NodeSource<H>>(
    h: &H,
    source: &S,
    level: u64,
    node: u64,
    last: u64,
    edge: &[u8; 32],
) -> Option<[u8; 32]>
    requires order { node ≤ last }
    requires inside { last * 2 ^ level < S.covers source.now }
    ensures { MatchOption result ((node % 2 ≡ 0) × (node ≡ last))
        (λ s. (node + 1 < last + 1 + node % 2)
        × ((D : List (List ℕ)) → (beside node < last → S.gives source.now D level (beside node))
        → s ≡ node_or_edge H.digest level (beside node) last edge.now D)) }
{
    if node % 2 == 1 {
        Some(source.node_at(h, level, node - 1))
    } else if node == last {
        None
    } else if node + 1 == last {
        Some(*edge)
    } else {
        Some(source.node_at(h, level, node + 1))
    }
}

/// The root of the first `n` leaves (MTH of RFC 6962, section 2.1). It takes no memory, and asks for at most one node per level, which it
/// hashes.
pub fn root_at<H: NodeHash, S: NodeSource<H>>(h: &H, source: &S, n: u64) -> [u8; 32]
    requires { n ≤ S.covers source.now }
    ensures { (D : List (List ℕ)) → AreNodesGiven (IsEdgeNode n) (S.gives source.now D) → n ≤ length D
        → result ≡ mth H.digest (take n D) }
{
    if n == 0 {
        return empty_root(h);
    }
    let mut level = 0;
    let mut last = n - 1;
    let mut edge = source.leaf_at(last);
    while last > 0 {
        edge = edge_above(h, source, level, last, &edge);
        last /= 2;
        level += 1;
    }
    edge
}

/// The audit path of the leaf at index `m` in the tree of the first `n` leaves (PATH of RFC 6962, section 2.1.1). The hash nearest the root
/// is the last one. The call asks for at most two nodes per level, and takes memory once, for the result.
pub fn path<A: Allocator, H: NodeHash, S: NodeSource<H>>(
    alloc: A,
    h: &H,
    source: &S,
    m: u64,
    n: u64,
) -> Result<Vec<[u8; 32], A>, AllocError>
    requires below { m < n }
    requires within { n ≤ S.covers source.now }
    ensures hashes { IfOk result (λ path. (D : List (List ℕ)) → AreNodesGiven (IsPathNode m n) (S.gives source.now D) → n ≤ length D
        → path.items ≡ path_of H.digest m (take n D)) }
    ensures length { IfOk result (λ path. length path.items ≡ path_length_of m n) }
{
    let mut path = Vec::with_capacity(alloc, path_length(m, n - 1))?;
    let mut level = 0;
    let mut node = m;
    let mut last = n - 1;
    let mut edge = source.leaf_at(last);
    while last > 0 {
        match sibling(h, source, level, node, last, &edge) {
            Some(sibling) => path.push(sibling)?,
            None => {}
        }
        edge = edge_above(h, source, level, last, &edge);
        node /= 2;
        last /= 2;
        level += 1;
    }
    Ok(path)
}

/// The consistency proof from the tree of the first `m` leaves to that of the first `n` (PROOF of RFC 6962, section 2.1.2). The hash
/// nearest the root is the last one. The call asks for at most two nodes per level, and takes memory once, for the result.
pub fn proof<A: Allocator, H: NodeHash, S: NodeSource<H>>(
    alloc: A,
    h: &H,
    source: &S,
    m: u64,
    n: u64,
) -> Result<Vec<[u8; 32], A>, AllocError>
    requires positive { 0 < m }
    requires below { m < n }
    requires within { n ≤ S.covers source.now }
    ensures hashes { IfOk result (λ proof. (D : List (List ℕ)) → AreNodesGiven (IsProofNode m n) (S.gives source.now D) → n ≤ length D
        → proof.items ≡ proof_of H.digest m (take n D)) }
    ensures length { IfOk result (λ proof. length proof.items ≡ subproof_length m n true) }
{
    let mut level = 0;
    let mut node = m - 1;
    let mut last = n - 1;
    let mut edge = source.leaf_at(last);
    'halve: while node % 2 == 1 {
        edge = edge_above(h, source, level, last, &edge);
        node /= 2;
        last /= 2;
        level += 1;
    }
    let begun = usize::from(node > 0);
    let mut proof = Vec::with_capacity(alloc, begun + path_length(node, last))?;
    if node > 0 {
        proof.push(source.node_at(h, level, node))?;
    }
    'climb: while last > 0 {
        match sibling(h, source, level, node, last, &edge) {
            Some(sibling) => proof.push(sibling)?,
            None => {}
        }
        edge = edge_above(h, source, level, last, &edge);
        node /= 2;
        last /= 2;
        level += 1;
    }
    Ok(proof)
}
