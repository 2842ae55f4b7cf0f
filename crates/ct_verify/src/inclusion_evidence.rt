//! Evidence for an accepted audit path: it is the list's own, or two strings have the same hash.
ghost use Rattle.std.specs.Prelude.{◌≡◌, ◌+◌, ◌-◌, ◌<◌, ◌≤◌, ℕ, List, length, map, get_or, IsTrue, ◌↔◌, [], ◌∷◌, ◌++◌, IfOk, OnOk, MatchResult, Some, None, Ok};
ghost use Rattle.std.specs.Option.{option_map};
ghost use Rattle.ct_tree.specs.Tree.{hash_leaf, mth_of_leaves};
ghost use Rattle.ct_verify.specs.Rebuild.{rebuild};
ghost use Rattle.ct_verify.specs.Evidence.{compared, evid, IsAudited};
ghost use Rattle.ct_verify.specs.Strings.{children_string, IsCollision};
ghost use Rattle.ct_verify.specs.Difference.{strings};
ghost use Rattle.ct_verify.specs.InclusionEvidence.{InclusionEvidence, InclusionFault};
ghost use Rattle.ct_verify.specs.declared.evidence.Evidence.TheVariants.{Holds};

use crate::children::{Children, is_same_string, under_node};
use crate::evidence::{Evidence, EvidenceFault, leaf_collision, node_collision};
use crate::fault::ProofFault;
use crate::halves::{last_and_rest, root_of_leaves};
use crate::inclusion::verify_inclusion;
use ct_tree::{NodeHash, largest_power_below, leaf_hash, node_hash};
use std::alloc::{AllocError, Allocator};

// The position at which the strings of a path and those of a list differ.
#[derive(Clone, Copy)]
enum Difference {
    AtLeaf,
    AtNode(Children, Children),
}

// A path compared with a list of leaves: the root that the path yields, the root of the list, and the topmost difference.
#[derive(Clone, Copy)]
struct Compared {
    rebuilt: [u8; 32],
    listed: [u8; 32],
    difference: Option<Difference>,
}

// The difference at this node, or otherwise the one below.
fn topmost(proved: Children, listed: Children, below: Option<Difference>) -> Option<Difference>
    ensures { (leaf other : List ℕ) → option_map (strings leaf other) result
        ≡ compared (children_string proved) (children_string listed) (option_map (strings leaf other) below) }
{
    if is_same_string(&proved, &listed) {
        below
    } else {
        Some(Difference::AtNode(proved, listed))
    }
}

// One level up.
fn join<H: NodeHash>(
    h: &H,
    proved: Children,
    listed: Children,
    below: Option<Difference>,
) -> Compared
    ensures rebuilt { result.rebuilt ≡ H.digest (children_string proved) }
    ensures listed { result.listed ≡ H.digest (children_string listed) }
    ensures difference { (leaf other : List ℕ) → option_map (strings leaf other) result.difference
        ≡ compared (children_string proved) (children_string listed) (option_map (strings leaf other) below) }
{
    let rebuilt = node_hash(h, &proved.left, &proved.right);
    let root = node_hash(h, &listed.left, &listed.right);
    Compared {
        rebuilt,
        listed: root,
        difference: topmost(proved, listed, below),
    }
}

// Compares a leaf with the only leaf of a list.
fn compare_leaves<H: NodeHash>(h: &H, leaf: &[u8], listed: &[u8]) -> Compared
    ensures rebuilt { result.rebuilt ≡ hash_leaf H.digest leaf.now }
    ensures listed { result.listed ≡ hash_leaf H.digest listed.now }
    ensures difference { option_map (strings leaf.now listed.now) result.difference ≡ compared (0 ∷ leaf.now) (0 ∷ listed.now) None }
{
    let difference = if leaf == listed {
        None
    } else {
        Some(Difference::AtLeaf)
    };
    let rebuilt = leaf_hash(h, leaf);
    let root = leaf_hash(h, listed);
    Compared {
        rebuilt,
        listed: root,
        difference,
    }
}

// Compares a path with a list of leaves; each leaf is hashed once. If the length of the path is not that of the leaf's path, only the
// list's root is meaningful.
fn compare<H: NodeHash>(
    h: &H,
    leaves: &[Vec<u8>],
    leaf: &[u8],
    index: usize,
    path: &[[u8; 32]],
) -> Compared
    requires { 0 < length leaves.now }
    ensures listed { result.listed ≡ mth_of_leaves H.digest (map (λ l. l.items) leaves.now) }
    ensures rebuilt { (r : List ℕ) → rebuild H.digest index (length leaves.now) (hash_leaf H.digest leaf.now) path.now ≡ Some r
        → result.rebuilt ≡ r }
    ensures difference { (r : List ℕ) → index < length leaves.now
        → rebuild H.digest index (length leaves.now) (hash_leaf H.digest leaf.now) path.now ≡ Some r
        → option_map (strings leaf.now (get_or (map (λ l. l.items) leaves.now) index [])) result.difference
        ≡ evid H.digest (map (λ l. l.items) leaves.now) leaf.now index path.now }
{
    if leaves.len() == 1 {
        return compare_leaves(h, leaf, &leaves[0]);
    }
    let middle = largest_power_below(leaves.len());
    let (sibling, rest) = last_and_rest(path);
    if index < middle {
        let side = compare(h, &leaves[..middle], leaf, index, rest);
        let other = root_of_leaves(h, &leaves[middle..]);
        join(
            h,
            under_node(side.rebuilt, sibling),
            under_node(side.listed, other),
            side.difference,
        )
    } else {
        let side = compare(h, &leaves[middle..], leaf, index - middle, rest);
        let other = root_of_leaves(h, &leaves[..middle]);
        join(
            h,
            under_node(sibling, side.rebuilt),
            under_node(other, side.listed),
            side.difference,
        )
    }
}

// The two strings with the same hash.
fn collision<A: Allocator + Clone>(
    alloc: A,
    difference: Difference,
    leaf: &[u8],
    listed: &[u8],
) -> Result<Evidence<A>, AllocError>
    ensures { IfOk result (IsCollision (strings leaf.now listed.now difference)) }
{
    match difference {
        Difference::AtLeaf => leaf_collision(alloc, leaf, listed),
        Difference::AtNode(proved, listed) => node_collision(alloc, &proved, &listed),
    }
}

// The evidence that follows from the comparison.
fn evidence_for<A: Allocator + Clone, H: NodeHash>(
    alloc: A,
    h: &H,
    leaves: &[Vec<u8>],
    leaf: &[u8],
    index: u64,
    path: &[[u8; 32]],
) -> Result<Evidence<A>, EvidenceFault>
    ensures { MatchResult result (InclusionEvidence H.digest (map (λ l. l.items) leaves.now) leaf.now index path.now)
        (InclusionFault H.digest (map (λ l. l.items) leaves.now) leaf.now index path.now) }
{
    let size = leaves.len() as u64;
    if index >= size {
        return Err(EvidenceFault::ProofRefused(ProofFault::IndexOutOfRange));
    }
    let compared = compare(h, leaves, leaf, index as usize, path);
    let hash = leaf_hash(h, leaf);
    verify_inclusion(h, &hash, index, size, path, &compared.listed)?;
    match compared.difference {
        None => Ok(Evidence::Holds),
        Some(difference) => Ok(collision(alloc, difference, leaf, &leaves[index as usize])?),
    }
}

/// Explains an audit path for the list of the leaves: their root and their number take the place of the tree head.
///
/// `Holds` means that the leaf is the list's element at the index and that the path is its audit path. `Collision` contains two strings
/// that differ and have the same hash: the string that the proof hashes and the one that the list hashes, at the position nearest the root
/// where they differ (`01` and two hashes for a node, `00` and the leaf for a leaf). This holds for every hash function. Each leaf is
/// hashed once, and memory is taken only for the strings.
///
/// # Errors
///
/// `ProofRefused` with the fault of [`verify_inclusion`](crate::verify_inclusion) if that function refuses the path, and `Memory` in place
/// of a `Collision` if memory runs out.
pub fn explain_inclusion<A: Allocator + Clone, H: NodeHash>(
    alloc: A,
    h: &H,
    leaves: &[Vec<u8>],
    leaf: &[u8],
    index: u64,
    path: &[[u8; 32]],
) -> Result<Evidence<A>, EvidenceFault>
    ensures explained { MatchResult result (InclusionEvidence H.digest (map (λ l. l.items) leaves.now) leaf.now index path.now)
        (InclusionFault H.digest (map (λ l. l.items) leaves.now) leaf.now index path.now) }
    ensures holds { IsAudited H.digest (map (λ l. l.items) leaves.now) leaf.now index path.now → result ≡ Ok Holds }
{
    evidence_for(alloc, h, leaves, leaf, index, path)
}
