//! Consistency proofs between a subtree and a tree.
ghost use Rattle.std.specs.Prelude.{◌≡◌, ◌<◌, ◌≤◌, ℕ, List, [], ◌∷◌, ◌++◌, length, true, false, Some, MatchResult};
ghost use Rattle.ct_subtrees.specs.Roots.{subtree_roots};
ghost use Rattle.ct_subtrees.specs.Subtrees.{subtree_length};
ghost use Rattle.ct_subtrees.specs.Verdict.{AcceptsSubtree, RefusesSubtree};
ghost use Rattle.ct_subtrees.specs.Walk.{HasOtherLength, PartYields, is_split, part_below, part_at};

use crate::descent::{Part, Place};
use crate::fault::SubtreeFault;
use crate::range::is_subtree;
use ct_tree::{NodeHash, largest_power_below, node_hash};

// The hash of the subtree and the root of the tree, as far as they are rebuilt.
#[derive(Clone, Copy)]
pub(crate) struct Hashes {
    pub(crate) subtree: [u8; 32],
    pub(crate) root: [u8; 32],
}

// Joins an element of a proof to the hashes that the elements below it yield. An element beside the part with the subtree joins only the root.
fn joined<H: NodeHash>(h: &H, part: Part, below: Hashes, element: &[u8; 32]) -> Hashes
    requires some { part.place.start < part.place.end }
    requires inside { part.place.end ≤ part.place.size }
    requires split { is_split part ≡ true }
    ensures { (r : List ℕ) (q : List (List ℕ)) → PartYields H.digest (part_below part) r q (below.subtree, below.root)
        → PartYields H.digest part r (q ++ element.now ∷ []) (result.subtree, result.root) }
{
    let middle = largest_power_below(part.place.size);
    if part.place.end <= middle {
        return Hashes {
            subtree: below.subtree,
            root: node_hash(h, &below.root, element),
        };
    }
    let root = node_hash(h, element, &below.root);
    if part.place.start >= middle {
        return Hashes {
            subtree: below.subtree,
            root,
        };
    }
    Hashes {
        subtree: node_hash(h, element, &below.subtree),
        root,
    }
}

// Joins the elements of a path to the hash with which both hashes begin, from the part at a depth up to the whole tree.
fn climb<H: NodeHash>(
    h: &H,
    tree: Part,
    depth: usize,
    lowest: &[u8; 32],
    path: &[[u8; 32]],
) -> Result<Hashes, SubtreeFault>
    requires some { tree.place.start < tree.place.end }
    requires inside { tree.place.end ≤ tree.place.size }
    requires few { depth ≤ 64 }
    requires split { (d : ℕ) → d < depth → is_split (part_at d tree) ≡ true }
    ensures { MatchResult result
        (λ z. (r : List ℕ) (q : List (List ℕ)) → PartYields H.digest (part_at depth tree) r q (lowest.now, lowest.now)
        → PartYields H.digest tree r (q ++ path.now) (z.subtree, z.root))
        (HasOtherLength depth (length path.now)) }
{
    if path.len() > depth {
        return Err(SubtreeFault::PathTooLong);
    }
    if path.len() < depth {
        return Err(SubtreeFault::PathTooShort);
    }
    let mut hashes = Hashes {
        subtree: *lowest,
        root: *lowest,
    };
    let mut level = depth;
    for element in path {
        level -= 1;
        // The part is found again from the root for each element, because a list of the parts would need 2 KB of stack.
        hashes = joined(h, tree.at(level), hashes, element);
    }
    Ok(hashes)
}

// The two hashes that a proof yields. If `known` is true, the hash of the subtree is known.
pub(crate) fn rebuilt<H: NodeHash>(
    h: &H,
    place: Place,
    known: bool,
    subtree_hash: &[u8; 32],
    proof: &[[u8; 32]],
) -> Result<Hashes, SubtreeFault>
    requires some { place.start < place.end }
    requires inside { place.end ≤ place.size }
    ensures { MatchResult result
        (λ z. subtree_roots H.digest place.start place.end place.size known subtree_hash.now proof.now ≡ Some (z.subtree, z.root))
        (HasOtherLength (subtree_length place.start place.end place.size known) (length proof.now)) }
{
    let tree = Part { place, known };
    let depth = tree.depth();
    if tree.at(depth).known {
        return climb(h, tree, depth, subtree_hash, proof);
    }
    match proof.split_first() {
        Some((first, path)) => climb(h, tree, depth, first, path),
        None => Err(SubtreeFault::PathTooShort),
    }
}

/// Checks a consistency proof between the subtree `[start, end)` and the tree of the first `size` leaves of one list: it must lead to the
/// hash of the subtree and to the root of the tree. The first element of the proof is nearest the leaves. If the subtree is the whole tree,
/// the proof is empty.
///
/// # Errors
///
/// In this order:
/// - `NotASubtree` unless `[start, end)` is a subtree;
/// - `BeyondTree` if it ends beyond the tree;
/// - `PathTooLong` and `PathTooShort` if the length of the proof is not that of the proof for this subtree and size;
/// - `FirstMismatch` if it leads to another hash of the subtree;
/// - `RootMismatch` if it leads to another root.
pub fn verify_subtree_consistency<H: NodeHash>(
    h: &H,
    start: u64,
    end: u64,
    size: u64,
    subtree_hash: &[u8; 32],
    root: &[u8; 32],
    proof: &[[u8; 32]],
) -> Result<(), SubtreeFault>
    ensures { MatchResult result (λ _. AcceptsSubtree H.digest start end size subtree_hash.now root.now proof.now)
        (RefusesSubtree H.digest start end size subtree_hash.now root.now proof.now) }
{
    if !is_subtree(start, end) {
        return Err(SubtreeFault::NotASubtree);
    }
    if end > size {
        return Err(SubtreeFault::BeyondTree);
    }
    let place = Place {
        start: start as usize,
        end: end as usize,
        size: size as usize,
    };
    let found = rebuilt(h, place, true, subtree_hash, proof)?;
    if found.subtree != *subtree_hash {
        Err(SubtreeFault::FirstMismatch)
    } else if found.root != *root {
        Err(SubtreeFault::RootMismatch)
    } else {
        Ok(())
    }
}
