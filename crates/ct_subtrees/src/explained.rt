//! Evidence that an accepted proof of a subtree holds, or that the hash function fails.
ghost use Rattle.std.specs.Prelude.{◌≡◌, ◌<◌, ◌≤◌, ◌-◌, ◌↔◌, ◌∷◌, ◌++◌, ℕ, Bool, List, length, take, drop, true, IsTrue, if◌then◌else◌, IfOk, Some, MatchResult};
ghost use Rattle.ct_tree.specs.Tree.{mth};
ghost use Rattle.ct_verify.specs.Strings.{IsCollision};
ghost use Rattle.ct_subtrees.specs.Explained.{node_string, IsHalf, SearchResult, SubtreeEvidence, SubtreeRefusal};
ghost use Rattle.ct_subtrees.specs.Roots.{subtree_roots};
ghost use Rattle.ct_subtrees.specs.Subtrees.{IsSubtree};
ghost use Rattle.ct_subtrees.specs.declared.explained.SubtreeEvidenceFault.TheVariants.{ProofRefused, Memory};

use crate::consistency::{rebuilt, verify_subtree_consistency};
use crate::descent::Place;
use crate::element::last_and_rest;
use crate::fault::SubtreeFault;
use ct_tree::reference::root;
use ct_tree::{NodeHash, is_same_digest, largest_power_below};
use ct_verify::Evidence;
use std::alloc::{AllocError, Allocator};
use thiserror::Error;

/// Why there is no evidence.
#[derive(Clone, Copy, PartialEq, Eq, Debug, Error)]
pub enum SubtreeEvidenceFault {
    /// The proof is refused.
    #[error("the proof of the subtree is refused: {0}")]
    ProofRefused(SubtreeFault),
    /// Memory could not be allocated.
    #[error("there is no memory for the two strings")]
    Memory,
}

impl From<SubtreeFault> for SubtreeEvidenceFault {
    ghost from_gives = { λ fault e. e ≡ ProofRefused fault };

    fn from(fault: SubtreeFault) -> SubtreeEvidenceFault {
        SubtreeEvidenceFault::ProofRefused(fault)
    }
}

impl From<AllocError> for SubtreeEvidenceFault {
    ghost from_gives = { λ _ e. e ≡ Memory };

    fn from(_e: AllocError) -> SubtreeEvidenceFault {
        SubtreeEvidenceFault::Memory
    }
}

// The two child hashes that are joined in an inner node.
#[derive(Clone, Copy)]
struct Node {
    left: [u8; 32],
    right: [u8; 32],
}

// A node of the proof and the node of the list at the same position, if their strings differ.
#[derive(Clone, Copy)]
struct Difference {
    proved: Node,
    listed: Node,
}

// The part of a split tree that has the end of the subtree.
#[derive(Clone, Copy)]
struct Half {
    place: Place,
    known: bool,
    is_left: bool,
}

// The part of a tree that is split at `middle`.
fn half_of(place: Place, middle: usize, known: bool) -> Half
    requires some { place.start < place.end }
    requires inside { place.end ≤ place.size }
    requires positive { 0 < middle }
    requires middle { middle < place.size }
    ensures some { result.place.start < result.place.end }
    ensures inside { result.place.end ≤ result.place.size }
    ensures smaller { result.place.size < place.size }
    ensures size { result.place.size ≡ (if result.is_left then middle else place.size - middle) }
    ensures half { IsHalf place.start place.end place.size middle known
        result.place.start result.place.end result.place.size result.known result.is_left }
{
    if place.end <= middle {
        return Half {
            place: Place {
                start: place.start,
                end: place.end,
                size: middle,
            },
            known,
            is_left: true,
        };
    }
    if place.start >= middle {
        return Half {
            place: Place {
                start: place.start - middle,
                end: place.end - middle,
                size: place.size - middle,
            },
            known,
            is_left: false,
        };
    }
    Half {
        place: Place {
            start: 0,
            end: place.end - middle,
            size: place.size - middle,
        },
        known: false,
        is_left: false,
    }
}

// The leaf hashes of one part of a list.
fn part_of(leaf_hashes: &[[u8; 32]], middle: usize, is_left: bool) -> &[[u8; 32]]
    requires { middle ≤ length leaf_hashes.now }
    ensures part { result.now ≡ (if is_left then take middle leaf_hashes.now else drop middle leaf_hashes.now) }
    ensures length { length result.now ≡ (if is_left then middle else length leaf_hashes.now - middle) }
{
    if is_left {
        &leaf_hashes[..middle]
    } else {
        &leaf_hashes[middle..]
    }
}

// The node over the rebuilt root of one part and the element beside it.
fn node_over(is_left: bool, root: [u8; 32], element: [u8; 32]) -> Node
    ensures left { result.left ≡ (if is_left then root else element) }
    ensures right { result.right ≡ (if is_left then element else root) }
{
    if is_left {
        Node {
            left: root,
            right: element,
        }
    } else {
        Node {
            left: element,
            right: root,
        }
    }
}

// Reports whether two digests are equal.
fn is_same(a: &[u8; 32], b: &[u8; 32]) -> bool
    ensures same { IsTrue result ↔ (a.now ≡ b.now) }
    ensures first { length a.now ≡ 32 }
    ensures second { length b.now ≡ 32 }
{
    is_same_digest(a, b)
}

// Reports whether two nodes hash one string.
fn is_same_string(a: &Node, b: &Node) -> bool
    ensures strings { IsTrue result ↔ (node_string a.now ≡ node_string b.now) }
    ensures parts { IsTrue result → (a.now.left ≡ b.now.left) × (a.now.right ≡ b.now.right) }
{
    let left = is_same(&a.left, &b.left);
    let right = is_same(&a.right, &b.right);
    left && right
}

// The root of a list of leaf hashes, as a node over its two parts.
fn listed_node<H: NodeHash>(h: &H, leaf_hashes: &[[u8; 32]], middle: usize) -> Node
    requires { middle ≤ length leaf_hashes.now }
    ensures left { result.left ≡ mth H.digest (take middle leaf_hashes.now) }
    ensures right { result.right ≡ mth H.digest (drop middle leaf_hashes.now) }
{
    Node {
        left: root(h, &leaf_hashes[..middle]),
        right: root(h, &leaf_hashes[middle..]),
    }
}

// Searches from the root down for the first node in which a proof and a list differ.
fn search<H: NodeHash>(
    h: &H,
    leaf_hashes: &[[u8; 32]],
    start: usize,
    end: usize,
    known: bool,
    subtree_hash: &[u8; 32],
    proof: &[[u8; 32]],
) -> Option<Difference>
    requires some { start < end }
    requires inside { end ≤ length leaf_hashes.now }
    ensures { (x : List ℕ) → IsSubtree start end
        → subtree_roots H.digest start end (length leaf_hashes.now) known subtree_hash.now proof.now ≡ Some (x, mth H.digest leaf_hashes.now)
        → SearchResult H.digest start end known subtree_hash.now x leaf_hashes.now proof.now result }
{
    let place = Place {
        start,
        end,
        size: leaf_hashes.len(),
    };
    if place.is_all() {
        return None;
    }
    // An accepted proof has an element here.
    if proof.is_empty() {
        return None;
    }
    let (element, rest) = last_and_rest(proof);
    let middle = largest_power_below(place.size);
    let half = half_of(place, middle, known);
    // If the proof is accepted, its elements below are as many as the part needs. So this does not fail.
    let Ok(below) = rebuilt(h, half.place, half.known, subtree_hash, rest) else {
        return None;
    };
    let proved = node_over(half.is_left, below.root, element);
    let listed = listed_node(h, leaf_hashes, middle);
    if is_same_string(&proved, &listed) {
        let part = part_of(leaf_hashes, middle, half.is_left);
        search(
            h,
            part,
            half.place.start,
            half.place.end,
            half.known,
            subtree_hash,
            rest,
        )
    } else {
        Some(Difference { proved, listed })
    }
}

// The string of a node.
fn string_of<A: Allocator>(alloc: A, node: &Node) -> Result<Vec<u8, A>, AllocError>
    ensures { IfOk result (λ s. s.items ≡ node_string node.now) }
{
    let mut string = Vec::new(alloc);
    string.push(1)?;
    string.extend_from_slice(&node.left)?;
    string.extend_from_slice(&node.right)?;
    Ok(string)
}

// The two strings with the same hash.
fn collision<A: Allocator + Clone>(
    alloc: A,
    difference: &Difference,
) -> Result<Evidence<A>, AllocError>
    ensures { IfOk result (IsCollision (node_string difference.now.proved, node_string difference.now.listed)) }
{
    let proved = string_of(alloc.clone()?, &difference.proved)?;
    let listed = string_of(alloc, &difference.listed)?;
    Ok(Evidence::Collision(proved, listed))
}

/// Explains a subtree's consistency proof for a list of leaf hashes: their root and their number take the place of the tree head.
///
/// `Holds` means that the hash is that of the list's leaves in the range, and that the proof is their SUBTREE_PROOF. `Collision` contains
/// two strings that differ and have the same hash: the string that the proof hashes and the one that the list hashes, at the position
/// nearest the root where they differ. This holds for every hash function. Memory is taken only for the strings.
///
/// # Errors
///
/// `ProofRefused` with the fault of [`verify_subtree_consistency`](crate::verify_subtree_consistency) if that function refuses the proof,
/// and `Memory` in place of a `Collision` if memory runs out.
pub fn explain_subtree<A: Allocator + Clone, H: NodeHash>(
    alloc: A,
    h: &H,
    leaf_hashes: &[[u8; 32]],
    start: u64,
    end: u64,
    subtree_hash: &[u8; 32],
    proof: &[[u8; 32]],
) -> Result<Evidence<A>, SubtreeEvidenceFault>
    ensures { MatchResult result (SubtreeEvidence H.digest start end subtree_hash.now leaf_hashes.now proof.now)
        (SubtreeRefusal H.digest start end subtree_hash.now leaf_hashes.now proof.now) }
{
    let size = leaf_hashes.len() as u64;
    let list_root = root(h, leaf_hashes);
    verify_subtree_consistency(h, start, end, size, subtree_hash, &list_root, proof)?;
    let (from, to) = (start as usize, end as usize);
    match search(h, leaf_hashes, from, to, true, subtree_hash, proof) {
        Some(difference) => Ok(collision(alloc, &difference)?),
        None => Ok(Evidence::Holds),
    }
}
