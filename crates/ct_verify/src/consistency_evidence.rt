//! Evidence for an accepted consistency proof: the old list begins the new one, or two strings have the same hash.
ghost use Rattle.std.specs.Prelude.{◌≡◌, ◌<◌, ◌≤◌, ◌↔◌, ℕ, List, ◌∷◌, ◌++◌, length, map, IfOk, IsTrue, MatchResult, Some, Ok, cond};
ghost use Rattle.std.specs.Option.{option_or};
ghost use Rattle.ct_tree.specs.Tree.{hash_leaf, hash_node, mth_of_leaves};
ghost use Rattle.ct_verify.specs.Rebuild.{both_roots};
ghost use Rattle.ct_verify.specs.Strings.{children_string, IsCollision};
ghost use Rattle.ct_verify.specs.Search.{clash_strings, found_strings};
ghost use Rattle.ct_verify.specs.Clash.{clash, ClashOfLists, ClashAlong};
ghost use Rattle.ct_verify.specs.ConsistencyEvidence.{IsAcceptedFor, IsBeginning, ConsistencyEvidence, ConsistencyFault};
ghost use Rattle.ct_verify.specs.declared.evidence.Evidence.TheVariants.{Holds};

use crate::children::{Children, is_same, is_same_string, under_node};
use crate::consistency::verify_consistency;
use crate::evidence::{Evidence, EvidenceFault, leaf_collision, node_collision};
use crate::halves::{last_and_rest, root_of_leaves};
use ct_tree::{NodeHash, largest_power_below, leaf_hash, node_hash};
use std::alloc::{AllocError, Allocator};

// Two strings that differ and have the same hash, given by what is hashed: two leaves, or the children of two nodes.
#[derive(Clone, Copy)]
enum Clash<'a> {
    Leaves(&'a [u8], &'a [u8]),
    Nodes(Children, Children),
}

// Two compared nodes: their hashes, and the clash of their strings.
#[derive(Clone, Copy)]
struct Met<'a> {
    first: [u8; 32],
    second: [u8; 32],
    found: Option<Clash<'a>>,
}

// Two lists of equal length: their roots, and the first clash in them.
#[derive(Clone, Copy)]
struct Sides<'a> {
    old_root: [u8; 32],
    new_root: [u8; 32],
    found: Option<Clash<'a>>,
}

// Two lists and the roots that a proof yields for them, and the first clash along the proof.
#[derive(Clone, Copy)]
struct Walked<'a> {
    first: [u8; 32],
    second: [u8; 32],
    old_root: [u8; 32],
    new_root: [u8; 32],
    found: Option<Clash<'a>>,
}

// Compares two nodes.
fn beside_nodes<'a, H: NodeHash>(h: &H, a: Children, b: Children) -> Met<'a>
    ensures first { result.first ≡ H.digest (children_string a) }
    ensures second { result.second ≡ H.digest (children_string b) }
    ensures found { found_strings result.found ≡ clash H.digest (children_string a) (children_string b) }
{
    let first = node_hash(h, &a.left, &a.right);
    let second = node_hash(h, &b.left, &b.right);
    let found = if !is_same_string(&a, &b) && is_same(&first, &second) {
        Some(Clash::Nodes(a, b))
    } else {
        None
    };
    Met {
        first,
        second,
        found,
    }
}

// Compares two leaves.
fn beside_leaves<'a, H: NodeHash>(h: &H, old: &'a [u8], new: &'a [u8]) -> Sides<'a>
    ensures old { result.old_root ≡ hash_leaf H.digest old.now }
    ensures new { result.new_root ≡ hash_leaf H.digest new.now }
    ensures found { found_strings result.found ≡ clash H.digest (0 ∷ old.now) (0 ∷ new.now) }
{
    let old_root = leaf_hash(h, old);
    let new_root = leaf_hash(h, new);
    let found = if old != new && is_same(&old_root, &new_root) {
        Some(Clash::Leaves(old, new))
    } else {
        None
    };
    Sides {
        old_root,
        new_root,
        found,
    }
}

// The first clash of the two that were found, if any.
fn first_found<'a>(a: Option<Clash<'a>>, b: Option<Clash<'a>>) -> Option<Clash<'a>>
    ensures { found_strings result ≡ option_or (found_strings a.entry) (found_strings b.entry) }
{
    match a {
        Some(clash) => Some(clash),
        None => b,
    }
}

// The node over two parts of each list.
fn over_parts<'a, H: NodeHash>(h: &H, left: Sides<'a>, right: Sides<'a>) -> Sides<'a>
    ensures old { result.old_root ≡ hash_node H.digest left.entry.old_root right.entry.old_root }
    ensures new { result.new_root ≡ hash_node H.digest left.entry.new_root right.entry.new_root }
    ensures found { found_strings result.found ≡ option_or (option_or (found_strings left.entry.found) (found_strings right.entry.found))
        (clash H.digest (1 ∷ left.entry.old_root ++ right.entry.old_root) (1 ∷ left.entry.new_root ++ right.entry.new_root)) }
{
    let a = under_node(left.old_root, right.old_root);
    let b = under_node(left.new_root, right.new_root);
    let met = beside_nodes(h, a, b);
    let found = first_found(first_found(left.found, right.found), met.found);
    Sides {
        old_root: met.first,
        new_root: met.second,
        found,
    }
}

// The roots of two lists of equal length, and the first clash in them. Each leaf is hashed once.
fn diverge<'a, H: NodeHash>(h: &H, old: &'a [Vec<u8>], new: &'a [Vec<u8>]) -> Sides<'a>
    requires some { 0 < length old.now }
    requires same { length old.now ≡ length new.now }
    ensures old { result.old_root ≡ mth_of_leaves H.digest (map (λ l. l.items) old.now) }
    ensures new { result.new_root ≡ mth_of_leaves H.digest (map (λ l. l.items) new.now) }
    ensures found { ClashOfLists H.digest (map (λ l. l.items) old.now) (map (λ l. l.items) new.now) (found_strings result.found) }
{
    if old.len() == 1 {
        return beside_leaves(h, &old[0], &new[0]);
    }
    let middle = largest_power_below(old.len());
    let left = diverge(h, &old[..middle], &new[..middle]);
    let right = diverge(h, &old[middle..], &new[middle..]);
    over_parts(h, left, right)
}

// One of two digests.
fn chosen(known: bool, a: &[u8; 32], b: &[u8; 32]) -> [u8; 32]
    ensures { result ≡ cond known a.now b.now }
{
    if known { *a } else { *b }
}

// The node over the part with the old list, at the left, and a part that only the new list has: the proof has `sibling` for it, and `other`
// is its root.
fn over_left<'a, H: NodeHash>(
    h: &H,
    part: Walked<'a>,
    sibling: &[u8; 32],
    other: &[u8; 32],
) -> Walked<'a>
    ensures proof { (result.first ≡ part.entry.first) × (result.second ≡ hash_node H.digest part.entry.second sibling.now) }
    ensures old { result.old_root ≡ part.entry.old_root }
    ensures new { result.new_root ≡ hash_node H.digest part.entry.new_root other.now }
    ensures found { found_strings result.found ≡ option_or (found_strings part.entry.found)
        (clash H.digest (1 ∷ part.entry.second ++ sibling.now) (1 ∷ part.entry.new_root ++ other.now)) }
{
    let a = under_node(part.second, *sibling);
    let b = under_node(part.new_root, *other);
    let met = beside_nodes(h, a, b);
    let found = first_found(part.found, met.found);
    Walked {
        first: part.first,
        second: met.first,
        old_root: part.old_root,
        new_root: met.second,
        found,
    }
}

// The nodes over a part that both lists have, at the left, and the part in which the old list ends: the proof has
// `sibling` for the first of them.
fn over_right<'a, H: NodeHash>(
    h: &H,
    sides: Sides<'a>,
    part: Walked<'a>,
    sibling: &[u8; 32],
) -> Walked<'a>
    ensures proof { (result.first ≡ hash_node H.digest sibling.now part.entry.first) × (result.second ≡ hash_node H.digest sibling.now part.entry.second) }
    ensures old { result.old_root ≡ hash_node H.digest sides.entry.old_root part.entry.old_root }
    ensures new { result.new_root ≡ hash_node H.digest sides.entry.new_root part.entry.new_root }
    ensures found { found_strings result.found ≡ option_or (option_or (found_strings sides.entry.found) (found_strings part.entry.found))
        (option_or (clash H.digest (1 ∷ sibling.now ++ part.entry.first) (1 ∷ sides.entry.old_root ++ part.entry.old_root))
        (clash H.digest (1 ∷ sibling.now ++ part.entry.second) (1 ∷ sides.entry.new_root ++ part.entry.new_root))) }
{
    let a = under_node(*sibling, part.first);
    let b = under_node(sides.old_root, part.old_root);
    let met_old = beside_nodes(h, a, b);
    let c = under_node(*sibling, part.second);
    let d = under_node(sides.new_root, part.new_root);
    let met_new = beside_nodes(h, c, d);
    let below = first_found(sides.found, part.found);
    let found = first_found(below, first_found(met_old.found, met_new.found));
    Walked {
        first: met_old.first,
        second: met_new.first,
        old_root: met_old.second,
        new_root: met_new.second,
        found,
    }
}

// Walks along a consistency proof through both lists. Each leaf is hashed once.
fn walk<'a, H: NodeHash>(
    h: &H,
    old: &'a [Vec<u8>],
    new: &'a [Vec<u8>],
    known: bool,
    first_root: &[u8; 32],
    path: &[[u8; 32]],
) -> Walked<'a>
    requires some { 0 < length old.now }
    requires within { length old.now ≤ length new.now }
    ensures old { result.old_root ≡ mth_of_leaves H.digest (map (λ l. l.items) old.now) }
    ensures new { result.new_root ≡ mth_of_leaves H.digest (map (λ l. l.items) new.now) }
    ensures rebuilt { (x y : List ℕ) → both_roots H.digest (length old.now) (length new.now) known first_root.now path.now ≡ Some (x, y)
        → (result.first ≡ x) × (result.second ≡ y) }
    ensures found { (x y : List ℕ) → both_roots H.digest (length old.now) (length new.now) known first_root.now path.now ≡ Some (x, y)
        → ClashAlong H.digest known first_root.now (map (λ l. l.items) old.now) (map (λ l. l.items) new.now) path.now (found_strings result.found) }
{
    let (sibling, rest) = last_and_rest(path);
    if old.len() == new.len() {
        let sides = diverge(h, old, new);
        let value = chosen(known, first_root, &sibling);
        return Walked {
            first: value,
            second: value,
            old_root: sides.old_root,
            new_root: sides.new_root,
            found: sides.found,
        };
    }
    let middle = largest_power_below(new.len());
    if old.len() <= middle {
        let part = walk(h, old, &new[..middle], known, first_root, rest);
        let other = root_of_leaves(h, &new[middle..]);
        return over_left(h, part, &sibling, &other);
    }
    let sides = diverge(h, &old[..middle], &new[..middle]);
    let (ending, beyond) = (&old[middle..], &new[middle..]);
    let part = walk(h, ending, beyond, false, first_root, rest);
    over_right(h, sides, part, &sibling)
}

// Reports whether the old list is the beginning of the new one.
fn begins(old: &[Vec<u8>], new: &[Vec<u8>]) -> bool
    requires { length old.now ≤ length new.now }
    ensures { IsTrue result ↔ IsBeginning (map (λ l. l.items) old.now) (map (λ l. l.items) new.now) }
{
    let beginning = &new[..old.len()];
    old == beginning
}

// The two strings with the same hash.
fn collision<A: Allocator + Clone>(alloc: A, clash: Clash<'_>) -> Result<Evidence<A>, AllocError>
    ensures { IfOk result (IsCollision (clash_strings clash.entry)) }
{
    match clash {
        Clash::Leaves(old, new) => leaf_collision(alloc, old, new),
        Clash::Nodes(a, b) => node_collision(alloc, &a, &b),
    }
}

// The evidence that follows from the comparison and the search.
fn evidence_for<A: Allocator + Clone, H: NodeHash>(
    alloc: A,
    h: &H,
    old: &[Vec<u8>],
    new: &[Vec<u8>],
    path: &[[u8; 32]],
) -> Result<Evidence<A>, EvidenceFault>
    ensures { MatchResult result (ConsistencyEvidence H.digest (map (λ l. l.items) old.now) (map (λ l. l.items) new.now) path.now)
        (ConsistencyFault H.digest (map (λ l. l.items) old.now) (map (λ l. l.items) new.now) path.now) }
{
    let old_root = root_of_leaves(h, old);
    let new_root = root_of_leaves(h, new);
    let first = old.len() as u64;
    let second = new.len() as u64;
    verify_consistency(h, first, second, &old_root, &new_root, path)?;
    if begins(old, new) {
        return Ok(Evidence::Holds);
    }
    match walk(h, old, new, true, &old_root, path).found {
        Some(clash) => Ok(collision(alloc, clash)?),
        // If nothing is found, the old list begins the new one. So this case does not occur.
        None => Ok(Evidence::Holds),
    }
}

/// Explains a consistency proof for both lists of leaves: their roots and their numbers take the place of the tree heads.
///
/// `Holds` means that the old list is the beginning of the new one. `Collision` means that it is not, and contains two strings that differ
/// and have the same hash. They are the first such pair, from the leaves up and from the left, that the proof, the old list and the new
/// list hash at one position (`00` and the leaf for a leaf, `01` and two hashes for a node). The proof's string comes before a list's, and
/// the old list's before the new one's. This holds for every hash function.
///
/// Each leaf is hashed once, and once more if the proof is accepted and the old list does not begin the new one. Memory is taken only for
/// such strings.
///
/// # Errors
///
/// `ProofRefused` with the fault of [`verify_consistency`](crate::verify_consistency) if that function refuses the proof, and `Memory` in
/// place of a `Collision` if memory runs out.
pub fn explain_consistency<A: Allocator + Clone, H: NodeHash>(
    alloc: A,
    h: &H,
    old: &[Vec<u8>],
    new: &[Vec<u8>],
    path: &[[u8; 32]],
) -> Result<Evidence<A>, EvidenceFault>
    ensures explained { MatchResult result (ConsistencyEvidence H.digest (map (λ l. l.items) old.now) (map (λ l. l.items) new.now) path.now)
        (ConsistencyFault H.digest (map (λ l. l.items) old.now) (map (λ l. l.items) new.now) path.now) }
    ensures holds { IsAcceptedFor H.digest (map (λ l. l.items) old.now) (map (λ l. l.items) new.now) path.now
        → IsBeginning (map (λ l. l.items) old.now) (map (λ l. l.items) new.now) → result ≡ Ok Holds }
{
    evidence_for(alloc, h, old, new, path)
}
