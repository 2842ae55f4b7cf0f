//! Whether the receipts of all leaves of a step may be signed.
ghost use Rattle.std.specs.Prelude.{◌≡◌, ◌+◌, ◌<◌, ◌^◌, length, map, MatchResult, Some, true};
ghost use Rattle.std.specs.Bool.{MatchBool};
ghost use Rattle.ct_guard.specs.Guarded.{IsLeafOf};
ghost use Rattle.ct_guard.specs.StepReceipts.{AreLeavesOf, EndsWithTree, PassesReceipts, root_after as root_of_step};
ghost use Rattle.ct_guard.specs.StepReceipts.{StopsLeaf, StopsLeaves, StopsReceipts};
ghost use Rattle.ct_tree.specs.Tree.{mth_of_leaves};

use crate::{Guard, ReceiptRefusal, is_own_index};
use ct_codec::lend_leaf;
use ct_tree::{Head, NodeHash, is_same_digest, largest_power_below, leaf_hash, node_hash};
use ct_verify::ProofFault;

// MTH of some leaves (RFC 6962, section 2.1).
fn root_of_leaves<H: NodeHash>(h: &H, leaves: &[&[u8]]) -> [u8; 32]
    requires { 0 < length leaves.now }
    ensures { result ≡ mth_of_leaves H.digest (map (λ leaf. leaf.now) leaves.now) }
{
    if leaves.len() == 1 {
        return leaf_hash(h, leaves[0]);
    }
    let k = largest_power_below(leaves.len());
    let (low, high) = leaves.split_at(k);
    let left = root_of_leaves(h, low);
    let right = root_of_leaves(h, high);
    node_hash(h, &left, &right)
}

// The root of a tree: of so many leaves, given by the roots of their perfect subtrees, and of some leaves after them.
fn root_after<H: NodeHash>(
    h: &H,
    before: usize,
    subtrees: &[[u8; 32]],
    leaves: &[&[u8]],
) -> Option<[u8; 32]>
    requires some { 0 < length leaves.now }
    requires fits { before + length leaves.now < 2 ^ 64 }
    ensures { result ≡ root_of_step H.digest before subtrees.now (map (λ leaf. leaf.now) leaves.now) }
{
    if before == 0 {
        return if subtrees.is_empty() {
            Some(root_of_leaves(h, leaves))
        } else {
            None
        };
    }
    let k = largest_power_below(before + leaves.len());
    if before < k {
        let (low, high) = leaves.split_at(k - before);
        let Some(left) = root_after(h, before, subtrees, low) else {
            return None;
        };
        let right = root_of_leaves(h, high);
        return Some(node_hash(h, &left, &right));
    }
    let Some((left, rest)) = subtrees.split_first() else {
        return None;
    };
    let Some(right) = root_after(h, before - k, rest, leaves) else {
        return None;
    };
    Some(node_hash(h, left, &right))
}

// Whether there are leaves, and they end where the head's tree ends.
fn ends_at(last: &Head, first: u64, leaves: &[&[u8]]) -> bool
    ensures ends { MatchBool result (EndsWithTree last.now first (map (λ leaf. leaf.now) leaves.now))
        (EndsWithTree last.now first (map (λ leaf. leaf.now) leaves.now) → ⊥) }
    ensures fits { result ≡ true → first + length leaves.now < 2 ^ 64 }
{
    first < last.tree_size && last.tree_size - first == leaves.len() as u64
}

// Whether subtrees and the leaves after them give this root.
fn give_root<H: NodeHash>(
    h: &H,
    root: &[u8; 32],
    first: u64,
    subtrees: &[[u8; 32]],
    leaves: &[&[u8]],
) -> bool
    requires some { 0 < length leaves.now }
    requires fits { first + length leaves.now < 2 ^ 64 }
    ensures { MatchBool result
        (root_of_step H.digest first subtrees.now (map (λ leaf. leaf.now) leaves.now) ≡ Some root.now)
        (root_of_step H.digest first subtrees.now (map (λ leaf. leaf.now) leaves.now) ≡ Some root.now → ⊥) }
{
    match root_after(h, first as usize, subtrees, leaves) {
        Some(found) => is_same_digest(&found, root),
        None => false,
    }
}

// Whether the receipt of a leaf that the tree has at this index may be signed, or why not.
fn pass_leaf(last: &Head, leaf: &[u8], index: u64) -> Result<(), ReceiptRefusal>
    ensures { MatchResult result (λ _. IsLeafOf last.now leaf.now index) (StopsLeaf last.now leaf.now index) }
{
    let read = match lend_leaf(leaf) {
        Ok(read) => read,
        Err(fault) => return Err(ReceiptRefusal::NoLeaf(fault)),
    };
    if read.timestamp > last.timestamp {
        return Err(ReceiptRefusal::LaterLeaf);
    }
    if !is_own_index(index, read.extensions) {
        return Err(ReceiptRefusal::OtherIndex);
    }
    Ok(())
}

// Whether the receipts of leaves that the tree has from this index on may be signed, or the first reason why not.
fn pass_leaves(last: &Head, first: u64, leaves: &[&[u8]]) -> Result<(), ReceiptRefusal>
    requires fits { first + length leaves.now < 2 ^ 64 }
    ensures { MatchResult result (λ _. AreLeavesOf last.now first (map (λ leaf. leaf.now) leaves.now))
        (StopsLeaves last.now first (map (λ leaf. leaf.now) leaves.now)) }
{
    let mut place = 0;
    'place: while place < leaves.len() {
        match pass_leaf(last, leaves[place], first + place as u64) {
            Ok(()) => {}
            Err(refusal) => return Err(refusal),
        }
        place += 1;
    }
    Ok(())
}

/// Lets the receipts of all leaves of a step through, or refuses them all. The leaves are those from the index
/// `first` on to the end of the last head's tree. `subtrees` are the roots of the perfect subtrees of the leaves
/// before, largest first ([`ct_tree::Stack`] keeps them). The receipts are let through if the subtrees and the leaves
/// give the root of the last head, and each leaf is not later than that head (RFC 6962, section 3.5) and has no
/// extensions, or only its index (leaf_index, C2SP static-ct-api). The bytes to sign are then those of each leaf, as
/// for [`crate::pass_receipt`].
///
/// # Errors
/// The first of these: `NoHead`, `NotThere(IndexOutOfRange)` (there are no leaves, or they end elsewhere),
/// `NotThere(RootMismatch)`, and `NoLeaf`, `LaterLeaf` or `OtherIndex` of the first leaf that is refused.
pub fn pass_receipts<H: NodeHash>(
    h: &H,
    guard: &Guard,
    first: u64,
    subtrees: &[[u8; 32]],
    leaves: &[&[u8]],
) -> Result<(), ReceiptRefusal>
    ensures { MatchResult result
        (λ _. PassesReceipts H.digest guard.now.last first subtrees.now (map (λ leaf. leaf.now) leaves.now))
        (StopsReceipts H.digest guard.now.last first subtrees.now (map (λ leaf. leaf.now) leaves.now)) }
{
    let Some(last) = guard.last else {
        return Err(ReceiptRefusal::NoHead);
    };
    if !ends_at(&last, first, leaves) {
        return Err(ReceiptRefusal::NotThere(ProofFault::IndexOutOfRange));
    }
    if !give_root(h, &last.root, first, subtrees, leaves) {
        return Err(ReceiptRefusal::NotThere(ProofFault::RootMismatch));
    }
    pass_leaves(&last, first, leaves)
}
