//! Subtrees: ranges of leaves whose hashes Merkle Tree Certificates sign (RFC 6962, section 2.1; draft-ietf-plants-merkle-tree-certs).
ghost use Rattle.std.specs.Prelude.{◌≡◌};
ghost use Rattle.sha2.specs.Sha256.{sha256};
ghost use Rattle.ct_subtrees.specs.Verdict.{AcceptsSubtree, RefusesSubtree};
ghost use Rattle.libwagtenib.specs.Ranges.{subtree_code, ChecksSubtree, JudgesSubtree, EvaluatesPath, CoversRange};

use crate::codes;
use ct_subtrees::{
    SubtreeFault, cover_range, evaluate_subtree_inclusion, is_subtree, verify_subtree_consistency,
};
use ct_tree::Sha256Hash;

// Returns the number of a fault.
fn number_of(fault: SubtreeFault) -> u32
    ensures { result ≡ subtree_code fault }
{
    match fault {
        SubtreeFault::NotASubtree => codes::NOT_A_SUBTREE,
        SubtreeFault::BeyondTree => codes::BEYOND_TREE,
        SubtreeFault::IndexOutOfRange => codes::INDEX_OUT_OF_RANGE,
        SubtreeFault::PathTooLong => 2,
        SubtreeFault::PathTooShort => 3,
        SubtreeFault::FirstMismatch => 6,
        SubtreeFault::RootMismatch => codes::ROOT_MISMATCH,
    }
}

/// Checks a range of leaves. 0 exactly if `[start, end)` is a subtree; otherwise 160.
#[unsafe(no_mangle)]
pub extern "C" fn wagtenib_check_subtree(start: u64, end: u64) -> u32
    ensures { ChecksSubtree start end result }
{
    if is_subtree(start, end) {
        codes::OK
    } else {
        codes::NOT_A_SUBTREE
    }
}

/// Checks a consistency proof of a subtree. 0 exactly if it leads from the hash of the subtree `[start, end)` to the root of a tree of `tree_size` leaves;
/// otherwise 160, 161, 2, 3, 6 or 4, the first fault in that order.
#[unsafe(no_mangle)]
pub extern "C" fn wagtenib_verify_subtree(
    start: u64,
    end: u64,
    tree_size: u64,
    subtree_hash: &[u8; 32],
    root: &[u8; 32],
    proof: &[[u8; 32]],
) -> u32
    ensures { JudgesSubtree result (AcceptsSubtree sha256 start end tree_size subtree_hash.now root.now proof.now)
        (RefusesSubtree sha256 start end tree_size subtree_hash.now root.now proof.now) }
{
    match verify_subtree_consistency(
        &Sha256Hash,
        start,
        end,
        tree_size,
        subtree_hash,
        root,
        proof,
    ) {
        Ok(()) => codes::OK,
        Err(fault) => number_of(fault),
    }
}

/// Writes the hash of the subtree `[start, end)` to which the path of a leaf leads. 0: it is written. Otherwise 160, 1, 2 or 3, the first fault in that order, and
/// `hash` is unchanged. The caller must compare the hash with one that it trusts for this subtree.
#[unsafe(no_mangle)]
pub extern "C" fn wagtenib_evaluate_subtree_path(
    leaf_hash: &[u8; 32],
    leaf_index: u64,
    start: u64,
    end: u64,
    path: &[[u8; 32]],
    hash: &mut [u8; 32],
) -> u32
    ensures { EvaluatesPath sha256 leaf_index start end leaf_hash.now path.now result hash.old hash.new }
{
    match evaluate_subtree_inclusion(&Sha256Hash, leaf_index, start, end, leaf_hash, path) {
        Ok(found) => {
            *hash = found;
            codes::OK
        }
        Err(fault) => number_of(fault),
    }
}

/// Writes the subtrees that cover the leaves from index `start` to `end - 1`. 0: they are `[first, middle)` and `[middle, end)`, or only the second one if `first` is
/// `middle`. 162: the range is empty, and nothing is written.
#[unsafe(no_mangle)]
pub extern "C" fn wagtenib_cover_range(
    start: u64,
    end: u64,
    first: &mut u64,
    middle: &mut u64,
) -> u32
    ensures { CoversRange start end result first.old first.new middle.old middle.new }
{
    if start >= end {
        return codes::EMPTY_RANGE;
    }
    let cover = cover_range(start, end);
    *middle = cover.right.start;
    match cover.left {
        Some(left) => *first = left.start,
        None => *first = start,
    }
    codes::OK
}
