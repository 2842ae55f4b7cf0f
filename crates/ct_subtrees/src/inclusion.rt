//! Inclusion proofs in a subtree.
ghost use Rattle.std.specs.Prelude.{MatchResult};
ghost use Rattle.ct_subtrees.specs.Verdict.{EvaluatesTo, RefusesEvaluation};

use crate::consistency::rebuilt;
use crate::descent::Place;
use crate::fault::SubtreeFault;
use crate::range::is_subtree;
use ct_tree::NodeHash;

/// Evaluates an inclusion proof of the leaf at `index` in the subtree `[start, end)`: it returns the hash of the subtree to which the path
/// leads (RFC 9162, section 2.1.3.2, over the leaves of the subtree). The first element of the path is nearest the leaf. The caller must
/// compare the hash with one that it trusts for this subtree.
///
/// # Errors
///
/// In this order:
/// - `NotASubtree` unless `[start, end)` is a subtree;
/// - `IndexOutOfRange` unless the index is in it;
/// - `PathTooLong` and `PathTooShort` if the length of the path is not that of the leaf's audit path in the subtree.
pub fn evaluate_subtree_inclusion<H: NodeHash>(
    h: &H,
    index: u64,
    start: u64,
    end: u64,
    leaf_hash: &[u8; 32],
    path: &[[u8; 32]],
) -> Result<[u8; 32], SubtreeFault>
    ensures { MatchResult result (EvaluatesTo H.digest index start end leaf_hash.now path.now) (RefusesEvaluation index start end path.now) }
{
    if !is_subtree(start, end) {
        return Err(SubtreeFault::NotASubtree);
    }
    if index < start || end <= index {
        return Err(SubtreeFault::IndexOutOfRange);
    }
    // The path is the consistency proof of the subtree that has only this leaf.
    let leaf = (index - start) as usize;
    let place = Place {
        start: leaf,
        end: leaf + 1,
        size: (end - start) as usize,
    };
    Ok(rebuilt(h, place, true, leaf_hash, path)?.root)
}
