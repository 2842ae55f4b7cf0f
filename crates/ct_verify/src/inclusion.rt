//! Audit paths (RFC 9162, section 2.1.3.2).
ghost use Rattle.std.specs.Prelude.{◌≡◌, ◌+◌, ◌<◌, ◌≤◌, List, ℕ, ◌∷◌, MatchResult};
ghost use Rattle.ct_tree.specs.Lengths.{path_length};
ghost use Rattle.ct_verify.specs.Rebuild.{rebuild};
ghost use Rattle.ct_verify.specs.Verdict.{AcceptsInclusion, RefusesInclusion};

use crate::fault::ProofFault;
use crate::place::Place;
use ct_tree::{NodeHash, node_hash};

// Takes in one element of a path: the value of a node and the element beside it yield the value of the node above.
fn climb<H: NodeHash>(
    h: &H,
    place: Place,
    value: &[u8; 32],
    sibling: &[u8; 32],
) -> (Place, [u8; 32])
    requires below { 0 < place.last }
    requires inside { place.node ≤ place.last }
    ensures rebuilds { (p : List (List ℕ)) → rebuild H.digest place.node (place.last + 1) value.now (sibling.now ∷ p)
        ≡ rebuild H.digest result.0.node (result.0.last + 1) result.1 p }
    ensures shorter { path_length place.node (place.last + 1) ≡ 1 + path_length result.0.node (result.0.last + 1) }
    ensures inside { result.0.node ≤ result.0.last }
{
    if place.is_right() {
        let lifted = place.skip_lone();
        (lifted.up(), node_hash(h, sibling, value))
    } else {
        (place.up(), node_hash(h, value, sibling))
    }
}

/// Checks that an audit path leads from a leaf hash at a leaf index to the root of a tree of `size` leaves (RFC 9162, section 2.1.3.2). The
/// first element of the path is nearest the leaf.
///
/// # Errors
///
/// In this order:
/// - `IndexOutOfRange` unless the index is below the size;
/// - `PathTooLong` and `PathTooShort` if the length of the path is not that of the leaf's audit path;
/// - `RootMismatch` if it leads to another root.
pub fn verify_inclusion<H: NodeHash>(
    h: &H,
    leaf_hash: &[u8; 32],
    index: u64,
    size: u64,
    path: &[[u8; 32]],
    root: &[u8; 32],
) -> Result<(), ProofFault>
    ensures { MatchResult result (λ _. AcceptsInclusion H.digest leaf_hash.now index size path.now root.now)
        (RefusesInclusion H.digest leaf_hash.now index size path.now root.now) }
{
    if index >= size {
        return Err(ProofFault::IndexOutOfRange);
    }
    let mut place = Place {
        node: index,
        last: size - 1,
    };
    let mut value = *leaf_hash;
    for sibling in path {
        if place.last == 0 {
            return Err(ProofFault::PathTooLong);
        }
        let (above, joined) = climb(h, place, &value, sibling);
        place = above;
        value = joined;
    }
    if place.last != 0 {
        Err(ProofFault::PathTooShort)
    } else if value != *root {
        Err(ProofFault::RootMismatch)
    } else {
        Ok(())
    }
}
