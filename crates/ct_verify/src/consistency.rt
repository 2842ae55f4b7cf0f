//! Consistency proofs (RFC 9162, section 2.1.4.2).
ghost use Rattle.std.specs.Prelude.{◌≡◌, ◌+◌, ◌<◌, ◌≤◌, List, ℕ, ◌∷◌, MatchResult};
ghost use Rattle.ct_tree.specs.Lengths.{path_length};
ghost use Rattle.ct_verify.specs.Climb.{pair_up};
ghost use Rattle.ct_verify.specs.CheckFrom.{WalkRefuses};
ghost use Rattle.ct_verify.specs.Verdict.{AcceptsConsistency, RefusesConsistency};

use crate::fault::ProofFault;
use crate::place::Place;
use ct_tree::{NodeHash, node_hash};

// The roots of the two trees, as far as they are rebuilt.
#[derive(Clone, Copy)]
struct Roots {
    first: [u8; 32],
    second: [u8; 32],
}

// Takes in one element of a proof: it joins both roots at their left, or only the second one at its right.
fn climb<H: NodeHash>(h: &H, place: Place, roots: &Roots, sibling: &[u8; 32]) -> (Place, Roots)
    requires below { 0 < place.last }
    requires inside { place.node ≤ place.last }
    ensures rebuilds { (p : List (List ℕ)) → pair_up H.digest place.node (place.last + 1) (roots.now.first, roots.now.second) (sibling.now ∷ p)
        ≡ pair_up H.digest result.0.node (result.0.last + 1) (result.1.first, result.1.second) p }
    ensures shorter { path_length place.node (place.last + 1) ≡ 1 + path_length result.0.node (result.0.last + 1) }
    ensures inside { result.0.node ≤ result.0.last }
{
    if place.is_right() {
        let lifted = place.skip_lone();
        let joined = Roots {
            first: node_hash(h, sibling, &roots.first),
            second: node_hash(h, sibling, &roots.second),
        };
        (lifted.up(), joined)
    } else {
        let joined = Roots {
            first: roots.first,
            second: node_hash(h, &roots.second, sibling),
        };
        (place.up(), joined)
    }
}

// Checks the rest of a proof, starting from the value with which both roots begin.
fn check_from<H: NodeHash>(
    h: &H,
    start: Place,
    value: &[u8; 32],
    path: &[[u8; 32]],
    first_root: &[u8; 32],
    second_root: &[u8; 32],
) -> Result<(), ProofFault>
    requires { start.node ≤ start.last }
    ensures { MatchResult result
        (λ _. pair_up H.digest start.node (start.last + 1) (value.now, value.now) path.now ≡ Some (first_root.now, second_root.now))
        (WalkRefuses H.digest start.node start.last value.now first_root.now second_root.now path.now) }
{
    let mut place = start;
    let mut roots = Roots {
        first: *value,
        second: *value,
    };
    for sibling in path {
        if place.last == 0 {
            return Err(ProofFault::PathTooLong);
        }
        let (above, joined) = climb(h, place, &roots, sibling);
        place = above;
        roots = joined;
    }
    if place.last != 0 {
        Err(ProofFault::PathTooShort)
    } else if roots.first != *first_root {
        Err(ProofFault::FirstMismatch)
    } else if roots.second != *second_root {
        Err(ProofFault::RootMismatch)
    } else {
        Ok(())
    }
}

/// Checks a consistency proof between the trees of the first `first` and of all `second` leaves of one list (RFC 9162, section 2.1.4.2):
/// the path must lead to the roots of both.
///
/// # Errors
///
/// In this order:
/// - `SizesOutOfRange` unless `0 < first < second`;
/// - `EmptyPath`;
/// - `PathTooLong` and `PathTooShort` if the length of the path is not that of the proof between these sizes;
/// - `FirstMismatch` if it leads to another first root;
/// - `RootMismatch` if it leads to another second root.
pub fn verify_consistency<H: NodeHash>(
    h: &H,
    first: u64,
    second: u64,
    first_root: &[u8; 32],
    second_root: &[u8; 32],
    path: &[[u8; 32]],
) -> Result<(), ProofFault>
    ensures { MatchResult result (λ _. AcceptsConsistency H.digest first second first_root.now second_root.now path.now)
        (RefusesConsistency H.digest first second first_root.now second_root.now path.now) }
{
    if first == 0 || first >= second {
        return Err(ProofFault::SizesOutOfRange);
    }
    if path.is_empty() {
        return Err(ProofFault::EmptyPath);
    }
    let place = Place {
        node: first - 1,
        last: second - 1,
    };
    let start = place.skip_right();
    if start.node == 0 {
        check_from(h, start, first_root, path, first_root, second_root)
    } else {
        check_from(h, start, &path[0], &path[1..], first_root, second_root)
    }
}
