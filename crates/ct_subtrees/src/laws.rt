//! The laws of the definitions that the verifiers' contracts name, each a clause of a function that does nothing. A reader who trusts these
//! laws need not read how `specs/Subtrees.antt` counts down a bound and `specs/Roots.antt` reads a proof from its end.
ghost use Rattle.ct_subtrees.specs.Laws.{SubtreeIsMultiple, SubtreeOfBothParts, SubtreeOfRightPart, FirstLeavesAreSubtree, LeafIsSubtree};
ghost use Rattle.ct_subtrees.specs.Laws.{SubtreeSubproofOfKnown, SubtreeSubproofOfUnknown, SubtreeSubproofInLeft, SubtreeSubproofInRight, SubtreeSubproofInBoth, SubtreeSubproofHasLength};
ghost use Rattle.ct_subtrees.specs.Laws.{ProofOfFirstLeaves, ProofOfOneLeaf, RootsOfFirstLeaves, RootsOfOneLeaf};
ghost use Rattle.ct_subtrees.specs.Laws.{RootsOfKnown, RootsOfUnknown, RootsInLeft, RootsInRight, RootsInBoth, RootsDefined};
ghost use Rattle.ct_subtrees.specs.Laws.{SubtreeProofRebuilds, SubtreeProofAccepted, SubtreeProofNotRefused, SubtreeProofOneRefusal};
ghost use Rattle.ct_subtrees.specs.Laws.{SubtreePathEvaluates, SubtreePathNotRefused, SubtreePathOneRefusal};

/// The ranges that are subtrees, and how the two parts of a tree divide them.
pub fn range()
    ensures multiple { SubtreeIsMultiple }
    ensures both { SubtreeOfBothParts }
    ensures right { SubtreeOfRightPart }
    ensures first { FirstLeavesAreSubtree }
    ensures leaf { LeafIsSubtree }
{}

/// The recursion SUBTREE_SUBPROOF, and the length of what it yields.
#[tactic(auto, using(crate::proofs::Equations::subproof_of_known, crate::proofs::Equations::subproof_of_unknown, crate::proofs::Equations::subproof_in_left, crate::proofs::Equations::subproof_in_right, crate::proofs::Equations::subproof_in_both, crate::proofs::Equations::subproof_has_length))]
pub fn subtree_subproof()
    ensures known { SubtreeSubproofOfKnown }
    ensures unknown { SubtreeSubproofOfUnknown }
    ensures left { SubtreeSubproofInLeft }
    ensures right { SubtreeSubproofInRight }
    ensures both { SubtreeSubproofInBoth }
    ensures length { SubtreeSubproofHasLength }
{}

/// The two hashes that a subtree's consistency proof yields, from the root of the tree down.
#[tactic(auto, using(crate::proofs::Equations::roots_of_known, crate::proofs::Equations::roots_of_unknown, crate::proofs::Equations::roots_in_left, crate::proofs::Equations::roots_in_right, crate::proofs::Equations::roots_in_both, crate::proofs::Equations::roots_defined))]
pub fn subtree_roots()
    ensures known { RootsOfKnown }
    ensures unknown { RootsOfUnknown }
    ensures left { RootsInLeft }
    ensures right { RootsInRight }
    ensures both { RootsInBoth }
    ensures defined { RootsDefined }
{}

/// The proofs of RFC 6962, sections 2.1.1 and 2.1.2, are those of two kinds of subtree: of the first leaves, and of one leaf.
#[tactic(auto, using(crate::proofs::Equations::proof_of_first_leaves, crate::proofs::Equations::proof_of_one_leaf, crate::proofs::Equations::roots_of_first_leaves, crate::proofs::Equations::roots_of_one_leaf))]
pub fn known_proofs()
    ensures first { ProofOfFirstLeaves }
    ensures leaf { ProofOfOneLeaf }
    ensures first_roots { RootsOfFirstLeaves }
    ensures leaf_roots { RootsOfOneLeaf }
{}

/// Every consistency proof of a subtree leads to both hashes, and is accepted. No accepted proof is refused, and no proof is refused in two
/// ways.
#[tactic(auto, using(crate::proofs::Equations::subtree_proof_rebuilds, crate::proofs::Equations::subtree_proof_accepted, crate::proofs::Equations::subtree_proof_not_refused, crate::proofs::Equations::subtree_proof_one_refusal))]
pub fn subtree_proof()
    ensures rebuilds { SubtreeProofRebuilds }
    ensures accepted { SubtreeProofAccepted }
    ensures not_refused { SubtreeProofNotRefused }
    ensures one_refusal { SubtreeProofOneRefusal }
{}

/// Every path of a leaf in a subtree evaluates to the hash of the subtree. No path that evaluates to a hash is refused, and no path is
/// refused in two ways.
#[tactic(auto, using(crate::proofs::Equations::subtree_path_evaluates, crate::proofs::Equations::subtree_path_not_refused, crate::proofs::Equations::subtree_path_one_refusal))]
pub fn subtree_path()
    ensures evaluates { SubtreePathEvaluates }
    ensures not_refused { SubtreePathNotRefused }
    ensures one_refusal { SubtreePathOneRefusal }
{}
