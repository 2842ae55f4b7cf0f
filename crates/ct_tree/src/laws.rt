//! The equations of RFC 6962, section 2.1, each a clause of a function that does nothing. A reader who trusts these equations need not read
//! how the definitions of `specs/Tree.antt` count down their recursion.

ghost use Rattle.ct_tree.specs.Laws.{SplitIsLargestPowerBelow, MthOfNone, MthOfOne, MthOfMore, MthOfNoLeaves, MthOfOneLeaf, MthOfMoreLeaves, PathOfOne, PathInLeft, PathInRight, ProofIsSubproof, SubproofOfKnown, SubproofOfUnknown, SubproofInLeft, SubproofInRight, PathHasLength, SubproofHasLength};

/// The largest power of two smaller than n, for n > 1.
pub fn split()
    ensures { SplitIsLargestPowerBelow }
{}

/// MTH of a list of leaf hashes (section 2.1).
#[tactic(auto, using(crate::proofs::Equations::mth_of_none, crate::proofs::Equations::mth_of_one, crate::proofs::Equations::mth_of_more))]
pub fn mth()
    ensures none { MthOfNone }
    ensures one { MthOfOne }
    ensures more { MthOfMore }
{}

/// MTH of a list of leaves (section 2.1): the RFC's own equations.
#[tactic(auto, using(crate::proofs::Equations::mth_of_no_leaves, crate::proofs::Equations::mth_of_one_leaf, crate::proofs::Equations::mth_of_more_leaves))]
pub fn mth_of_leaves()
    ensures none { MthOfNoLeaves }
    ensures one { MthOfOneLeaf }
    ensures more { MthOfMoreLeaves }
{}

/// PATH (section 2.1.1), and its length.
#[tactic(auto, using(crate::proofs::Equations::path_of_one, crate::proofs::Equations::path_in_left, crate::proofs::Equations::path_in_right, crate::proofs::Equations::path_has_length))]
pub fn path()
    ensures one { PathOfOne }
    ensures left { PathInLeft }
    ensures right { PathInRight }
    ensures length { PathHasLength }
{}

/// SUBPROOF and PROOF (section 2.1.2), and the length of SUBPROOF.
#[tactic(auto, using(crate::proofs::Equations::subproof_of_known, crate::proofs::Equations::subproof_of_unknown, crate::proofs::Equations::subproof_in_left, crate::proofs::Equations::subproof_in_right, crate::proofs::Equations::proof_is_subproof, crate::proofs::Equations::subproof_has_length))]
pub fn subproof()
    ensures proof { ProofIsSubproof }
    ensures known { SubproofOfKnown }
    ensures unknown { SubproofOfUnknown }
    ensures left { SubproofInLeft }
    ensures right { SubproofInRight }
    ensures length { SubproofHasLength }
{}
