//! Which parts of audit paths and of consistency proofs the proofs of subtrees are, and that a range has one cover. Each theorem is a clause of a
//! function that does nothing.
ghost use Rattle.ct_subtrees.specs.PartLaws.{PathIsThroughSubtree, ProofIsThatOfEnd, CoverIsUnique};

/// The proofs of a subtree as parts of PATH and as PROOF (RFC 6962, sections 2.1.1 and 2.1.2).
#[tactic(auto, using(crate::proofs::PartLaws::path_is_through_subtree, crate::proofs::PartLaws::proof_is_that_of_end))]
pub fn parts()
    ensures path { PathIsThroughSubtree }
    ensures end { ProofIsThatOfEnd }
{}

/// The cover of a range of more than one leaf.
#[tactic(auto, using(crate::proofs::PartLaws::cover_is_unique))]
pub fn covers()
    ensures unique { CoverIsUnique }
{}
