//! The laws of the definitions that the verifiers' contracts name, each a clause of a function that does nothing. A reader who trusts these
//! laws need not read how `specs/Rebuild.antt` reads a path from its end.
ghost use Rattle.ct_verify.specs.Laws.{RebuildOfOne, RebuildInLeft, RebuildInRight, RebuildDefined, BothOfKnown, BothOfUnknown, BothInLeft, BothInRight, BothDefined, PathRebuilds, PathAccepted, PathNotRefused, PathOneRefusal, PathHolds, ProofRebuilds, ProofAccepted, ProofNotRefused, ProofOneRefusal};

/// The root that an audit path yields for a leaf hash, from the root of the tree down.
#[tactic(auto, using(crate::proofs::Equations::rebuild_of_one, crate::proofs::Equations::rebuild_in_left, crate::proofs::Equations::rebuild_in_right, crate::proofs::Equations::rebuild_defined))]
pub fn rebuild()
    ensures one { RebuildOfOne }
    ensures left { RebuildInLeft }
    ensures right { RebuildInRight }
    ensures defined { RebuildDefined }
{}

/// The two roots that a consistency proof yields, from the root of the tree down.
#[tactic(auto, using(crate::proofs::Equations::both_of_known, crate::proofs::Equations::both_of_unknown, crate::proofs::Equations::both_in_left, crate::proofs::Equations::both_in_right, crate::proofs::Equations::both_defined))]
pub fn both_roots()
    ensures known { BothOfKnown }
    ensures unknown { BothOfUnknown }
    ensures left { BothInLeft }
    ensures right { BothInRight }
    ensures defined { BothDefined }
{}

/// Every audit path (RFC 6962, section 2.1.1) leads to its root, and is accepted. No accepted path is refused, and no path is refused in
/// two ways. There is no evidence against a leaf of the list with its path.
#[tactic(auto, using(crate::proofs::Equations::path_rebuilds, crate::proofs::Equations::path_accepted, crate::proofs::Equations::path_not_refused, crate::proofs::Equations::path_one_refusal))]
pub fn path()
    ensures rebuilds { PathRebuilds }
    ensures accepted { PathAccepted }
    ensures not_refused { PathNotRefused }
    ensures one_refusal { PathOneRefusal }
    ensures holds { PathHolds }
{}

/// Every consistency proof (RFC 6962, section 2.1.2) leads to both roots, and is accepted. No accepted proof is refused, and no proof is
/// refused in two ways.
#[tactic(auto, using(crate::proofs::Equations::proof_rebuilds, crate::proofs::Equations::proof_accepted, crate::proofs::Equations::proof_not_refused, crate::proofs::Equations::proof_one_refusal))]
pub fn proof()
    ensures rebuilds { ProofRebuilds }
    ensures accepted { ProofAccepted }
    ensures not_refused { ProofNotRefused }
    ensures one_refusal { ProofOneRefusal }
{}
