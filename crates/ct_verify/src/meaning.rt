//! The meaning of accepted proofs for lists of leaves and for older trees, or otherwise the strings that collide.
//!
//! The laws here state what an accepted proof shows. Each law ends in "or two of these strings collide".
//! The strings are those that are hashed when the proof is checked, and those that are hashed in the trees of the lists that the law names.
//! So each law says something about SHA-256, although two strings somewhere must have the same digest.
//!
//! [`proof_goes_back`] requires nothing of the older tree's root: the proof shows that it is the root of the first leaves of the newer
//! tree's list. So a caller that keeps a chain of trees, with a proof from each tree to the next, needs a list only of the newest tree.
//!
//! [`heads`] is about clients of a dishonest log. Such a log has no list of leaves, so the law requires none: a client holds a head, an
//! audit path to a leaf, and perhaps a consistency proof from one head to another.
//!
//! The laws hold for every hash function with digests of 32 bytes.

ghost use Rattle.ct_verify.specs.ListLaws.{OneRootIsOfOneList, AcceptedPathIsPath, AcceptedProofIsOfBeginning};
ghost use Rattle.ct_verify.specs.OlderTree.{ProofGoesBack};
ghost use Rattle.ct_verify.specs.Shown.{OneHeadShowsOneLeaf, ConsistentHeadsShowOneLeaf};

/// Let a consistency proof (RFC 6962, section 2.1.2) from a size and root to the tree of a list of leaves be accepted. Then that root is
/// the root of that many first leaves of the list, or two of the hashed strings collide.
#[tactic(auto, using(crate::proofs::OlderTree::proof_goes_back))]
pub fn proof_goes_back()
    ensures { ProofGoesBack }
{}

/// Two lists of equal length with the same root are the same list. An audit path that is accepted to the root of a list shows that the leaf
/// is in the list at its index, and that the path is the PATH of RFC 6962, section 2.1.1. A consistency proof that is accepted between the
/// roots of two lists shows that the old list begins the new one. Each statement holds, or two of the hashed strings collide.
#[tactic(auto, using(crate::proofs::ListProofs::one_root_is_of_one_list, crate::proofs::ListProofs::accepted_path_is_path, crate::proofs::ListProofs::accepted_proof_is_of_beginning))]
pub fn lists()
    ensures root { OneRootIsOfOneList }
    ensures path { AcceptedPathIsPath }
    ensures proof { AcceptedProofIsOfBeginning }
{}

/// Two leaves that two clients are shown at the same index are the same leaf, or two of the hashed strings collide. This holds if both
/// clients hold the same head, or heads between which there is a consistency proof (RFC 6962, section 2.1.2).
#[tactic(auto, using(crate::proofs::Viewing::one_head_shows_one_leaf, crate::proofs::Viewing::consistent_heads_show_one_leaf))]
pub fn heads()
    ensures one { OneHeadShowsOneLeaf }
    ensures two { ConsistentHeadsShowOneLeaf }
{}
