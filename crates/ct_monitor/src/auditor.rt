//! An auditor, which checks proofs against tree heads.
ghost use Rattle.std.specs.Prelude.{◌≡◌, List, ℕ, map, MatchResult, Ok};
ghost use Rattle.ct_tree.specs.Tree.{hash_leaf};
ghost use Rattle.ct_tree.specs.declared.head.Head.{Head};
ghost use Rattle.ct_verify.specs.declared.evidence.Evidence.TheVariants.{Holds};
ghost use Rattle.ct_monitor.specs.Audited.{AcceptsInclusion, RefusesInclusion, AcceptsConsistency, RefusesConsistency, InclusionEvidence, InclusionFault, IsAudited, IsProofRefused};
ghost use Rattle.ct_monitor.specs.Heads.{IsHeadOfAll};

use ct_tree::{Head, NodeHash, leaf_hash};
use ct_verify::{
    Evidence, EvidenceFault, ProofFault, explain_inclusion, verify_consistency, verify_inclusion,
};
use std::alloc::Allocator;

/// An auditor, which checks a log's proofs against its tree heads, with one hash function.
#[derive(Drop)]
pub struct Auditor<H: NodeHash + Drop> {
    h: H,
}

impl<H: NodeHash + Drop> Auditor<H> {
    /// An auditor of trees with this hash function.
    pub fn new(h: H) -> Auditor<H> {
        Auditor { h }
    }

    /// Checks that an audit path leads from a leaf at a leaf index to the head's root (RFC 9162, section 2.1.3.2), as [`verify_inclusion`]
    /// does. The leaf is given as its bytes, not as its hash. The first element of the path is nearest the leaf.
    ///
    /// # Errors
    ///
    /// The errors of `verify_inclusion`, in its order.
    pub fn check(
        &self,
        head: &Head,
        leaf: &[u8],
        index: u64,
        path: &[[u8; 32]],
    ) -> Result<(), ProofFault>
        ensures { MatchResult result (λ _. AcceptsInclusion H.digest (hash_leaf H.digest leaf.now) index head.now.tree_size path.now head.now.root)
            (RefusesInclusion H.digest (hash_leaf H.digest leaf.now) index head.now.tree_size path.now head.now.root) }
    {
        let hash = leaf_hash(&self.h, leaf);
        verify_inclusion(&self.h, &hash, index, head.tree_size, path, &head.root)
    }

    /// Checks that a consistency proof leads to the roots of both heads (RFC 9162, section 2.1.4.2), as [`verify_consistency`] does.
    ///
    /// # Errors
    ///
    /// The errors of `verify_consistency`, in its order.
    pub fn check_heads(
        &self,
        first: &Head,
        second: &Head,
        path: &[[u8; 32]],
    ) -> Result<(), ProofFault>
        ensures { MatchResult result (λ _. AcceptsConsistency H.digest first.now.tree_size second.now.tree_size first.now.root second.now.root path.now)
            (RefusesConsistency H.digest first.now.tree_size second.now.tree_size first.now.root second.now.root path.now) }
    {
        verify_consistency(
            &self.h,
            first.tree_size,
            second.tree_size,
            &first.root,
            &second.root,
            path,
        )
    }

    /// Explains an audit path for the list of the leaves, as [`explain_inclusion`] does: the leaf is at the index and the path is its own
    /// (`Holds`), or two strings differ and have the same hash (`Collision`).
    ///
    /// If [`check`](Auditor::check) accepted a path against a head that has the root and the number of these leaves, it is not refused
    /// here. So without the assumption that the hash function has no collisions, an accepted path means that the leaf is present, or that
    /// two such strings are returned.
    ///
    /// # Errors
    ///
    /// The errors of `explain_inclusion`: `ProofRefused`, and `Memory` in place of a `Collision` if memory runs out.
    pub fn explain<A: Allocator + Clone>(
        &self,
        alloc: A,
        leaves: &[Vec<u8>],
        leaf: &[u8],
        index: u64,
        path: &[[u8; 32]],
    ) -> Result<Evidence<A>, EvidenceFault>
        ensures explained { MatchResult result (InclusionEvidence H.digest (map (λ l. l.items) leaves.now) leaf.now index path.now)
            (InclusionFault H.digest (map (λ l. l.items) leaves.now) leaf.now index path.now) }
        ensures holds { IsAudited H.digest (map (λ l. l.items) leaves.now) leaf.now index path.now → result ≡ Ok Holds }
        ensures accepted { (head : Head) → IsHeadOfAll H.digest (map (λ l. l.items) leaves.now) head
            → AcceptsInclusion H.digest (hash_leaf H.digest leaf.now) index head.tree_size path.now head.root → ¬ (IsProofRefused result) }
    {
        explain_inclusion(alloc, &self.h, leaves, leaf, index, path)
    }
}
