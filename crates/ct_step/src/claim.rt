//! The index and timestamp that a store claims for a submission's identity.

ghost use Rattle.std.specs.Prelude.{◌≡◌, ◌⊎◌, ◌<◌, ◌^◌, ℕ, List, [], length, get_or, IfOk, IfErr, MatchResult};
ghost use Rattle.ct_codec.specs.Submitted.{entry_of};
ghost use Rattle.ct_codec.specs.declared.refusal.Refusal.TheVariants as Refusal;
ghost use Rattle.ct_verify.specs.Evidence.{IsAudited};
ghost use Rattle.ct_verify.specs.Hashed.{CollideAmong};
ghost use Rattle.ct_verify.specs.ListLaws.{IsHashedInAudit};
ghost use Rattle.ct_step.specs.Believed.{IsHeadOver};
ghost use Rattle.ct_step.specs.Claims.{claimed_leaf, IsAnsweredAt, StopsClaim};
ghost use Rattle.ct_step.specs.declared.claim.ClaimFault.TheVariants.{ProofRefused, Refused};

use crate::receipts::Receipt;
use ct_codec::{
    Refusal, Submission, certificate_timestamp_signature_input_with_extensions, index_extension,
};
use ct_tree::{Head, NodeHash, leaf_hash};
use ct_verify::{ProofFault, verify_inclusion};
use std::alloc::Global;
use thiserror::Error;

/// The index and timestamp that a store claims for a submission's entry in the log. It has no requirements.
#[derive(Clone, Copy, Debug, PartialEq, Eq)]
pub struct Claim {
    /// The index of its leaf.
    pub leaf_index: u64,
    /// The timestamp at which it was added, in milliseconds.
    pub timestamp: u64,
}

/// The reason why a claim is not believed.
#[derive(Clone, Copy, PartialEq, Eq, Debug, Error)]
pub enum ClaimFault {
    /// The index is 2^40 or more, which no leaf can have.
    #[error("no leaf names that index")]
    IndexTooLarge,
    /// The audit path does not lead from the claimed leaf to the head's root.
    #[error("the audit path is refused: {0}")]
    ProofRefused(ProofFault),
    /// Memory could not be allocated: always the codec's refusal `Memory`.
    #[error("there is no memory for the answer: {0}")]
    Refused(Refusal),
}

impl From<ProofFault> for ClaimFault {
    ghost from_gives = { λ fault e. e ≡ ProofRefused fault };

    fn from(fault: ProofFault) -> ClaimFault {
        ClaimFault::ProofRefused(fault)
    }
}

impl From<Refusal> for ClaimFault {
    ghost from_gives = { λ refusal e. e ≡ Refused refusal };

    fn from(refusal: Refusal) -> ClaimFault {
        ClaimFault::Refused(refusal)
    }
}

/// Returns the receipt of the entry that a store claims for a submission's identity, if an audit path, of 32-byte hashes from the leaf up,
/// leads from that entry's leaf at the claimed index to the head's root (RFC 9162, section 2.1.3.2). The leaf is that of the submission
/// with the claimed timestamp, and its only extension has the claimed index (C2SP static-ct-api).
///
/// So if the head is that of a list of leaves, the bytes to be signed are the leaf at that index. The alternative is a collision of two
/// strings that are hashed when the path is checked, or in the tree of the list. A true claim is accepted with the audit path of that leaf.
///
/// Allocates the bytes to be signed, and hashes them and at most two nodes for each element of the path.
///
/// # Errors
/// In this order: `IndexTooLarge` if the index is 2^40 or more; `Refused(Memory)` if memory could not be allocated; `ProofRefused` with the
/// verifier's refusal.
pub fn answer_repeat<H: NodeHash>(
    alloc: Global,
    h: &H,
    head: &Head,
    submission: &Submission,
    claim: Claim,
    path: &[[u8; 32]],
) -> Result<Receipt, ClaimFault>
    ensures answered { MatchResult result (IsAnsweredAt H.digest head.now (entry_of submission.now) claim path.now)
        (StopsClaim H.digest head.now (entry_of submission.now) claim path.now) }
    ensures no_lie { IfOk result (λ r. (D : List (List ℕ)) → IsHeadOver H.digest D head.now
        → ((r.leaf_index < length D) × (r.signed.items ≡ get_or D r.leaf_index [])) ⊎ CollideAmong H.digest (IsHashedInAudit H.digest D r.signed.items claim.leaf_index path.now)) }
    ensures no_truth_refused { IfErr result (λ fault. (D : List (List ℕ)) → IsHeadOver H.digest D head.now → claim.leaf_index < 2 ^ 40
        → IsAudited H.digest D (claimed_leaf (entry_of submission.now) claim) claim.leaf_index path.now → fault ≡ Refused Refusal.Memory) }
{
    let limit: u64 = 1_099_511_627_776;
    if claim.leaf_index >= limit {
        return Err(ClaimFault::IndexTooLarge);
    }
    let extension = index_extension(claim.leaf_index);
    let signed = certificate_timestamp_signature_input_with_extensions(
        alloc,
        submission,
        claim.timestamp,
        &extension,
    )?;
    let hash = leaf_hash(h, &signed);
    verify_inclusion(h, &hash, claim.leaf_index, head.tree_size, path, &head.root)?;
    Ok(Receipt {
        leaf_index: claim.leaf_index,
        timestamp: claim.timestamp,
        signed,
    })
}
