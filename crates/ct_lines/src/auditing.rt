//! Verdicts on audit paths, against the leaves of a published size.

ghost use Rattle.std.specs.Prelude.{◌≡◌, ◌<◌, ◌≤◌, List, ℕ, true, false, length, map, None, IfOk, IfSome, IsOkUnless, MatchResult};
ghost use Rattle.sha2.specs.Sha256.{sha256};
ghost use Rattle.ct_tree.specs.Tree.{mth_of_leaves};
ghost use Rattle.ct_verify.specs.Evidence.{IsAudited};
ghost use Rattle.ct_core.specs.Answers.{is_size, first_leaves};
ghost use Rattle.ct_core.specs.Replies.{shown};
ghost use Rattle.ct_lines.specs.Requests.{audit_of};
ghost use Rattle.ct_lines.specs.Verdicts.{evidence_answer, audit_answer, is_accepted, verdict};
ghost use Rattle.ct_lines.specs.Frozen.{AnswersBuilt};

use crate::request::Audit;
use crate::wanting::Unproved;
use ct_codec::Refusal;
use ct_core::{Published, Query, Reply};
use ct_monitor::Auditor;
use ct_tree::{Head, Sha256Hash, leaf_hash};
use ct_verify::{Evidence, verify_inclusion};
use std::alloc::Global;

// Returns the head of that size, if one was published, and shows how its root belongs to the entries.
fn head_of_size(log: &Published, size: u64) -> Option<Head>
    ensures some { IfSome result (λ h. (is_size log.now size ≡ true) × (size ≤ length log.now.entries) × (h.tree_size ≡ size)
        × (h.root ≡ mth_of_leaves sha256 (first_leaves log.now size))) }
    ensures none { result ≡ None → is_size log.now size ≡ false }
{
    log.head_of_size(size)
}

// Reports whether the path leads from the leaf to the head's root. It hashes the leaf and one node for each element of the path.
fn is_accepted(head: &Head, audit: &Audit) -> bool
    ensures { (D : List (List ℕ)) → length D ≡ head.now.tree_size → head.now.root ≡ mth_of_leaves sha256 D
        → result ≡ is_accepted D audit.now.leaf_input.items audit.now.leaf_index audit.now.audit_path.items }
{
    // A law for the prover: a path that leads to the root is not refused.
    ct_verify::laws::path();
    let hash = leaf_hash(&Sha256Hash, &audit.leaf_input);
    let checked = verify_inclusion(
        &Sha256Hash,
        &hash,
        audit.leaf_index,
        head.tree_size,
        &audit.audit_path,
        &head.root,
    );
    checked.is_ok()
}

// Reports whether the audit's leaf and path are these.
fn is_same(audit: &Audit, leaf_input: &[u8], audit_path: &[[u8; 32]]) -> bool
    ensures { result ≡ true → (audit.now.leaf_input.items ≡ leaf_input.now) × (audit.now.audit_path.items ≡ audit_path.now) }
{
    &audit.leaf_input[..] == leaf_input && &audit.audit_path[..] == audit_path
}

// Reports whether the leaf and the path are the log's own at that index, below a published size.
fn is_own(alloc: Global, log: &Published, audit: &Audit) -> Result<bool, Refusal>
    requires sized { is_size log.now audit.now.tree_size ≡ true }
    requires within { audit.now.tree_size ≤ length log.now.entries }
    requires below { audit.now.leaf_index < audit.now.tree_size }
    ensures own { IfOk result (λ b. b ≡ true
        → IsAudited sha256 (first_leaves log.now audit.now.tree_size) audit.now.leaf_input.items audit.now.leaf_index audit.now.audit_path.items) }
    ensures memory { IsOkUnless result Refusal.Memory }
{
    let query = Query::EntryAndProof {
        leaf_index: audit.leaf_index,
        tree_size: audit.tree_size,
    };
    match log.answer(alloc, &query)? {
        Reply::EntryAndProof { entry, audit_path } => {
            Ok(is_same(audit, &entry.leaf_input, &audit_path))
        }
        _ => unreachable!(),
    }
}

// Returns the reply for the evidence on an audit path.
fn evidence_reply(evidence: Evidence) -> Reply
    ensures { shown result ≡ evidence_answer evidence }
{
    match evidence {
        Evidence::Holds => Reply::Holds,
        Evidence::Collision(left, right) => Reply::Collision(left, right),
    }
}

// Returns the verdict on a proof of inclusion, against these leaves, all of which it hashes.
fn verdict(alloc: Global, leaves: &[Vec<u8>], audit: &Audit) -> Result<Reply, Refusal>
    ensures { MatchResult result
        (λ r. shown r ≡ verdict (map (λ l. l.items) leaves.now) audit.now.leaf_input.items audit.now.leaf_index audit.now.audit_path.items)
        (λ e. e ≡ Refusal.Memory) }
{
    // A law for the prover: a path that leads to the root is not refused.
    ct_verify::laws::path();
    let auditor = Auditor::new(Sha256Hash);
    match auditor.explain(
        alloc,
        leaves,
        &audit.leaf_input,
        audit.leaf_index,
        &audit.audit_path,
    ) {
        Ok(evidence) => Ok(evidence_reply(evidence)),
        Err(fault) => Unproved::from(fault).reply,
    }
}

// Returns the verdict on a proof of inclusion, against the leaves of a published size.
//
// - A path that does not lead to the head's root is refused at the cost of hashing the path.
// - The log's own leaf and path are accepted at the cost of making the path again.
// - Otherwise another leaf or path leads to that root, so two strings have one hash. Only then are all leaves hashed, to find these
//   strings.
pub(crate) fn audit_reply(alloc: Global, log: &Published, audit: &Audit) -> Result<Reply, Refusal>
    ensures { AnswersBuilt result (audit_answer log.now (audit_of audit.now)) }
{
    let Some(head) = head_of_size(log, audit.tree_size) else {
        return Err(Refusal::UnknownSize);
    };
    if !is_accepted(&head, audit) {
        return Ok(Reply::Refused);
    }
    if is_own(alloc, log, audit)? {
        // A law for the prover: there is no evidence against a leaf of the list with its path.
        ct_verify::laws::path();
        return Ok(Reply::Holds);
    }
    let leaves = log.leaves(alloc, audit.tree_size)?;
    verdict(alloc, &leaves, audit)
}
