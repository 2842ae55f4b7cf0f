//! Replies as text.

ghost use Rattle.std.specs.Prelude.{◌≡◌, IfOk, map};
ghost use Rattle.serde_json.specs.View.{view};
ghost use Rattle.ct_core.specs.Replies.{a_head, a_proof, an_index, some_entries, an_entry, a_receipt, a_published_head, a_collision, refused, shown, shown_text};
ghost use Rattle.ct_lines.specs.ReplyText.{refusal_name, entry_data, entries_data, count_data, verdict_data, reply_data, answered, reply_line};

use ct_codec::Refusal;
use ct_core::{Reply, ShownEntry};
use ct_tree::{Head, Memory};
use json_lines::{bytes_value, hashes_value};
use serde_json::{Value, json};
use std::alloc::Global;

// Returns the name of a refusal.
fn name_of(refusal: Refusal) -> &'static str
    ensures { result.now ≡ refusal_name refusal }
{
    match refusal {
        Refusal::Memory => "memory",
        Refusal::Full => "full",
        Refusal::Shutdown => "shutdown",
        Refusal::FrontSpent => "front-spent",
        Refusal::EmptyChain => "empty-chain",
        Refusal::EmptyCertificate => "empty-certificate",
        Refusal::CertificateTooLong => "certificate-too-long",
        Refusal::ChainTooLong => "chain-too-long",
        Refusal::ClockBack => "clock-back",
        Refusal::UnknownSize => "unknown-size",
        Refusal::BadRange => "bad-range",
        Refusal::UnknownLeaf => "unknown-leaf",
        Refusal::MissingFront => "missing-front",
        Refusal::BadLine => "bad-line",
        Refusal::NotYet => "not-yet",
        Refusal::Late => "late",
        Refusal::Closed => "closed",
    }
}

// Returns an entry as a JSON object.
fn entry_value(alloc: Global, entry: &ShownEntry) -> Result<Value, Memory>
    ensures { IfOk result (λ v. view v ≡ entry_data (shown_text entry.now)) }
{
    json!(in alloc; {
        "extra_data": bytes_value(alloc, &entry.extra_data)?,
        "leaf_input": bytes_value(alloc, &entry.leaf_input)?
    })
}

// Returns entries as a JSON array.
fn entries_array(alloc: Global, entries: &[ShownEntry]) -> Result<Value, Memory>
    ensures { IfOk result (λ v. view v ≡ entries_data (map shown_text entries.now)) }
{
    let mut values = Vec::with_capacity(alloc, entries.len())?;
    for entry in entries {
        values.push(entry_value(alloc, entry)?)?;
    }
    Ok(Value::Array(values))
}

// Returns the object with one count.
fn count_value(alloc: Global, key: &str, count: u64) -> Result<Value, Memory>
    ensures { IfOk result (λ v. view v ≡ count_data key.now count) }
{
    json!(in alloc; {key: count})
}

fn head_value(alloc: Global, head: &Head) -> Result<Value, Memory>
    ensures { IfOk result (λ v. view v ≡ reply_data (a_head head.now)) }
{
    let root = bytes_value(alloc, &head.root)?;
    json!(in alloc; {"sha256_root_hash": root, "timestamp": head.timestamp, "tree_size": head.tree_size})
}

fn consistency_value(alloc: Global, proof: &[[u8; 32]]) -> Result<Value, Memory>
    ensures { IfOk result (λ v. view v ≡ reply_data (a_proof proof.now)) }
{
    let proof = hashes_value(alloc, proof)?;
    json!(in alloc; {"consistency": proof})
}

fn proof_by_hash_value(alloc: Global, leaf_index: u64, path: &[[u8; 32]]) -> Result<Value, Memory>
    ensures { IfOk result (λ v. view v ≡ reply_data (an_index leaf_index path.now)) }
{
    let path = hashes_value(alloc, path)?;
    json!(in alloc; {"audit_path": path, "leaf_index": leaf_index})
}

fn entries_value(alloc: Global, entries: &[ShownEntry]) -> Result<Value, Memory>
    ensures { IfOk result (λ v. view v ≡ reply_data (some_entries (map shown_text entries.now))) }
{
    let entries = entries_array(alloc, entries)?;
    json!(in alloc; {"entries": entries})
}

fn entry_and_proof_value(
    alloc: Global,
    entry: &ShownEntry,
    path: &[[u8; 32]],
) -> Result<Value, Memory>
    ensures { IfOk result (λ v. view v ≡ reply_data (an_entry (shown_text entry.now) path.now)) }
{
    json!(in alloc; {
        "audit_path": hashes_value(alloc, path)?,
        "extra_data": bytes_value(alloc, &entry.extra_data)?,
        "leaf_input": bytes_value(alloc, &entry.leaf_input)?
    })
}

fn receipt_value(alloc: Global, leaf_index: u64, timestamp: u64) -> Result<Value, Memory>
    ensures { IfOk result (λ v. view v ≡ reply_data (a_receipt leaf_index timestamp)) }
{
    json!(in alloc; {"extensions": "", "leaf_index": leaf_index, "sct_version": 0u64, "timestamp": timestamp})
}

fn published_value(alloc: Global, head: &Head) -> Result<Value, Memory>
    ensures { IfOk result (λ v. view v ≡ reply_data (a_published_head head.now)) }
{
    json!(in alloc; {"timestamp": head.timestamp, "tree_size": head.tree_size})
}

// Returns the object with only a verdict.
fn verdict_value(alloc: Global, verdict: &str) -> Result<Value, Memory>
    ensures { IfOk result (λ v. view v ≡ verdict_data verdict.now) }
{
    json!(in alloc; {"verdict": verdict})
}

fn collision_value(alloc: Global, left: &[u8], right: &[u8]) -> Result<Value, Memory>
    ensures { IfOk result (λ v. view v ≡ reply_data (a_collision left.now right.now)) }
{
    json!(in alloc; {
        "left": bytes_value(alloc, left)?,
        "right": bytes_value(alloc, right)?,
        "verdict": "collision"
    })
}

fn refusal_value(alloc: Global, refusal: Refusal) -> Result<Value, Memory>
    ensures { IfOk result (λ v. view v ≡ reply_data (refused refusal)) }
{
    json!(in alloc; {"error": name_of(refusal)})
}

// Returns the reply as a JSON value.
fn shown_value(alloc: Global, reply: &Reply) -> Result<Value, Memory>
    ensures { IfOk result (λ v. view v ≡ reply_data (shown reply.now)) }
{
    match reply {
        Reply::Sth(head) => head_value(alloc, head),
        Reply::Consistency(proof) => consistency_value(alloc, proof),
        Reply::ProofByHash {
            leaf_index,
            audit_path,
        } => proof_by_hash_value(alloc, *leaf_index, audit_path),
        Reply::Entries(entries) => entries_value(alloc, entries),
        Reply::EntryAndProof { entry, audit_path } => {
            entry_and_proof_value(alloc, entry, audit_path)
        }
        Reply::Receipt {
            leaf_index,
            timestamp,
        } => receipt_value(alloc, *leaf_index, *timestamp),
        Reply::Ticket(ticket) => count_value(alloc, "ticket", *ticket),
        Reply::Reached(tree_size) => count_value(alloc, "reached", *tree_size),
        Reply::Settled(count) => count_value(alloc, "settled", *count),
        Reply::Published(head) => published_value(alloc, head),
        Reply::Accepted(count) => count_value(alloc, "accepted", *count),
        Reply::Shift(number) => count_value(alloc, "shift", *number),
        Reply::Holds => verdict_value(alloc, "holds"),
        Reply::Refused => verdict_value(alloc, "refused"),
        Reply::Collision(left, right) => collision_value(alloc, left, right),
    }
}

// Returns the reply or the refusal as a JSON value.
fn reply_value(alloc: Global, reply: &Result<Reply, Refusal>) -> Result<Value, Memory>
    ensures { IfOk result (λ v. view v ≡ reply_data (answered reply.now)) }
{
    match reply {
        Ok(reply) => shown_value(alloc, reply),
        Err(refusal) => refusal_value(alloc, *refusal),
    }
}

/// Returns the text of a reply or of a refusal: compact JSON with its keys in byte order, and the byte 0A.
#[tactic(auto, using(crate::proofs::NoFloat::no_float))]
pub fn reply_text(alloc: Global, reply: &Result<Reply, Refusal>) -> Result<Vec<u8>, Memory>
    ensures { IfOk result (λ b. b.items ≡ reply_line (answered reply.now)) }
{
    let value = reply_value(alloc, reply)?;
    let mut bytes = value.to_string(alloc)?.into_bytes();
    bytes.push(b'\n')?;
    Ok(bytes)
}
