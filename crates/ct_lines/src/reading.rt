//! Reads requests from lines.

ghost use Rattle.std.specs.Prelude.{◌≡◌, ◌⊎◌, ◌≤◌, length, IfOk, IfErr, IsErrOf, option_map};
ghost use Rattle.serde_json.specs.View.{view};
ghost use Rattle.ct_lines.specs.Asked.{Asked, IsRequest, asked_in, consistency_asked, proof_by_hash_asked, entries_asked, entry_and_proof_asked, receipt_asked};
ghost use Rattle.ct_lines.specs.Asked.{query_asked, chain_asked, pre_chain_asked, sequence_asked, audit_asked, front_asks, operator_asks, frozen_asks, who_at};
ghost use Rattle.ct_lines.specs.Requests.{asked, front_asked, operator_asked, frozen_asked, audit_of, who};

use crate::request::{Audit, FrontRequest, FrozenRequest, OperatorRequest, Request};
use ct_codec::Refusal;
use ct_core::Query;
use json_lines::{LONGEST_REQUEST, fields, line_value};
use serde_json::Value;
use std::alloc::{AllocError, Global};

// The requester.
#[derive(Clone, Copy, Debug)]
enum Who {
    Front(u64),
    Operator,
    Frozen,
}

// Returns the requester, from the value under `who`.
fn who_makes(value: &Value) -> Option<Who>
    ensures { option_map who result ≡ who_at (view value.now) }
{
    let who = value.get("who")?;
    if let Some(name) = who.as_str() {
        return match name {
            "operator" => Some(Who::Operator),
            "frozen" => Some(Who::Frozen),
            _ => None,
        };
    }
    let number = who.as_u64()?;
    Some(Who::Front(number))
}

fn consistency_query(value: &Value) -> Option<Query>
    ensures { result ≡ consistency_asked (view value.now) }
{
    let first = fields::number(value, "first")?;
    let second = fields::number(value, "second")?;
    Some(Query::Consistency { first, second })
}

fn proof_by_hash_query(alloc: Global, value: &Value) -> Result<Option<Query>, AllocError>
    ensures { IfOk result (λ o. o ≡ proof_by_hash_asked (view value.now)) }
{
    let Some(hash) = fields::hash(alloc, value, "hash")? else {
        return Ok(None);
    };
    let Some(tree_size) = fields::number(value, "tree_size") else {
        return Ok(None);
    };
    Ok(Some(Query::ProofByHash { hash, tree_size }))
}

fn entries_query(value: &Value) -> Option<Query>
    ensures { result ≡ entries_asked (view value.now) }
{
    let start = fields::number(value, "start")?;
    let end = fields::number(value, "end")?;
    Some(Query::Entries { start, end })
}

fn entry_and_proof_query(value: &Value) -> Option<Query>
    ensures { result ≡ entry_and_proof_asked (view value.now) }
{
    let leaf_index = fields::number(value, "leaf_index")?;
    let tree_size = fields::number(value, "tree_size")?;
    Some(Query::EntryAndProof {
        leaf_index,
        tree_size,
    })
}

fn receipt_query(value: &Value) -> Option<Query>
    ensures { result ≡ receipt_asked (view value.now) }
{
    let ticket = fields::number(value, "ticket")?;
    Some(Query::Receipt { ticket })
}

// Returns the query of an op.
fn query(alloc: Global, op: &str, value: &Value) -> Result<Option<Query>, AllocError>
    ensures { IfOk result (λ o. o ≡ query_asked op.now (view value.now)) }
{
    match op {
        "get-sth" => Ok(Some(Query::GetSth)),
        "get-sth-consistency" => Ok(consistency_query(value)),
        "get-proof-by-hash" => proof_by_hash_query(alloc, value),
        "get-entries" => Ok(entries_query(value)),
        "get-entry-and-proof" => Ok(entry_and_proof_query(value)),
        "receipt" => Ok(receipt_query(value)),
        _ => Ok(None),
    }
}

// Returns the submission of a certificate.
fn chain_request(alloc: Global, value: &Value) -> Result<Option<FrontRequest>, AllocError>
    ensures { IfOk result (λ o. option_map front_asked o ≡ chain_asked (view value.now)) }
{
    match fields::bytes_list(alloc, value, "chain")? {
        Some(chain) => Ok(Some(FrontRequest::AddChain { chain })),
        None => Ok(None),
    }
}

// Returns the submission of a precertificate.
fn pre_chain_request(alloc: Global, value: &Value) -> Result<Option<FrontRequest>, AllocError>
    ensures { IfOk result (λ o. option_map front_asked o ≡ pre_chain_asked (view value.now)) }
{
    let Some(issuer_key_hash) = fields::hash(alloc, value, "issuer_key_hash")? else {
        return Ok(None);
    };
    let Some(tbs) = fields::bytes(alloc, value, "tbs")? else {
        return Ok(None);
    };
    let Some(chain) = fields::bytes_list(alloc, value, "chain")? else {
        return Ok(None);
    };
    Ok(Some(FrontRequest::AddPreChain {
        issuer_key_hash,
        tbs,
        chain,
    }))
}

// Returns a front's request, by its op.
fn front_request(alloc: Global, op: &str, value: &Value) -> Result<Option<FrontRequest>, AllocError>
    ensures { IfOk result (λ o. option_map front_asked o ≡ front_asks op.now (view value.now)) }
{
    match op {
        "add-chain" => chain_request(alloc, value),
        "add-pre-chain" => pre_chain_request(alloc, value),
        "await-size" => match fields::number(value, "tree_size") {
            Some(tree_size) => Ok(Some(FrontRequest::AwaitSize { tree_size })),
            None => Ok(None),
        },
        _ => match query(alloc, op, value)? {
            Some(query) => Ok(Some(FrontRequest::Ask(query))),
            None => Ok(None),
        },
    }
}

fn sequence_request(value: &Value) -> Option<OperatorRequest>
    ensures { option_map operator_asked result ≡ sequence_asked (view value.now) }
{
    let from = fields::number(value, "from")?;
    let count = fields::number(value, "count")?;
    let now = fields::number(value, "now")?;
    Some(OperatorRequest::Sequence { from, count, now })
}

// Returns the operator's request, by its op.
fn operator_request(op: &str, value: &Value) -> Option<OperatorRequest>
    ensures { option_map operator_asked result ≡ operator_asks op.now (view value.now) }
{
    match op {
        "sequence" => sequence_request(value),
        "publish" => match fields::number(value, "now") {
            Some(now) => Some(OperatorRequest::Publish { now }),
            None => None,
        },
        "shutdown" => Some(OperatorRequest::Shutdown),
        "shift" => match fields::number(value, "now") {
            Some(now) => Some(OperatorRequest::Shift { now }),
            None => None,
        },
        _ => None,
    }
}

fn audit(alloc: Global, value: &Value) -> Result<Option<Audit>, AllocError>
    ensures { IfOk result (λ o. option_map audit_of o ≡ audit_asked (view value.now)) }
{
    let Some(leaf_input) = fields::bytes(alloc, value, "leaf_input")? else {
        return Ok(None);
    };
    let Some(leaf_index) = fields::number(value, "leaf_index") else {
        return Ok(None);
    };
    let Some(tree_size) = fields::number(value, "tree_size") else {
        return Ok(None);
    };
    let Some(audit_path) = fields::hashes(alloc, value, "audit_path")? else {
        return Ok(None);
    };
    Ok(Some(Audit {
        leaf_input,
        leaf_index,
        tree_size,
        audit_path,
    }))
}

// Returns the request of a reader of the frozen log, by its op.
fn frozen_request(
    alloc: Global,
    op: &str,
    value: &Value,
) -> Result<Option<FrozenRequest>, AllocError>
    ensures { IfOk result (λ o. option_map frozen_asked o ≡ frozen_asks op.now (view value.now)) }
{
    if op == "audit" {
        return match audit(alloc, value)? {
            Some(audit) => Ok(Some(FrozenRequest::Audit(audit))),
            None => Ok(None),
        };
    }
    match query(alloc, op, value)? {
        Some(query) => Ok(Some(FrozenRequest::Ask(query))),
        None => Ok(None),
    }
}

// Returns the request in the value.
fn request_in(alloc: Global, value: &Value) -> Result<Option<Request>, AllocError>
    ensures { IfOk result (λ o. option_map asked o ≡ asked_in (view value.now)) }
{
    let Some(who) = who_makes(value) else {
        return Ok(None);
    };
    let Some(op) = fields::text(value, "op") else {
        return Ok(None);
    };
    match who {
        Who::Front(number) => match front_request(alloc, op, value)? {
            Some(request) => Ok(Some(Request::Front(number, request))),
            None => Ok(None),
        },
        Who::Operator => match operator_request(op, value) {
            Some(request) => Ok(Some(Request::Operator(request))),
            None => Ok(None),
        },
        Who::Frozen => match frozen_request(alloc, op, value)? {
            Some(request) => Ok(Some(Request::Frozen(request))),
            None => Ok(None),
        },
    }
}

/// Returns the request in the line, which is passed without the byte that ends it. `BadLine`: the line is no request. `Memory`: memory was
/// refused before the request was read, or before it was clear that there is none. A line of more than 1,048,576 bytes is never refused for
/// memory.
#[tactic(auto, unfolding(crate::specs::Asked::request_of))]
pub fn read_line(alloc: Global, line: &[u8]) -> Result<Request, Refusal>
    ensures found { IfOk result (λ r. IsRequest line.now (asked r)) }
    ensures bad { IsErrOf result Refusal.BadLine → (a : Asked) → IsRequest line.now a → ⊥ }
    ensures refusals { IfErr result (λ e. (e ≡ Refusal.BadLine) ⊎ (e ≡ Refusal.Memory)) }
    ensures memory { IfErr result (λ e. e ≡ Refusal.Memory → length line.now ≤ 1048576) }
{
    let Some(value) = line_value(alloc, LONGEST_REQUEST, line)? else {
        return Err(Refusal::BadLine);
    };
    match request_in(alloc, &value)? {
        Some(request) => Ok(request),
        None => Err(Refusal::BadLine),
    }
}
