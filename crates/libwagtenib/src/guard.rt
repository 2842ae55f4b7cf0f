//! The guard decides what a log's key may sign. Its state is the TreeHeadSignature that was signed last (RFC 6962, section 3.5), and belongs to the caller.

ghost use Rattle.std.specs.Prelude.{◌≡◌, MatchResult, map};
ghost use Rattle.std.specs.Bool.{MatchBool};
ghost use Rattle.sha2.specs.Sha256.{sha256};
ghost use Rattle.libwagtenib.specs.Codes.{head_code, receipt_code};
ghost use Rattle.libwagtenib.specs.Guard.{head_of_c, AcceptsHead, GuardsFirstHead, GuardsHead, GuardsReceipt, GuardsReceipts};
ghost use Rattle.libwagtenib.specs.Guard.{IsAtOrAfter, JudgesReceipts, MayBeFirst, MayFollow, MayNotFollow, ReadsGuardState};
ghost use Rattle.libwagtenib.specs.Tiles.{pieces};

use crate::codes::OUT_OF_MEMORY;
use crate::head::{TreeHead, head_of, of_head, read_state, write_state};
use crate::tiles::slices_of;
use crate::{codes, leaf, proofs};
use ct_guard::{Guard, HeadRefusal, ReceiptRefusal, pass_receipt, pass_receipts};
use ct_tree::{Head, NodeHash, Sha256Hash, is_same_digest};
use std::alloc::{AllocError, Global};

// The number of the refusal of a head.
fn number_of_head(refusal: HeadRefusal) -> u32
    ensures { result ≡ head_code refusal }
{
    match refusal {
        HeadRefusal::SizeFalls => codes::SIZE_FALLS,
        HeadRefusal::MomentNotLater => codes::TIMESTAMP_NOT_LATER,
        HeadRefusal::Fork => codes::FORK,
        HeadRefusal::Inconsistent(fault) => proofs::number_of(fault),
    }
}

// The number of the refusal of a receipt.
fn number_of_receipt(refusal: ReceiptRefusal) -> u32
    ensures { result ≡ receipt_code refusal }
{
    match refusal {
        ReceiptRefusal::NoHead => codes::BAD_STATE,
        ReceiptRefusal::NoLeaf(fault) => leaf::number_of(fault),
        ReceiptRefusal::NotThere(fault) => proofs::number_of(fault),
        ReceiptRefusal::LaterLeaf => codes::LATER_LEAF,
        ReceiptRefusal::OtherIndex => codes::OTHER_INDEX,
    }
}

// Whether a head may be the first that is signed.
fn may_be_first(head: &Head, named: &Head) -> bool
    ensures { MatchBool result (MayBeFirst sha256 head.now named.now) (MayBeFirst sha256 head.now named.now → ⊥) }
{
    if head.tree_size == 0 {
        is_same_digest(&head.root, &Sha256Hash.hash(&[]))
    } else {
        *head == *named
    }
}

// Whether a head may be signed after the last one, or the number of the first reason why not.
fn follow(last: &Head, head: &Head, proof: &[[u8; 32]], max_ahead: u64) -> Result<(), u32>
    ensures { MatchResult result (λ _. MayFollow sha256 last.now head.now proof.now max_ahead)
        (MayNotFollow sha256 last.now head.now proof.now max_ahead) }
{
    if head.timestamp > last.timestamp && head.timestamp - last.timestamp > max_ahead {
        return Err(codes::TIMESTAMP_TOO_FAR);
    }
    let mut guard = Guard { last: Some(*last) };
    match guard.pass_head(&Sha256Hash, head, proof) {
        Ok(()) => Ok(()),
        Err(refusal) => Err(number_of_head(refusal)),
    }
}

// Whether the receipts of a step may be signed after the last head: 0, or the number of the first reason why not.
fn receipts_code(last: Head, first_index: u64, subtrees: &[[u8; 32]], leaves: &[&[u8]]) -> u32
    ensures { JudgesReceipts sha256 result last first_index subtrees.now (map (λ leaf. leaf.now) leaves.now) }
{
    let guard = Guard { last: Some(last) };
    match pass_receipts(&Sha256Hash, &guard, first_index, subtrees, leaves) {
        Ok(()) => codes::OK,
        Err(refusal) => number_of_receipt(refusal),
    }
}

// Whether a head is the one that was seen before, or a later one with as many leaves or more.
fn is_at_or_after(seen: &Head, head: &Head) -> bool
    ensures { MatchBool result (IsAtOrAfter seen.now head.now) (IsAtOrAfter seen.now head.now → ⊥) }
{
    *head == *seen || (seen.tree_size <= head.tree_size && seen.timestamp < head.timestamp)
}

/// Whether a head may be the first that a log signs, if no state is kept. 0: it is the head of the empty tree, or has leaves and is the head that the
/// operator names, and `signed_bytes` is its TreeHeadSignature. 40: it is neither, and nothing is written.
#[unsafe(no_mangle)]
pub extern "C" fn wagtenib_guard_first_head(
    head: &TreeHead,
    named: &TreeHead,
    signed_bytes: &mut [u8; 50],
) -> u32
    ensures { GuardsFirstHead sha256 result (head_of_c head.now) (head_of_c named.now) signed_bytes.old signed_bytes.new }
{
    let head = head_of(head);
    if !may_be_first(&head, &head_of(named)) {
        return codes::NOT_FIRST;
    }
    write_state(&head, signed_bytes);
    codes::OK
}

/// Whether a head may be signed after the last one, whose TreeHeadSignature is `last`, by a consistency proof from the last one to this one. 0:
/// `signed_bytes` is its TreeHeadSignature. Otherwise the number of the first reason why not, in this order: 36 (`last` is no TreeHeadSignature), 35, 32,
/// 33, 34, and those of the consistency proof. Then nothing is written.
#[unsafe(no_mangle)]
pub extern "C" fn wagtenib_guard_head(
    last: &[u8],
    head: &TreeHead,
    proof: &[[u8; 32]],
    max_ahead: u64,
    signed_bytes: &mut [u8; 50],
) -> u32
    ensures { GuardsHead sha256 result last.now (head_of_c head.now) proof.now max_ahead signed_bytes.old signed_bytes.new }
{
    let Some(last) = read_state(last) else {
        return codes::BAD_STATE;
    };
    let head = head_of(head);
    match follow(&last, &head, proof, max_ahead) {
        Ok(()) => {
            write_state(&head, signed_bytes);
            codes::OK
        }
        Err(code) => code,
    }
}

/// Whether a receipt of a leaf (a signed certificate timestamp) may be signed after the head whose TreeHeadSignature is `last`. The bytes that are signed
/// are the leaf's own. 0: the path leads from the leaf at this index to the root of that head, the leaf is not later than the head, and it names no other
/// index. Otherwise the number of the first reason why not, in this order: 36, 17 to 22, 1 to 4, 38, 39.
#[unsafe(no_mangle)]
pub extern "C" fn wagtenib_guard_receipt(
    last: &[u8],
    leaf: &[u8],
    leaf_index: u64,
    path: &[[u8; 32]],
) -> u32
    ensures { GuardsReceipt sha256 result last.now leaf.now leaf_index path.now }
{
    let Some(last) = read_state(last) else {
        return codes::BAD_STATE;
    };
    let guard = Guard { last: Some(last) };
    match pass_receipt(&Sha256Hash, &guard, leaf, leaf_index, path) {
        Ok(()) => codes::OK,
        Err(refusal) => number_of_receipt(refusal),
    }
}

/// Whether the receipts of all leaves of a step may be signed after the head whose TreeHeadSignature is `last`. The leaves have the indexes from `first_index`
/// on. `subtrees` are the roots of the perfect subtrees of the leaves before, largest first. The bytes of the leaves are in `leaves`, one after the other, and
/// `lengths` says how many each leaf has. 0: the leaves end where the head's tree ends, they and the subtrees give its root, and each leaf may have a receipt.
/// Otherwise the number of the first reason why not, in this order: 36, 8, 1, 4, and then 17 to 22, 38 or 39 of the first leaf that may have none.
#[unsafe(no_mangle)]
pub extern "C" fn wagtenib_guard_receipts(
    alloc: Global,
    last: &[u8],
    first_index: u64,
    subtrees: &[[u8; 32]],
    leaves: &[u8],
    lengths: &[u64],
) -> u32
    ensures { GuardsReceipts sha256 result last.now first_index subtrees.now (pieces lengths.now leaves.now) }
{
    let Some(last) = read_state(last) else {
        return codes::BAD_STATE;
    };
    match slices_of(alloc, leaves, lengths) {
        Ok(leaves) => receipts_code(last, first_index, subtrees, &leaves),
        Err(AllocError) => OUT_OF_MEMORY,
    }
}

/// Whether a node may go on from a head, if `accepted` is the newest head that it accepted: 0 if it is this head again, or a later one whose tree contains that
/// of `accepted` by the consistency proof. Otherwise the number of the first reason why not, in this order: 32, 33, 34, and those of the proof.
#[unsafe(no_mangle)]
pub extern "C" fn wagtenib_node_accept(
    accepted: &TreeHead,
    head: &TreeHead,
    proof: &[[u8; 32]],
) -> u32
    ensures { AcceptsHead sha256 result (head_of_c accepted.now) (head_of_c head.now) proof.now }
{
    let mut guard = Guard {
        last: Some(head_of(accepted)),
    };
    match guard.pass_head(&Sha256Hash, &head_of(head), proof) {
        Ok(()) => codes::OK,
        Err(refusal) => number_of_head(refusal),
    }
}

/// Reads a state: 0 and its head, which is the head of the state that was seen before, or a later one with as many leaves or more. 36: one of both is
/// no TreeHeadSignature. 37: the state was rolled back. Then nothing is written.
#[unsafe(no_mangle)]
pub extern "C" fn wagtenib_guard_state(seen: &[u8], state: &[u8], head: &mut TreeHead) -> u32
    ensures { ReadsGuardState result seen.now state.now head.old head.new }
{
    let Some(found) = read_state(state) else {
        return codes::BAD_STATE;
    };
    let Some(old) = read_state(seen) else {
        return codes::BAD_STATE;
    };
    if !is_at_or_after(&old, &found) {
        return codes::STATE_ROLLED_BACK;
    }
    *head = of_head(&found);
    codes::OK
}
