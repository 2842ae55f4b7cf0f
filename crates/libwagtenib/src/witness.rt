//! Decides what a witness cosigns (C2SP tlog-witness). Its state is the message that it cosigned last (C2SP tlog-cosignature), and belongs to the caller.

ghost use Rattle.std.specs.Prelude.{◌≡◌, ◌⊎◌, ◌<◌, ◌≤◌, ℕ, List, IfOk, MatchResult, MatchOption, string_bytes};
ghost use Rattle.std.specs.Bool.{MatchBool};
ghost use Rattle.sha2.specs.Sha256.{sha256};
ghost use Rattle.ct_checkpoint.specs.Message.{cosignature_message as message_of};
ghost use Rattle.ct_verify.specs.Laws.{AreHashes};
ghost use Rattle.ct_witness.specs.declared.tree.Tree.{Tree};
ghost use Rattle.libwagtenib.specs.Codes.{tree_code};
ghost use Rattle.libwagtenib.specs.Witness.{cosigned, tree_of, IsCheckpointOf, IsMessageOf, IsNoMessage, MayCosign, MayNotCosign};
ghost use Rattle.libwagtenib.specs.Witness.{CosignsAfter, CosignsFirst, Cosigns, IsSeenOrLater, Describes, ReadsWitnessState};

use crate::codes::OUT_OF_MEMORY;
use crate::message::{Last, WitnessedTree, checkpoint_of, read_message};
use crate::output::write_output;
use crate::{codes, proofs};
use ct_checkpoint::{Checkpoint, cosignature_message};
use ct_tree::{NodeHash, Sha256Hash, is_same_digest};
use ct_witness::{Tree, Witness, WitnessRefusal};
use std::alloc::{AllocError, Global};

// The number of the refusal of a tree.
fn number_of(refusal: WitnessRefusal) -> u32
    ensures { result ≡ tree_code refusal }
{
    match refusal {
        WitnessRefusal::OldAbove => codes::OLD_ABOVE,
        WitnessRefusal::NotLast => codes::NOT_LAST,
        WitnessRefusal::Fork => codes::FORK,
        WitnessRefusal::ProofNotEmpty => codes::PROOF_NOT_EMPTY,
        WitnessRefusal::Inconsistent(fault) => proofs::number_of(fault),
    }
}

// Whether a time is neither 0 nor earlier than that of the last cosignature.
fn is_timely(time: u64, last: u64) -> bool
    ensures { MatchBool result ((0 < time) × (last ≤ time)) ((time ≡ 0) ⊎ (time < last)) }
{
    time != 0 && last <= time
}

// A law, which does nothing: the type of a proof says that its hashes have 32 bytes.
fn are_hashes(proof: &[[u8; 32]])
    ensures { AreHashes proof.now }
{}

// Whether the tree of this checkpoint may be cosigned after the last one, or the number of the first reason why not.
fn judge(
    last: &Last<'_>,
    checkpoint: &Checkpoint<'_>,
    old: u64,
    proof: &[[u8; 32]],
    time: u64,
) -> Result<(), u32>
    ensures { MatchResult result
        (λ _. MayCosign sha256 (cosigned last.now.origin.now last.now.tree last.now.time) checkpoint.now.origin.now (tree_of checkpoint.now.size checkpoint.now.root) old proof.now time)
        (λ code. MayNotCosign sha256 (cosigned last.now.origin.now last.now.tree last.now.time) checkpoint.now.origin.now (tree_of checkpoint.now.size checkpoint.now.root) old proof.now time code) }
{
    if checkpoint.origin.as_bytes() != last.origin {
        return Err(codes::OTHER_ORIGIN);
    }
    let tree = Tree {
        size: checkpoint.size,
        root: checkpoint.root,
    };
    are_hashes(proof);
    let mut witness = Witness { last: last.tree };
    match witness.pass(&Sha256Hash, old, &tree, proof) {
        Ok(()) => {
            if is_timely(time, last.time) {
                Ok(())
            } else {
                Err(codes::TIME_FALLS)
            }
        }
        Err(refusal) => Err(number_of(refusal)),
    }
}

// A call after the last cosignature, with a text in UTF-8.
fn cosign_text(
    alloc: Global,
    last: &Last<'_>,
    text: &str,
    old: u64,
    proof: &[[u8; 32]],
    time: u64,
    out: &mut [u8],
    length: &mut u64,
) -> u32
    ensures { CosignsAfter sha256 result (cosigned last.now.origin.now last.now.tree last.now.time) text.now old proof.now time out.old out.new length.old length.new }
{
    match checkpoint_of(alloc, text) {
        Ok(Some(checkpoint)) => match judge(last, &checkpoint, old, proof, time) {
            Ok(()) => match cosignature_message(alloc, time, text) {
                Ok(message) => write_output(message.as_bytes(), out, length),
                Err(AllocError) => OUT_OF_MEMORY,
            },
            Err(code) => code,
        },
        Ok(None) => codes::NO_CHECKPOINT,
        Err(AllocError) => OUT_OF_MEMORY,
    }
}

// A call after the last cosignature.
fn cosign_after(
    alloc: Global,
    last: &Last<'_>,
    checkpoint: &[u8],
    old: u64,
    proof: &[[u8; 32]],
    time: u64,
    out: &mut [u8],
    length: &mut u64,
) -> u32
    ensures { CosignsAfter sha256 result (cosigned last.now.origin.now last.now.tree last.now.time) checkpoint.now old proof.now time out.old out.new length.old length.new }
{
    match str::from_utf8(checkpoint) {
        Ok(text) => cosign_text(alloc, last, text, old, proof, time, out, length),
        Err(_) => codes::NO_CHECKPOINT,
    }
}

/// Whether a witness that never cosigned a tree of this log may cosign this checkpoint. 0: `out` begins with the message to cosign, which has `*length`
/// bytes and is the witness's state from now on.
#[unsafe(no_mangle)]
pub extern "C" fn wagtenib_witness_first(
    alloc: Global,
    origin: &[u8],
    checkpoint: &[u8],
    old: u64,
    proof: &[[u8; 32]],
    time: u64,
    out: &mut [u8],
    length: &mut u64,
) -> u32
    ensures { CosignsFirst sha256 result origin.now checkpoint.now old proof.now time out.old out.new length.old length.new }
{
    let witness = Witness::new(&Sha256Hash);
    let last = Last {
        origin,
        tree: witness.last,
        time: 0,
    };
    cosign_after(alloc, &last, checkpoint, old, proof, time, out, length)
}

/// Whether a witness may cosign this checkpoint after the one whose message is `state`. 0: `out` begins with the message to cosign, which has `*length`
/// bytes and is the witness's state from now on.
#[unsafe(no_mangle)]
pub extern "C" fn wagtenib_witness_cosign(
    alloc: Global,
    state: &[u8],
    checkpoint: &[u8],
    old: u64,
    proof: &[[u8; 32]],
    time: u64,
    out: &mut [u8],
    length: &mut u64,
) -> u32
    ensures { Cosigns sha256 result state.now checkpoint.now old proof.now time out.old out.new length.old length.new }
{
    match read_message(alloc, state) {
        Ok(Some(last)) => cosign_after(alloc, &last, checkpoint, old, proof, time, out, length),
        Ok(None) => codes::BAD_STATE,
        Err(AllocError) => OUT_OF_MEMORY,
    }
}

// Whether two trees are the same.
fn is_same_tree(one: &Tree, two: &Tree) -> bool
    ensures { MatchBool result (one.now ≡ two.now) (one.now ≡ two.now → ⊥) }
{
    *one == *two
}

// Whether a cosignature is the one that was seen, or a later one of the same log.
fn is_seen_or_later(seen: &Last<'_>, found: &Last<'_>) -> bool
    ensures { MatchBool result (IsSeenOrLater (cosigned seen.now.origin.now seen.now.tree seen.now.time) (cosigned found.now.origin.now found.now.tree found.now.time))
        (IsSeenOrLater (cosigned seen.now.origin.now seen.now.tree seen.now.time) (cosigned found.now.origin.now found.now.tree found.now.time) → ⊥) }
{
    found.origin == seen.origin
        && seen.time <= found.time
        && (is_same_tree(&found.tree, &seen.tree) || seen.tree.size < found.tree.size)
}

// The cosignatures whose messages two states are.
#[derive(Clone, Copy)]
struct Both<'a> {
    seen: Last<'a>,
    found: Last<'a>,
}

// Reads the state that was seen, and the one that was found.
fn read_both<'a>(
    alloc: Global,
    seen: &'a [u8],
    state: &'a [u8],
) -> Result<Option<Both<'a>>, AllocError>
    ensures { IfOk result (λ o. MatchOption o (IsNoMessage state.now ⊎ IsNoMessage seen.now)
        (λ b. IsMessageOf (cosigned b.seen.origin.now b.seen.tree b.seen.time) seen.now
        × IsMessageOf (cosigned b.found.origin.now b.found.tree b.found.time) state.now)) }
{
    let Some(found) = read_message(alloc, state)? else {
        return Ok(None);
    };
    let Some(seen) = read_message(alloc, seen)? else {
        return Ok(None);
    };
    Ok(Some(Both { seen, found }))
}

// Writes the tree and the time of a cosignature, if it is the one that was seen or a later one.
fn write_later(seen: &Last<'_>, found: &Last<'_>, last: &mut WitnessedTree) -> u32
    ensures { ((result ≡ 0) × IsSeenOrLater (cosigned seen.now.origin.now seen.now.tree seen.now.time) (cosigned found.now.origin.now found.now.tree found.now.time)
        × Describes last.new (cosigned found.now.origin.now found.now.tree found.now.time))
        ⊎ ((result ≡ 37) × (IsSeenOrLater (cosigned seen.now.origin.now seen.now.tree seen.now.time) (cosigned found.now.origin.now found.now.tree found.now.time) → ⊥) × (last.new ≡ last.old)) }
{
    if is_seen_or_later(seen, found) {
        *last = WitnessedTree {
            tree_size: found.tree.size,
            time: found.time,
            root: found.tree.root,
        };
        codes::OK
    } else {
        codes::STATE_ROLLED_BACK
    }
}

/// Reads a state: 0, and the tree and the time in `last`.
#[unsafe(no_mangle)]
pub extern "C" fn wagtenib_witness_state(
    alloc: Global,
    seen: &[u8],
    state: &[u8],
    last: &mut WitnessedTree,
) -> u32
    ensures { ReadsWitnessState result seen.now state.now last.old last.new }
{
    match read_both(alloc, seen, state) {
        Ok(Some(both)) => write_later(&both.seen, &both.found, last),
        Ok(None) => codes::BAD_STATE,
        Err(AllocError) => OUT_OF_MEMORY,
    }
}
