//! The message that a witness cosigns (C2SP tlog-cosignature), which is its state: written by `ct_checkpoint`, and read here.

ghost use Rattle.std.specs.Prelude.{◌≡◌, ◌≢◌, ◌⊎◌, ◌<◌, ◌^◌, ◌++◌, ◌∷◌, ℕ, List, length, drop, decimal, IfOk, MatchOption, MatchResult};
ghost use Rattle.std.specs.Bool.{MatchBool};
ghost use Rattle.std.specs.Str.{IsUtf8};
ghost use Rattle.ct_checkpoint.specs.Checkpoint.{IsWithinLine};
ghost use Rattle.ct_checkpoint.specs.Message.{cosignature_message as message_of};
ghost use Rattle.ct_checkpoint.specs.declared.fault.CheckpointFault.TheVariants.{Memory};
ghost use Rattle.libwagtenib.specs.Witness.{cosigned, tree_of, IsCheckpointOf, IsNoCheckpoint, IsMessageOf, IsNoMessage};

use ct_checkpoint::{Checkpoint, CheckpointFault, cosignature_message, read_checkpoint};
use ct_witness::Tree;
use std::alloc::{AllocError, Global};

/// The tree that a witness cosigned last of a log, and the time of the cosignature in seconds since 1970.
#[repr(C)]
#[derive(Clone, Copy)]
pub struct WitnessedTree {
    pub tree_size: u64,
    pub time: u64,
    pub root: [u8; 32],
}

// The last cosignature of a log: its origin, its tree, and the time.
#[derive(Clone, Copy)]
pub struct Last<'a> {
    pub origin: &'a [u8],
    pub tree: Tree,
    pub time: u64,
}

// The number of bytes before the time: "cosignature/v1", a line end, and "time ".
const BEFORE_TIME: usize = 20;

// The bytes from the time on, if there are so many. The bytes before are not looked at.
fn bytes_from_time(bytes: &[u8]) -> Option<&[u8]>
    ensures { MatchOption result (length bytes.now < 20) (λ r. r.now ≡ drop 20 bytes.now) }
{
    if bytes.len() < BEFORE_TIME {
        None
    } else {
        Some(&bytes[BEFORE_TIME..])
    }
}

// The text that the bytes are.
fn text_of(bytes: &[u8]) -> Option<&str>
    ensures { MatchOption result (IsUtf8 bytes.now → ⊥) (λ r. r.now ≡ bytes.now) }
{
    match str::from_utf8(bytes) {
        Ok(text) => Some(text),
        Err(_) => None,
    }
}

// A text's first line, and what follows its end.
fn first_line(text: &str) -> Option<(&str, &str)>
    ensures { MatchOption result ((line rest : List ℕ) → text.now ≡ line ++ 10 ∷ rest → ⊥) (λ r. (text.now ≡ r.0.now ++ 10 ∷ r.1.now) × IsWithinLine r.0.now) }
{
    text.split_once('\n')
}

// The number that a text is, if it is one as it is written.
fn number_of(text: &str) -> Option<u64>
    ensures { MatchOption result ((n : ℕ) → n < 2 ^ 64 → text.now ≡ decimal n → ⊥) (λ r. (n : ℕ) → n < 2 ^ 64 → text.now ≡ decimal n → n ≡ r) }
{
    text.parse::<u64>().ok()
}

// The time and the text of the message that the bytes are, if they are one.
fn parts_of(bytes: &[u8]) -> Option<(u64, &str)>
    ensures { MatchOption result ((n : ℕ) (t : List ℕ) → n < 2 ^ 64 → IsUtf8 t → bytes.now ≡ message_of n t → ⊥)
        (λ r. (n : ℕ) (t : List ℕ) → n < 2 ^ 64 → bytes.now ≡ message_of n t → (n ≡ r.0) × (t ≡ r.1.now)) }
{
    let Some(rest) = bytes_from_time(bytes) else {
        return None;
    };
    let Some(line) = text_of(rest) else {
        return None;
    };
    let Some((number, text)) = first_line(line) else {
        return None;
    };
    let Some(time) = number_of(number) else {
        return None;
    };
    Some((time, text))
}

// Whether the bytes are the message of this time and this text.
fn is_message(alloc: Global, bytes: &[u8], time: u64, text: &str) -> Result<bool, AllocError>
    ensures { IfOk result (λ b. MatchBool b (bytes.now ≡ message_of time text.now) (bytes.now ≡ message_of time text.now → ⊥)) }
{
    let written = cosignature_message(alloc, time, text)?;
    Ok(written.as_bytes() == bytes)
}

// The reason for which a text was not read as a checkpoint: it is none, or an allocation was refused.
#[derive(Drop)]
struct Unread {
    told: Result<(), AllocError>,
}

impl From<CheckpointFault> for Unread {
    ghost from_gives = { λ fault unread. MatchResult unread.told (λ _. fault ≢ Memory) (λ _. fault ≡ Memory) };

    fn from(fault: CheckpointFault) -> Unread {
        let told = match fault {
            CheckpointFault::Memory => Err(AllocError),
            _ => Ok(()),
        };
        Unread { told }
    }
}

// The checkpoint of which this is the text.
pub(crate) fn checkpoint_of(alloc: Global, text: &str) -> Result<Option<Checkpoint<'_>>, AllocError>
    ensures { IfOk result (λ o. MatchOption o (IsNoCheckpoint text.now) (λ c. IsCheckpointOf c.origin.now (tree_of c.size c.root) text.now)) }
{
    match read_checkpoint(alloc, text) {
        Ok(checkpoint) => Ok(Some(checkpoint)),
        Err(fault) => {
            Unread::from(fault).told?;
            Ok(None)
        }
    }
}

// The cosignature whose message the bytes are.
pub(crate) fn read_message(alloc: Global, bytes: &[u8]) -> Result<Option<Last<'_>>, AllocError>
    ensures { IfOk result (λ o. MatchOption o (IsNoMessage bytes.now) (λ c. IsMessageOf (cosigned c.origin.now c.tree c.time) bytes.now)) }
{
    let Some((time, text)) = parts_of(bytes) else {
        return Ok(None);
    };
    if !is_message(alloc, bytes, time, text)? {
        return Ok(None);
    }
    let Some(checkpoint) = checkpoint_of(alloc, text)? else {
        return Ok(None);
    };
    Ok(Some(Last {
        origin: checkpoint.origin.as_bytes(),
        tree: Tree {
            size: checkpoint.size,
            root: checkpoint.root,
        },
        time,
    }))
}
