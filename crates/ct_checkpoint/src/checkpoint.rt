//! Checkpoints and their texts.

ghost use Rattle.std.specs.Prelude.{◌≡◌, ◌≢◌, ◌⊎◌, ◌<◌, ◌^◌, ◌++◌, ◌∷◌, [], ℕ, List, length, decimal, IfOk, IfErr, IfNone, MatchOption, string_bytes};
ghost use Rattle.std.specs.Bool.{MatchBool};
ghost use Rattle.base64.specs.Engines.{standard};
ghost use Rattle.base64.specs.GeneralPurpose.{encode_of};
ghost use Rattle.ct_checkpoint.specs.Checkpoint.{checkpoint_text, of_decoding, IsCheckpoint, IsCheckpointFault, IsNumber, IsRootOfTree, IsWithinLine};
ghost use Rattle.ct_checkpoint.specs.declared.fault.CheckpointFault.TheVariants.{BadRoot, Memory};

use crate::fault::CheckpointFault;
use base64::DecodeAllocError;
use base64::engine::general_purpose::STANDARD;
use std::alloc::{AllocError, Global};

/// The contents of a checkpoint; the origin is borrowed from the text.
#[derive(Clone, Copy, Debug, PartialEq, Eq)]
pub struct Checkpoint<'a> {
    /// The log's origin: its name, as a URL without a scheme.
    pub origin: &'a str,
    /// The tree's number of leaves.
    pub size: u64,
    /// The tree's root.
    pub root: [u8; 32],
}

/// The text of a checkpoint. The caller must ensure that the origin is not empty and has no line end.
#[tactic(auto, unfolding(crate::specs::Checkpoint::checkpoint_text))]
pub fn write_checkpoint(
    alloc: Global,
    origin: &str,
    size: u64,
    root: &[u8; 32],
) -> Result<String, AllocError>
    ensures { IfOk result (λ s. string_bytes s ≡ checkpoint_text origin.now size root.now) }
{
    let root = STANDARD.encode(alloc, root)?;
    format!(in alloc; "{origin}\n{size}\n{root}\n")
}

// A law; the function does nothing. A root's type implies these facts about it.
fn is_root(root: [u8; 32])
    ensures { IsRootOfTree root }
{}

// A text's first line, and the text after its end.
fn first_line(text: &str) -> Option<(&str, &str)>
    ensures cut { MatchOption result ((line rest : List ℕ) → text.now ≡ line ++ 10 ∷ rest → ⊥)
        (λ r. (text.now ≡ r.0.now ++ 10 ∷ r.1.now) × IsWithinLine r.0.now) }
    ensures uncut { IfNone result (IsWithinLine text.now) }
{
    text.split_once('\n')
}

// The number that a text represents, if it represents one as it is written.
fn number_of(text: &str) -> Option<u64>
    ensures written { MatchOption result ((n : ℕ) → n < 2 ^ 64 → text.now ≡ decimal n → ⊥) (λ r. (n : ℕ) → n < 2 ^ 64 → text.now ≡ decimal n → n ≡ r) }
    ensures number { MatchOption result ((n : ℕ) → IsNumber n text.now → ⊥) (λ n. IsNumber n text.now) }
{
    text.parse::<u64>().ok()
}

// The checkpoint fault for a failure to decode.
fn fault_of(error: DecodeAllocError) -> CheckpointFault
    ensures { result ≡ of_decoding error }
{
    CheckpointFault::from(error)
}

// The 32 bytes whose base64 is this text.
fn root_of(alloc: Global, text: &[u8]) -> Result<[u8; 32], CheckpointFault>
    ensures found { IfOk result (λ r. (root : List ℕ) → IsRootOfTree root → text.now ≡ encode_of standard root → root ≡ r) }
    ensures written { IfOk result (λ r. text.now ≡ encode_of standard r) }
    ensures refused { IfErr result (λ f. f ≢ Memory → (root : List ℕ) → IsRootOfTree root → text.now ≡ encode_of standard root → ⊥) }
    ensures fault { IfErr result (λ f. (f ≡ BadRoot) ⊎ (f ≡ Memory)) }
{
    let bytes = match STANDARD.decode(alloc, text) {
        Ok(bytes) => bytes,
        Err(error) => return Err(fault_of(error)),
    };
    match <[u8; 32]>::try_from(bytes.as_slice()) {
        Ok(root) => Ok(root),
        Err(_) => Err(CheckpointFault::BadRoot),
    }
}

// Reports whether two texts are equal.
fn is_same(written: &str, text: &str) -> bool
    ensures { MatchBool result (written.now ≡ text.now) (written.now ≡ text.now → ⊥) }
{
    written == text
}

// The 32 bytes whose base64 is this line without its last byte, the line end.
fn root_of_line(alloc: Global, line: &[u8]) -> Result<[u8; 32], CheckpointFault>
    ensures found { IfOk result (λ r. (root : List ℕ) → IsRootOfTree root → line.now ≡ encode_of standard root ++ 10 ∷ [] → root ≡ r) }
    ensures refused { IfErr result (λ f. f ≢ Memory → (root : List ℕ) (last : ℕ) → IsRootOfTree root → line.now ≡ encode_of standard root ++ last ∷ [] → ⊥) }
    ensures written { IfOk result (λ r. (last : ℕ) × (line.now ≡ encode_of standard r ++ last ∷ [])) }
    ensures fault { IfErr result (λ f. (f ≡ BadRoot) ⊎ (f ≡ Memory)) }
{
    match line.split_last() {
        Some((_, text)) => root_of(alloc, text),
        None => Err(CheckpointFault::BadRoot),
    }
}

/// The checkpoint whose text this is (C2SP tlog-checkpoint, "Note text").
///
/// # Errors
///
/// The first fault from the left, as [`CheckpointFault`] lists them: BadOrigin, BadSize, BadRoot, NotAsWritten. Only Memory, if memory was
/// refused, can be returned for a text that is a checkpoint's.
pub fn read_checkpoint(alloc: Global, text: &str) -> Result<Checkpoint<'_>, CheckpointFault>
    ensures found { IfOk result (λ c. IsCheckpoint c.origin.now c.size c.root text.now) }
    ensures refused { IfErr result (λ f. f ≢ Memory → (origin : List ℕ) (size : ℕ) (root : List ℕ) → IsCheckpoint origin size root text.now → ⊥) }
    ensures fault { IfErr result (λ f. IsCheckpointFault f text.now) }
{
    let Some((origin, behind_origin)) = first_line(text) else {
        return Err(CheckpointFault::BadOrigin);
    };
    if origin.is_empty() {
        return Err(CheckpointFault::BadOrigin);
    }
    let Some((size, behind_size)) = first_line(behind_origin) else {
        return Err(CheckpointFault::BadSize);
    };
    let Some(size) = number_of(size) else {
        return Err(CheckpointFault::BadSize);
    };
    let root = match root_of_line(alloc, behind_size.as_bytes()) {
        Ok(root) => root,
        Err(fault) => return Err(fault),
    };
    is_root(root);
    let written = write_checkpoint(alloc, origin, size, &root)?;
    if is_same(written.as_str(), text) {
        return Ok(Checkpoint { origin, size, root });
    }
    Err(CheckpointFault::NotAsWritten)
}
