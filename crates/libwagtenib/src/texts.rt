//! Texts and bytes that are signed, and the numbers by which keys are named. A reader of a log needs them to check its signatures.

ghost use Rattle.std.specs.Prelude.{◌≡◌, ◌++◌, ◌∷◌, [], take, IfOk};
ghost use Rattle.std.specs.Bool.{MatchBool};
ghost use Rattle.sha2.specs.Sha256.{sha256};
ghost use Rattle.ct_checkpoint.specs.Message.{cosignature_message as message_of};
ghost use Rattle.libwagtenib.specs.Guard.{head_of_c, IsStateOf};
ghost use Rattle.libwagtenib.specs.Texts.{note_key_id, WritesCheckpoint, ReadsCheckpoint, WritesMessage};

use crate::codes;
use crate::codes::OUT_OF_MEMORY;
use crate::head::{TreeHead, head_of, write_state};
use crate::message::checkpoint_of;
use crate::output::write_output;
use crate::step::origin_of;
use ct_checkpoint::{cosignature_message, write_checkpoint};
use ct_tree::{NodeHash, Sha256Hash};
use std::alloc::{AllocError, Global};

/// The content of a checkpoint's text. Its origin is the first `origin_length` bytes.
#[repr(C)]
#[derive(Clone, Copy)]
pub struct CheckpointInfo {
    pub tree_size: u64,
    pub origin_length: u64,
    pub root: [u8; 32],
}

/// Writes the text of a checkpoint, without a signature (C2SP tlog-checkpoint), into `text`, and its length into `length`. 0, 8 or 9; 10 if the origin is none.
#[unsafe(no_mangle)]
pub extern "C" fn wagtenib_checkpoint_text(
    alloc: Global,
    origin: &[u8],
    tree_size: u64,
    root: &[u8; 32],
    text: &mut [u8],
    length: &mut u64,
) -> u32
    ensures { WritesCheckpoint origin.now tree_size root.now result text.old text.new length.old length.new }
{
    let Some(name) = origin_of(origin) else {
        return codes::BAD_ORIGIN;
    };
    match write_checkpoint(alloc, name, tree_size, root) {
        Ok(made) => write_output(made.as_bytes(), text, length),
        Err(AllocError) => OUT_OF_MEMORY,
    }
}

// Reads a text in UTF-8.
fn read_text(alloc: Global, text: &str, checkpoint: &mut CheckpointInfo) -> u32
    ensures { ReadsCheckpoint result text.now checkpoint.old checkpoint.new }
{
    match checkpoint_of(alloc, text) {
        Ok(Some(found)) => {
            *checkpoint = CheckpointInfo {
                tree_size: found.size,
                origin_length: found.origin.len() as u64,
                root: found.root,
            };
            codes::OK
        }
        Ok(None) => codes::NO_CHECKPOINT,
        Err(AllocError) => OUT_OF_MEMORY,
    }
}

/// Reads the text of a checkpoint. 0: its content is in `checkpoint`. 96: it is the text of no checkpoint. 8: an allocation was refused. Nothing is written with 96
/// and 8.
#[unsafe(no_mangle)]
pub extern "C" fn wagtenib_read_checkpoint(
    alloc: Global,
    text: &[u8],
    checkpoint: &mut CheckpointInfo,
) -> u32
    ensures { ReadsCheckpoint result text.now checkpoint.old checkpoint.new }
{
    match str::from_utf8(text) {
        Ok(text) => read_text(alloc, text, checkpoint),
        Err(_) => codes::NO_CHECKPOINT,
    }
}

/// Writes the TreeHeadSignature of a head: the bytes that a log signs for it (RFC 6962, section 3.5).
#[unsafe(no_mangle)]
pub extern "C" fn wagtenib_tree_head_signature(head: &TreeHead, signed_bytes: &mut [u8; 50])
    ensures { IsStateOf (head_of_c head.now) signed_bytes.new }
{
    write_state(&head_of(head), signed_bytes);
}

/// Writes the bytes under a cosignature of this time, in seconds since 1970, over a note's text in UTF-8 (C2SP tlog-cosignature). 0, 8 or 9; 145 if the text is
/// not UTF-8.
#[unsafe(no_mangle)]
pub extern "C" fn wagtenib_cosignature_message(
    alloc: Global,
    time: u64,
    text: &[u8],
    message: &mut [u8],
    length: &mut u64,
) -> u32
    ensures { WritesMessage time text.now result message.old message.new length.old length.new }
{
    match str::from_utf8(text) {
        Ok(text) => match cosignature_message(alloc, time, text) {
            Ok(made) => write_output(made.as_bytes(), message, length),
            Err(AllocError) => OUT_OF_MEMORY,
        },
        Err(_) => codes::NOT_UTF8,
    }
}

// SHA-256 of a name, a line end, the byte of an algorithm and a key.
fn hash_of_key(name: &[u8], algorithm: u8, public_key: &[u8]) -> [u8; 32]
    ensures { result ≡ sha256 (name.now ++ (10 ∷ (algorithm ∷ public_key.now))) }
{
    Sha256Hash.hash(&[name, &[10, algorithm], public_key])
}

/// Writes the number by which a note's signature names its key (C2SP signed-note): the first 4 bytes of SHA-256 over the key's name, a line end, the byte of its
/// algorithm, and the public key.
#[unsafe(no_mangle)]
pub extern "C" fn wagtenib_note_key_id(
    name: &[u8],
    algorithm: u8,
    public_key: &[u8],
    key_id: &mut [u8; 4],
)
    ensures { key_id.new ≡ note_key_id sha256 name.now algorithm public_key.now }
{
    let hash = hash_of_key(name, algorithm, public_key);
    *key_id = [hash[0], hash[1], hash[2], hash[3]];
}

/// Writes the LogID of a log: SHA-256 of its public key as SubjectPublicKeyInfo in DER (RFC 6962, section 3.2).
#[unsafe(no_mangle)]
pub extern "C" fn wagtenib_log_id(public_key: &[u8], log_id: &mut [u8; 32])
    ensures { log_id.new ≡ sha256 public_key.now }
{
    *log_id = Sha256Hash.hash(&[public_key]);
}
