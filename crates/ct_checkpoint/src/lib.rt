//! The text of a log's checkpoint (C2SP tlog-checkpoint, "Note text"), written and read, and the bytes that a witness signs for it. The
//! text has a line for the log's origin, a line for the tree's size in decimal, and a line for its root as base64.
//!
//! [`write_checkpoint`] writes it and [`read_checkpoint`] reads it, each by the one definition `checkpoint_text` (`specs/Checkpoint.antt`).
//! Extension lines are neither written nor read. The note's signature is not part of this text: an RFC6962NoteSignature (C2SP
//! static-ct-api, "Checkpoints") is made over the bytes of `ct_codec::tree_head_signature_input` for the same size and root at the
//! signature's timestamp.
//!
//! [`cosignature_message`] writes the bytes under a witness's cosignature (C2SP tlog-cosignature, "cosignature/v1"): a line with its
//! version, a line with the timestamp in seconds, and the checkpoint's text. A message determines its timestamp and its text, a
//! checkpoint's text determines its origin, size and root, and no message is itself a checkpoint's text ([`laws::messages`]). So a witness
//! whose key signs only such messages never signs a checkpoint as the checkpoint's log, whatever text it receives.
#![tactic(auto)]

mod checkpoint;
mod fault;
pub mod laws;
mod message;

pub use checkpoint::{Checkpoint, read_checkpoint, write_checkpoint};
pub use fault::CheckpointFault;
pub use message::cosignature_message;
