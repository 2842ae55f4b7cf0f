//! The signed bytes of a cosignature.
ghost use Rattle.std.specs.Prelude.{◌≡◌, IfOk, string_bytes};
ghost use Rattle.ct_checkpoint.specs.Message.{cosignature_message};

use std::alloc::{AllocError, Global};

/// The bytes under a cosignature (C2SP tlog-cosignature) with this timestamp, in seconds since 1970, over a checkpoint's text. The text is
/// the note's text with its last line end, and without the empty line and the signatures after it. The bytes are UTF-8, and end with the
/// text.
///
/// # Errors
///
/// `AllocError` if memory was refused.
#[tactic(auto, unfolding(crate::specs::Message::cosignature_message))]
pub fn cosignature_message(alloc: Global, seconds: u64, text: &str) -> Result<String, AllocError>
    ensures { IfOk result (λ s. string_bytes s ≡ cosignature_message seconds text.now) }
{
    format!(in alloc; "cosignature/v1\ntime {seconds}\n{text}")
}
