//! The bytes that a log signs (RFC 6962 sections 3.2 and 3.5). The holder of the log's key makes the signature itself.

ghost use Rattle.std.specs.Prelude.{◌≡◌, ◌<◌, ◌^◌, [], length, IfOk, IsOkUnless};
ghost use Rattle.ct_codec.specs.Submitted.{entry_of};
ghost use Rattle.ct_codec.specs.Signed.{tree_head_text, timestamp_text};

use crate::numbers::number_bytes_8;
use crate::refusal::Refusal;
use crate::submission::Submission;
use crate::writing::{leaf_input, leaf_input_with_extensions};
use std::alloc::Allocator;

/// The signed bytes of a tree head (TreeHeadSignature, RFC 6962 section 3.5). It has 50 bytes, made from the head's timestamp in
/// milliseconds, the tree's number of leaves, and its root.
pub fn tree_head_signature_input<A: Allocator>(
    alloc: A,
    timestamp: u64,
    tree_size: u64,
    root: &[u8; 32],
) -> Result<Vec<u8, A>, Refusal>
    ensures text { IfOk result (λ b. b.items ≡ tree_head_text timestamp tree_size root.now) }
    ensures memory { IsOkUnless result Refusal.Memory }
{
    let mut bytes = Vec::with_capacity(alloc, 50)?;
    bytes.extend_from_slice(&[0, 1])?;
    bytes.extend_from_slice(&number_bytes_8(timestamp))?;
    bytes.extend_from_slice(&number_bytes_8(tree_size))?;
    bytes.extend_from_slice(root)?;
    Ok(bytes)
}

/// The signed bytes of a signed certificate timestamp (RFC 6962 section 3.2) for the submission with this timestamp, in milliseconds, and
/// these extensions, at most 65,535 bytes. These are the bytes of its leaf with the same extensions
/// ([`crate::laws::signed_timestamps_are_leaves`]).
pub fn certificate_timestamp_signature_input_with_extensions<A: Allocator, S: Allocator>(
    alloc: A,
    submission: &Submission<S>,
    timestamp: u64,
    extensions: &[u8],
) -> Result<Vec<u8, A>, Refusal>
    requires { length extensions.now < 2 ^ 16 }
    ensures text { IfOk result (λ b. b.items ≡ timestamp_text timestamp (entry_of submission.now) extensions.now) }
    ensures memory { IsOkUnless result Refusal.Memory }
{
    leaf_input_with_extensions(alloc, submission, timestamp, extensions)
}

/// The signed bytes of a signed certificate timestamp (RFC 6962 section 3.2) for the submission with this timestamp, in milliseconds, and
/// no extensions. These are the bytes of its leaf ([`crate::laws::signed_timestamps_are_leaves`]).
pub fn certificate_timestamp_signature_input<A: Allocator, S: Allocator>(
    alloc: A,
    submission: &Submission<S>,
    timestamp: u64,
) -> Result<Vec<u8, A>, Refusal>
    ensures text { IfOk result (λ b. b.items ≡ timestamp_text timestamp (entry_of submission.now) []) }
    ensures memory { IsOkUnless result Refusal.Memory }
{
    leaf_input(alloc, submission, timestamp)
}
