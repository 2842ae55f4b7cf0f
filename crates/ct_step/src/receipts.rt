//! The receipt for each submission of a batch, and the leaves that these receipts name.

ghost use Rattle.std.specs.Prelude.{◌≡◌, ◌+◌, ◌≤◌, ◌^◌, length, map, IfOk, IsOkUnless};
ghost use Rattle.ct_codec.specs.Submitted.{entry_of};
ghost use Rattle.ct_codec.specs.declared.refusal.Refusal.TheVariants as Refusal;
ghost use Rattle.ct_tree.specs.Tree.{hash_leaf};
ghost use Rattle.ct_step.specs.Leaves.{receipts_from, receipt_parts};

use ct_codec::{
    Refusal, Submission, certificate_timestamp_signature_input_with_extensions, index_extension,
};
use ct_tree::{NodeHash, leaf_hash};
use std::alloc::{AllocError, Global};

/// The answer to a submission once the step is taken: everything in a signed certificate timestamp (RFC 6962, section 3.2) except the
/// signature.
#[derive(Drop)]
pub struct Receipt {
    /// The index of the submission's leaf in the log, which is in its only extension (`leaf_index`, C2SP static-ct-api).
    pub leaf_index: u64,
    /// The timestamp at which the submission was added, in milliseconds.
    pub timestamp: u64,
    /// The bytes to be signed. These are also the bytes of the leaf.
    pub signed: Vec<u8>,
}

// Returns the receipts of submissions whose indexes begin at `first`.
pub(crate) fn receipts(
    alloc: Global,
    batch: &[Submission],
    first: u64,
    now: u64,
) -> Result<Vec<Receipt>, Refusal>
    requires { first + length batch.now ≤ 2 ^ 40 }
    ensures receipts { IfOk result (λ v. map receipt_parts v.items ≡ receipts_from now first (map entry_of batch.now)) }
    ensures memory { IsOkUnless result Refusal.Memory }
{
    let mut receipts = Vec::new(alloc);
    let mut leaf_index = first;
    for submission in batch {
        let extension = index_extension(leaf_index);
        let signed = certificate_timestamp_signature_input_with_extensions(
            alloc, submission, now, &extension,
        )?;
        receipts.push(Receipt {
            leaf_index,
            timestamp: now,
            signed,
        })?;
        leaf_index += 1;
    }
    Ok(receipts)
}

// Returns the hashes of the leaves that receipts name.
pub(crate) fn leaf_hashes<H: NodeHash>(
    alloc: Global,
    h: &H,
    receipts: &[Receipt],
) -> Result<Vec<[u8; 32]>, AllocError>
    ensures { IfOk result (λ v. v.items ≡ map (λ r. hash_leaf H.digest r.signed.items) receipts.now) }
{
    let mut hashes = Vec::new(alloc);
    for receipt in receipts {
        hashes.push(leaf_hash(h, &receipt.signed))?;
    }
    Ok(hashes)
}
