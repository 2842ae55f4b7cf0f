//! Decides what a log's key may sign.
ghost use Rattle.std.specs.Prelude.{◌≡◌, ◌≤◌, Some, None, MatchResult, OnOk, OnErr};
ghost use Rattle.std.specs.Bool.{MatchBool};
ghost use Rattle.ct_guard.specs.Guarded.{PassesHead, PassesReceipt, StopsHead, StopsLater, StopsReceipt, IsLater, IsOwnIndex};

use crate::refusal::{HeadRefusal, ReceiptRefusal};
use ct_codec::{index_extension, lend_leaf};
use ct_tree::{Head, NodeHash, is_same_digest, leaf_hash};
use ct_verify::{verify_consistency, verify_inclusion};

/// The head that was let through last, if there was one. A head that was saved is handed in as it is.
#[derive(Clone, Copy, Debug, PartialEq, Eq)]
pub struct Guard {
    pub last: Option<Head>,
}

// Decides whether the tree of a later head, with as many leaves or more, contains that of the last one.
fn goes_on<H: NodeHash>(
    h: &H,
    last: &Head,
    head: &Head,
    proof: &[[u8; 32]],
) -> Result<(), HeadRefusal>
    requires larger { last.now.tree_size ≤ head.now.tree_size }
    ensures { MatchResult result (λ _. IsLater H.digest last.now head.now proof.now) (StopsLater H.digest last.now head.now proof.now) }
{
    if head.tree_size == last.tree_size {
        return if is_same_digest(&head.root, &last.root) {
            Ok(())
        } else {
            Err(HeadRefusal::Fork)
        };
    }
    if last.tree_size == 0 {
        return Ok(());
    }
    match verify_consistency(
        h,
        last.tree_size,
        head.tree_size,
        &last.root,
        &head.root,
        proof,
    ) {
        Ok(()) => Ok(()),
        Err(fault) => Err(HeadRefusal::Inconsistent(fault)),
    }
}

impl Guard {
    /// A guard that has let no head through.
    pub fn new() -> Guard
        ensures { result ≡ record { last = None } }
    {
        Guard { last: None }
    }

    /// Lets a tree head through, or refuses it. The proof is a consistency proof (RFC 6962, section 2.1.2) from the last head to
    /// this one. If both heads have the same size, or the last one has no leaves, there is no such proof, and `proof` is not read.
    /// The first head is let through without a check. The last head is let through again.
    ///
    /// The bytes that may be signed are then `tree_head_signature_input` of `ct_codec` for this head (RFC 6962, section 3.5).
    ///
    /// # Errors
    /// In this order: `SizeFalls`, `MomentNotLater`, `Fork`, `Inconsistent`. The guard is then unchanged.
    pub fn pass_head<H: NodeHash>(
        &mut self,
        h: &H,
        head: &Head,
        proof: &[[u8; 32]],
    ) -> Result<(), HeadRefusal>
        ensures passes { MatchResult result (λ _. PassesHead H.digest self.old.last head.now proof.now) (StopsHead H.digest self.old.last head.now proof.now) }
        ensures next { OnOk result (self.new.last ≡ Some head.now) }
        ensures unchanged { OnErr result (self.new ≡ self.old) }
    {
        if let Some(last) = self.last {
            if *head == last {
                return Ok(());
            }
            if head.tree_size < last.tree_size {
                return Err(HeadRefusal::SizeFalls);
            }
            if head.timestamp <= last.timestamp {
                return Err(HeadRefusal::MomentNotLater);
            }
            goes_on(h, &last, head, proof)?;
        }
        self.last = Some(*head);
        Ok(())
    }
}

/// Reports whether the extensions of a leaf (CtExtensions, without their length) name no other index in its log than this one: they are empty, or contain
/// only this index (leaf_index, C2SP static-ct-api).
pub fn is_own_index(index: u64, extensions: &[u8]) -> bool
    ensures { MatchBool result (IsOwnIndex index extensions.now) (IsOwnIndex index extensions.now → ⊥) }
{
    if extensions.is_empty() {
        return true;
    }
    if index >= 1 << 40 {
        return false;
    }
    extensions == index_extension(index).as_slice()
}

/// Lets a receipt through, or refuses it. It is let through if
///
/// - the bytes are a leaf (MerkleTreeLeaf, RFC 6962, section 3.4);
/// - the audit path leads from the leaf at this leaf index to the root of the last head;
/// - the leaf's timestamp is not later than that head's (RFC 6962, section 3.5);
/// - the leaf has no extensions, or only its index (leaf_index, C2SP static-ct-api).
///
/// The bytes that may be signed are then the leaf's own, which are those that its signed certificate timestamp signs
/// ([`ct_codec::laws::signed_timestamps_are_leaves`]).
///
/// # Errors
/// In this order: `NoHead`, `NoLeaf`, `NotThere`, `LaterLeaf`, `OtherIndex`.
pub fn pass_receipt<H: NodeHash>(
    h: &H,
    guard: &Guard,
    leaf: &[u8],
    index: u64,
    path: &[[u8; 32]],
) -> Result<(), ReceiptRefusal>
    ensures { MatchResult result (λ _. PassesReceipt H.digest guard.now.last leaf.now index path.now)
        (StopsReceipt H.digest guard.now.last leaf.now index path.now) }
{
    let Some(last) = guard.last else {
        return Err(ReceiptRefusal::NoHead);
    };
    let read = match lend_leaf(leaf) {
        Ok(read) => read,
        Err(fault) => return Err(ReceiptRefusal::NoLeaf(fault)),
    };
    let hash = leaf_hash(h, leaf);
    match verify_inclusion(h, &hash, index, last.tree_size, path, &last.root) {
        Ok(()) => {}
        Err(fault) => return Err(ReceiptRefusal::NotThere(fault)),
    }
    if read.timestamp > last.timestamp {
        return Err(ReceiptRefusal::LaterLeaf);
    }
    if !is_own_index(index, read.extensions) {
        return Err(ReceiptRefusal::OtherIndex);
    }
    Ok(())
}
