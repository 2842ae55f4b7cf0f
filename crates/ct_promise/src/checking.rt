//! The check that a promise was kept (RFC 6962, section 3).

ghost use Rattle.std.specs.Prelude.{◌≡◌, ◌<◌, ◌^◌, length, IfOk, MatchResult};
ghost use Rattle.ct_promise.specs.Promise.{IsPromiseKept, IsUnkept, StandsInAll};

use crate::fault::Unkept;
use crate::leaf::promised_leaf;
use ct_tree::{Sha256Hash, leaf_hash};
use ct_verify::verify_inclusion;
use std::alloc::Global;

/// Checks that a promised leaf is in a tree, by an audit path (RFC 6962, section 2.1.1). The leaf is the one that a timestamp embedded in
/// the certificate promises, with this timestamp and these extensions. The path leads from it, at the index, to this root of `size` leaves.
///
/// # Errors
///
/// - `NoLeaf` if [`promised_leaf`] returns none;
/// - `NotThere` if the path does not lead to the root, as [`verify_inclusion`](ct_verify::verify_inclusion) defines it;
/// - `Memory` if memory runs out.
pub fn check_promise(
    alloc: Global,
    certificate: &[u8],
    issuer: &[u8],
    timestamp: u64,
    extensions: &[u8],
    index: u64,
    size: u64,
    path: &[[u8; 32]],
    root: &[u8; 32],
) -> Result<(), Unkept>
    requires { length extensions.now < 2 ^ 16 }
    // The path leads from that leaf to the root, or the reason why it does not is returned.
    ensures checked { MatchResult result (λ _. IsPromiseKept certificate.now issuer.now timestamp extensions.now index size path.now root.now)
        (IsUnkept certificate.now issuer.now timestamp extensions.now index size path.now root.now) }
    // So the leaf is in each list with this root, or two strings have the same hash.
    ensures stands { IfOk result (λ _. StandsInAll certificate.now issuer.now timestamp extensions.now index size path.now root.now) }
{
    let leaf = promised_leaf(alloc, certificate, issuer, timestamp, extensions)?;
    let hash = leaf_hash(&Sha256Hash, &leaf);
    match verify_inclusion(&Sha256Hash, &hash, index, size, path, root) {
        Ok(()) => Ok(()),
        Err(fault) => Err(Unkept::NotThere(fault)),
    }
}
