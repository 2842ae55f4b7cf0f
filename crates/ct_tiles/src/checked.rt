//! Audit paths and consistency proofs that are checked before they are returned.
ghost use Rattle.std.specs.Prelude.{◌≡◌, ◌<◌, ◌≤◌, ℕ, List, [], length, take, get_or, IfOk, IfErr, MatchResult};
ghost use Rattle.ct_tree.specs.Tree.{mth};
ghost use Rattle.ct_verify.specs.Verdict.{AcceptsInclusion, AcceptsConsistency};
ghost use Rattle.ct_tiles.specs.Given.{GivesTilesOf};
ghost use Rattle.ct_tiles.specs.Refused.{RefusesPath, RefusesProof};
ghost use Rattle.ct_verify.specs.declared.evidence.EvidenceFault.TheVariants.{ProofRefused, Memory};

use crate::source::TileSource;
use crate::walk::{path, proof};
use ct_tree::NodeHash;
use ct_verify::{EvidenceFault, ProofFault, verify_consistency, verify_inclusion};
use std::alloc::Global;

/// Returns the audit path of the leaf at index `m` in the tree of the first `n` leaves, checked against a root (RFC 6962, section 2.1.1;
/// RFC 9162, section 2.1.3.2). So the tiles may come from anywhere.
///
/// Errors: `IndexOutOfRange` if `m` is not below `n`; `RootMismatch` from the verifier, whose other refusals cannot occur, since the path
/// has the right length; or out of memory. If the tiles are those of a list that has this leaf and this root, the path is never refused.
pub fn checked_path<H: NodeHash, T: TileSource>(
    alloc: Global,
    h: &H,
    tiles: &T,
    leaf_hash: &[u8; 32],
    m: u64,
    n: u64,
    root: &[u8; 32],
) -> Result<Vec<[u8; 32]>, EvidenceFault>
    ensures accepted { IfOk result (λ path. AcceptsInclusion H.digest leaf_hash.now m n path.items root.now) }
    ensures never_refused { IfErr result (λ fault. (D : List (List ℕ)) → GivesTilesOf H.digest (T.given tiles.now) D → n ≤ length D → m < n
        → leaf_hash.now ≡ get_or (take n D) m [] → root.now ≡ mth H.digest (take n D) → fault ≡ Memory) }
    ensures refused { IfErr result (λ fault. RefusesPath H.digest (T.given tiles.now) leaf_hash.now m n root.now fault) }
{
    if m >= n {
        return Err(EvidenceFault::ProofRefused(ProofFault::IndexOutOfRange));
    }
    let path = path(alloc, h, tiles, m, n)?;
    match verify_inclusion(h, leaf_hash, m, n, &path, root) {
        Ok(()) => Ok(path),
        Err(fault) => Err(EvidenceFault::ProofRefused(fault)),
    }
}

/// Returns the consistency proof from the tree of the first `m` leaves to that of the first `n`, checked against the roots of both (RFC
/// 6962, section 2.1.2; RFC 9162, section 2.1.4.2). So the tiles may come from anywhere.
///
/// Errors: `SizesOutOfRange` unless 0 < `m` < `n`; `FirstMismatch` or `RootMismatch` from the verifier, whose other refusals cannot occur,
/// since the proof has the right length; or out of memory. If the tiles are those of a list that has these roots, the proof is never
/// refused.
pub fn checked_proof<H: NodeHash, T: TileSource>(
    alloc: Global,
    h: &H,
    tiles: &T,
    m: u64,
    n: u64,
    first_root: &[u8; 32],
    second_root: &[u8; 32],
) -> Result<Vec<[u8; 32]>, EvidenceFault>
    ensures accepted { IfOk result (λ proof. AcceptsConsistency H.digest m n first_root.now second_root.now proof.items) }
    ensures never_refused { IfErr result (λ fault. (D : List (List ℕ)) → GivesTilesOf H.digest (T.given tiles.now) D → n ≤ length D → 0 < m → m < n
        → first_root.now ≡ mth H.digest (take m D) → second_root.now ≡ mth H.digest (take n D) → fault ≡ Memory) }
    ensures refused { IfErr result (λ fault. RefusesProof H.digest (T.given tiles.now) m n first_root.now second_root.now fault) }
{
    if m == 0 || m >= n {
        return Err(EvidenceFault::ProofRefused(ProofFault::SizesOutOfRange));
    }
    let proof = proof(alloc, h, tiles, m, n)?;
    match verify_consistency(h, m, n, first_root, second_root, &proof) {
        Ok(()) => Ok(proof),
        Err(fault) => Err(EvidenceFault::ProofRefused(fault)),
    }
}
