//! Computes roots, audit paths and consistency proofs from tiles.
ghost use Rattle.std.specs.Prelude.{◌≡◌, ◌<◌, ◌≤◌, ℕ, true, List, length, take, All, IfOk};
ghost use Rattle.ct_tree.specs.Tree.{mth, path as path_of, proof as proof_of};
ghost use Rattle.ct_tree.specs.Lengths.{path_length, subproof_length};
ghost use Rattle.ct_tiles.specs.Given.{GivesTilesOf};
ghost use Rattle.ct_tiles.specs.Needed.{root_tiles, path_tiles, proof_tiles, GivesTile};

use crate::source::{TileNodes, TileSource};
use ct_tree::{NodeHash, walk};
use std::alloc::{AllocError, Global};

/// Returns the root of the first `n` leaves (MTH of RFC 6962, section 2.1).
pub fn root_at<H: NodeHash, T: TileSource>(h: &H, tiles: &T, n: u64) -> [u8; 32]
    ensures all { (D : List (List ℕ)) → GivesTilesOf H.digest (T.given tiles.now) D → n ≤ length D → result ≡ mth H.digest (take n D) }
    ensures needed { (D : List (List ℕ)) → All (GivesTile H.digest (T.given tiles.now) D) (root_tiles n) → n ≤ length D
        → result ≡ mth H.digest (take n D) }
{
    walk::root_at(h, &TileNodes { tiles, size: n }, n)
}

/// Returns the audit path of the leaf at index `m` in the tree of the first `n` leaves (PATH of RFC 6962, section 2.1.1).
pub fn path<H: NodeHash, T: TileSource>(
    alloc: Global,
    h: &H,
    tiles: &T,
    m: u64,
    n: u64,
) -> Result<Vec<[u8; 32]>, AllocError>
    requires below { m < n }
    ensures all { IfOk result (λ path. (D : List (List ℕ)) → GivesTilesOf H.digest (T.given tiles.now) D → n ≤ length D
        → path.items ≡ path_of H.digest m (take n D)) }
    ensures needed { IfOk result (λ path. (D : List (List ℕ)) → All (GivesTile H.digest (T.given tiles.now) D) (path_tiles m n) → n ≤ length D
        → path.items ≡ path_of H.digest m (take n D)) }
    ensures length { IfOk result (λ path. length path.items ≡ path_length m n) }
{
    let path = walk::path(alloc, h, &TileNodes { tiles, size: n }, m, n)?;
    Ok(path)
}

/// Returns the consistency proof from the tree of the first `m` leaves to that of the first `n` (PROOF of RFC 6962, section 2.1.2).
pub fn proof<H: NodeHash, T: TileSource>(
    alloc: Global,
    h: &H,
    tiles: &T,
    m: u64,
    n: u64,
) -> Result<Vec<[u8; 32]>, AllocError>
    requires positive { 0 < m }
    requires below { m < n }
    ensures all { IfOk result (λ proof. (D : List (List ℕ)) → GivesTilesOf H.digest (T.given tiles.now) D → n ≤ length D
        → proof.items ≡ proof_of H.digest m (take n D)) }
    ensures needed { IfOk result (λ proof. (D : List (List ℕ)) → All (GivesTile H.digest (T.given tiles.now) D) (proof_tiles m n) → n ≤ length D
        → proof.items ≡ proof_of H.digest m (take n D)) }
    ensures length { IfOk result (λ proof. length proof.items ≡ subproof_length m n true) }
{
    let proof = walk::proof(alloc, h, &TileNodes { tiles, size: n }, m, n)?;
    Ok(proof)
}
