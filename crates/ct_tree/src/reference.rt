//! The reference program: MTH, PATH and PROOF of a list of leaf hashes, by the recursions of RFC 6962, section 2.1, as the RFC writes them.
//! It is slow. `tree_tests` compares the results of `Stack` and `Nodes` with it.
ghost use Rattle.std.specs.Prelude.{◌≡◌, ◌-◌, ◌<◌, ◌≤◌, Bool, List, length, IfOk};
ghost use Rattle.ct_tree.specs.Tree.{mth, path as path_of, subproof as subproof_of, proof as proof_of};

use crate::hash::{NodeHash, empty_root, node_hash};
use crate::power::largest_power_below;
use std::alloc::{AllocError, Allocator};

/// MTH of a list of leaf hashes (RFC 6962, section 2.1).
pub fn root<H: NodeHash>(h: &H, leaves: &[[u8; 32]]) -> [u8; 32]
    ensures { result ≡ mth H.digest leaves.now }
{
    if leaves.is_empty() {
        empty_root(h)
    } else if leaves.len() == 1 {
        leaves[0]
    } else {
        let k = largest_power_below(leaves.len());
        let left = root(h, &leaves[..k]);
        let right = root(h, &leaves[k..]);
        node_hash(h, &left, &right)
    }
}

/// PATH of the leaf at index `m` (RFC 6962, section 2.1.1). The hash nearest the root is the last one.
pub fn path<A: Allocator, H: NodeHash>(
    alloc: A,
    h: &H,
    m: usize,
    leaves: &[[u8; 32]],
) -> Result<Vec<[u8; 32], A>, AllocError>
    requires { m < length leaves.now }
    ensures { IfOk result (λ path. path.items ≡ path_of H.digest m leaves.now) }
{
    if leaves.len() == 1 {
        return Ok(Vec::new(alloc));
    }
    let k = largest_power_below(leaves.len());
    let (left, right) = leaves.split_at(k);
    if m < k {
        let mut hashes = path(alloc, h, m, left)?;
        hashes.push(root(h, right))?;
        Ok(hashes)
    } else {
        let mut hashes = path(alloc, h, m - k, right)?;
        hashes.push(root(h, left))?;
        Ok(hashes)
    }
}

// SUBPROOF (RFC 6962, section 2.1.2); `is_known` says whether the verifier has the root of the first `m` leaves.
fn subproof<A: Allocator, H: NodeHash>(
    alloc: A,
    h: &H,
    m: usize,
    leaves: &[[u8; 32]],
    is_known: bool,
) -> Result<Vec<[u8; 32], A>, AllocError>
    requires positive { 0 < m }
    requires within { m ≤ length leaves.now }
    ensures { IfOk result (λ proof. proof.items ≡ subproof_of H.digest m leaves.now is_known) }
{
    if m == leaves.len() {
        if is_known {
            return Ok(Vec::new(alloc));
        }
        return Ok(vec![in alloc; root(h, leaves)]?);
    }
    let k = largest_power_below(leaves.len());
    let (left, right) = leaves.split_at(k);
    if m <= k {
        let mut hashes = subproof(alloc, h, m, left, is_known)?;
        hashes.push(root(h, right))?;
        Ok(hashes)
    } else {
        let mut hashes = subproof(alloc, h, m - k, right, false)?;
        hashes.push(root(h, left))?;
        Ok(hashes)
    }
}

/// PROOF from the first `m` leaves to all of them (RFC 6962, section 2.1.2). The hash nearest the root is the last one.
pub fn proof<A: Allocator, H: NodeHash>(
    alloc: A,
    h: &H,
    m: usize,
    leaves: &[[u8; 32]],
) -> Result<Vec<[u8; 32], A>, AllocError>
    requires positive { 0 < m }
    requires below { m < length leaves.now }
    ensures { IfOk result (λ proof. proof.items ≡ proof_of H.digest m leaves.now) }
{
    subproof(alloc, h, m, leaves, true)
}
