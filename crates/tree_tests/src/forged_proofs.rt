// Forged audit paths and consistency proofs of the sizes 1 to 9 under SHA-256, each with one of these changes:
// - an element left out, doubled, swapped with another or with one bit changed,
// - an index or a size that differs by one,
// - a leaf or root with one bit changed.
//
// The expected results are computed from the root down, by the recursions of RFC 6962, sections 2.1.1 and 2.1.2, while the verifiers go up
// from the leaf.
//
// Python computed the numbers of proofs, and of accepted ones. Accepted are the 45 true paths and 36 true proofs, and in 44 and 48 cases
// the same ones at another index or size for which they use the same sides. A path does not prove the size of its tree: the tree head does.
ghost use Rattle.std.specs.Prelude.{◌<◌, length};

use crate::claims::{Claim, Kind, first_of};
use crate::sweeps::{copied, push_variants, split};
use ct_tree::reference::{path, proof, root};
use ct_tree::{Sha256Hash, leaf_hash, node_hash};
use ct_verify::ProofFault;
use std::alloc::{AllocError, Global};

// The root to which the path leads from the leaf `m` of `n`.
fn root_by_path(
    leaf: &[u8; 32],
    m: usize,
    n: usize,
    path: &[[u8; 32]],
) -> Result<[u8; 32], ProofFault> {
    if n < 2 {
        return if path.is_empty() {
            Ok(*leaf)
        } else {
            Err(ProofFault::PathTooLong)
        };
    }
    let Some((last, rest)) = path.split_last() else {
        return Err(ProofFault::PathTooShort);
    };
    let k = split(n);
    if m < k {
        let left = root_by_path(leaf, m, k, rest)?;
        Ok(node_hash(&Sha256Hash, &left, last))
    } else {
        let right = root_by_path(leaf, m - k, n - k, rest)?;
        Ok(node_hash(&Sha256Hash, last, &right))
    }
}

// The roots of `m` and of `n` leaves to which the proof leads. If the proof does not contain the root of a tree of `m` leaves, the first
// root is `known`.
fn roots_by_proof(
    m: usize,
    n: usize,
    known: Option<[u8; 32]>,
    proof: &[[u8; 32]],
) -> Result<([u8; 32], [u8; 32]), ProofFault> {
    if m >= n || n < 2 {
        return match (known, proof) {
            (Some(old), []) => Ok((old, old)),
            (None, [old]) => Ok((*old, *old)),
            (None, []) => Err(ProofFault::PathTooShort),
            _ => Err(ProofFault::PathTooLong),
        };
    }
    let Some((last, rest)) = proof.split_last() else {
        return Err(ProofFault::PathTooShort);
    };
    let k = split(n);
    if m <= k {
        let (old, left) = roots_by_proof(m, k, known, rest)?;
        Ok((old, node_hash(&Sha256Hash, &left, last)))
    } else {
        let (old, right) = roots_by_proof(m - k, n - k, None, rest)?;
        let old = node_hash(&Sha256Hash, last, &old);
        Ok((old, node_hash(&Sha256Hash, last, &right)))
    }
}

fn path_answer(
    leaf: &[u8; 32],
    m: usize,
    n: usize,
    path: &[[u8; 32]],
    root: &[u8; 32],
) -> Result<(), ProofFault> {
    if m >= n {
        Err(ProofFault::IndexOutOfRange)
    } else if root_by_path(leaf, m, n, path)? == *root {
        Ok(())
    } else {
        Err(ProofFault::RootMismatch)
    }
}

fn proof_answer(
    m: usize,
    n: usize,
    first_root: &[u8; 32],
    second_root: &[u8; 32],
    proof: &[[u8; 32]],
) -> Result<(), ProofFault> {
    if m == 0 || m >= n {
        return Err(ProofFault::SizesOutOfRange);
    }
    if proof.is_empty() {
        return Err(ProofFault::EmptyPath);
    }
    let (first, second) = roots_by_proof(m, n, Some(*first_root), proof)?;
    if first != *first_root {
        Err(ProofFault::FirstMismatch)
    } else if second != *second_root {
        Err(ProofFault::RootMismatch)
    } else {
        Ok(())
    }
}

fn wanted(claim: &Claim, proof: &[[u8; 32]]) -> Result<(), ProofFault> {
    match claim.kind {
        Kind::Path => path_answer(&claim.first, claim.m, claim.n, proof, &claim.root),
        Kind::Proof => proof_answer(claim.m, claim.n, &claim.first, &claim.root, proof),
    }
}

// The numbers of proofs that were tried and accepted, and whether the result for each was right.
#[derive(Clone, Copy, PartialEq)]
struct Tally {
    tried: u32,
    accepted: u32,
    right: bool,
}

impl Tally {
    fn new() -> Tally {
        Tally {
            tried: 0,
            accepted: 0,
            right: true,
        }
    }

    fn note(&mut self, answer: Result<(), ProofFault>, wanted: Result<(), ProofFault>) {
        self.tried = self.tried.saturating_add(1);
        if answer.is_ok() {
            self.accepted = self.accepted.saturating_add(1);
        }
        self.right = self.right && answer == wanted;
    }

    fn try_proof(&mut self, claim: &Claim, proof: &[[u8; 32]]) {
        self.note(claim.answer(proof), wanted(claim, proof));
    }
}

// The hash with one bit changed.
fn flipped(hash: &[u8; 32], place: usize) -> [u8; 32] {
    let mut other = *hash;
    other[place % 32] ^= 0x10;
    other
}

// The path with an element swapped with each one after it.
fn push_swapped(
    alloc: Global,
    path: &[[u8; 32]],
    i: usize,
    all: &mut Vec<Vec<[u8; 32]>>,
) -> Result<(), AllocError>
    requires { i < length path.now }
{
    for j in i + 1..path.len() {
        let mut swapped = copied(alloc, path)?;
        swapped.swap(i, j);
        all.push(swapped)?;
    }
    Ok(())
}

// The path with each element left out, doubled, with one bit changed, and swapped with each one after it.
fn forged(alloc: Global, path: &[[u8; 32]]) -> Result<Vec<Vec<[u8; 32]>>, AllocError> {
    let mut all = Vec::new(alloc);
    for i in 0..path.len() {
        push_variants(alloc, path, i, flipped(&path[i], i), &mut all)?;
        push_swapped(alloc, path, i, &mut all)?;
    }
    Ok(all)
}

impl Claim {
    fn try_all(&self, proofs: &[Vec<[u8; 32]>], tally: &mut Tally) {
        for proof in proofs {
            tally.try_proof(self, proof);
        }
    }

    // Tries the proof at the indexes and sizes that differ by at most one.
    fn try_near(&self, proof: &[[u8; 32]], tally: &mut Tally) {
        for m in self.m.saturating_sub(1)..=self.m.saturating_add(1) {
            for n in self.n.saturating_sub(1)..=self.n.saturating_add(1) {
                tally.try_proof(&Claim { m, n, ..*self }, proof);
            }
        }
    }

    // Tries the proof with another leaf or first root, and with another root.
    fn try_changed(&self, proof: &[[u8; 32]], tally: &mut Tally) {
        let first = flipped(&self.first, self.m);
        tally.try_proof(&Claim { first, ..*self }, proof);
        let root = flipped(&self.root, self.m);
        tally.try_proof(&Claim { root, ..*self }, proof);
    }
}

// The true proof. There is none from no leaves.
fn whole(
    alloc: Global,
    kind: Kind,
    leaves: &[[u8; 32]],
    m: usize,
) -> Result<Vec<[u8; 32]>, AllocError>
    requires { m < length leaves.now }
{
    match kind {
        Kind::Path => path(alloc, &Sha256Hash, m, leaves),
        Kind::Proof if m == 0 => Ok(Vec::new(alloc)),
        Kind::Proof => proof(alloc, &Sha256Hash, m, leaves),
    }
}

// Tries the proof at an index: at nearby indexes and sizes, with another leaf or root, and forged.
fn try_place(
    alloc: Global,
    kind: Kind,
    leaves: &[[u8; 32]],
    m: usize,
    tally: &mut Tally,
) -> Result<(), AllocError>
    requires { m < length leaves.now }
{
    let claim = Claim {
        kind,
        m,
        n: leaves.len(),
        first: first_of(kind, leaves, m),
        root: root(&Sha256Hash, leaves),
    };
    let whole = whole(alloc, kind, leaves, m)?;
    let forged = forged(alloc, &whole)?;
    claim.try_near(&whole, tally);
    claim.try_changed(&whole, tally);
    claim.try_all(&forged, tally);
    Ok(())
}

// Tries the proof at each index: paths from the leaf 0 on, and proofs from the size 1 on.
fn try_places(
    alloc: Global,
    kind: Kind,
    leaves: &[[u8; 32]],
    tally: &mut Tally,
) -> Result<(), AllocError> {
    let least = usize::from(kind == Kind::Proof);
    for m in least..leaves.len() {
        try_place(alloc, kind, leaves, m, tally)?;
    }
    Ok(())
}

// Nine different leaf hashes.
fn nine_leaves() -> [[u8; 32]; 9] {
    let mut leaves = [[0; 32]; 9];
    for i in 0..9 {
        leaves[i] = leaf_hash(&Sha256Hash, &[i as u8]);
    }
    leaves
}

// Tries the proofs of this kind for the sizes 1 to 9.
fn tally_of(alloc: Global, kind: Kind) -> Result<Tally, AllocError> {
    let leaves = nine_leaves();
    let mut tally = Tally::new();
    for size in 1..=9 {
        try_places(alloc, kind, &leaves[..size], &mut tally)?;
    }
    Ok(tally)
}

#[test]
fn forged_paths_of_sizes_1_to_9(rt: HostRuntime) {
    let wanted = Tally {
        tried: 954,
        accepted: 89,
        right: true,
    };
    assert!(rt; tally_of(rt.alloc(), Kind::Path) == Ok(wanted));
}

#[test]
fn forged_proofs_of_sizes_2_to_9(rt: HostRuntime) {
    let wanted = Tally {
        tried: 814,
        accepted: 84,
        right: true,
    };
    assert!(rt; tally_of(rt.alloc(), Kind::Proof) == Ok(wanted));
}
