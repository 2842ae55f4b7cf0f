// Every audit path and every consistency proof of the sizes 1 to 40, each unchanged and falsified in many ways. The expected results follow
// from the lists that the recursions of RFC 6962 give over the leaf hashes.
ghost use Rattle.std.specs.Prelude.{◌≡◌, ◌<◌, IfOk, length};

use crate::claims::{Claim, Kind, first_of};
use ct_tree::reference::root;
use ct_tree::{Sha256Hash, leaf_hash};
use ct_verify::ProofFault;
use std::alloc::{AllocError, Global};

// The largest power of two smaller than `n`.
pub(crate) fn split(n: usize) -> usize
    requires { 1 < n }
    ensures positive { 0 < result }
    ensures below { result < n }
{
    if n == 2 { 1 } else { 2 * split(n - n / 2) }
}

// The path with the root of these leaves at its end.
fn with_root(path: Vec<[u8; 32]>, leaves: &[[u8; 32]]) -> Result<Vec<[u8; 32]>, AllocError> {
    let mut longer = path;
    longer.push(root(&Sha256Hash, leaves))?;
    Ok(longer)
}

// PATH(m, D), by the recursion of RFC 6962, section 2.1.1.
fn plain_path(alloc: Global, leaves: &[[u8; 32]], m: usize) -> Result<Vec<[u8; 32]>, AllocError> {
    if leaves.len() < 2 {
        return Ok(Vec::new(alloc));
    }
    let k = split(leaves.len());
    if m < k {
        with_root(plain_path(alloc, &leaves[..k], m)?, &leaves[k..])
    } else {
        with_root(plain_path(alloc, &leaves[k..], m - k)?, &leaves[..k])
    }
}

// SUBPROOF(m, D, b), by the recursion of RFC 6962, section 2.1.2.
fn plain_subproof(
    alloc: Global,
    leaves: &[[u8; 32]],
    m: usize,
    is_known: bool,
) -> Result<Vec<[u8; 32]>, AllocError> {
    if m >= leaves.len() || leaves.len() < 2 {
        let proof = Vec::new(alloc);
        return if is_known {
            Ok(proof)
        } else {
            with_root(proof, leaves)
        };
    }
    let k = split(leaves.len());
    if m <= k {
        with_root(
            plain_subproof(alloc, &leaves[..k], m, is_known)?,
            &leaves[k..],
        )
    } else {
        with_root(
            plain_subproof(alloc, &leaves[k..], m - k, false)?,
            &leaves[..k],
        )
    }
}

pub(crate) fn copied(alloc: Global, path: &[[u8; 32]]) -> Result<Vec<[u8; 32]>, AllocError>
    ensures { IfOk result (λ copy. copy.items ≡ path.now) }
{
    let mut copy = Vec::new(alloc);
    copy.extend_from_slice(path)?;
    Ok(copy)
}

// The path with an element replaced by another one, with it left out, and with it doubled.
pub(crate) fn push_variants(
    alloc: Global,
    path: &[[u8; 32]],
    i: usize,
    other: [u8; 32],
    all: &mut Vec<Vec<[u8; 32]>>,
) -> Result<(), AllocError>
    requires { i < length path.now }
{
    let mut changed = copied(alloc, path)?;
    changed[i] = other;
    all.push(changed)?;
    let mut shorter = copied(alloc, path)?;
    shorter.remove(i);
    all.push(shorter)?;
    let mut longer = copied(alloc, path)?;
    longer.insert(i, path[i])?;
    all.push(longer)?;
    Ok(())
}

// The path with one element changed, with one left out, and with one added, at each index.
fn variants(alloc: Global, path: &[[u8; 32]]) -> Result<Vec<Vec<[u8; 32]>>, AllocError> {
    let mut all = Vec::new(alloc);
    for i in 0..path.len() {
        push_variants(alloc, path, i, [7; 32], &mut all)?;
    }
    let mut longer = copied(alloc, path)?;
    longer.push([7; 32])?;
    all.push(longer)?;
    Ok(all)
}

// `size` different leaf hashes.
fn numbered_hashes(alloc: Global, size: u8) -> Result<Vec<[u8; 32]>, AllocError> {
    let mut leaves = Vec::new(alloc);
    for i in 0..size {
        leaves.push(leaf_hash(&Sha256Hash, &[i]))?;
    }
    Ok(leaves)
}

// The result for a path at the right index, by comparison with the true path.
fn answer_beside(
    true_path: &[[u8; 32]],
    path: &[[u8; 32]],
    is_known: bool,
) -> Result<(), ProofFault> {
    if path.len() > true_path.len() {
        Err(ProofFault::PathTooLong)
    } else if path.len() < true_path.len() {
        Err(ProofFault::PathTooShort)
    } else if is_known && path == true_path {
        Ok(())
    } else {
        Err(ProofFault::RootMismatch)
    }
}

// The result at an index, or for a first size, that has no proof.
fn out_of_range(kind: Kind) -> ProofFault {
    match kind {
        Kind::Path => ProofFault::IndexOutOfRange,
        Kind::Proof => ProofFault::SizesOutOfRange,
    }
}

// The true proofs for a size: for each index of a leaf, or each first size, the hash that the proof is about, and the proof.
#[derive(Drop)]
struct Proofs {
    kind: Kind,
    root: [u8; 32],
    firsts: Vec<[u8; 32]>,
    proofs: Vec<Vec<[u8; 32]>>,
}

fn all_firsts(alloc: Global, kind: Kind, leaves: &[[u8; 32]]) -> Result<Vec<[u8; 32]>, AllocError> {
    let mut firsts = Vec::new(alloc);
    for m in 0..leaves.len() {
        firsts.push(first_of(kind, leaves, m))?;
    }
    Ok(firsts)
}

fn plain(
    alloc: Global,
    kind: Kind,
    leaves: &[[u8; 32]],
    m: usize,
) -> Result<Vec<[u8; 32]>, AllocError> {
    match kind {
        Kind::Path => plain_path(alloc, leaves, m),
        Kind::Proof => plain_subproof(alloc, leaves, m, true),
    }
}

fn all_proofs(
    alloc: Global,
    kind: Kind,
    leaves: &[[u8; 32]],
) -> Result<Vec<Vec<[u8; 32]>>, AllocError> {
    let mut proofs = Vec::new(alloc);
    for m in 0..leaves.len() {
        proofs.push(plain(alloc, kind, leaves, m)?)?;
    }
    Ok(proofs)
}

fn proofs_of(alloc: Global, kind: Kind, leaves: &[[u8; 32]]) -> Result<Proofs, AllocError> {
    let firsts = all_firsts(alloc, kind, leaves)?;
    let proofs = all_proofs(alloc, kind, leaves)?;
    Ok(Proofs {
        kind,
        root: root(&Sha256Hash, leaves),
        firsts,
        proofs,
    })
}

impl Proofs {
    // The expected result for a proof. Both mismatches count as one here.
    fn wanted(&self, m: usize, first: &[u8; 32], proof: &[[u8; 32]]) -> Result<(), ProofFault> {
        let (Some(true_first), Some(true_proof)) = (self.firsts.get(m), self.proofs.get(m)) else {
            return Err(out_of_range(self.kind));
        };
        match self.kind {
            Kind::Proof if m == 0 => Err(ProofFault::SizesOutOfRange),
            Kind::Proof if proof.is_empty() => Err(ProofFault::EmptyPath),
            _ => answer_beside(true_proof, proof, first == true_first),
        }
    }

    fn answer(&self, m: usize, first: &[u8; 32], proof: &[[u8; 32]]) -> Result<(), ProofFault> {
        let claim = Claim {
            kind: self.kind,
            m,
            n: self.firsts.len(),
            first: *first,
            root: self.root,
        };
        match claim.answer(proof) {
            Err(ProofFault::FirstMismatch) if self.kind == Kind::Proof => {
                Err(ProofFault::RootMismatch)
            }
            answer => answer,
        }
    }

    // Reports whether the result for a proof is right at each index, or with each first size.
    fn is_answered(&self, first: &[u8; 32], proof: &[[u8; 32]]) -> bool {
        for m in 0..=self.firsts.len() {
            if self.answer(m, first, proof) != self.wanted(m, first, proof) {
                return false;
            }
        }
        true
    }

    // Reports whether each variant of a proof is refused with the right fault.
    fn are_refused(&self, m: usize, first: &[u8; 32], variants: &[Vec<[u8; 32]>]) -> bool {
        for variant in variants {
            let answer = self.answer(m, first, variant);
            if answer == Ok(()) || answer != self.wanted(m, first, variant) {
                return false;
            }
        }
        true
    }
}

// Reports whether the results for a true proof are right: at each index, and for each of its variants.
fn is_proof_answered(alloc: Global, all: &Proofs, m: usize) -> Result<bool, AllocError> {
    let (Some(first), Some(proof)) = (all.firsts.get(m), all.proofs.get(m)) else {
        return Ok(false);
    };
    let variants = variants(alloc, proof)?;
    Ok(all.is_answered(first, proof) && all.are_refused(m, first, &variants))
}

// Reports whether the results for each proof over these leaves are right.
fn are_answered(alloc: Global, kind: Kind, leaves: &[[u8; 32]]) -> Result<bool, AllocError> {
    let all = proofs_of(alloc, kind, leaves)?;
    for m in 0..leaves.len() {
        if !is_proof_answered(alloc, &all, m)? {
            return Ok(false);
        }
    }
    Ok(true)
}

// Reports whether there are that many leaf hashes, and the results for each proof over them are right.
fn is_size_answered(alloc: Global, kind: Kind, size: u8) -> Result<bool, AllocError> {
    let leaves = numbered_hashes(alloc, size)?;
    Ok(leaves.len() == size as usize && are_answered(alloc, kind, &leaves)?)
}

// The size before the first for which a result is wrong.
fn right_sizes(alloc: Global, kind: Kind) -> Result<u8, AllocError> {
    for size in 1..=40 {
        if !is_size_answered(alloc, kind, size)? {
            return Ok(size - 1);
        }
    }
    Ok(40)
}

#[test]
fn every_path_of_sizes_1_to_40(rt: HostRuntime) {
    assert!(rt; right_sizes(rt.alloc(), Kind::Path) == Ok(40));
}

#[test]
fn every_proof_of_sizes_1_to_40(rt: HostRuntime) {
    assert!(rt; right_sizes(rt.alloc(), Kind::Proof) == Ok(40));
}
