// Evidence under hash functions that have collisions.
use crate::rows::{Row, Shown, right_rows};
use crate::weak_hashes::{WeakHash, ZeroHash};
use ct_tree::{NodeHash, Sha256Hash, leaf_hash, reference};
use ct_verify::{
    Evidence, EvidenceFault, ProofFault, explain_consistency, explain_inclusion, verify_inclusion,
};
use std::alloc::{AllocError, Global};

// A leaf of one byte for each of the bytes.
pub(crate) fn one_byte_leaves(alloc: Global, bytes: &[u8]) -> Result<Vec<Vec<u8>>, AllocError> {
    let mut leaves = Vec::new(alloc);
    for byte in bytes {
        leaves.push(vec![in alloc; *byte]?)?;
    }
    Ok(leaves)
}

fn hashes_of<H: NodeHash>(
    alloc: Global,
    h: &H,
    leaves: &[Vec<u8>],
) -> Result<Vec<[u8; 32]>, AllocError> {
    let mut hashes = Vec::new(alloc);
    for leaf in leaves {
        hashes.push(leaf_hash(h, leaf))?;
    }
    Ok(hashes)
}

// Reports whether the result is two different strings with the same hash.
fn is_true_collision<H: NodeHash>(h: &H, answer: &Result<Evidence, EvidenceFault>) -> bool {
    match answer {
        Ok(Evidence::Collision(a, b)) => {
            let first = h.hash(&[a.as_slice()]);
            let second = h.hash(&[b.as_slice()]);
            a.as_slice() != b.as_slice() && first == second
        }
        _ => false,
    }
}

// Reports whether the result is that the proof is refused with this fault.
fn is_refused(answer: &Result<Evidence, EvidenceFault>, wanted: ProofFault) -> bool {
    match answer {
        Err(EvidenceFault::ProofRefused(fault)) => *fault == wanted,
        _ => false,
    }
}

// Reports whether the result is these two strings.
fn is_collision(answer: &Result<Evidence, EvidenceFault>, first: &[u8], second: &[u8]) -> bool {
    match answer {
        Ok(Evidence::Collision(a, b)) => a.as_slice() == first && b.as_slice() == second,
        _ => false,
    }
}

// Checks a row of all leaves, a leaf, its index and its path.
fn is_path_explained<H: NodeHash>(alloc: Global, h: &H, mut row: Row<'_>) -> bool {
    let leaves = row.leaves(alloc);
    let leaf = row.text();
    let index = row.number();
    let path = row.hashes(alloc);
    row.ends_in(
        alloc,
        &explain_inclusion(alloc, h, &leaves, leaf, index, &path),
    )
}

// Checks a row of the old leaves, the new ones and a proof.
fn is_proof_explained<H: NodeHash>(alloc: Global, h: &H, mut row: Row<'_>) -> bool {
    let old = row.leaves(alloc);
    let new = row.leaves(alloc);
    let proof = row.hashes(alloc);
    row.ends_in(alloc, &explain_consistency(alloc, h, &old, &new, &proof))
}

// Explains paths and proofs.
#[derive(Clone, Copy)]
struct Explained;

impl Shown for Explained {
    fn is_right(&mut self, alloc: Global, mut row: Row<'_>) -> bool {
        match row.word() {
            "path-zeros" => is_path_explained(alloc, &ZeroHash, row),
            "path-sha256" => is_path_explained(alloc, &Sha256Hash, row),
            "proof-zeros" => is_proof_explained(alloc, &ZeroHash, row),
            "proof-sha256" => is_proof_explained(alloc, &Sha256Hash, row),
            _ => false,
        }
    }
}

// Rows of paths and proofs that are explained, and how many there are.
const EXPLAINED: [(u32, &str); 2] = [
    // Paths under the hash of zeros.
    (
        8,
        "\
path-zeros A B 0 - Ok(Collision([0, 66], [0, 65]))
path-zeros AB A 0 ONES Ok(Collision([1, 0, 0, 0, 0, 0, 0, 0, 0, 0, 0, 0, 0, 0, 0, 0, 0, 0, 0, 0, 0, 0, 0, 0, 0, 0, 0, 0, 0, 0, 0, 0, 0, 1, 1, 1, 1, 1, 1, 1, 1, 1, 1, 1, 1, 1, 1, 1, 1, 1, 1, 1, 1, 1, 1, 1, 1, 1, 1, 1, 1, 1, 1, 1, 1], [1, 0, 0, 0, 0, 0, 0, 0, 0, 0, 0, 0, 0, 0, 0, 0, 0, 0, 0, 0, 0, 0, 0, 0, 0, 0, 0, 0, 0, 0, 0, 0, 0, 0, 0, 0, 0, 0, 0, 0, 0, 0, 0, 0, 0, 0, 0, 0, 0, 0, 0, 0, 0, 0, 0, 0, 0, 0, 0, 0, 0, 0, 0, 0, 0]))
path-zeros AB A 0 ZEROS Ok(Holds)
path-zeros AB A 2 ZEROS Err(ProofRefused(IndexOutOfRange))
path-zeros - A 0 - Err(ProofRefused(IndexOutOfRange))
path-zeros A A 0 ZEROS Err(ProofRefused(PathTooLong))
path-zeros AB A 0 - Err(ProofRefused(PathTooShort))
path-sha256 AB A 0 ZEROS Err(ProofRefused(RootMismatch))",
    ),
    // Proofs under the hash of zeros.
    (
        6,
        "\
proof-zeros A AB ONES Ok(Holds)
proof-zeros A BC ZEROS Ok(Collision([0, 65], [0, 66]))
proof-zeros A AB - Err(ProofRefused(EmptyPath))
proof-zeros A AB ZEROS,ZEROS Err(ProofRefused(PathTooLong))
proof-zeros AB BC ZEROS Err(ProofRefused(SizesOutOfRange))
proof-sha256 A BC ZEROS Err(ProofRefused(RootMismatch))",
    ),
];

#[test]
fn paths_and_proofs_under_the_hash_of_zeros(rt: HostRuntime) {
    for (count, rows) in &EXPLAINED {
        assert!(rt; right_rows(rt.alloc(), &mut Explained, rows) == *count);
    }
}

// Reports whether the string is that of the node over these hashes.
fn is_node(string: &[u8], left: &[u8; 32], right: &[u8; 32]) -> bool {
    match string.split_first() {
        Some((mark, hashes)) => {
            *mark == 1 && hashes.len() == 64 && hashes.starts_with(left) && hashes.ends_with(right)
        }
        None => false,
    }
}

// Reports whether the strings are of two nodes that differ in one hash: the first has bytes 01 there, and the second has bytes 00.
fn differ_in_one_hash(answer: &Result<Evidence, EvidenceFault>) -> bool {
    match answer {
        Ok(Evidence::Collision(a, b)) => {
            is_node(b, &[0; 32], &[0; 32])
                && (is_node(a, &[1; 32], &[0; 32]) || is_node(a, &[0; 32], &[1; 32]))
        }
        _ => false,
    }
}

// A list of leaves that all have the same hash, under the hash of zeros.
#[derive(Drop)]
struct Listed {
    leaves: Vec<Vec<u8>>,
    hashes: Vec<[u8; 32]>,
    root: [u8; 32],
}

impl Listed {
    fn new(alloc: Global, bytes: &[u8]) -> Result<Listed, AllocError> {
        let leaves = one_byte_leaves(alloc, bytes)?;
        let hashes = hashes_of(alloc, &ZeroHash, &leaves)?;
        let root = reference::root(&ZeroHash, &hashes);
        Ok(Listed {
            leaves,
            hashes,
            root,
        })
    }

    // Reports whether a path with a changed element is accepted and gives a collision at that element.
    fn is_change_shown(&self, alloc: Global, leaf: &[u8], m: usize, path: &[[u8; 32]]) -> bool {
        let hash = leaf_hash(&ZeroHash, leaf);
        let size = self.leaves.len() as u64;
        let answer = verify_inclusion(&ZeroHash, &hash, m as u64, size, path, &self.root);
        let evidence = explain_inclusion(alloc, &ZeroHash, &self.leaves, leaf, m as u64, path);
        answer == Ok(()) && differ_in_one_hash(&evidence)
    }

    // Reports whether `is_change_shown` holds for each element of a path, changed in turn.
    fn are_elements_shown(
        &self,
        alloc: Global,
        leaf: &[u8],
        m: usize,
        path: &mut [[u8; 32]],
    ) -> bool {
        let mut right = true;
        for j in 0..path.len() {
            path[j] = [1; 32];
            right = right && self.is_change_shown(alloc, leaf, m, path);
            path[j] = [0; 32];
        }
        right
    }

    // Reports whether the true path of a leaf of one byte holds, and with another leaf gives the two leaves.
    fn is_leaf_shown(&self, alloc: Global, byte: u8, m: usize, path: &[[u8; 32]]) -> bool {
        let index = m as u64;
        let true_path = explain_inclusion(alloc, &ZeroHash, &self.leaves, &[byte], index, path);
        let other_leaf = explain_inclusion(alloc, &ZeroHash, &self.leaves, &[7, 7], index, path);
        matches!(&true_path, Ok(Evidence::Holds))
            && is_collision(&other_leaf, &[0, 7, 7], &[0, byte])
    }

    // Reports whether a leaf's path, with each element changed in turn, is accepted and gives a collision at that element, and whether the
    // true path with another leaf gives the two leaves.
    fn is_path_shown(&self, alloc: Global, byte: u8, m: usize) -> Result<bool, AllocError> {
        if m >= self.hashes.len() {
            return Ok(false);
        }
        let mut path = reference::path(alloc, &ZeroHash, m, &self.hashes)?;
        Ok(
            self.are_elements_shown(alloc, &[byte], m, &mut path)
                && self.is_leaf_shown(alloc, byte, m, &path),
        )
    }
}

// Reports whether this holds for each path of a list.
fn are_changes_shown(alloc: Global, bytes: &[u8]) -> Result<bool, AllocError> {
    let list = Listed::new(alloc, bytes)?;
    let mut m = 0usize;
    for byte in bytes {
        if !list.is_path_shown(alloc, *byte, m)? {
            return Ok(false);
        }
        m = m.saturating_add(1);
    }
    Ok(list.hashes.len() == bytes.len() && list.leaves.len() == bytes.len())
}

// The size before the first one with a change that does not give a collision.
fn shown_sizes(alloc: Global) -> Result<usize, AllocError> {
    let bytes = b"@ABCDEFGH";
    for size in 1..=9 {
        if !are_changes_shown(alloc, &bytes[..size])? {
            return Ok(size - 1);
        }
    }
    Ok(9)
}

#[test]
fn every_changed_element_is_shown(rt: HostRuntime) {
    assert!(rt; shown_sizes(rt.alloc()) == Ok(9));
}

// Whether one of the tried proofs was accepted, and whether the result for each was right.
#[derive(Clone, Copy)]
struct Tried {
    is_one_accepted: bool,
    right: bool,
}

// Five leaves under the weak hash, and the path of the third.
#[derive(Drop)]
struct Five {
    leaves: Vec<Vec<u8>>,
    leaf: [u8; 32],
    root: [u8; 32],
    path: Vec<[u8; 32]>,
}

// The root and the path of the third leaf.
fn third_of(alloc: Global, leaves: &[Vec<u8>]) -> Result<([u8; 32], Vec<[u8; 32]>), AllocError> {
    let hashes = hashes_of(alloc, &WeakHash, leaves)?;
    let root = reference::root(&WeakHash, &hashes);
    if hashes.len() < 5 {
        return Ok((root, Vec::new(alloc)));
    }
    Ok((root, reference::path(alloc, &WeakHash, 2, &hashes)?))
}

fn five_leaves(alloc: Global) -> Result<Five, AllocError> {
    let leaves = one_byte_leaves(alloc, &[1, 2, 3, 4, 5])?;
    let (root, path) = third_of(alloc, &leaves)?;
    Ok(Five {
        leaves,
        leaf: leaf_hash(&WeakHash, &[3]),
        root,
        path,
    })
}

impl Five {
    // Tries the path: an accepted path must give a true collision, and any other path must be refused.
    fn try_path(&self, alloc: Global, tried: &mut Tried) {
        let answer = verify_inclusion(&WeakHash, &self.leaf, 2, 5, &self.path, &self.root);
        let evidence = explain_inclusion(alloc, &WeakHash, &self.leaves, &[3], 2, &self.path);
        match answer {
            Ok(()) => {
                tried.is_one_accepted = true;
                tried.right = tried.right && is_true_collision(&WeakHash, &evidence);
            }
            Err(fault) => tried.right = tried.right && is_refused(&evidence, fault),
        }
    }

    // Tries the path with each element replaced in turn by this one.
    fn try_element(&mut self, alloc: Global, made_up: [u8; 32], tried: &mut Tried) {
        for j in 0..self.path.len() {
            let kept = self.path[j];
            self.path[j] = made_up;
            self.try_path(alloc, tried);
            self.path[j] = kept;
        }
    }
}

// Reports whether one of many false paths of five leaves is accepted under the weak hash, and whether each accepted path gives a true
// collision and each other path is refused.
fn accepted_false_paths(alloc: Global, trials: u32) -> Result<bool, AllocError> {
    let mut five = five_leaves(alloc)?;
    let mut tried = Tried {
        is_one_accepted: false,
        right: true,
    };
    for trial in 0..trials {
        let made_up = Sha256Hash.hash(&[&trial.to_be_bytes()]);
        five.try_element(alloc, made_up, &mut tried);
    }
    Ok(tried.right && tried.is_one_accepted)
}

#[test]
fn accepted_false_paths_under_a_weak_hash(rt: HostRuntime) {
    assert!(rt; accepted_false_paths(rt.alloc(), 2_000) == Ok(true));
}

// The leaves 1 and 2, and an invented one.
fn three(alloc: Global, made_up: &[u8]) -> Result<Vec<Vec<u8>>, AllocError> {
    let mut leaves = one_byte_leaves(alloc, &[1, 2])?;
    leaves.push(Vec::from_slice(alloc, made_up)?)?;
    Ok(leaves)
}

// Tries a list as the beginning of the new one: an accepted list must give a true collision, and any other list must be refused.
fn try_beginning(
    alloc: Global,
    new: &[Vec<u8>],
    proof: &[[u8; 32]],
    trial: u32,
    tried: &mut Tried,
) -> Result<(), AllocError> {
    let old = three(alloc, &trial.to_be_bytes())?;
    let evidence = explain_consistency(alloc, &WeakHash, &old, new, proof);
    if is_true_collision(&WeakHash, &evidence) {
        tried.is_one_accepted = true;
    } else {
        tried.right = tried.right && is_refused(&evidence, ProofFault::FirstMismatch);
    }
    Ok(())
}

// Reports whether one of many lists is accepted, and whether the result for each was right.
fn are_beginnings_tried(
    alloc: Global,
    new: &[Vec<u8>],
    proof: &[[u8; 32]],
    trials: u32,
) -> Result<bool, AllocError> {
    let mut tried = Tried {
        is_one_accepted: false,
        right: true,
    };
    for trial in 0..trials {
        try_beginning(alloc, new, proof, trial, &mut tried)?;
    }
    Ok(tried.right && tried.is_one_accepted)
}

// The true proof from the first three leaves. There is none if there are no more than three.
fn proof_from_three(alloc: Global, leaves: &[Vec<u8>]) -> Result<Vec<[u8; 32]>, AllocError> {
    let hashes = hashes_of(alloc, &WeakHash, leaves)?;
    if hashes.len() < 4 {
        return Ok(Vec::new(alloc));
    }
    reference::proof(alloc, &WeakHash, 3, &hashes)
}

// Reports whether one of many lists that do not begin five leaves is accepted as their beginning under the weak hash, by the true proof of
// the beginning. It also reports whether each accepted list gives a true collision and each other list is refused.
fn accepted_false_proofs(alloc: Global, trials: u32) -> Result<bool, AllocError> {
    let new = one_byte_leaves(alloc, &[1, 2, 3, 4, 5])?;
    let proof = proof_from_three(alloc, &new)?;
    are_beginnings_tried(alloc, &new, &proof, trials)
}

#[test]
fn accepted_false_proofs_under_a_weak_hash(rt: HostRuntime) {
    assert!(rt; accepted_false_proofs(rt.alloc(), 4_000) == Ok(true));
}
