// Worked proofs of subtrees under SHA-256, over the leaves of the Certificate Transparency reference tree. A model in Python of the loops of
// draft-ietf-plants-merkle-tree-certs computed the rows.

use crate::rows::{Row, Shown, right_rows};
use crate::weak_hashes::ZeroHash;
use ct_subtrees::{
    evaluate_subtree_inclusion, explain_subtree, is_subtree, laws, meaning,
    verify_subtree_consistency,
};
use ct_tree::{NodeHash, Sha256Hash};
use std::alloc::Global;

const ZEROS: [u8; 32] = [0; 32];

// The verifiers of subtrees under SHA-256.
#[derive(Clone, Copy)]
struct Subtrees;

// Checks a row of a range.
fn is_range_answered(alloc: Global, mut row: Row<'_>) -> bool {
    let start = row.number();
    let end = row.number();
    let answer = is_subtree(start, end);
    row.ends_in(alloc, &answer)
}

// Checks a row of a range, a size, the hash of the subtree, the root and the proof.
fn is_proof_answered(alloc: Global, mut row: Row<'_>) -> bool {
    let start = row.number();
    let end = row.number();
    let size = row.number();
    let hash = row.hash();
    let root = row.hash();
    let proof = row.hashes(alloc);
    let answer = verify_subtree_consistency(&Sha256Hash, start, end, size, &hash, &root, &proof);
    row.ends_in(alloc, &answer)
}

// Checks a row of a leaf, its index, a range, the path and a hash: the result is whether the path leads to that hash.
fn is_path_answered(alloc: Global, mut row: Row<'_>) -> bool {
    let leaf = row.hash();
    let index = row.number();
    let start = row.number();
    let end = row.number();
    let path = row.hashes(alloc);
    let hash = row.hash();
    match evaluate_subtree_inclusion(&Sha256Hash, index, start, end, &leaf, &path) {
        Ok(found) => {
            let same = found == hash;
            row.ends_in(alloc, &same)
        }
        Err(fault) => {
            let answer: Result<(), _> = Err(fault);
            row.ends_in(alloc, &answer)
        }
    }
}

// Checks a row of a range, a size and the length of the proof: the hash of the subtree, the root and the proof are zeros.
fn is_proof_of_zeros_answered(alloc: Global, mut row: Row<'_>) -> bool {
    let start = row.number();
    let end = row.number();
    let size = row.number();
    let length = row.number() as usize;
    let proof = [ZEROS; 66];
    if length > 66 {
        return false;
    }
    let answer = verify_subtree_consistency(
        &Sha256Hash,
        start,
        end,
        size,
        &ZEROS,
        &ZEROS,
        &proof[..length],
    );
    row.ends_in(alloc, &answer)
}

// Checks a row of the hashes of all leaves, a range, the hash of the subtree and the proof.
fn is_explained<H: NodeHash>(alloc: Global, h: &H, mut row: Row<'_>) -> bool {
    let leaf_hashes = row.hashes(alloc);
    let start = row.number();
    let end = row.number();
    let hash = row.hash();
    let proof = row.hashes(alloc);
    let answer = explain_subtree(alloc, h, &leaf_hashes, start, end, &hash, &proof);
    row.ends_in(alloc, &answer)
}

impl Shown for Subtrees {
    fn is_right(&mut self, alloc: Global, mut row: Row<'_>) -> bool {
        match row.word() {
            "range" => is_range_answered(alloc, row),
            "proof" => is_proof_answered(alloc, row),
            "path" => is_path_answered(alloc, row),
            "explain" => is_explained(alloc, &Sha256Hash, row),
            "explain-zeros" => is_explained(alloc, &ZeroHash, row),
            "zeros" => is_proof_of_zeros_answered(alloc, row),
            _ => false,
        }
    }
}

// Groups of rows, with the number of rows.
const SUBTREES: [(u32, &str); 8] = [
    // Ranges, also of the largest numbers. The smallest power of two that is not below a length of more than 2^63 has 65 bits.
    (
        26,
        "\
range 0 1 true
range 0 7 true
range 0 18446744073709551615 true
range 18446744073709551614 18446744073709551615 true
range 9223372036854775808 18446744073709551615 true
range 9223372036854775808 9223372036854775809 true
range 4611686018427387904 9223372036854775808 true
range 4611686018427387904 9223372036854775809 false
range 1 18446744073709551615 false
range 2 18446744073709551615 false
range 9223372036854775807 9223372036854775809 false
range 9223372036854775806 9223372036854775808 true
range 9223372036854775806 9223372036854775809 false
range 4611686018427387904 18446744073709551615 false
range 18446744073709551615 18446744073709551615 false
range 0 0 false
range 6 8 true
range 6 9 false
range 8 16 true
range 8 17 false
range 4 7 true
range 5 7 false
range 5 6 true
range 12 16 true
range 12 17 false
range 1 9223372036854775810 false",
    ),
    // Proofs of the whole tree are empty.
    (
        6,
        "\
proof 0 1 1 L0 L0 - Ok(())
proof 0 2 2 N01 N01 - Ok(())
proof 0 3 3 MTH_3 MTH_3 - Ok(())
proof 0 4 4 N0123 N0123 - Ok(())
proof 0 5 5 MTH_5 MTH_5 - Ok(())
proof 0 6 6 MTH_6 MTH_6 - Ok(())",
    ),
    // Proofs of all subtrees of seven leaves.
    (
        16,
        "\
proof 0 1 7 L0 MTH_7 L1,N23,N456 Ok(())
proof 0 2 7 N01 MTH_7 N23,N456 Ok(())
proof 0 3 7 MTH_3 MTH_7 L2,L3,N01,N456 Ok(())
proof 0 4 7 N0123 MTH_7 N456 Ok(())
proof 0 5 7 MTH_5 MTH_7 L4,L5,L6,N0123 Ok(())
proof 0 6 7 MTH_6 MTH_7 N45,L6,N0123 Ok(())
proof 0 7 7 MTH_7 MTH_7 - Ok(())
proof 1 2 7 L1 MTH_7 L0,N23,N456 Ok(())
proof 2 3 7 L2 MTH_7 L3,N01,N456 Ok(())
proof 2 4 7 N23 MTH_7 N01,N456 Ok(())
proof 3 4 7 L3 MTH_7 L2,N01,N456 Ok(())
proof 4 5 7 L4 MTH_7 L5,L6,N0123 Ok(())
proof 4 6 7 N45 MTH_7 L6,N0123 Ok(())
proof 4 7 7 N456 MTH_7 N0123 Ok(())
proof 5 6 7 L5 MTH_7 L4,L6,N0123 Ok(())
proof 6 7 7 L6 MTH_7 N45,N0123 Ok(())",
    ),
    // Proofs of subtrees of eight leaves.
    (
        5,
        "\
proof 0 7 8 MTH_7 MTH_8 L6,L7,N45,N0123 Ok(())
proof 0 8 8 MTH_8 MTH_8 - Ok(())
proof 4 7 8 N456 MTH_8 L6,L7,N45,N0123 Ok(())
proof 6 7 8 L6 MTH_8 L7,N45,N0123 Ok(())
proof 7 8 8 L7 MTH_8 L6,N45,N0123 Ok(())",
    ),
    // Faults of proofs. If there are two faults, the one that comes first in the order is returned.
    (
        19,
        "\
proof 1 3 3 MTH_3 MTH_3 - Err(NotASubtree)
proof 3 5 7 ZEROS MTH_7 - Err(NotASubtree)
proof 4 4 7 ZEROS MTH_7 - Err(NotASubtree)
proof 5 4 7 ZEROS MTH_7 - Err(NotASubtree)
proof 2 5 7 ZEROS MTH_7 - Err(NotASubtree)
proof 6 9 8 ZEROS ZEROS - Err(NotASubtree)
proof 0 2 1 N01 L0 - Err(BeyondTree)
proof 4 8 7 N456 MTH_7 N0123 Err(BeyondTree)
proof 4 7 7 N456 MTH_7 - Err(PathTooShort)
proof 4 7 7 N456 MTH_7 N0123,N0123 Err(PathTooLong)
proof 0 7 7 MTH_7 MTH_7 L0 Err(PathTooLong)
proof 4 6 7 N45 MTH_7 N0123 Err(PathTooShort)
proof 0 3 7 MTH_3 MTH_7 L2,L3,N01 Err(PathTooShort)
proof 0 3 7 N01 MTH_7 L2,L3,N01,N456 Err(FirstMismatch)
proof 0 3 7 ZEROS ZEROS L2,L3,N01,N456 Err(FirstMismatch)
proof 4 7 7 MTH_3 MTH_7 N0123 Err(RootMismatch)
proof 4 7 7 N456 MTH_8 N0123 Err(RootMismatch)
proof 0 7 7 MTH_7 MTH_8 - Err(RootMismatch)
proof 4 6 7 N45 MTH_7 N0123,L6 Err(RootMismatch)",
    ),
    // Paths, and faults of paths.
    (
        21,
        "\
path L2 2 2 3 - L2 true
path L2 2 2 4 L3 N23 true
path L3 3 2 4 L2 N23 true
path L3 3 3 4 - L3 true
path L4 4 4 5 - L4 true
path L4 4 4 6 L5 N45 true
path L5 5 4 6 L4 N45 true
path L4 4 4 7 L5,L6 N456 true
path L5 5 4 7 L4,L6 N456 true
path L6 6 4 7 N45 N456 true
path L5 5 5 6 - L5 true
path L6 6 6 7 - L6 true
path L7 7 7 8 - L7 true
path L6 6 4 7 N45 MTH_7 false
path L6 5 4 7 L4,N45 N456 false
path L3 3 1 4 N45 N456 Err(NotASubtree)
path L3 3 4 7 N45 N456 Err(IndexOutOfRange)
path L7 7 4 7 N45 N456 Err(IndexOutOfRange)
path L6 6 4 7 - N456 Err(PathTooShort)
path L6 6 4 7 N45,N0123 N456 Err(PathTooLong)
path L6 0 7 7 - N456 Err(NotASubtree)",
    ),
    // Largest size.
    (
        23,
        "\
zeros 0 18446744073709551615 18446744073709551615 0 Ok(())
zeros 0 18446744073709551615 18446744073709551615 1 Err(PathTooLong)
zeros 0 1 18446744073709551615 63 Err(PathTooShort)
zeros 0 1 18446744073709551615 64 Err(RootMismatch)
zeros 0 1 18446744073709551615 65 Err(PathTooLong)
zeros 0 9223372036854775808 18446744073709551615 0 Err(PathTooShort)
zeros 0 9223372036854775808 18446744073709551615 1 Err(RootMismatch)
zeros 0 9223372036854775808 18446744073709551615 2 Err(PathTooLong)
zeros 0 9223372036854775809 18446744073709551615 64 Err(PathTooShort)
zeros 0 9223372036854775809 18446744073709551615 65 Err(FirstMismatch)
zeros 0 9223372036854775809 18446744073709551615 66 Err(PathTooLong)
zeros 9223372036854775808 18446744073709551615 18446744073709551615 0 Err(PathTooShort)
zeros 9223372036854775808 18446744073709551615 18446744073709551615 1 Err(RootMismatch)
zeros 9223372036854775808 18446744073709551615 18446744073709551615 2 Err(PathTooLong)
zeros 18446744073709551614 18446744073709551615 18446744073709551615 62 Err(PathTooShort)
zeros 18446744073709551614 18446744073709551615 18446744073709551615 63 Err(RootMismatch)
zeros 18446744073709551614 18446744073709551615 18446744073709551615 64 Err(PathTooLong)
zeros 9223372036854775808 13835058055282163712 18446744073709551615 1 Err(PathTooShort)
zeros 9223372036854775808 13835058055282163712 18446744073709551615 2 Err(RootMismatch)
zeros 9223372036854775808 13835058055282163712 18446744073709551615 3 Err(PathTooLong)
zeros 4611686018427387904 9223372036854775808 18446744073709551615 1 Err(PathTooShort)
zeros 4611686018427387904 9223372036854775808 18446744073709551615 2 Err(RootMismatch)
zeros 4611686018427387904 9223372036854775808 18446744073709551615 3 Err(PathTooLong)",
    ),
    // Evidence. Under the hash function whose digests are zeros, every proof of the right length leads to the root.
    (
        10,
        "\
explain L0,L1,L2,L3,L4,L5,L6 4 7 N456 N0123 Ok(Holds)
explain L0,L1,L2,L3,L4,L5,L6 0 7 MTH_7 - Ok(Holds)
explain L0,L1,L2,L3,L4,L5,L6 0 3 MTH_3 L2,L3,N01,N456 Ok(Holds)
explain L0,L1,L2,L3,L4,L5,L6 2 4 N23 N01,N456 Ok(Holds)
explain L0,L1,L2,L3,L4,L5,L6 3 5 N23 N01 Err(ProofRefused(NotASubtree))
explain L0,L1,L2,L3,L4,L5,L6 4 8 N456 N0123 Err(ProofRefused(BeyondTree))
explain L0,L1,L2,L3,L4,L5,L6 4 7 MTH_3 N0123 Err(ProofRefused(RootMismatch))
explain-zeros ONES,SEVENS,ONES 0 2 ZEROS SEVENS Ok(Collision([1, 0, 0, 0, 0, 0, 0, 0, 0, 0, 0, 0, 0, 0, 0, 0, 0, 0, 0, 0, 0, 0, 0, 0, 0, 0, 0, 0, 0, 0, 0, 0, 0, 7, 7, 7, 7, 7, 7, 7, 7, 7, 7, 7, 7, 7, 7, 7, 7, 7, 7, 7, 7, 7, 7, 7, 7, 7, 7, 7, 7, 7, 7, 7, 7], [1, 0, 0, 0, 0, 0, 0, 0, 0, 0, 0, 0, 0, 0, 0, 0, 0, 0, 0, 0, 0, 0, 0, 0, 0, 0, 0, 0, 0, 0, 0, 0, 0, 1, 1, 1, 1, 1, 1, 1, 1, 1, 1, 1, 1, 1, 1, 1, 1, 1, 1, 1, 1, 1, 1, 1, 1, 1, 1, 1, 1, 1, 1, 1, 1]))
explain-zeros ONES,SEVENS,SEVENS 2 3 ONES ZEROS Ok(Collision([1, 0, 0, 0, 0, 0, 0, 0, 0, 0, 0, 0, 0, 0, 0, 0, 0, 0, 0, 0, 0, 0, 0, 0, 0, 0, 0, 0, 0, 0, 0, 0, 0, 1, 1, 1, 1, 1, 1, 1, 1, 1, 1, 1, 1, 1, 1, 1, 1, 1, 1, 1, 1, 1, 1, 1, 1, 1, 1, 1, 1, 1, 1, 1, 1], [1, 0, 0, 0, 0, 0, 0, 0, 0, 0, 0, 0, 0, 0, 0, 0, 0, 0, 0, 0, 0, 0, 0, 0, 0, 0, 0, 0, 0, 0, 0, 0, 0, 7, 7, 7, 7, 7, 7, 7, 7, 7, 7, 7, 7, 7, 7, 7, 7, 7, 7, 7, 7, 7, 7, 7, 7, 7, 7, 7, 7, 7, 7, 7, 7]))
explain-zeros ONES,SEVENS,SEVENS 2 3 SEVENS ZEROS Ok(Holds)",
    ),
];

#[test]
fn worked_subtrees(rt: HostRuntime) {
    for (count, rows) in &SUBTREES {
        assert!(rt; right_rows(rt.alloc(), &mut Subtrees, rows) == *count);
    }
}

// With another hash function, and at the largest size, a proof of the right length is accepted.
#[test]
fn another_hash_of_subtrees(rt: HostRuntime) {
    let size = u64::MAX;
    let proof = [ZEROS; 64];
    let accepted = verify_subtree_consistency(&ZeroHash, 0, 1, size, &ZEROS, &ZEROS, &proof);
    assert!(rt; accepted == Ok(()));
    assert!(rt; evaluate_subtree_inclusion(&ZeroHash, 0, 0, size, &ZEROS, &proof) == Ok(ZEROS));
    laws::range();
    laws::subtree_subproof();
    laws::subtree_roots();
    laws::known_proofs();
    laws::subtree_proof();
    laws::subtree_path();
    meaning::subtree_is_of_list();
    meaning::serial_number_names_entry();
    meaning::one_leaf();
}
