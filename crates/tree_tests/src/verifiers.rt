// Worked proofs under SHA-256 over the leaves of the Certificate Transparency reference tree.

use crate::rows::{Row, Shown, right_rows};
use crate::weak_hashes::ZeroHash;
use ct_tree::Sha256Hash;
use ct_verify::{laws, verify_consistency, verify_inclusion};
use std::alloc::Global;

const ZEROS: [u8; 32] = [0; 32];

// The verifiers under SHA-256.
#[derive(Clone, Copy)]
struct Verifiers;

// Checks a row of a leaf, its index, a size, the path and the root.
fn is_path_answered(alloc: Global, mut row: Row<'_>) -> bool {
    let leaf = row.hash();
    let index = row.number();
    let size = row.number();
    let path = row.hashes(alloc);
    let root = row.hash();
    let answer = verify_inclusion(&Sha256Hash, &leaf, index, size, &path, &root);
    row.ends_in(alloc, &answer)
}

// Checks a row of two sizes, their roots and the proof.
fn is_proof_answered(alloc: Global, mut row: Row<'_>) -> bool {
    let first = row.number();
    let second = row.number();
    let first_root = row.hash();
    let second_root = row.hash();
    let proof = row.hashes(alloc);
    let answer = verify_consistency(
        &Sha256Hash,
        first,
        second,
        &first_root,
        &second_root,
        &proof,
    );
    row.ends_in(alloc, &answer)
}

// Checks a row of an index, a size and the length of the path: the leaf, the path and the root are zeros.
fn is_path_of_zeros_answered(alloc: Global, mut row: Row<'_>) -> bool {
    let index = row.number();
    let size = row.number();
    let length = row.number() as usize;
    let path = [ZEROS; 65];
    if length > 65 {
        return false;
    }
    let answer = verify_inclusion(&Sha256Hash, &ZEROS, index, size, &path[..length], &ZEROS);
    row.ends_in(alloc, &answer)
}

impl Shown for Verifiers {
    fn is_right(&mut self, alloc: Global, mut row: Row<'_>) -> bool {
        match row.word() {
            "path" => is_path_answered(alloc, row),
            "proof" => is_proof_answered(alloc, row),
            "zeros" => is_path_of_zeros_answered(alloc, row),
            _ => false,
        }
    }
}

fn right(rt: &HostRuntime, rows: &str) -> u32 {
    right_rows(rt.alloc(), &mut Verifiers, rows)
}

// Groups of rows of worked paths and proofs, with the number of rows.
const VERIFIED: [(u32, &str); 7] = [
    // Eight leaves.
    (
        2,
        "\
path L7 7 8 L6,N45,N0123 MTH_8 Ok(())
proof 7 8 MTH_7 MTH_8 L6,L7,N45,N0123 Ok(())",
    ),
    // Paths of seven leaves.
    // The example of RFC 6962, section 2.1.3: the paths of d0 [b, h, l], d3 [c, g, l], d4 [f, j, k] and d6 [i, k], and the
    // proofs from three leaves [c, d, g, l], from four [l] and from six [i, j, k].
    (
        9,
        "\
path L0 0 7 L1,N23,N456 MTH_7 Ok(())
path L3 3 7 L2,N01,N456 MTH_7 Ok(())
path L4 4 7 L5,L6,N0123 MTH_7 Ok(())
path L6 6 7 N45,N0123 MTH_7 Ok(())
path L6 6 7 N45 MTH_7 Err(PathTooShort)
path L6 6 7 N45,N0123,N0123 MTH_7 Err(PathTooLong)
path L6 7 7 N45,N0123 MTH_7 Err(IndexOutOfRange)
path L0 0 1 - L0 Ok(())
path L0 0 1 - ZEROS Err(RootMismatch)",
    ),
    // Proofs of seven leaves.
    (
        3,
        "\
proof 3 7 MTH_3 MTH_7 L2,L3,N01,N456 Ok(())
proof 4 7 N0123 MTH_7 N456 Ok(())
proof 6 7 MTH_6 MTH_7 N45,L6,N0123 Ok(())",
    ),
    // Paths of five leaves.
    (
        3,
        "\
path L4 4 5 N0123 MTH_5 Ok(())
path L2 2 5 L3,N01,L4 MTH_5 Ok(())
path L0 0 5 L1,N23,L4 MTH_5 Ok(())",
    ),
    // Proofs of five leaves.
    (
        11,
        "\
proof 3 5 MTH_3 MTH_5 L2,L3,N01,L4 Ok(())
proof 4 5 N0123 MTH_5 L4 Ok(())
proof 2 5 N01 MTH_5 N23,L4 Ok(())
proof 1 5 L0 MTH_5 L1,N23,L4 Ok(())
proof 3 5 N01 MTH_5 L2,L3,N01,L4 Err(FirstMismatch)
proof 3 5 MTH_3 N0123 L2,L3,N01,L4 Err(RootMismatch)
proof 3 5 MTH_3 MTH_5 L2,L3,N01 Err(PathTooShort)
proof 3 5 MTH_3 MTH_5 L2,L3,N01,L4,L4 Err(PathTooLong)
proof 5 5 MTH_3 MTH_5 L2,L3,N01,L4 Err(SizesOutOfRange)
proof 0 5 MTH_3 MTH_5 L2,L3,N01,L4 Err(SizesOutOfRange)
proof 3 5 MTH_3 MTH_5 - Err(EmptyPath)",
    ),
    // If there are two faults, the one that comes first in the order is returned.
    (
        7,
        "\
path L0 1 1 L1 ZEROS Err(IndexOutOfRange)
path L0 0 1 L1 ZEROS Err(PathTooLong)
path L0 0 2 - ZEROS Err(PathTooShort)
proof 5 3 ZEROS ZEROS - Err(SizesOutOfRange)
proof 3 5 ZEROS ZEROS - Err(EmptyPath)
proof 3 5 ZEROS ZEROS L2 Err(PathTooShort)
proof 3 5 ZEROS ZEROS L2,L3,N01,L4 Err(FirstMismatch)",
    ),
    // Largest size.
    (
        7,
        "\
zeros 0 18446744073709551615 63 Err(PathTooShort)
zeros 0 18446744073709551615 64 Err(RootMismatch)
zeros 0 18446744073709551615 65 Err(PathTooLong)
zeros 18446744073709551614 18446744073709551615 62 Err(PathTooShort)
zeros 18446744073709551614 18446744073709551615 63 Err(RootMismatch)
zeros 18446744073709551614 18446744073709551615 64 Err(PathTooLong)
zeros 18446744073709551615 18446744073709551615 65 Err(IndexOutOfRange)",
    ),
];

#[test]
fn worked_paths_and_proofs(rt: HostRuntime) {
    for (count, rows) in &VERIFIED {
        assert!(rt; right(&rt, rows) == *count);
    }
}

// With another hash function, and at the largest size, a path of the right length is accepted.
#[test]
fn another_hash(rt: HostRuntime) {
    let size = u64::MAX;
    let path = [ZEROS; 64];
    assert!(rt; verify_inclusion(&ZeroHash, &ZEROS, 0, size, &path, &ZEROS) == Ok(()));
    assert!(rt; verify_consistency(&ZeroHash, 1, size, &ZEROS, &ZEROS, &path) == Ok(()));
    laws::rebuild();
    laws::both_roots();
    laws::path();
    laws::proof();
}
