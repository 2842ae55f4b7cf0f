//! Audit paths, consistency proofs and roots (RFC 6962 section 2.1; RFC 9162 sections 2.1.3.2 and 2.1.4.2).
ghost use Rattle.std.specs.Prelude.{◌≡◌, ◌⊎◌, ◌<◌, ◌^◌, length, IfOk};
ghost use Rattle.sha2.specs.Sha256.{sha256};
ghost use Rattle.ct_tree.specs.Tree.{mth};
ghost use Rattle.ct_verify.specs.Verdict.{AcceptsInclusion, RefusesInclusion, AcceptsConsistency, RefusesConsistency};
ghost use Rattle.libwagtenib.specs.Codes.{proof_code, Judges};

use ct_tree::{Sha256Hash, Stack};
use ct_verify::{ProofFault, verify_consistency, verify_inclusion};
use std::alloc::{AllocError, Global};

// The number of a proof's fault.
pub(crate) fn number_of(fault: ProofFault) -> u32
    ensures { result ≡ proof_code fault }
{
    match fault {
        ProofFault::IndexOutOfRange => 1,
        ProofFault::PathTooLong => 2,
        ProofFault::PathTooShort => 3,
        ProofFault::RootMismatch => 4,
        ProofFault::EmptyPath => 5,
        ProofFault::FirstMismatch => 6,
        ProofFault::SizesOutOfRange => 7,
    }
}

/// Checks an audit path. 0 exactly if it leads from the leaf hash at `leaf_index` to the root of a tree of `tree_size`
/// leaves; otherwise 1 to 4, the first fault in that order.
#[unsafe(no_mangle)]
pub extern "C" fn wagtenib_verify_inclusion(
    leaf_hash: &[u8; 32],
    leaf_index: u64,
    tree_size: u64,
    path: &[[u8; 32]],
    root: &[u8; 32],
) -> u32
    ensures { Judges result (AcceptsInclusion sha256 leaf_hash.now leaf_index tree_size path.now root.now)
        (RefusesInclusion sha256 leaf_hash.now leaf_index tree_size path.now root.now) }
{
    match verify_inclusion(&Sha256Hash, leaf_hash, leaf_index, tree_size, path, root) {
        Ok(()) => 0,
        Err(fault) => number_of(fault),
    }
}

/// Checks a consistency proof. 0 exactly if it leads to the roots of the first `first` and of all `second` leaves; otherwise
/// 7, 5, 2, 3, 6 or 4, the first fault in that order.
#[unsafe(no_mangle)]
pub extern "C" fn wagtenib_verify_consistency(
    first: u64,
    second: u64,
    first_root: &[u8; 32],
    second_root: &[u8; 32],
    path: &[[u8; 32]],
) -> u32
    ensures { Judges result (AcceptsConsistency sha256 first second first_root.now second_root.now path.now)
        (RefusesConsistency sha256 first second first_root.now second_root.now path.now) }
{
    match verify_consistency(&Sha256Hash, first, second, first_root, second_root, path) {
        Ok(()) => 0,
        Err(fault) => number_of(fault),
    }
}

// The root of a list of leaf hashes.
fn root_of(alloc: Global, leaf_hashes: &[[u8; 32]]) -> Result<[u8; 32], AllocError>
    requires { length leaf_hashes.now < 2 ^ 64 }
    ensures { IfOk result (λ root. root ≡ mth sha256 leaf_hashes.now) }
{
    let mut stack = Stack::new(alloc, Sha256Hash);
    for leaf_hash in leaf_hashes {
        stack.push(leaf_hash)?;
    }
    Ok(stack.root())
}

/// The root of a list of leaf hashes: MTH. 8 where memory is refused, and then `out` is as it was. Takes at most 4 KB.
#[unsafe(no_mangle)]
pub extern "C" fn wagtenib_root(alloc: Global, leaf_hashes: &[[u8; 32]], out: &mut [u8; 32]) -> u32
    ensures { ((result ≡ 0) × (out.new ≡ mth sha256 leaf_hashes.now)) ⊎ ((result ≡ 8) × (out.new ≡ out.old)) }
{
    match root_of(alloc, leaf_hashes) {
        Ok(root) => {
            *out = root;
            0
        }
        Err(AllocError) => 8,
    }
}
