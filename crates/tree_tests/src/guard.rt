// The heads and the receipt that a guard passes: heads over the leaves of the Certificate Transparency reference tree, and a receipt of
// README.md's first session.

use crate::rows::{Row, Shown, right_rows};
use ct_guard::step_receipts_laws::step_receipts;
use ct_guard::{Guard, laws, pass_receipt, pass_receipts};
use ct_tree::Sha256Hash;
use std::alloc::{AllocError, Global};

// Checks a row of a head and the proof.
fn is_head_answered(alloc: Global, guard: &mut Guard, mut row: Row<'_>) -> bool {
    let head = row.head();
    let proof = row.hashes(alloc);
    let answer = guard.pass_head(&Sha256Hash, &head, &proof);
    row.ends_in(alloc, &answer)
}

// Checks a row of a leaf's bytes, its index and the path.
fn is_receipt_answered(alloc: Global, guard: &Guard, mut row: Row<'_>) -> bool {
    let leaf = row.bytes(alloc);
    let index = row.number();
    let path = row.hashes(alloc);
    let answer = pass_receipt(&Sha256Hash, guard, &leaf, index, &path);
    row.ends_in(alloc, &answer)
}

// The byte strings, as parts of memory that somebody else holds.
fn slices_of(alloc: Global, leaves: &[Vec<u8>]) -> Result<Vec<&[u8]>, AllocError> {
    let mut slices = Vec::new(alloc);
    for leaf in leaves {
        slices.push(leaf.as_slice())?;
    }
    Ok(slices)
}

// Checks a row of a step: its first index, the subtrees before it, and its leaves.
fn is_step_answered(alloc: Global, guard: &Guard, mut row: Row<'_>) -> bool {
    let first = row.number();
    let subtrees = row.hashes(alloc);
    let leaves = row.byte_strings(alloc);
    let Ok(slices) = slices_of(alloc, &leaves) else {
        return false;
    };
    let answer = pass_receipts(&Sha256Hash, guard, first, &subtrees, &slices);
    row.ends_in(alloc, &answer)
}

impl Shown for Guard {
    fn is_right(&mut self, alloc: Global, mut row: Row<'_>) -> bool {
        match row.word() {
            "head" => is_head_answered(alloc, self, row),
            "receipt" => is_receipt_answered(alloc, self, row),
            "step" => is_step_answered(alloc, self, row),
            _ => false,
        }
    }
}

#[test]
fn a_guard_lets_no_fork_through(rt: HostRuntime) {
    let rows = "\
head 0 1 MTH_0 - Ok(())
head 3 5 MTH_3 - Ok(())
head 3 5 MTH_3 - Ok(())
head 3 5 MTH_5 - Err(MomentNotLater)
head 7 6 MTH_7 L2,L3,N01,N456 Ok(())
head 7 7 MTH_7 - Ok(())
head 7 8 MTH_6 - Err(Fork)
head 6 8 MTH_6 - Err(SizeFalls)
head 8 7 MTH_8 L6,L7,N45,N0123 Err(MomentNotLater)
head 8 8 MTH_8 L6,L7,N45 Err(Inconsistent(PathTooShort))
head 8 8 MTH_6 L6,L7,N45,N0123 Err(Inconsistent(RootMismatch))
head 8 8 MTH_8 L6,L7,N45,N0123 Ok(())";
    laws::heads();
    laws::heads_go_back();
    assert!(rt; right_rows(rt.alloc(), &mut Guard::new(), rows) == 12);
}

#[test]
fn a_receipt_wants_its_leaf_in_the_last_head(rt: HostRuntime) {
    let rows = "\
receipt 000000000000000000030000000001420000 1 SESSION_0 Err(NoHead)
head 2 4 SESSION - Ok(())
receipt 000000000000000000030000000001420000 1 SESSION_0 Ok(())
receipt 000000000000000000030000000001430000 1 SESSION_0 Err(NotThere(RootMismatch))
receipt 000000000000000000030000000001420000 2 SESSION_0 Err(NotThere(IndexOutOfRange))
receipt 000100000000000000030000000001420000 1 SESSION_0 Err(NoLeaf(BadLeafType))";
    laws::receipts();
    assert!(rt; right_rows(rt.alloc(), &mut Guard::new(), rows) == 6);
}

#[test]
fn the_receipts_of_a_step_want_its_leaves_at_the_end_of_the_last_head(rt: HostRuntime) {
    let rows = "\
step 6 STEP_0123,STEP_45 000000000000000000090000000001470000 Err(NoHead)
head 7 9 STEP_7 - Ok(())
step 6 STEP_0123,STEP_45 000000000000000000090000000001470000 Ok(())
step 4 STEP_0123 000000000000000000070000000001450000,0000000000000000000800000000014600080000050000000005,000000000000000000090000000001470000 Ok(())
step 3 STEP_01,STEP_2 000000000000000000060000000001440000,000000000000000000070000000001450000,0000000000000000000800000000014600080000050000000005,000000000000000000090000000001470000 Ok(())
step 0 - 000000000000000000030000000001410000,000000000000000000040000000001420000,000000000000000000050000000001430000,000000000000000000060000000001440000,000000000000000000070000000001450000,0000000000000000000800000000014600080000050000000005,000000000000000000090000000001470000 Ok(())
step 4 STEP_0123 000000000000000000070000000001450000,0000000000000000000800000000014600080000050000000005 Err(NotThere(IndexOutOfRange))
step 7 STEP_0123,STEP_45 - Err(NotThere(IndexOutOfRange))
step 18446744073709551615 - 000000000000000000090000000001470000 Err(NotThere(IndexOutOfRange))
step 6 STEP_45,STEP_0123 000000000000000000090000000001470000 Err(NotThere(RootMismatch))
step 6 STEP_0123 000000000000000000090000000001470000 Err(NotThere(RootMismatch))
step 6 STEP_0123,STEP_45,ZEROS 000000000000000000090000000001470000 Err(NotThere(RootMismatch))
step 4 STEP_0123 0000000000000000000800000000014600080000050000000005,000000000000000000070000000001450000,000000000000000000090000000001470000 Err(NotThere(RootMismatch))
step 0 STEP_0123 000000000000000000030000000001410000,000000000000000000040000000001420000,000000000000000000050000000001430000,000000000000000000060000000001440000,000000000000000000070000000001450000,0000000000000000000800000000014600080000050000000005,000000000000000000090000000001470000 Err(NotThere(RootMismatch))";
    step_receipts();
    assert!(rt; right_rows(rt.alloc(), &mut Guard::new(), rows) == 14);
}

#[test]
fn the_first_leaf_of_a_step_that_is_refused_says_why(rt: HostRuntime) {
    let early = "\
head 7 8 STEP_7 - Ok(())
step 4 STEP_0123 000000000000000000070000000001450000,0000000000000000000800000000014600080000050000000005,000000000000000000090000000001470000 Err(LaterLeaf)";
    let other = "\
head 2 9 STEP_TWO - Ok(())
step 1 SESSION_0 0000000000000000000800000000014600080000050000000005 Err(OtherIndex)";
    let bad = "\
head 2 9 STEP_BAD - Ok(())
step 1 SESSION_0 00 Err(NoLeaf(Truncated))";
    assert!(rt; right_rows(rt.alloc(), &mut Guard::new(), early) == 2);
    assert!(rt; right_rows(rt.alloc(), &mut Guard::new(), other) == 2);
    assert!(rt; right_rows(rt.alloc(), &mut Guard::new(), bad) == 2);
}
