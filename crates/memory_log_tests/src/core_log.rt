use crate::rows::{Row, Shown, right_rows};
use crate::settled_log::{is_text, publish, receipt, record, settle, settle_submission};
use ct_codec::{Refusal, Submission, extra_data, identity};
use ct_core::{Core, LeafTable, Published};
use std::sync::Arc;
use std::test::Fail;

// The leaves of the certificates 41 and 42 at the timestamp 10 (RFC 6962, section 3.4).
const LEAF_OF_A: [u8; 18] = [0, 0, 0, 0, 0, 0, 0, 0, 0, 10, 0, 0, 0, 0, 1, 0x41, 0, 0];

const LEAF_OF_B: [u8; 18] = [0, 0, 0, 0, 0, 0, 0, 0, 0, 10, 0, 0, 0, 0, 1, 0x42, 0, 0];

// Settles the certificates A, B and again A at the timestamp 10, and publishes a head of them.
fn repeat(rt: &HostRuntime, core: &mut Core) -> Result<(), Refusal> {
    settle(rt, core, (0, 0), b"A", 10)?;
    settle(rt, core, (0, 1), b"B", 10)?;
    settle(rt, core, (0, 2), b"A", 10)?;
    publish(rt, core, 10)?;
    Ok(())
}

// A row has a front, a ticket, a certificate of one byte and a timestamp.
fn is_settled(rt: &HostRuntime, core: &mut Core, mut row: Row<'_>) -> bool {
    let (front, ticket) = (row.short(), row.number());
    let certificate = row.bytes(rt);
    let now = row.number();
    row.says(rt, &settle(rt, core, (front, ticket), &certificate, now))
}

// A row has a timestamp. The result is the size and the timestamp of the head.
fn is_published(rt: &HostRuntime, core: &mut Core, mut row: Row<'_>) -> bool {
    let now = row.number();
    let head = publish(rt, core, now);
    row.says(rt, &head.map(|h| (h.tree_size, h.timestamp)))
}

impl Shown for Core {
    // A row has a step of a core, or a question about its state.
    fn is_right(&mut self, rt: &HostRuntime, mut row: Row<'_>) -> bool {
        match row.word() {
            "settles" => is_settled(rt, self, row),
            "publishes" => is_published(rt, self, row),
            "repeats" => row.says(rt, &repeat(rt, self)),
            "receipt" => {
                let ticket = row.number();
                row.says(rt, &receipt(rt, self, ticket))
            }
            "clock" => row.says(rt, &self.clock()),
            "covered" => row.says(rt, &self.is_covered()),
            "root" => row.says(rt, &self.published().last_head().root),
            _ => false,
        }
    }
}

// Returns how many steps a core that is opened at this timestamp answers correctly, before the first that it does not.
fn steps(rt: &HostRuntime, now: u64, rows: &str) -> u32 {
    match Core::open(rt.alloc(), now) {
        Ok(mut core) => right_rows(rt, &mut core, rows),
        Err(_) => 0,
    }
}

// The root is that of the leaves of A and B, computed with Python's hashlib: sha256(01, sha256(00, LEAF_OF_A), sha256(00, LEAF_OF_B)), with
// the strings joined.
#[test]
fn a_repeat_has_the_first_ones_leaf(rt: HostRuntime) {
    let rows = "\
settles 0 0 65 10 => Ok(Settled { front: 0, ticket: 0, index: 0, first: true })
settles 0 1 66 10 => Ok(Settled { front: 0, ticket: 1, index: 1, first: true })
settles 0 2 65 10 => Ok(Settled { front: 0, ticket: 2, index: 0, first: false })
receipt 2 => Err(NotYet)
publishes 10 => Ok((2, 10))
receipt 2 => Ok(Some((0, 10)))
root => [45, 213, 239, 42, 22, 247, 144, 136, 149, 102, 69, 129, 131, 242, 77, 108, 195, 220, 150, 59, 117, 212, 127, 100, 190, 190, 103, 39, 62, 223, 78, 203]";
    assert!(rt; steps(&rt, 0, rows) == 7);
}

#[test]
fn two_fronts_with_one_certificate(rt: HostRuntime) {
    let rows = "\
settles 1 1 65 5 => Ok(Settled { front: 1, ticket: 1, index: 0, first: true })
settles 0 0 65 6 => Ok(Settled { front: 0, ticket: 0, index: 0, first: false })
clock => 5
receipt 0 => Err(NotYet)
publishes 6 => Ok((1, 6))
receipt 0 => Ok(Some((0, 5)))";
    assert!(rt; steps(&rt, 0, rows) == 6);
}

#[test]
fn settling_goes_on_behind_a_publication(rt: HostRuntime) {
    let rows = "\
repeats => Ok(())
covered => true
settles 0 3 66 11 => Ok(Settled { front: 0, ticket: 3, index: 1, first: false })
covered => false
settles 1 4 67 11 => Ok(Settled { front: 1, ticket: 4, index: 2, first: true })
publishes 11 => Ok((3, 11))
receipt 3 => Ok(Some((1, 10)))
receipt 4 => Ok(Some((2, 11)))";
    assert!(rt; steps(&rt, 0, rows) == 8);
}

#[test]
fn moments_that_the_clock_refuses(rt: HostRuntime) {
    let rows = "\
publishes 5 => Err(ClockBack)
settles 0 0 65 8 => Ok(Settled { front: 0, ticket: 0, index: 0, first: true })
publishes 7 => Err(ClockBack)
publishes 8 => Ok((1, 8))
settles 0 1 66 7 => Err(ClockBack)
publishes 8 => Err(ClockBack)
publishes 9 => Ok((1, 9))";
    assert!(rt; steps(&rt, 5, rows) == 7);
}

// Reports whether the next state of a core with two heads has three, and is that of the core after it is adopted.
fn is_adopted(rt: &HostRuntime, core: &mut Core) -> Result<bool, Refusal> {
    let next = Arc::new(rt.alloc(), core.next(rt.alloc(), 11)?)?;
    let counts = (next.heads().len(), core.published().heads().len());
    let head = core.adopt(next);
    Ok(
        counts == (3, 2)
            && (head.tree_size, head.timestamp, core.clock()) == (2, 11, 11)
            && core.published().last_head() == head,
    )
}

#[test]
fn the_next_state_is_adopted(rt: HostRuntime) -> Result<(), Fail> {
    let mut core = Core::open(rt.alloc(), 0)?;
    assert!(rt; repeat(&rt, &mut core).is_ok());
    assert!(rt; matches!(is_adopted(&rt, &mut core), Ok(true)));
    Ok(())
}

// Reports whether these are the leaves of A and B.
fn are_both_leaves(leaves: &[Vec<u8>]) -> bool {
    leaves.len() == 2
        && leaves[0].as_slice() == LEAF_OF_A.as_slice()
        && leaves[1].as_slice() == LEAF_OF_B.as_slice()
}

// Reports whether the leaves of a state are those of A and B.
fn has_both_leaves(rt: &HostRuntime, state: &Published) -> bool {
    if state.last_head().tree_size != 2 {
        return false;
    }
    match state.leaves(rt.alloc(), 2) {
        Ok(leaves) => are_both_leaves(&leaves),
        Err(_) => false,
    }
}

// Reports whether two states have the same heads, and the same three records.
fn are_equal(copy: &Published, state: &Published) -> bool {
    copy.heads().iter().eq(state.heads())
        && copy.settlement().iter().eq(state.settlement())
        && copy.settlement().len() == 3
}

// Reports whether a copy of a state is equal to it.
fn is_copied(rt: &HostRuntime, state: &Published) -> bool {
    match state.copy(rt.alloc()) {
        Ok(copy) => {
            are_equal(&copy, state) && has_both_leaves(rt, &copy) && has_both_leaves(rt, state)
        }
        Err(_) => false,
    }
}

#[test]
fn a_copied_state_is_equal(rt: HostRuntime) -> Result<(), Fail> {
    let mut core = Core::open(rt.alloc(), 0)?;
    assert!(rt; repeat(&rt, &mut core).is_ok());
    assert!(rt; is_copied(&rt, core.published()));
    Ok(())
}

// Returns the chain of the certificates A and B.
fn chain_of_two(rt: &HostRuntime) -> Result<Submission, Refusal> {
    let mut chain = Vec::new(rt.alloc());
    chain.push(Vec::from_slice(rt.alloc(), b"A")?)?;
    chain.push(Vec::from_slice(rt.alloc(), b"B")?)?;
    Ok(Submission::x509(chain)?)
}

// Reports whether a submission has the identity of A and the extra data of the chain of B.
fn is_written(rt: &HostRuntime, submission: &Submission) -> bool {
    is_text(identity(rt.alloc(), submission), b"\0\0\0\0\x01A")
        && is_text(extra_data(rt.alloc(), submission), b"\0\0\x04\0\0\x01B")
}

// Reports whether a copy settles at the index 0, and then the submission itself as its repeat.
fn settle_both(
    rt: &HostRuntime,
    core: &mut Core,
    copy: Submission,
    submission: Submission,
) -> bool {
    let first = settle_submission(rt, core, (0, 0), copy, 1);
    let second = settle_submission(rt, core, (0, 1), submission, 1);
    first == record(0, 0, 0, true) && second == record(0, 1, 0, false)
}

// Reports whether a copy of the chain of A and B has the same bytes, and settles as the chain does.
fn is_submission_copied(rt: &HostRuntime, core: &mut Core) -> Result<bool, Refusal> {
    let submission = chain_of_two(rt)?;
    let copy = submission.copy(rt.alloc())?;
    Ok(is_written(rt, &copy) && settle_both(rt, core, copy, submission))
}

#[test]
fn a_copied_submission_is_equal(rt: HostRuntime) -> Result<(), Fail> {
    let mut core = Core::open(rt.alloc(), 0)?;
    assert!(rt; matches!(is_submission_copied(&rt, &mut core), Ok(true)));
    Ok(())
}

fn push_all(table: &mut LeafTable, hashes: &[[u8; 32]]) -> Result<(), Refusal> {
    for hash in hashes {
        table.push(hash)?;
    }
    Ok(())
}

// Returns the indexes of these three hashes in the table.
fn places(table: &LeafTable) -> [Option<u64>; 3] {
    [
        table.index_of(&[1; 32]),
        table.index_of(&[2; 32]),
        table.index_of(&[3; 32]),
    ]
}

#[test]
fn the_first_of_two_equal_hashes(rt: HostRuntime) {
    let mut table = LeafTable::new(rt.alloc());
    assert!(rt; push_all(&mut table, &[[1; 32], [2; 32], [1; 32]]).is_ok());
    assert!(rt; places(&table) == [Some(0), Some(1), None]);
}
