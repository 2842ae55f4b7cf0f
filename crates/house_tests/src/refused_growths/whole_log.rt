// A log from `open` to `finish`, and its answers. The expected values come from Python's hashlib and `tests/expected.py`.
use crate::refused_growths::closed_log::{ClosedHouse, ask_log, is_served_again};
use crate::refused_growths::house::House;
use crate::refused_growths::refused::Refused;
use ct_codec::Refusal;
use ct_core::{Published, Query, Reply, Settled, ShownEntry};
use ct_house::FinalLog;
use ct_tree::Head;
use std::alloc::Global;
use std::process::Abort;
use std::sync::Wait;
use std::test::Fail;
use std::thread::Threads;

// The leaves of the certificates A and B at the timestamp 3, and of C at the timestamp 5 (RFC 6962, section 3.4).
const LEAF_A: [u8; 18] = [0, 0, 0, 0, 0, 0, 0, 0, 0, 3, 0, 0, 0, 0, 1, 0x41, 0, 0];

const LEAF_B: [u8; 18] = [0, 0, 0, 0, 0, 0, 0, 0, 0, 3, 0, 0, 0, 0, 1, 0x42, 0, 0];

// The hashes of the three leaves, and the roots of the first two and of all.
const HASH_A: [u8; 32] = [
    0xe7, 0x06, 0x86, 0x70, 0x67, 0xa4, 0x2e, 0xd4, 0x83, 0xcf, 0x26, 0xcc, 0xd4, 0xdc, 0xc3, 0x54,
    0x63, 0xbb, 0x63, 0x5f, 0x1a, 0xfe, 0xe2, 0x3d, 0xb5, 0x46, 0xb7, 0x2f, 0x19, 0xf2, 0x80, 0xe6,
];

const HASH_B: [u8; 32] = [
    0xd4, 0x8e, 0xf7, 0xc1, 0x73, 0x06, 0x41, 0x7d, 0x17, 0x65, 0x88, 0xd5, 0xba, 0x2c, 0xfa, 0x02,
    0xfc, 0x5d, 0x3f, 0x84, 0x2f, 0x35, 0x1b, 0x56, 0x7e, 0x34, 0x55, 0xbf, 0x93, 0x1f, 0x61, 0x7c,
];

const HASH_C: [u8; 32] = [
    0x84, 0xb6, 0x50, 0xf1, 0x84, 0x48, 0xf7, 0xb5, 0x46, 0x47, 0x9d, 0x7a, 0x54, 0x3d, 0x8a, 0x08,
    0x6d, 0x3c, 0x36, 0x93, 0x7f, 0x6e, 0x18, 0x69, 0x2b, 0x17, 0x85, 0xe9, 0x5b, 0xa6, 0x23, 0x6f,
];

const ROOT_2: [u8; 32] = [
    0x63, 0x6c, 0x30, 0xe7, 0x6a, 0xbe, 0x55, 0x7d, 0xc6, 0x70, 0x25, 0x02, 0xdf, 0xf6, 0xf6, 0x6d,
    0xcb, 0x8e, 0x8c, 0x7a, 0x7d, 0x94, 0x66, 0xae, 0x3d, 0x58, 0xae, 0x20, 0x46, 0x05, 0xcb, 0x29,
];

const ROOT_3: [u8; 32] = [
    0x5b, 0x34, 0xbc, 0xd4, 0x0b, 0xaf, 0xe6, 0x2c, 0x83, 0x8e, 0x1d, 0x23, 0xbd, 0x37, 0x5a, 0x57,
    0x63, 0x7f, 0x03, 0xa1, 0xde, 0x19, 0xa8, 0x25, 0xb8, 0x7e, 0x86, 0x21, 0x89, 0x00, 0xf9, 0x90,
];

// Five lines for the closed log, and its replies.
const LINES: &[u8] =
    b"{\"who\":\"frozen\",\"op\":\"get-sth-consistency\",\"first\":2,\"second\":3}\n{\"who\":\"frozen\",\"op\":\"get-proof-by-hash\",\"hash\":\"1I73wXMGQX0XZYjVuiz6AvxdP4QvNRtWfjRVv5MfYXw=\",\"tree_size\":3}\n{\"who\":\"frozen\",\"op\":\"get-entries\",\"start\":0,\"end\":9}\n{\"who\":\"frozen\",\"op\":\"get-entry-and-proof\",\"leaf_index\":2,\"tree_size\":3}\n{\"who\":\"frozen\",\"op\":\"audit\",\"leaf_input\":\"AAAAAAAAAAAAAwAAAAABQgAA\",\"leaf_index\":1,\"tree_size\":3,\"audit_path\":[\"5waGcGekLtSDzybM1NzDVGO7Y18a/uI9tUa3LxnygOY=\",\"hLZQ8YRI97VGR516VD2KCG08NpN/bhhpKxeF6VumI28=\"]}\n";

const REPLIES: &[u8] =
    b"{\"consistency\":[\"hLZQ8YRI97VGR516VD2KCG08NpN/bhhpKxeF6VumI28=\"]}\n{\"audit_path\":[\"5waGcGekLtSDzybM1NzDVGO7Y18a/uI9tUa3LxnygOY=\",\"hLZQ8YRI97VGR516VD2KCG08NpN/bhhpKxeF6VumI28=\"],\"leaf_index\":1}\n{\"entries\":[{\"extra_data\":\"AAAA\",\"leaf_input\":\"AAAAAAAAAAAAAwAAAAABQQAA\"},{\"extra_data\":\"AAAA\",\"leaf_input\":\"AAAAAAAAAAAAAwAAAAABQgAA\"},{\"extra_data\":\"AAAA\",\"leaf_input\":\"AAAAAAAAAAAABQAAAAABQwAA\"}]}\n{\"audit_path\":[\"Y2ww52q+VX3GcCUC3/b2bcuOjHp9lGauPViuIEYFyyk=\"],\"extra_data\":\"AAAA\",\"leaf_input\":\"AAAAAAAAAAAABQAAAAABQwAA\"}\n{\"verdict\":\"holds\"}\n";

const HEAD_2: Head = Head {
    tree_size: 2,
    timestamp: 4,
    root: ROOT_2,
};

const HEAD_3: Head = Head {
    tree_size: 3,
    timestamp: 6,
    root: ROOT_3,
};

fn is_entry(entry: &ShownEntry, leaf: &[u8]) -> bool {
    entry.leaf_input.as_slice() == leaf && entry.extra_data.as_slice() == [0, 0, 0].as_slice()
}

fn are_a_and_b(entries: &[ShownEntry]) -> bool {
    match entries {
        [first, second] => is_entry(first, &LEAF_A) && is_entry(second, &LEAF_B),
        _ => false,
    }
}

fn is_head(reply: &Result<Reply, Refusal>) -> bool {
    match reply {
        Ok(Reply::Sth(head)) => *head == HEAD_2,
        _ => false,
    }
}

// Reports whether this is the path of the leaf 1.
fn is_path(reply: &Result<Reply, Refusal>) -> bool {
    match reply {
        Ok(
            Reply::ProofByHash {
                leaf_index,
                audit_path,
            },
        ) => *leaf_index == 1 && audit_path.as_slice() == [HASH_A].as_slice(),
        _ => false,
    }
}

// Reports whether this is the entry of the leaf 1 with its path.
fn is_entry_and_path(reply: &Result<Reply, Refusal>) -> bool {
    match reply {
        Ok(Reply::EntryAndProof { entry, audit_path }) => {
            is_entry(entry, &LEAF_B) && audit_path.as_slice() == [HASH_A].as_slice()
        }
        _ => false,
    }
}

// Reports whether this is the receipt with this index and timestamp.
fn is_receipt(reply: &Result<Reply, Refusal>, index: u64, moment: u64) -> bool {
    match reply {
        Ok(
            Reply::Receipt {
                leaf_index,
                timestamp,
            },
        ) => *leaf_index == index && *timestamp == moment,
        _ => false,
    }
}

fn are_entries(reply: &Result<Reply, Refusal>) -> bool {
    match reply {
        Ok(Reply::Entries(entries)) => are_a_and_b(entries),
        _ => false,
    }
}

fn is_refused(reply: &Result<Reply, Refusal>, wanted: Refusal) -> bool {
    match reply {
        Ok(_) => false,
        Err(refusal) => *refusal == wanted,
    }
}

// Reports whether the front shows the first published head, and proofs for it.
fn shows_proofs(house: &mut House, front: u16) -> bool {
    is_head(&house.ask(front, &Query::GetSth))
        && is_refused(&house.ask(front, &consistency(1, 2)), Refusal::UnknownSize)
        && is_path(&house.ask(front, &proof_by_hash(HASH_B, 2)))
}

// Reports whether the front shows that head's entries and receipts.
fn shows_entries(house: &mut House, front: u16) -> bool {
    are_entries(&house.ask(front, &Query::Entries { start: 0, end: 9 }))
        && is_entry_and_path(&house.ask(front, &entry_and_proof(1, 2)))
        && is_receipt(&house.ask(front, &Query::Receipt { ticket: 2 }), 0, 3)
        && is_refused(
            &house.ask(front, &Query::Receipt { ticket: 3 }),
            Refusal::NotYet,
        )
}

fn consistency(first: u64, second: u64) -> Query {
    Query::Consistency { first, second }
}

fn proof_by_hash(hash: [u8; 32], tree_size: u64) -> Query {
    Query::ProofByHash { hash, tree_size }
}

fn entry_and_proof(leaf_index: u64, tree_size: u64) -> Query {
    Query::EntryAndProof {
        leaf_index,
        tree_size,
    }
}

// Reports whether the five certificates get the five tickets.
fn gets_tickets(house: &mut House) -> bool {
    house.ticket(0, b"A") == Ok(0)
        && house.ticket(0, b"B") == Ok(1)
        && house.ticket(0, b"A") == Ok(2)
        && house.ticket(1, b"A") == Ok(3)
        && house.ticket(1, b"C") == Ok(4)
}

// Reports whether this is the record at that index.
fn has_record(log: &Published, place: usize, record: Settled) -> bool {
    log.settlement().get(place).copied() == Some(record)
}

fn record(front: u16, ticket: u64, index: u64, first: bool) -> Settled {
    Settled {
        front,
        ticket,
        index,
        first,
    }
}

fn has_records(log: &Published) -> bool {
    log.settlement().len() == 5
        && has_record(log, 0, record(0, 0, 0, true))
        && has_record(log, 1, record(0, 1, 1, true))
        && has_record(log, 2, record(0, 2, 0, false))
        && has_record(log, 3, record(1, 3, 0, false))
        && has_record(log, 4, record(1, 4, 2, true))
}

fn has_heads(log: &Published) -> bool {
    log.heads().len() == 3
        && log.heads().get(1).copied() == Some(HEAD_2)
        && log.last_head() == HEAD_3
}

fn has_proof(alloc: Global, log: &Published, refused: &mut Refused) -> bool {
    match ask_log(alloc, log, &consistency(2, 3), refused) {
        Ok(Reply::Consistency(path)) => path.as_slice() == [HASH_C].as_slice(),
        _ => false,
    }
}

// Returns a house with five submissions, which took at most two of them, and then settled those of front 0.
fn settled<R: Threads + Wait + Abort + Sync>(rt: &R, alloc: Global) -> Result<House, Refusal> {
    let mut house = House::open(rt, alloc, 4)?;
    assert!(rt; gets_tickets(&mut house));
    assert!(rt; house.take_two(rt, 3).is_ok_and(|count| count <= 2));
    Ok(house.succeed(rt, 3))
}

// Reports whether the first head is published, and both fronts learn of it.
fn is_published<R: Wait>(rt: &R, house: &mut House) -> bool {
    house.publish(rt, 4) == Ok(HEAD_2) && house.learn() == Ok(())
}

// Reports whether the house is shut, and the rest is settled and published.
fn is_closed<R: Threads + Wait + Sync>(rt: &R, house: &mut ClosedHouse) -> bool {
    house.house.shutdown() == Ok(5)
        && house.settle(rt, 5) == Ok(())
        && house.publish(rt, 6) == Ok(HEAD_3)
}

// Retires the fronts, and closes the house.
fn closed<R: Threads + Wait + Abort + Sync>(rt: &R, house: House) -> (FinalLog, Refused) {
    let mut house = house.retire();
    assert!(rt; is_closed(rt, &mut house));
    house.finish(rt)
}

// Reports whether the front shows the first published head, its entries and its receipts.
fn shows(house: &mut House, front: u16) -> bool {
    shows_proofs(house, front) && shows_entries(house, front)
}

// Checks the contents of the log, and the replies that it serves.
fn expect_log<R: Abort>(rt: &R, alloc: Global, log: &Published, refused: &mut Refused) {
    assert!(rt; has_records(log) && has_heads(log));
    assert!(rt; has_proof(alloc, log, refused));
    assert!(rt; is_served_again(alloc, log, LINES, REPLIES, refused));
}

// Returns a house whose first head is published and shown.
fn shown<R: Threads + Wait + Abort + Sync>(rt: &R, alloc: Global) -> Result<House, Refusal> {
    let mut house = settled(rt, alloc)?;
    assert!(rt; is_published(rt, &mut house) && shows(&mut house, 0) && shows(&mut house, 1));
    Ok(house)
}

// Returns the refused calls.
fn refused_in_whole_log<R: Threads + Wait + Abort + Sync>(
    rt: &R,
    alloc: Global,
) -> Result<Refused, Refusal> {
    let house = shown(rt, alloc)?;
    let (log, mut refused) = closed(rt, house);
    assert!(rt; log.accepted() == 5);
    expect_log(rt, alloc, log.published(), &mut refused);
    Ok(refused)
}

#[test]
fn a_whole_log(rt: HostRuntime) -> Result<(), Fail> {
    refused_in_whole_log(&rt, rt.alloc())?.say(&rt)
}
