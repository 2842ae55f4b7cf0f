// Calls of the monitor, the verifiers, the decoders and `read_line`.
use crate::refused_growths::refused::Refused;
use crate::refused_growths::weak_hash::ZeroHash;
use ct_codec::{DecodeFault, Leaf, LeafEntry, Refusal, decode_chain, decode_leaf};
use ct_lines::{FrozenRequest, Request, read_line};
use ct_monitor::{Monitor, MonitorFault};
use ct_tree::{Head, Sha256Hash};
use ct_verify::{Evidence, EvidenceFault, ProofFault, explain_consistency, explain_inclusion};
use std::alloc::{AllocError, Global};
use std::test::Fail;

// The SHA-256 tree of the leaves 41, 42, 43 (bytes in hexadecimal): the roots of its first leaves, and two leaf hashes.
const ROOT_1: [u8; 32] = [
    0xc0, 0x0b, 0x4d, 0x3c, 0x92, 0x9c, 0xb5, 0xcc, 0x31, 0x66, 0x91, 0xed, 0x46, 0x36, 0xf6, 0x34,
    0x57, 0x6f, 0x2c, 0x9b, 0x29, 0x54, 0x76, 0x72, 0x34, 0xc5, 0x27, 0x4e, 0x9d, 0xde, 0x18, 0x5d,
];

// The root of 41 and 42.
const ROOT_2: [u8; 32] = [
    0xed, 0x69, 0x2f, 0x01, 0xf7, 0xf6, 0xc4, 0x69, 0x30, 0xd7, 0xad, 0x8f, 0x9a, 0xda, 0xd3, 0xf9,
    0xf3, 0x8b, 0x73, 0x79, 0xcf, 0x6a, 0x8d, 0x2f, 0x39, 0x9a, 0x0b, 0xa1, 0xe9, 0x14, 0xfe, 0x25,
];

// The root of all three.
const ROOT_3: [u8; 32] = [
    0x96, 0x1d, 0x2e, 0x2b, 0xe2, 0x0f, 0x53, 0x8f, 0xfd, 0xf5, 0x69, 0x62, 0xa8, 0x6d, 0x1b, 0xd1,
    0x65, 0x49, 0x8f, 0x22, 0x26, 0x84, 0xee, 0x4c, 0x5e, 0x02, 0xc1, 0xe9, 0xf8, 0x52, 0xad, 0xc5,
];

// Returns a leaf of one byte for each byte.
fn leaves_once(alloc: Global, bytes: &[u8]) -> Result<Vec<Vec<u8>>, AllocError> {
    let mut leaves = Vec::new(alloc);
    for byte in bytes {
        leaves.push(vec![in alloc; *byte]?)?;
    }
    Ok(leaves)
}

fn leaves_of(
    alloc: Global,
    bytes: &[u8],
    refused: &mut Refused,
) -> Result<Vec<Vec<u8>>, AllocError> {
    match leaves_once(alloc, bytes) {
        Err(_) => {
            refused.tell("a growth of the test's own");
            leaves_once(alloc, bytes)
        }
        answer => answer,
    }
}

// Reports whether the monitor keeps a leaf of one byte for each byte, and this is its last head.
fn is_at(monitor: &Monitor<Sha256Hash>, bytes: &[u8], last: Option<Head>) -> bool {
    let leaves = monitor.leaves();
    if leaves.len() != bytes.len() || monitor.last_head() != last {
        return false;
    }
    for i in 0..bytes.len() {
        if leaves[i].as_slice() != [bytes[i]].as_slice() {
            return false;
        }
    }
    true
}

// Shows the monitor a head, with the new leaves. The outer error is that of the test's own allocation.
fn observe_once(
    alloc: Global,
    monitor: &mut Monitor<Sha256Hash>,
    new: &[u8],
    head: Head,
    refused: &mut Refused,
) -> Result<Result<(), MonitorFault>, AllocError> {
    let leaves = leaves_of(alloc, new, refused)?;
    Ok(monitor.observe(head, leaves))
}

// Shows it the head again, after it refused it for memory. Reports whether it is unchanged, and accepts the head now.
fn takes_again(
    alloc: Global,
    monitor: &mut Monitor<Sha256Hash>,
    (old, new): (&[u8], &[u8]),
    last: Option<Head>,
    head: Head,
    refused: &mut Refused,
) -> bool {
    refused.tell("observe");
    is_at(monitor, old, last) && observe_once(alloc, monitor, new, head, refused) == Ok(Ok(()))
}

// Shows the monitor a head of the leaves so far and one more. If the head is refused, the monitor must be unchanged, and must accept the
// head the next time.
fn is_taken(
    alloc: Global,
    monitor: &mut Monitor<Sha256Hash>,
    (old, new): (&[u8], &[u8]),
    head: Head,
    refused: &mut Refused,
) -> bool {
    let last = monitor.last_head();
    match observe_once(alloc, monitor, new, head, refused) {
        Ok(Ok(())) => true,
        Ok(Err(MonitorFault::Memory)) => {
            takes_again(alloc, monitor, (old, new), last, head, refused)
        }
        _ => false,
    }
}

fn head(tree_size: u64, timestamp: u64, root: [u8; 32]) -> Head {
    Head {
        tree_size,
        timestamp,
        root,
    }
}

// Reports whether the monitor accepts the head, and then keeps all leaves.
fn takes(
    alloc: Global,
    monitor: &mut Monitor<Sha256Hash>,
    (old, new, all): (&[u8], &[u8], &[u8]),
    head: Head,
    refused: &mut Refused,
) -> bool {
    is_taken(alloc, monitor, (old, new), head, refused) && is_at(monitor, all, Some(head))
}

// Reports whether a monitor accepts the three heads.
fn takes_three(alloc: Global, refused: &mut Refused) -> bool {
    let mut monitor = Monitor::new(alloc, Sha256Hash);
    takes(
        alloc,
        &mut monitor,
        (b"", b"A", b"A"),
        head(1, 5, ROOT_1),
        refused,
    ) && takes(
        alloc,
        &mut monitor,
        (b"A", b"B", b"AB"),
        head(2, 6, ROOT_2),
        refused,
    ) && takes(
        alloc,
        &mut monitor,
        (b"AB", b"C", b"ABC"),
        head(3, 7, ROOT_3),
        refused,
    )
}

#[test]
fn a_monitor_takes_three_heads(rt: HostRuntime) -> Result<(), Fail> {
    let mut refused = Refused::new();
    assert!(rt; takes_three(rt.alloc(), &mut refused));
    refused.say(&rt)
}

// Reports whether these two strings are the result. Building another result for a comparison would take memory, which is refused here in
// turn.
fn is_collision_of(answer: &Result<Evidence, EvidenceFault>, first: &[u8], second: &[u8]) -> bool {
    match answer {
        Ok(Evidence::Collision(a, b)) => a.as_slice() == first && b.as_slice() == second,
        _ => false,
    }
}

// Reports whether this is the explanation of the audit path of the leaf 0.
fn explains_path(
    heap: Global,
    leaves: &[Vec<u8>],
    path: &[[u8; 32]],
    wanted: Result<Evidence, EvidenceFault>,
) -> bool {
    explain_inclusion(heap, &ZeroHash, leaves, b"A", 0, path) == wanted
}

// Returns the explanation of the audit path of another leaf.
fn explained_path(
    heap: Global,
    leaves: &[Vec<u8>],
    refused: &mut Refused,
) -> Result<Evidence, EvidenceFault> {
    match explain_inclusion(heap, &ZeroHash, leaves, b"C", 0, &[[0; 32]]) {
        Err(EvidenceFault::Memory) => {
            refused.tell("explain_inclusion");
            explain_inclusion(heap, &ZeroHash, leaves, b"C", 0, &[[0; 32]])
        }
        answer => answer,
    }
}

// `Memory` can only come in place of a collision: a path that holds or is refused needs no memory.
fn explains_paths(heap: Global, refused: &mut Refused) -> Result<bool, AllocError> {
    let two = leaves_of(heap, b"AB", refused)?;
    let short = EvidenceFault::ProofRefused(ProofFault::PathTooShort);
    Ok(
        explains_path(heap, &two, &[[0; 32]], Ok(Evidence::Holds))
            && explains_path(heap, &two, &[], Err(short))
            && is_collision_of(&explained_path(heap, &two, refused), &[0, 0x43], &[0, 0x41]),
    )
}

#[test]
fn explaining_an_audit_path(rt: HostRuntime) -> Result<(), Fail> {
    let mut refused = Refused::new();
    assert!(rt; explains_paths(rt.alloc(), &mut refused)?);
    refused.say(&rt)
}

// Reports whether this is the explanation of the consistency proof.
fn explains_proof(
    heap: Global,
    old: &[Vec<u8>],
    new: &[Vec<u8>],
    path: &[[u8; 32]],
    wanted: Result<Evidence, EvidenceFault>,
) -> bool {
    explain_consistency(heap, &ZeroHash, old, new, path) == wanted
}

// Returns the explanation of the consistency proof of other leaves.
fn explained_proof(
    heap: Global,
    old: &[Vec<u8>],
    other: &[Vec<u8>],
    refused: &mut Refused,
) -> Result<Evidence, EvidenceFault> {
    match explain_consistency(heap, &ZeroHash, old, other, &[[0; 32]]) {
        Err(EvidenceFault::Memory) => {
            refused.tell("explain_consistency");
            explain_consistency(heap, &ZeroHash, old, other, &[[0; 32]])
        }
        answer => answer,
    }
}

// Reports whether the proof of the leaves of A and B is accepted, and one without a hash is not.
fn explains_two(heap: Global, old: &[Vec<u8>], refused: &mut Refused) -> Result<bool, AllocError> {
    let new = leaves_of(heap, b"AB", refused)?;
    let empty = EvidenceFault::ProofRefused(ProofFault::EmptyPath);
    Ok(
        explains_proof(heap, old, &new, &[[1; 32]], Ok(Evidence::Holds))
            && explains_proof(heap, old, &new, &[], Err(empty)),
    )
}

// Reports whether the leaves of B and C collide with the leaf of A.
fn explains_other(
    heap: Global,
    old: &[Vec<u8>],
    refused: &mut Refused,
) -> Result<bool, AllocError> {
    let other = leaves_of(heap, b"BC", refused)?;
    Ok(is_collision_of(
        &explained_proof(heap, old, &other, refused),
        &[0, 0x41],
        &[0, 0x42],
    ))
}

fn explains_proofs(heap: Global, refused: &mut Refused) -> Result<bool, AllocError> {
    let old = leaves_of(heap, b"A", refused)?;
    Ok(explains_two(heap, &old, refused)? && explains_other(heap, &old, refused)?)
}

#[test]
fn explaining_a_consistency_proof(rt: HostRuntime) -> Result<(), Fail> {
    let mut refused = Refused::new();
    assert!(rt; explains_proofs(rt.alloc(), &mut refused)?);
    refused.say(&rt)
}

// The leaf of the certificate 41 at the timestamp 1, with the extensions aa bb.
const LEAF: [u8; 20] = [
    0, 0, 0, 0, 0, 0, 0, 0, 0, 1, 0, 0, 0, 0, 1, 0x41, 0, 2, 0xaa, 0xbb,
];

fn is_that_leaf(leaf: &Leaf) -> bool {
    let is_that_entry = match &leaf.entry {
        LeafEntry::X509(certificate) => certificate.as_slice() == b"A".as_slice(),
        LeafEntry::Precert(_, _) => false,
    };
    is_that_entry && leaf.timestamp == 1 && leaf.extensions.as_slice() == [0xaa, 0xbb].as_slice()
}

fn decode_again(alloc: Global, refused: &mut Refused) -> Result<Leaf, DecodeFault> {
    match decode_leaf(alloc, &LEAF) {
        Err(DecodeFault::Memory) => {
            refused.tell("decode_leaf");
            decode_leaf(alloc, &LEAF)
        }
        answer => answer,
    }
}

// Reports whether the bytes are no leaf, for this reason.
fn is_no_leaf(alloc: Global, bytes: &[u8], fault: DecodeFault) -> bool {
    decode_leaf(alloc, bytes).err() == Some(fault)
}

#[test]
fn decoding_a_leaf(rt: HostRuntime) -> Result<(), Fail> {
    let mut refused = Refused::new();
    assert!(rt;
        is_no_leaf(rt.alloc(), &LEAF[..19], DecodeFault::Truncated)
            && is_no_leaf(rt.alloc(), &[1], DecodeFault::BadVersion)
    );
    let leaf = decode_again(rt.alloc(), &mut refused)?;
    assert!(rt; is_that_leaf(&leaf));
    refused.say(&rt)
}

// The chain of the certificates 42 and 41 42.
const CHAIN: [u8; 12] = [0, 0, 9, 0, 0, 1, 0x42, 0, 0, 2, 0x41, 0x42];

// Reports whether the bytes are no chain, for this reason.
fn is_no_chain(alloc: Global, bytes: &[u8], fault: DecodeFault) -> bool {
    decode_chain(alloc, bytes).err() == Some(fault)
}

fn decode_chain_again(alloc: Global, refused: &mut Refused) -> Result<Vec<Vec<u8>>, DecodeFault> {
    match decode_chain(alloc, &CHAIN) {
        Err(DecodeFault::Memory) => {
            refused.tell("decode_chain");
            decode_chain(alloc, &CHAIN)
        }
        answer => answer,
    }
}

fn is_that_chain(chain: &[Vec<u8>]) -> bool {
    match chain {
        [first, second] => {
            first.as_slice() == b"B".as_slice() && second.as_slice() == b"AB".as_slice()
        }
        _ => false,
    }
}

#[test]
fn decoding_a_chain(rt: HostRuntime) -> Result<(), Fail> {
    let mut refused = Refused::new();
    assert!(rt; is_no_chain(rt.alloc(), &CHAIN[..11], DecodeFault::Truncated));
    let chain = decode_chain_again(rt.alloc(), &mut refused)?;
    assert!(rt; is_that_chain(&chain));
    refused.say(&rt)
}

fn read_again(alloc: Global, line: &[u8], refused: &mut Refused) -> Result<Request, Refusal> {
    match read_line(alloc, line) {
        Err(Refusal::Memory) => {
            refused.tell("read_line");
            read_line(alloc, line)
        }
        answer => answer,
    }
}

const AUDIT: &[u8] =
    b"{\"who\":\"frozen\",\"op\":\"audit\",\"leaf_input\":\"QUI=\",\"leaf_index\":1,\"tree_size\":3,\"audit_path\":[\"AAAAAAAAAAAAAAAAAAAAAAAAAAAAAAAAAAAAAAAAAAA=\"]}";

// Reports whether this is the request in that line.
fn is_that_audit(request: &Result<Request, Refusal>) -> bool {
    match request {
        Ok(Request::Frozen(FrozenRequest::Audit(audit))) => {
            audit.leaf_input.as_slice() == b"AB".as_slice()
                && audit.audit_path.as_slice() == [[0; 32]].as_slice()
                && audit.leaf_index == 1
                && audit.tree_size == 3
        }
        _ => false,
    }
}

// Reports whether this is no request.
fn is_bad_line(request: &Result<Request, Refusal>) -> bool {
    matches!(request, Err(Refusal::BadLine))
}

#[test]
fn reading_lines(rt: HostRuntime) -> Result<(), Fail> {
    let mut refused = Refused::new();
    assert!(rt; is_that_audit(&read_again(rt.alloc(), AUDIT, &mut refused)));
    let bad = b"{\"who\":\"frozen\",\"op\":\"audit\"}";
    assert!(rt; is_bad_line(&read_again(rt.alloc(), bad, &mut refused)));
    refused.say(&rt)
}
