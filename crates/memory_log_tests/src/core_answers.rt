use crate::rows::{Row, Shown, right_rows};
use crate::settled_log::{asked, publish, receipt, settle};
use ct_codec::{Refusal, decode_chain, decode_leaf};
use ct_core::laws::shown_entries_are_read;
use ct_core::{Core, Query, Reply, ShownEntry};
use std::test::Fail;

// The hashes of five leaves, computed with Python's hashlib: the certificates 41 and 42 at the timestamp 1, and 43 to 45 at 2. The hash of
// a leaf is sha256(00, 00 00, its timestamp in eight bytes, 00 00, 00 00 01, its certificate, 00 00). The hash of a node is sha256(01,
// left, right). The strings are joined. `ROOT` is the root of all five leaves. In the rows below, these hashes and the node over the leaves
// 2 and 3 (91 56 ed 9c to 4d aa 2e b7) are written in decimal.
const LEAF_0: [u8; 32] = [
    0x20, 0x0a, 0x76, 0x64, 0xe4, 0x32, 0x80, 0x58, 0x30, 0x1c, 0xda, 0xdf, 0xf3, 0xe6, 0x2a, 0x0f,
    0x91, 0x2f, 0x80, 0x7c, 0xa1, 0xd4, 0x51, 0x3f, 0x8a, 0x10, 0xa7, 0x4c, 0x4c, 0x87, 0x35, 0x69,
];

const LEAF_1: [u8; 32] = [
    0x78, 0xef, 0x67, 0x41, 0x4b, 0x70, 0xd2, 0xba, 0x2f, 0x65, 0x10, 0x9f, 0x9f, 0xe7, 0x07, 0x14,
    0x05, 0x09, 0x4c, 0x1b, 0x57, 0x55, 0x9a, 0x4a, 0x14, 0x46, 0x80, 0xdb, 0x9b, 0xeb, 0xb5, 0x80,
];

const LEAF_4: [u8; 32] = [
    0xc5, 0x31, 0x7e, 0x34, 0x6f, 0x75, 0x78, 0x6f, 0x30, 0x3f, 0x22, 0xd8, 0x3c, 0x0d, 0x4e, 0xb5,
    0xaa, 0x92, 0x13, 0x14, 0x0d, 0x24, 0xbf, 0x19, 0xea, 0x8d, 0x2e, 0x68, 0x2e, 0x7a, 0x90, 0x18,
];

const ROOT: [u8; 32] = [
    0xd8, 0xfa, 0xa2, 0x1e, 0x88, 0x3f, 0xd7, 0x7f, 0xcb, 0x70, 0x74, 0xe2, 0xa8, 0x2d, 0x48, 0x9b,
    0x2f, 0x46, 0x3a, 0x8e, 0x14, 0x1e, 0x8e, 0x92, 0xb5, 0x79, 0xaa, 0xcb, 0x7c, 0x24, 0x7e, 0x58,
];

// Settles certificates of one byte.
fn fill(rt: &HostRuntime, core: &mut Core, certificates: &[u8], now: u64) -> Result<(), Refusal> {
    for byte in certificates {
        settle(rt, core, (0, u64::from(*byte)), &[*byte], now)?;
    }
    Ok(())
}

// Publishes heads of the sizes 2 and 5.
fn grow(rt: &HostRuntime, core: &mut Core) -> Result<(), Refusal> {
    fill(rt, core, b"AB", 1)?;
    publish(rt, core, 1)?;
    fill(rt, core, b"CDE", 2)?;
    publish(rt, core, 3)?;
    Ok(())
}

// Returns the hash with this name.
fn named(name: &str) -> Option<[u8; 32]> {
    match name {
        "LEAF_0" => Some(LEAF_0),
        "LEAF_1" => Some(LEAF_1),
        "LEAF_4" => Some(LEAF_4),
        "ROOT" => Some(ROOT),
        _ => None,
    }
}

// Returns the query in a row.
fn query(row: &mut Row<'_>) -> Option<Query> {
    Some(match row.word() {
        "head" => Query::GetSth,
        "proof" => Query::Consistency {
            first: row.number(),
            second: row.number(),
        },
        "hash" => Query::ProofByHash {
            hash: named(row.word())?,
            tree_size: row.number(),
        },
        "entry" => entry_at(row),
        "ticket" => Query::Receipt {
            ticket: row.number(),
        },
        _ => return None,
    })
}

fn entry_at(row: &mut Row<'_>) -> Query {
    Query::EntryAndProof {
        leaf_index: row.number(),
        tree_size: row.number(),
    }
}

// A log that is queried.
#[derive(Drop)]
struct Questions<'a> {
    core: &'a Core,
}

impl Shown for Questions<'_> {
    // A row has a query.
    fn is_right(&mut self, rt: &HostRuntime, mut row: Row<'_>) -> bool {
        match query(&mut row) {
            Some(query) => row.says(rt, &asked(rt, self.core, query)),
            None => false,
        }
    }
}

// Returns how many rows a core with heads of the sizes 0, 2 and 5 answers correctly, before the first that it does not.
fn answered(rt: &HostRuntime, rows: &str) -> u32 {
    let Ok(mut core) = Core::open(rt.alloc(), 0) else {
        return 0;
    };
    match grow(rt, &mut core) {
        Ok(()) => right_rows(rt, &mut Questions { core: &core }, rows),
        Err(_) => 0,
    }
}

#[test]
fn the_last_head(rt: HostRuntime) {
    let row =
        "head => Ok(Sth(Head { tree_size: 5, timestamp: 3, root: [216, 250, 162, 30, 136, 63, 215, 127, 203, 112, 116, 226, 168, 45, 72, 155, 47, 70, 58, 142, 20, 30, 142, 146, 181, 121, 170, 203, 124, 36, 126, 88] }))";
    assert!(rt; answered(&rt, row) == 1);
}

#[test]
fn the_consistency_proof_from_two_to_five(rt: HostRuntime) {
    let row =
        "proof 2 5 => Ok(Consistency([[145, 86, 237, 156, 172, 142, 227, 33, 5, 215, 13, 54, 109, 212, 120, 113, 244, 153, 229, 68, 84, 230, 204, 125, 55, 182, 120, 245, 77, 170, 46, 183], [197, 49, 126, 52, 111, 117, 120, 111, 48, 63, 34, 216, 60, 13, 78, 181, 170, 146, 19, 20, 13, 36, 191, 25, 234, 141, 46, 104, 46, 122, 144, 24]]))";
    assert!(rt; answered(&rt, row) == 1);
}

#[test]
fn a_leaf_found_by_its_hash(rt: HostRuntime) {
    let row =
        "hash LEAF_1 5 => Ok(ProofByHash { leaf_index: 1, audit_path: [[32, 10, 118, 100, 228, 50, 128, 88, 48, 28, 218, 223, 243, 230, 42, 15, 145, 47, 128, 124, 161, 212, 81, 63, 138, 16, 167, 76, 76, 135, 53, 105], [145, 86, 237, 156, 172, 142, 227, 33, 5, 215, 13, 54, 109, 212, 120, 113, 244, 153, 229, 68, 84, 230, 204, 125, 55, 182, 120, 245, 77, 170, 46, 183], [197, 49, 126, 52, 111, 117, 120, 111, 48, 63, 34, 216, 60, 13, 78, 181, 170, 146, 19, 20, 13, 36, 191, 25, 234, 141, 46, 104, 46, 122, 144, 24]] })";
    assert!(rt; answered(&rt, row) == 1);
}

// Decodes an entry. Returns the timestamp of its leaf, and whether its chain is empty.
fn as_read(rt: &HostRuntime, entry: &ShownEntry) -> Option<(u64, bool)> {
    shown_entries_are_read();
    let moment = decode_leaf(rt.alloc(), &entry.leaf_input).ok()?.timestamp;
    let chain = decode_chain(rt.alloc(), &entry.extra_data).ok()?;
    Some((moment, chain.is_empty()))
}

// The same for the entry in a reply.
fn reply_as_read(rt: &HostRuntime, reply: &Result<Reply, Refusal>) -> Option<(u64, bool)> {
    match reply {
        Ok(Reply::EntryAndProof { entry, .. }) => as_read(rt, entry),
        _ => None,
    }
}

// A log that is queried for entries, which are decoded.
#[derive(Drop)]
struct Reading<'a> {
    core: &'a Core,
}

impl Shown for Reading<'_> {
    // A row has an entry's index and a size.
    fn is_right(&mut self, rt: &HostRuntime, mut row: Row<'_>) -> bool {
        let query = entry_at(&mut row);
        row.says(rt, &reply_as_read(rt, &asked(rt, self.core, query)))
    }
}

// Returns how many rows such a core answers correctly with entries that can be decoded, before the first that it does not.
fn read_back(rt: &HostRuntime, rows: &str) -> u32 {
    let Ok(mut core) = Core::open(rt.alloc(), 0) else {
        return 0;
    };
    match grow(rt, &mut core) {
        Ok(()) => right_rows(rt, &mut Reading { core: &core }, rows),
        Err(_) => 0,
    }
}

#[test]
fn an_entry_with_its_path_in_an_older_tree(rt: HostRuntime) {
    let row =
        "entry 0 2 => Ok(EntryAndProof { entry: ShownEntry { leaf_input: [0, 0, 0, 0, 0, 0, 0, 0, 0, 1, 0, 0, 0, 0, 1, 65, 0, 0], extra_data: [0, 0, 0] }, audit_path: [[120, 239, 103, 65, 75, 112, 210, 186, 47, 101, 16, 159, 159, 231, 7, 20, 5, 9, 76, 27, 87, 85, 154, 74, 20, 70, 128, 219, 155, 235, 181, 128]] })";
    assert!(rt; answered(&rt, row) == 1);
    assert!(rt; read_back(&rt, "0 2 => Some((1, true))") == 1);
}

#[test]
fn refusals_in_their_order(rt: HostRuntime) {
    let rows = "\
proof 5 5 => Err(BadRange)
proof 3 3 => Err(BadRange)
proof 0 5 => Err(BadRange)
proof 5 2 => Err(BadRange)
proof 3 5 => Err(UnknownSize)
proof 2 4 => Err(UnknownSize)
hash LEAF_0 3 => Err(UnknownSize)
hash LEAF_4 2 => Err(UnknownLeaf)
hash ROOT 5 => Err(UnknownLeaf)
hash LEAF_0 0 => Err(UnknownLeaf)
entry 9 3 => Err(UnknownSize)
entry 2 2 => Err(BadRange)
entry 0 0 => Err(BadRange)
ticket 7 => Err(NotYet)";
    assert!(rt; answered(&rt, rows) == 14);
}

// Settles this many certificates of two bytes, from 00 00 on, at the timestamp 1. The first of them has this ticket.
fn count_up(rt: &HostRuntime, core: &mut Core, ticket: u64, count: u16) -> Result<(), Refusal> {
    for number in 0..count {
        let by = (0, ticket.saturating_add(u64::from(number)));
        settle(rt, core, by, &number.to_be_bytes(), 1)?;
    }
    Ok(())
}

// Returns the number that is the certificate of an entry, if that has two bytes.
fn number_of(entry: &ShownEntry) -> Option<u16> {
    match entry.leaf_input.as_slice() {
        [_, _, _, _, _, _, _, _, _, _, _, _, 0, 0, 2, high, low, 0, 0] => {
            Some(u16::from_be_bytes([*high, *low]))
        }
        _ => None,
    }
}

// The number of entries in a reply, and the numbers of the first and the last one, or the refusal.
type Window = Result<(usize, Option<u16>, Option<u16>), Refusal>;

fn window(rt: &HostRuntime, core: &Core, start: u64, end: u64) -> Window {
    match asked(rt, core, Query::Entries { start, end })? {
        Reply::Entries(entries) => Ok((
            entries.len(),
            entries.first().and_then(number_of),
            entries.last().and_then(number_of),
        )),
        _ => Ok((0, None, None)),
    }
}

// A log that is queried for windows of entries and for tickets.
#[derive(Drop)]
struct Windows<'a> {
    core: &'a Core,
}

impl Shown for Windows<'_> {
    // A row has the first and the last index, or a ticket.
    fn is_right(&mut self, rt: &HostRuntime, mut row: Row<'_>) -> bool {
        match row.word() {
            "window" => {
                let (start, end) = (row.number(), row.number());
                row.says(rt, &window(rt, self.core, start, end))
            }
            "ticket" => {
                let ticket = row.number();
                row.says(rt, &receipt(rt, self.core, ticket))
            }
            _ => false,
        }
    }
}

// Settles 300 certificates, and publishes a head of them.
fn count_to_300(rt: &HostRuntime, core: &mut Core) -> Result<(), Refusal> {
    count_up(rt, core, 0, 300)?;
    publish(rt, core, 1)?;
    Ok(())
}

#[test]
fn at_most_256_entries(rt: HostRuntime) -> Result<(), Fail> {
    let rows = "\
window 0 999 => Ok((256, Some(0), Some(255)))
window 10 11 => Ok((2, Some(10), Some(11)))
window 200 18446744073709551615 => Ok((100, Some(200), Some(299)))
window 299 299 => Ok((1, Some(299), Some(299)))
window 300 300 => Err(BadRange)
window 2 1 => Err(BadRange)";
    let mut core = Core::open(rt.alloc(), 0)?;
    assert!(rt; count_to_300(&rt, &mut core).is_ok());
    assert!(rt; right_rows(&rt, &mut Windows { core: &core }, rows) == 6);
    Ok(())
}

// Settles 5,000 items, the last 1,000 of which are repeats of the first ones, and publishes a head.
fn five_thousand(rt: &HostRuntime, core: &mut Core) -> Result<(), Refusal> {
    count_up(rt, core, 0, 4000)?;
    count_up(rt, core, 4000, 1000)?;
    publish(rt, core, 1)?;
    Ok(())
}

#[test]
fn five_thousand_records_before_a_head(rt: HostRuntime) -> Result<(), Fail> {
    let rows = "\
ticket 0 => Ok(Some((0, 1)))
ticket 3999 => Ok(Some((3999, 1)))
ticket 4000 => Ok(Some((0, 1)))
ticket 4999 => Ok(Some((999, 1)))
window 3990 4999 => Ok((10, Some(3990), Some(3999)))";
    let mut core = Core::open(rt.alloc(), 0)?;
    assert!(rt; five_thousand(&rt, &mut core).is_ok());
    assert!(rt; right_rows(&rt, &mut Windows { core: &core }, rows) == 5);
    Ok(())
}
