//! The calls of a core that are timed, many times over.

use crate::prepared::{ReadyItem, prepare};
use ct_codec::Refusal;
use ct_core::{Core, Query, Reply, Settled};
use std::alloc::{AllocError, Global};

// The number of queries of each kind.
const ASKED: u64 = 1_000;

// The number of records that are read.
const READ: u64 = 1_000_000;

// The distance between the numbers that are asked for, before they are reduced below the number of all.
const STEP: u64 = 7_919;

// The kind of a query to a core.
#[derive(Clone, Copy)]
pub(crate) enum Kind {
    Proof,
    Receipt,
    Entry,
}

// The data that is read from a core, many times over.
#[derive(Clone, Copy)]
pub(crate) enum Reading<'a> {
    Queries(&'a [Query]),
    // Records from the settlement's list.
    List,
    // The same records from a vector.
    Vector(&'a [Settled]),
}

// Settles these items, and returns how many of them were not repeats.
pub(crate) fn settle_all(
    heap: Global,
    core: &mut Core,
    items: Vec<ReadyItem>,
) -> Result<u64, Refusal> {
    let mut firsts = 0u64;
    for ReadyItem { item, hash, moment } in items {
        match core.settle_one(heap, item, hash, moment) {
            Ok(settled) => firsts = firsts.wrapping_add(u64::from(settled.first)),
            Err((refusal, _)) => return Err(refusal),
        }
    }
    Ok(firsts)
}

// Returns the k-th of some numbers below `size` that are far apart.
fn spread(k: u64, size: u64) -> u64 {
    k.wrapping_mul(STEP).checked_rem(size).unwrap_or(0)
}

// Returns the query about the certificate with a number, in a log of `size` entries.
fn query(heap: Global, kind: Kind, size: u64, number: u64) -> Result<Query, Refusal> {
    match kind {
        Kind::Proof => Ok(Query::ProofByHash {
            hash: prepare(heap, number, 1)?.hash,
            tree_size: size,
        }),
        Kind::Receipt => Ok(Query::Receipt { ticket: number }),
        Kind::Entry => Ok(Query::Entries {
            start: number,
            end: number,
        }),
    }
}

// Queries all over a log of `size` entries.
pub(crate) fn queries(heap: Global, kind: Kind, size: u64) -> Result<Vec<Query>, Refusal> {
    let mut queries = Vec::new(heap);
    for k in 0..ASKED {
        queries.push(query(heap, kind, size, spread(k, size))?)?;
    }
    Ok(queries)
}

// Returns the leaf's index in a reply, or the number of its entries.
fn number_in(reply: &Reply) -> u64 {
    match reply {
        Reply::ProofByHash { leaf_index, .. } | Reply::Receipt { leaf_index, .. } => *leaf_index,
        Reply::Entries(found) => found.len() as u64,
        _ => 0,
    }
}

// Makes the queries, and returns the sum of the numbers in the replies.
fn ask_all(heap: Global, core: &Core, queries: &[Query]) -> Result<u64, Refusal> {
    let mut sum = 0u64;
    for query in queries {
        let reply = core.published().answer(heap, query)?;
        sum = sum.wrapping_add(number_in(&reply));
    }
    Ok(sum)
}

// Reads records one by one, all over the settlement's list, and returns the sum of their indexes.
fn read_list(core: &Core) -> u64 {
    let list = core.published().settlement();
    let mut sum = 0u64;
    for k in 0..READ {
        let place = spread(k, list.len() as u64) as usize;
        sum = sum.wrapping_add(list.get(place).map_or(0, |s| s.index));
    }
    sum
}

// Does the same with a slice.
fn read_slice(records: &[Settled]) -> u64 {
    let mut sum = 0u64;
    for k in 0..READ {
        let place = spread(k, records.len() as u64) as usize;
        sum = sum.wrapping_add(records.get(place).map_or(0, |s| s.index));
    }
    sum
}

// Returns the records of the settlement.
pub(crate) fn all_records(heap: Global, core: &Core) -> Result<Vec<Settled>, AllocError> {
    let mut records = Vec::new(heap);
    for record in core.published().settlement().iter() {
        records.push(*record)?;
    }
    Ok(records)
}

// Reads, and returns the sum of the numbers found.
pub(crate) fn sum_of(heap: Global, core: &Core, reading: Reading) -> Result<u64, Refusal> {
    match reading {
        Reading::Queries(queries) => ask_all(heap, core, queries),
        Reading::List => Ok(read_list(core)),
        Reading::Vector(records) => Ok(read_slice(records)),
    }
}

// Returns the number of queries or records that are read.
pub(crate) fn count_of(reading: Reading) -> u64 {
    match reading {
        Reading::Queries(queries) => queries.len() as u64,
        _ => READ,
    }
}
