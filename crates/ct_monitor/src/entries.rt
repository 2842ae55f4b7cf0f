//! The report on entries: the first that is later than the waiting head, and the first that is not a leaf.

ghost use Rattle.std.specs.Prelude.{◌+◌, ◌<◌, ◌^◌, [], get_or, length, map, MatchOption};
ghost use Rattle.ct_monitor.specs.Entries.{IsFaulty, IsFirstFaulty, IsFirstLater, IsLaterThan, IsLeafInBytes, IsNoLaterThan};

use ct_codec::{DecodeFault, lend_leaf};

/// An entry that is later than a head.
#[derive(Clone, Copy, Debug)]
pub struct LaterEntry {
    /// Its index in the log.
    pub index: u64,
    /// Its timestamp, in milliseconds.
    pub timestamp: u64,
}

/// An entry that is not a leaf (MerkleTreeLeaf, RFC 6962, section 3.4).
#[derive(Clone, Copy, Debug)]
pub struct FaultyEntry {
    /// Its index in the log.
    pub index: u64,
    /// Its first fault.
    pub fault: DecodeFault,
}

// The timestamp of a leaf, if it is later than a head with the timestamp `moment`.
fn later_timestamp(moment: u64, leaf: &[u8]) -> Option<u64>
    ensures { MatchOption result (IsNoLaterThan moment leaf.now) (λ timestamp. IsLaterThan moment timestamp leaf.now) }
{
    match lend_leaf(leaf) {
        Ok(read) => {
            if moment < read.timestamp {
                Some(read.timestamp)
            } else {
                None
            }
        }
        Err(_) => None,
    }
}

// The first fault of bytes that are not a leaf.
fn fault_of(leaf: &[u8]) -> Option<DecodeFault>
    ensures { MatchOption result (IsLeafInBytes leaf.now) (λ fault. IsFaulty fault leaf.now) }
{
    match lend_leaf(leaf) {
        Ok(_) => None,
        Err(fault) => Some(fault),
    }
}

// The timestamp of the leaf at an index of the list, if it is later than a head with the timestamp `moment`.
fn later_at(moment: u64, leaves: &[Vec<u8>], place: usize) -> Option<u64>
    requires { place < length leaves.now }
    ensures { MatchOption result (IsNoLaterThan moment (get_or (map (λ l. l.items) leaves.now) place []))
        (λ timestamp. IsLaterThan moment timestamp (get_or (map (λ l. l.items) leaves.now) place [])) }
{
    later_timestamp(moment, &leaves[place])
}

// The first fault of the bytes at an index of the list, if they are not a leaf.
fn fault_at(leaves: &[Vec<u8>], place: usize) -> Option<DecodeFault>
    requires { place < length leaves.now }
    ensures { MatchOption result (IsLeafInBytes (get_or (map (λ l. l.items) leaves.now) place []))
        (λ fault. IsFaulty fault (get_or (map (λ l. l.items) leaves.now) place [])) }
{
    fault_of(&leaves[place])
}

/// The first of leaves from an index on that is later than a head with the timestamp `moment`.
pub(crate) fn first_later(moment: u64, first: u64, leaves: &[Vec<u8>]) -> Option<LaterEntry>
    requires { first + length leaves.now < 2 ^ 64 }
    ensures { IsFirstLater moment first (map (λ l. l.items) leaves.now) result }
{
    for i in 0..leaves.len() {
        if let Some(timestamp) = later_at(moment, leaves, i) {
            return Some(LaterEntry {
                index: first + i as u64,
                timestamp,
            });
        }
    }
    None
}

/// The first of leaves from an index on that is not a leaf.
pub(crate) fn first_faulty(first: u64, leaves: &[Vec<u8>]) -> Option<FaultyEntry>
    requires { first + length leaves.now < 2 ^ 64 }
    ensures { IsFirstFaulty first (map (λ l. l.items) leaves.now) result }
{
    for i in 0..leaves.len() {
        if let Some(fault) = fault_at(leaves, i) {
            return Some(FaultyEntry {
                index: first + i as u64,
                fault,
            });
        }
    }
    None
}
