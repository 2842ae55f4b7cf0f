//! Batches of leaf hashes.

ghost use Rattle.std.specs.Prelude.{◌<◌, ◌≤◌};

use crate::report::report;
use ct_tree::{Sha256Hash, hash_batch};
use std::alloc::{AllocError, Global};
use std::io;
use std::thread::Threads;
use std::time::Instant;

// Returns `count` leaves of 1,500 bytes.
fn leaves(heap: Global, count: u64) -> Result<Vec<Vec<u8>>, AllocError> {
    let mut leaves = Vec::new(heap);
    for _ in 0..count {
        leaves.push(vec![in heap; 7u8; 1500]?)?;
    }
    Ok(leaves)
}

// Returns how many leaves are hashed in this number of batches, each of which has these leaves, by this number of workers.
fn hashed<R: Threads + Sync>(
    threads: &R,
    heap: Global,
    leaves: &[Vec<u8>],
    workers: usize,
    batches: u64,
) -> Result<u64, AllocError>
    requires { (0 < workers) × (workers ≤ 64) }
{
    let mut hashed = 0u64;
    for _ in 0..batches {
        let hashes = hash_batch(threads, heap, &Sha256Hash, leaves, workers)?;
        hashed = hashed.wrapping_add(hashes.len() as u64);
    }
    Ok(hashed)
}

// Prints how long one leaf takes in ten batches of these leaves, by this number of workers.
fn time_batches<R: Threads + Sync>(
    rt: &HostRuntime,
    threads: &R,
    leaves: &[Vec<u8>],
    workers: usize,
) -> io::Result<()>
    requires { (0 < workers) × (workers ≤ 64) }
{
    let start = Instant::now(rt)?;
    let hashed = hashed(threads, rt.alloc(), leaves, workers, 10)?;
    let time = start.elapsed(rt)?;
    println!(rt;
        "batch of {} leaves of 1,500 bytes, {workers} workers:",
        leaves.len()
    )?;
    report(rt, "leaf", hashed, time)
}

// Prints the same for batches of `count` leaves. The number of workers is limited to 1 to 64.
pub(crate) fn time<R: Threads + Sync>(
    rt: &HostRuntime,
    threads: &R,
    count: u64,
    workers: u64,
) -> io::Result<()> {
    let leaves = leaves(rt.alloc(), count)?;
    time_batches(rt, threads, &leaves, workers.clamp(1, 64) as usize)
}

// Prints how many leaves of a batch were hashed.
pub(crate) fn show<R: Threads + Sync>(rt: &HostRuntime, threads: &R) -> io::Result<()> {
    let leaves = leaves(rt.alloc(), 40)?;
    let hashed = hashed(threads, rt.alloc(), &leaves, 4, 1)?;
    println!(rt; "hashes in a batch {hashed}")
}
