//! Steps of a tiled log with an invented right edge.

use crate::prepared::submission;
use anyhow::Context;
use ct_codec::{Refusal, Submission};
use ct_step::{Batch, StateLine, take_step};
use ct_tiles::Edge;
use ct_tree::{NodeHash, Sha256Hash};
use std::alloc::{AllocError, Global};

// The timestamp of the state. That of the first step is one millisecond later.
const MOMENT: u64 = 1_000;

// The number of bytes of each entry in the invented partial data tile.
const ENTRY: usize = 1_590;

// A state, and the objects that a step from it needs.
#[derive(Drop)]
struct Log {
    line: StateLine,
    edge: Vec<Vec<u8>>,
    entries: Vec<u8>,
}

// Returns a partial tile: the hash at an index is that of the level and the index.
fn tile_of(heap: Global, level: u8, width: u8) -> Result<Vec<[u8; 32]>, AllocError> {
    let mut tile = Vec::new(heap);
    for place in 0..width {
        tile.push(Sha256Hash.hash(&[&[level, place]]))?;
    }
    Ok(tile)
}

// Returns the partial tiles of `size` leaves.
fn tiles_of(heap: Global, size: u64) -> Result<Vec<Vec<[u8; 32]>>, AllocError> {
    let mut tiles = Vec::new(heap);
    let mut count = size;
    for level in 0..8u8 {
        tiles.push(tile_of(heap, level, (count % 256) as u8)?)?;
        count /= 256;
    }
    Ok(tiles)
}

// Returns the bytes of an edge's tiles.
fn bytes_of(heap: Global, edge: &Edge) -> Result<Vec<Vec<u8>>, AllocError> {
    let mut bytes = Vec::new(heap);
    for level in 0..8usize {
        bytes.push(Vec::from_slice(heap, edge.tile(level).as_flattened())?)?;
    }
    Ok(bytes)
}

// Returns a log with this edge.
fn log_with(heap: Global, edge: &Edge) -> Result<Log, AllocError> {
    let entries = vec![in heap; 7u8; (edge.size() % 256) as usize * ENTRY]?;
    let line = StateLine {
        tree_size: edge.size(),
        timestamp: MOMENT,
        root: edge.root(heap, &Sha256Hash)?,
        bundle: [0; 32],
        data_tile: Sha256Hash.hash(&[&entries]),
        before: [0; 32],
    };
    let edge = bytes_of(heap, edge)?;
    Ok(Log {
        line,
        edge,
        entries,
    })
}

// Returns the edge of a log of `size` leaves.
fn edge_of(heap: Global, size: u64) -> anyhow::Result<Edge> {
    Edge::from_parts(size, tiles_of(heap, size)?).context("an edge has eight tiles")
}

// Returns a log of `size` leaves with its edge.
fn log_of(heap: Global, size: u64) -> anyhow::Result<Log> {
    let edge = edge_of(heap, size)?;
    Ok(log_with(heap, &edge)?)
}

// Returns the submissions of `count` certificates, from the one with the number `first` on.
fn submissions(heap: Global, first: u64, count: u64) -> Result<Vec<Submission>, Refusal> {
    let mut submissions = Vec::new(heap);
    for k in 0..count {
        submissions.push(submission(heap, first.wrapping_add(k))?)?;
    }
    Ok(submissions)
}

// Returns `count` chains, each of two fingerprints.
fn chains(heap: Global, count: u64) -> Result<Vec<Vec<[u8; 32]>>, AllocError> {
    let mut chains = Vec::new(heap);
    for _ in 0..count {
        chains.push(Vec::from_slice(heap, &[[1; 32], [2; 32]])?)?;
    }
    Ok(chains)
}

// Returns the batch of `count` certificates, from the one with the number `first` on.
fn batch_of(heap: Global, first: u64, count: u64) -> anyhow::Result<Batch> {
    let submissions = submissions(heap, first, count)?;
    Batch::new(submissions, chains(heap, count)?).context("a chain is too long")
}

// Returns the line of a step of a log.
fn line_of(heap: Global, log: &Log, step: u64, count: u64) -> anyhow::Result<StateLine> {
    let batch = batch_of(heap, step.wrapping_mul(count), count)?;
    let now = MOMENT.wrapping_add(1).wrapping_add(step);
    let made = take_step(
        heap,
        &Sha256Hash,
        &log.line,
        &log.edge,
        &log.entries,
        &batch,
        now,
    )?;
    Ok(made.line)
}

// Makes steps of `count` submissions, each from the same log of `size` leaves, and returns the line of the last one.
fn last_line(heap: Global, size: u64, count: u64, steps: u64) -> anyhow::Result<StateLine> {
    let log = log_of(heap, size)?;
    let mut line = log.line;
    for step in 0..steps {
        line = line_of(heap, &log, step, count)?;
    }
    Ok(line)
}

// Prints the line of the last step.
pub(crate) fn show(rt: &HostRuntime, size: u64, count: u64, steps: u64) -> anyhow::Result<()> {
    let line = last_line(rt.alloc(), size, count, steps)?;
    let text = line.write(rt.alloc())?;
    println!(rt; "{text}")?;
    Ok(())
}
