//! The tiles of a log: leaves are added, and audit paths are computed from the tiles.

ghost use Rattle.std.specs.Prelude.{◌<◌};

use crate::report::show_root;
use ct_tiles::{
    Advance, Edge, HandedFault, NeededTile, Row, path_of_handed, take_in as take_leaves_in,
    tiles_for_path,
};
use ct_tree::{Sha256Hash, leaf_hash};
use std::alloc::{AllocError, Global};
use std::io;

// Returns the hashes of `count` leaves from an index on.
fn hashes(heap: Global, first: u64, count: u64) -> Result<Vec<[u8; 32]>, AllocError> {
    let mut hashes = Vec::new(heap);
    for k in 0..count {
        let leaf = first.wrapping_add(k).to_be_bytes();
        hashes.push(leaf_hash(&Sha256Hash, &leaf))?;
    }
    Ok(hashes)
}

// Returns the tiles of a log to which no leaves were added.
fn begun(heap: Global) -> Result<Advance, AllocError> {
    let edge = Edge::empty(heap)?;
    take_leaves_in(heap, &Sha256Hash, &edge, &[])
}

// Returns the tiles after the last leaves were added to a log of `count` leaves, `batch` at a time.
fn grown(heap: Global, count: u64, batch: u64) -> Result<Advance, AllocError> {
    let mut advance = begun(heap)?;
    for _ in 0..count {
        let first = advance.edge.size();
        if first >= count {
            break;
        }
        let more = hashes(heap, first, (count - first).min(batch))?;
        advance = take_leaves_in(heap, &Sha256Hash, &advance.edge, &more)?;
    }
    Ok(advance)
}

// Prints the root of a log to which `batch` leaves were added at a time.
pub(crate) fn take_in(rt: &HostRuntime, count: u64, batch: u64) -> io::Result<()> {
    let advance = grown(rt.alloc(), count, batch)?;
    let root = advance.edge.root(rt.alloc(), &Sha256Hash)?;
    show_root(rt, &root)
}

// Returns the bytes of a tile, or no bytes if it does not exist.
fn content(heap: Global, rows: &[Row], tile: &NeededTile) -> Result<Vec<u8>, AllocError> {
    if tile.level < 8 && tile.index < 1_000_000_000_000 {
        if let Some(row) = rows.get(tile.level as usize) {
            if let Some(hashes) = row.tile(tile.index as usize) {
                return Vec::from_slice(heap, hashes.as_flattened());
            }
        }
    }
    Ok(Vec::new(heap))
}

// Returns the bytes of the tiles from which the path of the leaf at index `m` of `n` is computed.
fn contents(heap: Global, m: u64, n: u64) -> Result<Vec<Vec<u8>>, AllocError>
    requires { m < n }
{
    let rows = grown(heap, n, n)?.rows;
    let mut contents = Vec::new(heap);
    for tile in &tiles_for_path(heap, m, n)? {
        contents.push(content(heap, &rows, tile)?)?;
    }
    Ok(contents)
}

// Returns how many hashes the path of the leaf at index `m` has in all, if it is computed `calls` times from the tiles of `n` leaves.
fn in_paths(
    heap: Global,
    contents: &[Vec<u8>],
    m: u64,
    n: u64,
    calls: u64,
) -> Result<u64, HandedFault>
    requires { m < n }
{
    let mut hashes = 0u64;
    for _ in 0..calls {
        let path = path_of_handed(heap, &Sha256Hash, m, n, contents)?;
        hashes = hashes.wrapping_add(path.len() as u64);
    }
    Ok(hashes)
}

// Prints how many hashes `calls` paths have of the leaf in a third of a log of `n` leaves.
pub(crate) fn paths(rt: &HostRuntime, n: u64, calls: u64) -> anyhow::Result<()> {
    if n > 0 {
        let contents = contents(rt.alloc(), n / 3, n)?;
        let hashes = in_paths(rt.alloc(), &contents, n / 3, n, calls)?;
        println!(rt; "hashes in paths {hashes}")?;
    }
    Ok(())
}
