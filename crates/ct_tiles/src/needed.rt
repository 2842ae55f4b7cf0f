//! The tiles from which a root, an audit path or a consistency proof is computed.
ghost use Rattle.std.specs.Prelude.{◌≡◌, ◌+◌, ◌-◌, ◌*◌, ◌/◌, ◌<◌, ◌≤◌, ◌++◌, IfOk, OnOk};
ghost use Rattle.ct_tiles.specs.Needed.{tile_at as tile_of, level_tiles, tiles_from, root_tiles, path_tiles, proof_tiles};

use std::alloc::{AllocError, Global};

/// A tile, by the parts of its name (C2SP tlog-tiles).
#[derive(Clone, Copy, Debug, PartialEq, Eq)]
pub struct NeededTile {
    /// Its level: level 0 has the hashes of leaves.
    pub level: u64,
    /// Its index in its level, which begins at 0.
    pub index: u64,
    /// The number of its hashes: 256, or fewer in a level's last tile.
    pub width: u64,
}

// Returns the tile at an index of a level with `size` hashes.
fn tile_at(level: u64, index: u64, size: u64) -> NeededTile
    requires { 256 * index ≤ size }
    ensures { result ≡ tile_of level index size }
{
    let left = size - 256 * index;
    let width = if left < 256 { left } else { 256 };
    NeededTile {
        level,
        index,
        width,
    }
}

// Adds the tiles of one level.
fn add_level(
    tiles: &mut Vec<NeededTile>,
    level: u64,
    first: u64,
    own: u64,
    last: u64,
    size: u64,
) -> Result<(), AllocError>
    requires { last ≤ size }
    ensures { OnOk result (tiles.new.items ≡ tiles.old.items ++ level_tiles level first own last size) }
{
    if own / 256 < last / 256 && first / 256 == own / 256 {
        tiles.push(tile_at(level, own / 256, size))?;
    }
    if last % 256 > 0 || level == 0 {
        tiles.push(tile_at(level, last / 256, size))?;
    }
    Ok(())
}

// Returns the tiles of all levels.
fn needed(
    alloc: Global,
    mut first: u64,
    mut own: u64,
    mut last: u64,
    mut size: u64,
) -> Result<Vec<NeededTile>, AllocError>
    requires { last ≤ size }
    ensures { IfOk result (λ tiles. tiles.items ≡ tiles_from 8 0 first own last size) }
{
    let mut tiles = Vec::new(alloc);
    let mut level = 0;
    while level < 8 {
        add_level(&mut tiles, level, first, own, last, size)?;
        level += 1;
        first /= 256;
        own /= 256;
        last /= 256;
        size /= 256;
    }
    Ok(tiles)
}

/// Returns the tiles that [`root_at`](crate::root_at) reads for the first `n` leaves, each once, the lowest level first.
pub fn tiles_for_root(alloc: Global, n: u64) -> Result<Vec<NeededTile>, AllocError>
    requires { 0 < n }
    ensures { IfOk result (λ tiles. tiles.items ≡ root_tiles n) }
{
    needed(alloc, n - 1, n - 1, n - 1, n)
}

/// Returns the tiles that [`path`](crate::path) reads, each once, the lowest level first.
pub fn tiles_for_path(alloc: Global, m: u64, n: u64) -> Result<Vec<NeededTile>, AllocError>
    requires { m < n }
    ensures { IfOk result (λ tiles. tiles.items ≡ path_tiles m n) }
{
    needed(alloc, m, m, n - 1, n)
}

/// Returns the tiles that [`proof`](crate::proof) reads, each once, the lowest level first.
pub fn tiles_for_proof(alloc: Global, m: u64, n: u64) -> Result<Vec<NeededTile>, AllocError>
    requires positive { 0 < m }
    requires below { m < n }
    ensures { IfOk result (λ tiles. tiles.items ≡ proof_tiles m n) }
{
    needed(alloc, m, m - 1, n - 1, n)
}
