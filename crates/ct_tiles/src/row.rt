//! The tiles of one level, one after the other.
ghost use Rattle.std.specs.Prelude.{◌≡◌, ◌*◌, ◌^◌, ◌<◌, ◌≤◌, ◌++◌, length, take, drop, IfOk, MatchOption};
ghost use Rattle.ct_tiles.specs.Tiles.{up, behind, lone_root};

use ct_tree::NodeHash;
use ct_tree::reference::root;
use std::alloc::{AllocError, Global};

/// The tiles of a level from an index on to its end: 256 hashes each, or fewer in the last one.
#[derive(Drop)]
pub struct Row {
    /// The index of the first tile in its level.
    pub first: u64,
    /// The hashes of all the tiles, in order.
    pub hashes: Vec<[u8; 32]>,
}

impl Row {
    /// Returns the tile at an index of the row, whose index in its level is `first` + `place`. It has 256 hashes, or 1 to 255 if it is the
    /// last one and partial. Returns None after the last one. Allocates no memory.
    pub fn tile(&self, place: usize) -> Option<&[[u8; 32]]>
        requires { place < 2 ^ 48 }
        ensures { MatchOption result (length self.now.hashes.items ≤ 256 * place)
            (λ t. t.now ≡ take 256 (drop (256 * place) self.now.hashes.items)) }
    {
        let start = 256 * place;
        if start >= self.hashes.len() {
            return None;
        }
        let left = self.hashes.len() - start;
        let width = if left < 256 { left } else { 256 };
        let end = start + width;
        Some(&self.hashes[start..end])
    }
}

/// Returns the hashes of both lists, in order: for example of a partial tile, and of the hashes that the level below adds to it. Allocates
/// memory for all of them.
pub fn joined(
    alloc: Global,
    front: &[[u8; 32]],
    back: &[[u8; 32]],
) -> Result<Vec<[u8; 32]>, AllocError>
    ensures { IfOk result (λ v. v.items ≡ front.now ++ back.now) }
{
    let mut hashes = Vec::new(alloc);
    hashes.extend_from_slice(front)?;
    hashes.extend_from_slice(back)?;
    Ok(hashes)
}

// Returns the roots of the full tiles.
pub(crate) fn full_roots<H: NodeHash>(
    alloc: Global,
    h: &H,
    row: &[[u8; 32]],
) -> Result<Vec<[u8; 32]>, AllocError>
    ensures { IfOk result (λ v. v.items ≡ up H.digest 256 row.now) }
{
    let count = row.len() / 256;
    let mut roots = Vec::with_capacity(alloc, count)?;
    for i in 0..count {
        let start = 256 * i;
        let end = start + 256;
        let tile = &row[start..end];
        roots.push(root(h, tile))?;
    }
    Ok(roots)
}

// Returns the hashes after the full tiles.
pub(crate) fn partial(alloc: Global, row: &[[u8; 32]]) -> Result<Vec<[u8; 32]>, AllocError>
    ensures { IfOk result (λ v. v.items ≡ behind 256 row.now) }
{
    let start = 256 * (row.len() / 256);
    let mut hashes = Vec::new(alloc);
    hashes.extend_from_slice(&row[start..])?;
    Ok(hashes)
}

/// Returns the contribution of some hashes to the level above: the root over them (MTH of RFC 6962, section 2.1), or nothing if there are
/// no hashes. Hashes one node fewer than there are hashes, and allocates memory for one.
pub fn root_alone<H: NodeHash>(
    alloc: Global,
    h: &H,
    hashes: &[[u8; 32]],
) -> Result<Vec<[u8; 32]>, AllocError>
    ensures { IfOk result (λ v. v.items ≡ lone_root H.digest hashes.now) }
{
    let mut lone = Vec::new(alloc);
    if !hashes.is_empty() {
        lone.push(root(h, hashes))?;
    }
    Ok(lone)
}
