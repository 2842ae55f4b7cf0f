//! The right edge of a log's tiles: the partial tile of each level, which is all that is needed to write the next tiles.
ghost use Rattle.std.specs.Prelude.{◌≡◌, ◌+◌, ◌<◌, ◌^◌, ◌++◌, ℕ, List, [], length, map, slice_index_or, IfOk, MatchOption};
ghost use Rattle.ct_tree.specs.Tree.{mth};
ghost use Rattle.ct_tiles.specs.Tiles.{rows};
ghost use Rattle.ct_tiles.specs.Edge.{IsEdge};

use crate::row::{Row, full_roots, joined, partial, root_alone};
use ct_tree::NodeHash;
use ct_tree::reference::root as root_of;
use std::alloc::{AllocError, Global};
use std::marker::Model;

/// The number of leaves of a log, and the partial tile of each of its 8 levels: at most 8 times 255 hashes, 65 KB. Contracts see it as the
/// pair of both. An edge by itself proves nothing: each contract holds for every list of leaf hashes whose edge it is.
#[derive(Drop)]
pub struct Edge {
    size: u64,
    tiles: Vec<Vec<[u8; 32]>>,
}

impl Model for Edge {
    ghost Value = { ℕ × List (List (List ℕ)) };

    ghost view = { λ e. (e.size, map (λ t. t.items) e.tiles.items) };

    ghost invariant = { λ e. length e.tiles.items ≡ 8 };
}

/// The tiles of a log after leaves were added, returned by [`take_in`].
#[derive(Drop)]
pub struct Advance {
    /// For each of the 8 levels, level 0 first, its tiles from the one on that was partial: all that change or are new.
    pub rows: Vec<Row>,
    /// The right edge afterwards.
    pub edge: Edge,
}

impl Edge {
    /// Returns the edge of a log without leaves. Allocates the list of its 8 empty tiles.
    pub fn empty(alloc: Global) -> Result<Edge, AllocError>
        ensures { IfOk result (λ e. (H : List ℕ → List ℕ) → IsEdge H e []) }
    {
        let mut tiles = Vec::new(alloc);
        for _level in 0..8usize {
            let none = Vec::new(alloc);
            tiles.push(none)?;
        }
        Ok(Edge { size: 0, tiles })
    }

    /// Returns the edge of `size` leaves with these partial tiles, level 0 first, as they were saved. They may have any content. Returns
    /// None if they do not have 8 levels. Allocates no memory.
    pub fn from_parts(size: u64, tiles: Vec<Vec<[u8; 32]>>) -> Option<Edge>
        ensures { MatchOption result (length tiles.items ≡ 8 → ⊥) (λ e. e ≡ (size, map (λ t. t.items) tiles.items)) }
    {
        if tiles.len() != 8 {
            return None;
        }
        Some(Edge { size, tiles })
    }

    /// Returns the number of leaves.
    pub fn size(&self) -> u64
        ensures { result ≡ self.now.0 }
    {
        self.size
    }

    /// Returns the partial tile of a level from 0 to 7: at most 255 hashes.
    pub fn tile(&self, level: usize) -> &[[u8; 32]]
        requires { level < 8 }
        ensures { result.now ≡ slice_index_or self.now.1 level [] }
    {
        &self.tiles[level]
    }

    /// Returns the root of all leaves (MTH of RFC 6962, section 2.1). Hashes at most 8 times 255 nodes, and allocates memory for one level
    /// at a time.
    pub fn root<H: NodeHash>(&self, alloc: Global, h: &H) -> Result<[u8; 32], AllocError>
        ensures { IfOk result (λ r. (D : List (List ℕ)) → IsEdge H.digest self.now D → length D < 2 ^ 64 → r ≡ mth H.digest D) }
    {
        let mut carried = Vec::new(alloc);
        for level in 0..8usize {
            let hashes = joined(alloc, self.tile(level), &carried)?;
            carried = root_alone(alloc, h, &hashes)?;
        }
        Ok(root_of(h, &carried))
    }
}

/// Adds the hashes of more leaves, in order (C2SP tlog-tiles, "Merkle Tree"). Returns for each level its tiles from the one on that was
/// partial, and the edge afterwards. The given edge does not change.
///
/// Hashes each tile that becomes full once, and nothing else: less than one node for each leaf. Copies the partial tiles and the new hashes
/// twice. The new size wraps at 2^64.
pub fn take_in<H: NodeHash>(
    alloc: Global,
    h: &H,
    edge: &Edge,
    leaf_hashes: &[[u8; 32]],
) -> Result<Advance, AllocError>
    ensures rows { IfOk result (λ a. (D : List (List ℕ)) → IsEdge H.digest edge.now D
        → map (λ r. (r.first, r.hashes.items)) a.rows.items ≡ rows H.digest 256 8 D leaf_hashes.now) }
    ensures edge { IfOk result (λ a. (D : List (List ℕ)) → IsEdge H.digest edge.now D → length D + length leaf_hashes.now < 2 ^ 64
        → IsEdge H.digest a.edge (D ++ leaf_hashes.now)) }
{
    let mut rows = Vec::new(alloc);
    let mut tiles = Vec::new(alloc);
    let mut fresh = joined(alloc, &[], leaf_hashes)?;
    let mut known = edge.size();
    for level in 0..8 {
        let hashes = joined(alloc, edge.tile(level), &fresh)?;
        fresh = full_roots(alloc, h, &hashes)?;
        tiles.push(partial(alloc, &hashes)?)?;
        known /= 256;
        rows.push(Row {
            first: known,
            hashes,
        })?;
    }
    Ok(Advance {
        rows,
        edge: Edge {
            size: edge.size().wrapping_add(leaf_hashes.len() as u64),
            tiles,
        },
    })
}
