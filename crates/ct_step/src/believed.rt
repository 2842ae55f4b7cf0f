//! A state whose right edge was kept elsewhere, by someone who need not be trusted.

ghost use Rattle.std.specs.Prelude.{◌≡◌, length, map, All, IfOk, MatchResult};
ghost use Rattle.std.specs.Bool.{MatchBool};
ghost use Rattle.ct_verify.specs.Laws.{AreHashes};
ghost use Rattle.ct_step.specs.Believed.{tile_widths, edge_root, BelievesState, StopsBelief};
ghost use Rattle.ct_step.specs.declared.believed.EdgeFault.TheVariants.{Memory};

use crate::growth::State;
use ct_tiles::{Edge, joined, root_alone};
use ct_tree::reference::root;
use ct_tree::{Head, NodeHash, is_same_digest};
use std::alloc::{AllocError, Global};
use thiserror::Error;

/// The reason why partial tiles are not believed.
#[derive(Clone, Copy, PartialEq, Eq, Debug, Error)]
pub enum EdgeFault {
    /// They are not those of 8 levels, or one of them does not have the number of hashes that the size requires.
    #[error("the partial tiles are not as wide as those of this size")]
    OtherWidths,
    /// They lead to another root.
    #[error("the partial tiles give another root")]
    OtherRoot,
    /// Memory could not be allocated.
    #[error("there is no memory for the root of the partial tiles")]
    Memory,
}

impl From<AllocError> for EdgeFault {
    ghost from_gives = { λ _ fault. fault ≡ Memory };

    fn from(_e: AllocError) -> EdgeFault {
        EdgeFault::Memory
    }
}

// A lemma, which does nothing: a hash has 32 bytes.
fn is_hash(hash: &[u8; 32])
    ensures { length hash.now ≡ 32 }
{
    let _ = hash;
}

// A lemma, which does nothing: each of the hashes has 32 bytes.
fn are_hashes(hashes: &[[u8; 32]])
    ensures { AreHashes hashes.now }
{
    for hash in hashes {
        is_hash(hash);
    }
}

// A lemma, which does nothing: each hash of partial tiles has 32 bytes.
fn all_are_hashes(tiles: &[Vec<[u8; 32]>])
    ensures { All AreHashes (map (λ t. t.items) tiles.now) }
{
    for tile in tiles {
        are_hashes(tile);
    }
}

// Reports whether partial tiles, level 0 first, are as wide as those of `size` leaves.
fn have_widths(tiles: &[Vec<[u8; 32]>], size: u64) -> bool
    ensures { MatchBool result (map length (map (λ t. t.items) tiles.now) ≡ tile_widths 8 size) (map length (map (λ t. t.items) tiles.now) ≡ tile_widths 8 size → ⊥) }
{
    if tiles.len() != 8 {
        return false;
    }
    let mut rest = size;
    for tile in tiles {
        if tile.len() as u64 != rest % 256 {
            return false;
        }
        rest /= 256;
    }
    true
}

// Returns the root of partial tiles, level 0 first.
fn root_of_tiles<H: NodeHash>(
    alloc: Global,
    h: &H,
    tiles: &[Vec<[u8; 32]>],
) -> Result<[u8; 32], AllocError>
    ensures { IfOk result (λ r. r ≡ edge_root H.digest (map (λ t. t.items) tiles.now)) }
{
    let mut carried = Vec::new(alloc);
    for tile in tiles {
        let hashes = joined(alloc, tile, &carried)?;
        carried = root_alone(alloc, h, &hashes)?;
    }
    Ok(root(h, &carried))
}

impl State {
    /// Returns the state with this head and these partial tiles, level 0 first, which were kept elsewhere. They are believed if their
    /// widths are those of the head's size and they lead to the head's root. So they are the right edge of the head's tree, or two of the
    /// strings that are hashed collide ([`crate::growth_laws::edges`]).
    ///
    /// Hashes at most 8 times 256 nodes, and allocates memory for one level at a time.
    ///
    /// # Errors
    /// In this order: `OtherWidths`; `Memory` if memory could not be allocated; `OtherRoot`.
    pub fn believed<H: NodeHash>(
        alloc: Global,
        h: &H,
        head: &Head,
        tiles: Vec<Vec<[u8; 32]>>,
    ) -> Result<State, EdgeFault>
        ensures { MatchResult result (λ s. BelievesState H.digest head.now (map (λ t. t.items) tiles.items) s)
            (StopsBelief H.digest head.now (map (λ t. t.items) tiles.items)) }
    {
        all_are_hashes(&tiles);
        if !have_widths(&tiles, head.tree_size) {
            return Err(EdgeFault::OtherWidths);
        }
        let root = root_of_tiles(alloc, h, &tiles)?;
        if !is_same_digest(&root, &head.root) {
            return Err(EdgeFault::OtherRoot);
        }
        let Some(edge) = Edge::from_parts(head.tree_size, tiles) else {
            return Err(EdgeFault::OtherWidths);
        };
        Ok(State {
            edge,
            timestamp: head.timestamp,
        })
    }
}
