//! Compares a data tile with its name.

ghost use Rattle.std.specs.Prelude.{◌≡◌, ◌≤◌, ◌<◌, ◌+◌, ◌^◌, ℕ, List, length, IfOk, MatchOption};
ghost use Rattle.std.specs.Bool.{MatchBool};
ghost use Rattle.ct_data_tiles.specs.Lent.{tiled};
ghost use Rattle.ct_data_tiles.specs.DataTile.{tiled_all};
ghost use Rattle.ct_data_tiles.specs.Entries.{IsDataTileName, first_entry, HasEntry, NamesOwnIndex, IsFirstWrong};
ghost use Rattle.ct_data_tiles.specs.TileAnswers.{IsDamageOf, IsTileAnswer};
ghost use Rattle.ct_data_tiles.specs.declared.tile.Tile.{Tile as TileOf};

use crate::answer::{Damage, DataTileAnswer};
use crate::data_tile::tile_leaves;
use crate::fault::DataTileFault;
use crate::leaf::TileLeaf;
use crate::wanting::{Unnamed, Unread};
use crate::{Content, Tile};
use ct_codec::index_extension;
use std::alloc::{AllocError, Global};

// Reports whether the extensions of a leaf are exactly its own index.
fn names_own_index(index: u64, leaf: &TileLeaf<'_>) -> bool
    ensures { MatchBool result (NamesOwnIndex index (tiled leaf.now)) (NamesOwnIndex index (tiled leaf.now) → ⊥) }
{
    if index >= 1 << 40 {
        return false;
    }
    leaf.extensions == index_extension(index).as_slice()
}

// Returns the first index, of leaves whose indexes begin at `first`, whose leaf does not have exactly this index in its extensions.
fn first_wrong(first: u64, leaves: &[TileLeaf<'_>]) -> Option<u64>
    requires { first + length leaves.now ≤ 2 ^ 64 }
    ensures { IsFirstWrong first (tiled_all leaves.now) result }
{
    for i in 0..leaves.len() {
        let index = first + i as u64;
        if !names_own_index(index, &leaves[i]) {
            return Some(index);
        }
    }
    None
}

// Returns the data tile that has this name, if there is one.
fn data_tile_named(alloc: Global, name: &[u8]) -> Result<Option<Tile>, AllocError>
    ensures { IfOk result (λ o. MatchOption o ((tile : TileOf) → IsDataTileName name.now tile → ⊥) (λ tile. IsDataTileName name.now tile)) }
{
    match Tile::from_name(alloc, name) {
        Ok(tile) => match tile.content {
            Content::Entries => Ok(Some(tile)),
            Content::Hashes(_) => Ok(None),
        },
        Err(fault) => Unnamed::from(fault).tile,
    }
}

// Returns the index in the tile of the entry at the index `next` in the log, or `None` if the tile begins after it.
fn place_in(tile: &Tile, next: u64) -> Option<u64>
    ensures { MatchOption result (next < first_entry tile.now) (λ place. first_entry tile.now + place ≡ next) }
{
    if next / 256 < tile.index {
        return None;
    }
    Some(next - 256 * tile.index)
}

// Returns the damage that corresponds to a fault of a tile's bytes.
fn damage_of(fault: DataTileFault) -> Result<Damage, AllocError>
    ensures { IfOk result (λ d. IsDamageOf fault d) }
{
    Unread::from(fault).damage
}

// Returns the result for the bytes of a tile that has the next entry at the index `place`.
fn compare_bytes(
    alloc: Global,
    next: u64,
    place: usize,
    tile: Tile,
    bytes: &[u8],
) -> Result<DataTileAnswer, AllocError>
    requires place { first_entry tile + place ≡ next }
    requires has { HasEntry tile next }
    requires width { tile.width ≤ 256 }
    ensures { IfOk result (λ a. (name : List ℕ) → IsDataTileName name tile → IsTileAnswer next name bytes.now a) }
{
    let leaves = match tile_leaves(alloc, bytes) {
        Ok(leaves) => leaves,
        Err(fault) => {
            let damage = damage_of(fault)?;
            return Ok(DataTileAnswer::Damaged(damage));
        }
    };
    let count = leaves.len();
    if count != tile.width as usize {
        return Ok(DataTileAnswer::Damaged(Damage::OtherCount(count)));
    }
    let wrong = first_wrong(next, &leaves[place..]);
    Ok(DataTileAnswer::Entries(wrong))
}

/// Compares the bytes of a data tile with its name (C2SP static-ct-api, "Log Entries"), for a client that has read the entries of a log
/// before the index `next`. The name suffices to find that a tile begins after that index or ends before it. In these cases the bytes are
/// not read.
///
/// Allocates a list of the tile's leaves, which borrow their parts from its bytes.
///
/// # Errors
/// Memory could not be allocated.
pub fn compare_data_tile(
    alloc: Global,
    next: u64,
    name: &[u8],
    bytes: &[u8],
) -> Result<DataTileAnswer, AllocError>
    ensures { IfOk result (λ a. IsTileAnswer next name.now bytes.now a) }
{
    let Some(tile) = data_tile_named(alloc, name)? else {
        return Ok(DataTileAnswer::Damaged(Damage::NoDataTile));
    };
    let Some(place) = place_in(&tile, next) else {
        return Ok(DataTileAnswer::Gap);
    };
    if place >= u64::from(tile.width) {
        return Ok(DataTileAnswer::Known);
    }
    compare_bytes(alloc, next, place as usize, tile, bytes)
}
