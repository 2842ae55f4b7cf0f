//! Tiles that the caller passes in the order of a list.
ghost use Rattle.std.specs.Prelude.{◌≡◌, ◌*◌, ◌/◌, ◌<◌, ℕ, List, length, take, drop, All, MatchResult, IfOk};
ghost use Rattle.ct_tiles.specs.Needed.{GivesTile};
ghost use Rattle.ct_tiles.specs.declared.needed.NeededTile.{NeededTile};
ghost use Rattle.ct_tiles.specs.Handed.{contents_in, handed_fault, handed_hash, has_hash as has_hash_of, AreTilesOf};
ghost use Rattle.ct_tiles.specs.declared.handed.HandedFault.TheVariants.{Memory};

use crate::needed::NeededTile;
use crate::source::TileSource;
use std::alloc::AllocError;
use std::marker::Model;
use thiserror::Error;

/// The reason why the passed tiles lead to no result: the first tile of the list without bytes of the right length. A fault's text is its
/// name.
#[derive(Clone, Copy, Debug, PartialEq, Eq, Error)]
pub enum HandedFault {
    /// There are no bytes for this tile.
    #[error("Missing")]
    Missing(NeededTile),
    /// The bytes of this tile are not 32 for each of its hashes.
    #[error("BadLength")]
    BadLength(NeededTile),
    /// Memory could not be allocated.
    #[error("Memory")]
    Memory,
}

impl From<AllocError> for HandedFault {
    ghost from_gives = { λ _ e. e ≡ Memory };

    fn from(_e: AllocError) -> HandedFault {
        HandedFault::Memory
    }
}

/// Tiles that the caller passes, for [`crate::root_at`], [`crate::path`] and [`crate::proof`]. If no tile has the hash at an index of a
/// level, the hash is 32 zeros. Contracts see the tiles and their bytes.
#[derive(Drop)]
pub struct HandedTiles<'a> {
    tiles: &'a [NeededTile],
    contents: &'a [Vec<u8>],
}

impl<'a> Model for HandedTiles<'a> {
    ghost Value = { List NeededTile × List (List ℕ) };

    ghost view = { λ s. (s.tiles.now, contents_in s.contents.now) };
}

// Returns the fault of the first tile without bytes of the right length.
fn fault_among(mut tiles: &[NeededTile], mut contents: &[Vec<u8>]) -> Option<HandedFault>
    ensures { result ≡ handed_fault tiles.now (contents_in contents.now) }
{
    while let Some((tile, more)) = tiles.split_first() {
        let Some((content, rest)) = contents.split_first() else {
            return Some(HandedFault::Missing(*tile));
        };
        let size = content.len() as u64;
        if size % 32 != 0 || size / 32 != tile.width {
            return Some(HandedFault::BadLength(*tile));
        }
        tiles = more;
        contents = rest;
    }
    None
}

// Reports whether the bytes of a tile have the hash at an index of a level.
fn has_hash(tile: &NeededTile, content: &[u8], level: u64, index: u64) -> bool
    ensures { result ≡ has_hash_of tile.now content.now level index }
{
    if tile.level != level || tile.index > index / 256 {
        return false;
    }
    index - 256 * tile.index < content.len() as u64 / 32
}

// Returns the hash at the index `place` in the bytes of a tile.
fn hash_at(content: &[u8], place: u64) -> [u8; 32]
    requires { place < length content.now / 32 }
    ensures { result ≡ take 32 (drop (32 * place) content.now) }
{
    let start = 32 * place as usize;
    let end = start + 32;
    let mut hash = [0; 32];
    hash.copy_from_slice(&content[start..end]);
    hash
}

impl<'a> HandedTiles<'a> {
    /// Makes a source from a list of tiles, as `tiles_for_path` returns it, and their bytes in the same order: 32 for each hash, as C2SP
    /// tlog-tiles stores them. Bytes after those of the last tile are not read. Allocates no memory.
    ///
    /// Errors: `Missing` and `BadLength`, if and only if a tile has no bytes or a wrong number of them.
    pub fn new(
        tiles: &'a [NeededTile],
        contents: &'a [Vec<u8>],
    ) -> Result<HandedTiles<'a>, HandedFault>
        ensures exact { MatchResult result
            (λ s. (handed_fault tiles.now (contents_in contents.now) ≡ None) × (s ≡ (tiles.now, contents_in contents.now)))
            (λ fault. handed_fault tiles.now (contents_in contents.now) ≡ Some fault) }
        ensures gives { IfOk result (λ s. (H : List ℕ → List ℕ) (D : List (List ℕ)) → AreTilesOf H D s.0 s.1
            → All (GivesTile H (handed_hash s.0 s.1) D) s.0) }
    {
        match fault_among(tiles, contents) {
            Some(fault) => Err(fault),
            None => Ok(HandedTiles { tiles, contents }),
        }
    }
}

impl<'a> TileSource for HandedTiles<'a> {
    ghost given = { λ s. handed_hash s.0 s.1 };

    /// Returns the hash of the first tile of the list that has it. It searches at most 16 tiles, two of each level.
    fn hash(&self, level: u64, index: u64) -> [u8; 32] {
        let mut tiles = self.tiles;
        let mut contents = self.contents;
        while let Some((tile, more)) = tiles.split_first() {
            let Some((content, rest)) = contents.split_first() else {
                return [0; 32];
            };
            if has_hash(tile, content, level, index) {
                return hash_at(content, index - 256 * tile.index);
            }
            tiles = more;
            contents = rest;
        }
        [0; 32]
    }
}
