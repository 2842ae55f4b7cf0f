//! Tiles, and the texts that name them.
ghost use Rattle.std.specs.Prelude.{◌≡◌, ℕ, List, IfOk, MatchResult};
ghost use Rattle.std.specs.Bool.{MatchBool};
ghost use Rattle.ct_data_tiles.specs.TileNames.{IsTile, IsContent, name_text};
ghost use Rattle.ct_data_tiles.specs.NameAnswers.{NotWritten, NotRead};
ghost use Rattle.ct_data_tiles.specs.declared.tile.NameFault.TheVariants.{Memory};

use crate::name_reading::read_tile;
use crate::name_writing::written;
use std::alloc::{AllocError, Global};
use thiserror::Error;

/// The content of a tile.
#[derive(Clone, Copy, Debug, PartialEq, Eq)]
pub enum Content {
    /// Hashes of a level from 0 to 63. A log of C2SP tlog-tiles has the levels 0 to 5.
    Hashes(u8),
    /// The entries whose hashes are in a tile of level 0: this is a data tile.
    Entries,
}

/// A tile of a log. Any values of the fields are a `Tile`. A tile has a name only if its level is at most 63 and its width is 1 to 256.
#[derive(Clone, Copy, Debug, PartialEq, Eq)]
pub struct Tile {
    /// Its content.
    pub content: Content,
    /// Its index in its level, which begins at 0.
    pub index: u64,
    /// The number of its hashes or entries: 256, or fewer in a partial tile.
    pub width: u16,
}

/// The reason why there is no name or no tile.
#[derive(Clone, Copy, PartialEq, Eq, Debug, Error)]
pub enum NameFault {
    /// No tile has this width, this level or this name.
    #[error("there is no such tile")]
    NoSuchTile,
    /// Memory could not be allocated.
    #[error("there is no memory for the name of the tile")]
    Memory,
}

impl From<AllocError> for NameFault {
    ghost from_gives = { λ _ e. e ≡ Memory };

    fn from(_e: AllocError) -> NameFault {
        NameFault::Memory
    }
}

// Reports whether a log may have hashes of this level.
fn is_content(content: Content) -> bool
    ensures { MatchBool result (IsContent content) (IsContent content → ⊥) }
{
    match content {
        Content::Hashes(level) => level <= 63,
        Content::Entries => true,
    }
}

fn is_named(tile: Tile) -> bool
    ensures { MatchBool result (IsTile tile) (IsTile tile → ⊥) }
{
    if !is_content(tile.content) || tile.width == 0 || tile.width > 256 {
        return false;
    }
    true
}

impl Tile {
    /// Reports whether this tile has a name: its level is at most 63, and its width is 1 to 256.
    pub fn has_name(&self) -> bool
        ensures { MatchBool result (IsTile self.now) (IsTile self.now → ⊥) }
    {
        is_named(*self)
    }

    /// Returns the name as ASCII: `tile/<L>/<N>` (C2SP tlog-tiles, "Merkle Tree") or `tile/data/<N>` (C2SP static-ct-api, "Log Entries"),
    /// followed by `.p/<W>` if the width is below 256. N is the index in groups of three digits, and each group except the last has an x
    /// before it. Allocates only the name.
    pub fn name(&self, alloc: Global) -> Result<Vec<u8>, NameFault>
        ensures { MatchResult result (λ text. IsTile self.now × (text.items ≡ name_text self.now)) (NotWritten self.now) }
    {
        if !self.has_name() {
            return Err(NameFault::NoSuchTile);
        }
        Ok(written(alloc, self)?)
    }

    /// Returns the name of a tile that has one, as ASCII ([`Tile::name`]). Allocates only the name.
    pub fn known_name(&self, alloc: Global) -> Result<Vec<u8>, AllocError>
        requires { IsTile self.now }
        ensures { IfOk result (λ text. text.items ≡ name_text self.now) }
    {
        written(alloc, self)
    }

    /// Returns the tile that has this name. Allocates the name with which it compares the text.
    pub fn from_name(alloc: Global, text: &[u8]) -> Result<Tile, NameFault>
        ensures { MatchResult result (λ tile. IsTile tile × (name_text tile ≡ text.now)) (NotRead text.now) }
    {
        let Some(tile) = read_tile(text) else {
            return Err(NameFault::NoSuchTile);
        };
        let name = tile.name(alloc)?;
        if name.as_slice() == text {
            Ok(tile)
        } else {
            Err(NameFault::NoSuchTile)
        }
    }
}
