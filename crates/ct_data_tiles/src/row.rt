//! The data tiles that change or are new if entries are added.

ghost use Rattle.std.specs.Prelude.{◌≡◌, ℕ, List, map, IfOk};
ghost use Rattle.ct_data_tiles.specs.Rows.{IsPartialTile, IsDataRow};

use std::alloc::{AllocError, Global};

/// The data tiles of a log from an index on.
#[derive(Drop)]
pub struct DataRow {
    /// The index of the first of them.
    pub first: u64,
    /// The bytes of the full tiles, in order.
    pub full: Vec<Vec<u8>>,
    /// The bytes of the partial tile after them, of 0 to 255 entries.
    pub partial: Vec<u8>,
}

/// Adds the texts of more entries, in order, to a log of `size` entries whose partial data tile has these bytes. Returns the tiles from
/// that one on. If the partial tile becomes full, it is the first of the full ones.
///
/// Allocates copies of the partial tile and of the texts.
pub fn add_entries(
    alloc: Global,
    size: u64,
    partial: &[u8],
    texts: &[Vec<u8>],
) -> Result<DataRow, AllocError>
    ensures { IfOk result (λ r. (L : List (List ℕ)) → IsPartialTile L size partial.now → IsDataRow L (map (λ t. t.items) texts.now) r) }
{
    let mut full = Vec::new(alloc);
    let mut open = Vec::from_slice(alloc, partial)?;
    let mut count = size % 256;
    for text in texts {
        open.extend_from_slice(text)?;
        count += 1;
        if count == 256 {
            full.push(open)?;
            open = Vec::new(alloc);
            count = 0;
        }
    }
    Ok(DataRow {
        first: size / 256,
        full,
        partial: open,
    })
}
