//! The entries of a data tile (`ct_data_tiles`).

ghost use Rattle.std.specs.Prelude.{◌≡◌};
ghost use Rattle.libwagtenib.specs.DataTiles.{ComparesTile, IsAnswerTold, IsDamageTold, WritesTileEntries, tile_code};

use crate::codes::OUT_OF_MEMORY;
use crate::output::write_output;
use crate::{codes, leaf};
use ct_data_tiles::{
    Damage, DataTileAnswer, DataTileFault, TileFault, compare_data_tile, tile_entries_text,
};
use std::alloc::{AllocError, Global};

// The number of the fault of an entry.
fn number_of(fault: TileFault) -> u32
    ensures { result ≡ tile_code fault }
{
    match fault {
        TileFault::Field(fault) => leaf::number_of(fault),
        TileFault::PartialFingerprint => codes::PARTIAL_FINGERPRINT,
    }
}

/// Writes the entries of a data tile (C2SP static-ct-api, "Log Entries"), whatever their number: for each the bytes of the tree's leaf, and where the tile has what
/// was submitted and the fingerprints of its issuers. 17, 20, 21 or 139: an entry is none, `faulty_index` has its index in the tile, and this is its first fault
/// from the left. 8 or 9.
#[unsafe(no_mangle)]
pub extern "C" fn wagtenib_data_tile_leaves(
    alloc: Global,
    tile: &[u8],
    entries: &mut [u8],
    length: &mut u64,
    faulty_index: &mut u64,
) -> u32
    ensures { WritesTileEntries tile.now result entries.old entries.new length.old length.new faulty_index.old faulty_index.new }
{
    match tile_entries_text(alloc, tile) {
        Ok(text) => write_output(&text, entries, length),
        Err(DataTileFault::AtLeaf(index, fault)) => {
            *faulty_index = index as u64;
            number_of(fault)
        }
        Err(DataTileFault::Memory) => OUT_OF_MEMORY,
    }
}

// The number of the damage of a data tile. The index becomes that of the entry in the tile, or the number of its entries.
fn number_of_damage(damage: Damage, index: &mut u64) -> u32
    ensures { IsDamageTold damage result index.old index.new }
{
    match damage {
        Damage::NoDataTile => codes::NO_DATA_TILE,
        Damage::AtLeaf(place, fault) => {
            *index = place as u64;
            number_of(fault)
        }
        Damage::OtherCount(count) => {
            *index = count as u64;
            codes::OTHER_ENTRIES
        }
    }
}

// The number of an answer.
fn number_of_answer(answer: DataTileAnswer, index: &mut u64) -> u32
    ensures { IsAnswerTold answer result index.old index.new }
{
    match answer {
        DataTileAnswer::Gap => codes::TILE_AFTER,
        DataTileAnswer::Known => codes::TILE_BEFORE,
        DataTileAnswer::Damaged(damage) => number_of_damage(damage, index),
        DataTileAnswer::Entries(Some(wrong)) => {
            *index = wrong;
            codes::WRONG_INDEX
        }
        DataTileAnswer::Entries(None) => codes::OK,
    }
}

/// Compares the bytes of a data tile with its name (C2SP static-ct-api, "Log Entries"), for a reader that has the entries before the index `next`. 0: it is the data
/// tile of this name, it has the entry at `next`, and each entry from that one on names exactly its own index in its extensions. 150: the same, but `index` is the
/// first of these indexes in the log whose entry does not. 149: it has another number of entries, which `index` gets. 17, 20, 21 or 139: `index` is the index in the
/// tile of an entry that is none, with this first fault. 146: the name is not that of a data tile. 147: the tile begins after `next`. 148: it ends before it. The
/// bytes are not read then. 8. Only `index` is written, and only with 17 to 21, 139, 149 and 150.
#[unsafe(no_mangle)]
pub extern "C" fn wagtenib_compare_data_tile(
    alloc: Global,
    name: &[u8],
    next: u64,
    tile: &[u8],
    index: &mut u64,
) -> u32
    ensures { ComparesTile name.now next tile.now result index.old index.new }
{
    match compare_data_tile(alloc, next, name, tile) {
        Ok(answer) => number_of_answer(answer, index),
        Err(AllocError) => OUT_OF_MEMORY,
    }
}
