//! Writes the objects of a step into its staged batch.

ghost use Rattle.std.specs.Prelude.{◌≡◌, ◌⊎◌, ◌+◌, ◌-◌, ◌*◌, ◌/◌, ◌<◌, ◌≤◌, ◌^◌, ◌++◌, ◌∷◌, [], ℕ, List, length, map, All, OnOk, IfOk};
ghost use Rattle.std.specs.Bool.{MatchBool};
ghost use Rattle.ct_data_tiles.specs.Rows.{data_tile, data_tiles_from, IsDataRow};
ghost use Rattle.ct_data_tiles.specs.TileNames.{IsTile, name_text};
ghost use Rattle.ct_data_tiles.specs.declared.tile.Content.TheVariants.{Hashes, Entries};
ghost use Rattle.ct_tiles.specs.Tiles.{rows};
ghost use Rattle.ct_step.specs.Bundle.{bundled_text, bundle_text, IsBundleOf};
ghost use Rattle.ct_step.specs.Objects.{named, entry_object, each_from, cut_object, cut_level, level_objects, data_objects, FitsInBundle, row_tiles};

use crate::push_object;
use ct_data_tiles::{Content, DataRow, Tile};
use ct_tiles::Row;
use std::alloc::{AllocError, Global};

// Appends a tile under its name to the other objects.
#[tactic(auto, using(crate::proofs::Loops::name_is_short))]
fn push_tile(
    alloc: Global,
    bundle: &mut Vec<u8>,
    tile: &Tile,
    content: &[u8],
) -> Result<(), AllocError>
    requires tile { IsTile tile.now }
    requires content { length content.now < 2 ^ 32 }
    ensures { OnOk result (bundle.new.items ≡ bundle.old.items ++ bundled_text (name_text tile.now, content.now)) }
{
    let name = tile.known_name(alloc)?;
    push_object(bundle, &name, content)
}

// Writes a tile of hashes.
fn push_hashes(
    alloc: Global,
    bundle: &mut Vec<u8>,
    level: u8,
    index: u64,
    hashes: &[[u8; 32]],
) -> Result<(), AllocError>
    requires level { level < 8 }
    requires some { 1 ≤ length hashes.now }
    requires most { length hashes.now ≤ 256 }
    ensures { OnOk result (bundle.new.items ≡ bundle.old.items ++ bundled_text (named (Hashes level) index hashes.now)) }
{
    let tile = Tile {
        content: Content::Hashes(level),
        index,
        width: hashes.len() as u16,
    };
    push_tile(alloc, bundle, &tile, hashes.as_flattened())
}

// Returns the number of hashes in the tile that begins with the hash at index `start`, of `count` hashes.
fn width_at(count: usize, start: usize) -> usize
    requires { start < count }
    ensures some { 1 ≤ result }
    ensures most { result ≤ 256 }
    ensures within { start + result ≤ count }
    ensures all { (result ≡ 256) ⊎ (count ≡ start + result) }
{
    let left = count - start;
    if left < 256 { left } else { 256 }
}

// Writes the tiles of a level's hashes, the first of which has the index `first`.
fn push_level(
    alloc: Global,
    bundle: &mut Vec<u8>,
    level: u8,
    first: u64,
    hashes: &[[u8; 32]],
) -> Result<(), AllocError>
    requires level { level < 8 }
    requires first { first ≤ 2 ^ 40 }
    ensures { OnOk result (bundle.new.items ≡ bundle.old.items ++ bundle_text (each_from (cut_object level first hashes.now) 0 ((length hashes.now + 255) / 256))) }
{
    let count = (hashes.len() + 255) / 256;
    for place in 0..count {
        let start = 256 * place;
        let end = start + width_at(hashes.len(), start);
        push_hashes(
            alloc,
            bundle,
            level,
            first + place as u64,
            &hashes[start..end],
        )?;
    }
    Ok(())
}

// Writes the tiles of a level that had `known` hashes, if it has more now. The given hashes begin with the tile that was partial.
fn push_grown(
    alloc: Global,
    bundle: &mut Vec<u8>,
    level: u8,
    known: u64,
    hashes: &[[u8; 32]],
) -> Result<(), AllocError>
    requires level { level < 8 }
    requires known { known ≤ 2 ^ 40 }
    ensures { OnOk result (bundle.new.items ≡ bundle.old.items ++ bundle_text (cut_level level known hashes.now)) }
{
    if hashes.len() as u64 <= known % 256 {
        return Ok(());
    }
    push_level(alloc, bundle, level, known / 256, hashes)
}

// Writes the tiles of all levels that are new or change if these rows are added to a log of `size` leaves.
pub(crate) fn push_levels(
    alloc: Global,
    bundle: &mut Vec<u8>,
    size: u64,
    level_rows: &[Row],
) -> Result<(), AllocError>
    requires { size ≤ 2 ^ 40 }
    ensures { OnOk result ((H : List ℕ → List ℕ) (D B : List (List ℕ)) → size ≡ length D → row_tiles level_rows.now ≡ rows H 256 8 D B
        → bundle.new.items ≡ bundle.old.items ++ bundle_text (level_objects H 8 D B)) }
{
    let mut known = size;
    for level in 0..8u8 {
        let place = usize::from(level);
        if place >= level_rows.len() {
            return Ok(());
        }
        push_grown(alloc, bundle, level, known, &level_rows[place].hashes)?;
        known /= 256;
    }
    Ok(())
}

// Reports whether each has fewer than 2^32 bytes.
fn are_short(tiles: &[Vec<u8>]) -> bool
    ensures { MatchBool result (All FitsInBundle (map (λ t. t.items) tiles.now)) (All FitsInBundle (map (λ t. t.items) tiles.now) → ⊥) }
{
    for tile in tiles {
        if tile.len() >= 4_294_967_296 {
            return false;
        }
    }
    true
}

// Reports whether each of the data tiles has fewer than 2^32 bytes.
pub(crate) fn fits(row: &DataRow) -> bool
    ensures { MatchBool result (All FitsInBundle (map (λ t. t.items) row.now.full.items ++ row.now.partial.items ∷ []))
        (All FitsInBundle (map (λ t. t.items) row.now.full.items ++ row.now.partial.items ∷ []) → ⊥) }
{
    if row.partial.len() >= 4_294_967_296 {
        return false;
    }
    are_short(&row.full)
}

// Writes full data tiles, the first of which has the index `first`.
fn push_full(
    alloc: Global,
    bundle: &mut Vec<u8>,
    first: u64,
    tiles: &[Vec<u8>],
) -> Result<(), AllocError>
    requires first { first ≤ 2 ^ 40 }
    requires short { All FitsInBundle (map (λ t. t.items) tiles.now) }
    ensures { OnOk result ((M : List (List ℕ)) → map (λ t. t.items) tiles.now ≡ data_tiles_from first (length tiles.now) M → 256 * (first + length tiles.now) ≤ length M
        → bundle.new.items ≡ bundle.old.items ++ bundle_text (each_from (entry_object M) first (length tiles.now))) }
{
    let mut index = first;
    for content in tiles {
        let tile = Tile {
            content: Content::Entries,
            index,
            width: 256,
        };
        push_tile(alloc, bundle, &tile, content)?;
        index += 1;
    }
    Ok(())
}

// Writes the data tiles that are new or change if `count` entries are added to a log of `size` entries.
pub(crate) fn push_entries(
    alloc: Global,
    bundle: &mut Vec<u8>,
    size: u64,
    count: u64,
    row: &DataRow,
) -> Result<(), AllocError>
    requires size { size + count ≤ 2 ^ 40 }
    requires short { All FitsInBundle (map (λ t. t.items) row.now.full.items ++ row.now.partial.items ∷ []) }
    ensures { OnOk result ((L N : List (List ℕ)) → size ≡ length L → count ≡ length N → IsDataRow L N row.now
        → bundle.new.items ≡ bundle.old.items ++ bundle_text (data_objects L N)) }
{
    if count == 0 {
        return Ok(());
    }
    push_full(alloc, bundle, size / 256, &row.full)?;
    let width = (size + count) % 256;
    if width == 0 {
        return Ok(());
    }
    let tile = Tile {
        content: Content::Entries,
        index: (size + count) / 256,
        width: width as u16,
    };
    push_tile(alloc, bundle, &tile, &row.partial)
}
