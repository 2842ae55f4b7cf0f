//! The entries of a data tile, as bytes.

ghost use Rattle.std.specs.Prelude.{◌≡◌, ◌⊎◌, ◌<◌, ◌^◌, ◌+◌, ◌++◌, length, IfOk, IfErr, OnOk};
ghost use Rattle.ct_codec.specs.Bytes.{num, vec};
ghost use Rattle.ct_codec.specs.Decoded.{entry_lent};
ghost use Rattle.ct_data_tiles.specs.TileLeaf.{IsBesideEntry, IsTileLeaf, beside_text, leaf_of, tile_leaf_text};
ghost use Rattle.ct_data_tiles.specs.Lent.{tiled};
ghost use Rattle.ct_data_tiles.specs.DataTile.{DataTileFaulty};
ghost use Rattle.ct_data_tiles.specs.declared.fault.DataTileFault.TheVariants.{Memory};
ghost use Rattle.ct_data_tiles.specs.TileEntries.{IsTileEntriesText, fingerprints_place, submitted_of, submitted_place, tile_entry_bytes, timestamped_of};

use crate::unwritten::Unwritten;
use crate::{DataTileFault, TileLeaf, count_tile_leaves, leaf_input, tile_leaf_at};
use ct_codec::numbers::number_bytes_8;
use ct_codec::{LentEntry, Reader};
use std::alloc::{AllocError, Global};

// Returns the certificate that was submitted for an entry, or the precertificate.
fn submitted<'a>(entry: LentEntry<'a>, precertificate: &'a [u8]) -> &'a [u8]
    ensures { result.now ≡ submitted_of (entry_lent entry.entry) precertificate.now }
{
    match entry {
        LentEntry::X509(certificate) => certificate,
        LentEntry::Precert(_, _) => precertificate,
    }
}

// Returns the byte offset in a tile leaf of the submitted certificate or precertificate, if its timestamped entry has this length in bytes.
fn place_of_submitted(entry: LentEntry<'_>, timestamped: u64) -> u64
    requires { timestamped < 2 ^ 32 }
    ensures { result ≡ submitted_place (entry_lent entry.entry) timestamped }
{
    match entry {
        LentEntry::X509(_) => 13,
        LentEntry::Precert(_, _) => timestamped + 3,
    }
}

// Returns the number of bytes that a tile leaf has for the precertificate.
#[tactic(auto, using(crate::proofs::Places::vector_length))]
fn length_beside(entry: LentEntry<'_>, precertificate: &[u8]) -> u64
    requires { IsBesideEntry (entry_lent entry) precertificate.now }
    ensures { result ≡ length (beside_text (entry_lent entry.entry) precertificate.now) }
{
    match entry {
        LentEntry::X509(_) => 0,
        LentEntry::Precert(_, _) => 3 + precertificate.len() as u64,
    }
}

// Returns the bytes of the tree's leaf.
fn input_of(alloc: Global, leaf: &TileLeaf<'_>) -> Result<Vec<u8>, AllocError>
    requires { IsTileLeaf (tiled leaf.now) }
    ensures { IfOk result (λ v. v.items ≡ leaf_of (tiled leaf.now)) }
{
    match leaf_input(alloc, leaf) {
        Ok(bytes) => Ok(bytes),
        Err(refusal) => {
            // A leaf that was read is refused for no other reason.
            let _ = Unwritten::from(refusal).refusal?;
            Ok(Vec::new(alloc))
        }
    }
}

// Appends a number in 8 bytes.
fn push_number(text: &mut Vec<u8>, number: u64) -> Result<(), AllocError>
    ensures { OnOk result (text.new.items ≡ text.old.items ++ num 8 number) }
{
    text.extend_from_slice(&number_bytes_8(number))?;
    Ok(())
}

// Appends bytes as a vector whose length has 8 bytes.
fn push_vector(text: &mut Vec<u8>, bytes: &[u8]) -> Result<(), AllocError>
    ensures { OnOk result (text.new.items ≡ text.old.items ++ vec 8 bytes.now) }
{
    push_number(text, bytes.len() as u64)?;
    text.extend_from_slice(bytes)?;
    Ok(())
}

// The byte offsets in a tile of an entry's submitted certificate or precertificate, and of its fingerprints.
#[derive(Clone, Copy)]
struct Places {
    submitted: u64,
    fingerprints: u64,
}

// Returns the offsets for a tile leaf that begins after `start` bytes of the tile, if the tree's leaf has `input` bytes.
fn places_of(start: u64, input: u64, leaf: &TileLeaf<'_>) -> Places
    requires leaf { IsTileLeaf (tiled leaf.now) }
    requires fits { start + length (tile_leaf_text (tiled leaf.now)) < 2 ^ 64 }
    requires input { input ≡ length (leaf_of (tiled leaf.now)) }
    ensures submitted { result.submitted ≡ start + submitted_place (entry_lent leaf.now.entry) (length (timestamped_of (tiled leaf.now))) }
    ensures fingerprints { result.fingerprints ≡ start + fingerprints_place (tiled leaf.now) }
{
    let timestamped = input - 2;
    let beside = length_beside(leaf.entry, leaf.precertificate);
    Places {
        submitted: start + place_of_submitted(leaf.entry, timestamped),
        fingerprints: start + timestamped + beside + 2,
    }
}

// Appends the entry of a tile leaf that begins after `start` bytes of the tile. Returns the offset at which the next one begins.
fn push_entry(
    alloc: Global,
    text: &mut Vec<u8>,
    start: u64,
    leaf: &TileLeaf<'_>,
) -> Result<u64, AllocError>
    requires leaf { IsTileLeaf (tiled leaf.now) }
    requires fits { start + length (tile_leaf_text (tiled leaf.now)) < 2 ^ 64 }
    ensures written { OnOk result (text.new.items ≡ text.old.items ++ tile_entry_bytes start (tiled leaf.now)) }
    ensures next { IfOk result (λ next. next ≡ start + length (tile_leaf_text (tiled leaf.now))) }
{
    let input = input_of(alloc, leaf)?;
    let places = places_of(start, input.len() as u64, leaf);
    let content = submitted(leaf.entry, leaf.precertificate);
    push_vector(text, &input)?;
    push_number(text, places.submitted)?;
    push_number(text, content.len() as u64)?;
    push_number(text, places.fingerprints)?;
    push_number(text, leaf.fingerprints.len() as u64)?;
    Ok(places.fingerprints + leaf.fingerprints.len() as u64)
}

// Returns the entries of the tile's leaves, one after the other.
fn text_of(alloc: Global, tile: &[u8]) -> Result<Vec<u8>, DataTileFault>
    ensures found { IfOk result (λ t. IsTileEntriesText tile.now t.items) }
    ensures fault { IfErr result (λ f. (f ≡ Memory) ⊎ DataTileFaulty f tile.now) }
{
    let mut text = Vec::new(alloc);
    let mut reader = Reader::new(tile);
    let mut start = 0;
    let mut count = 0;
    'leaves: while !reader.is_at_end() {
        match tile_leaf_at(&mut reader) {
            Ok(leaf) => {
                start = push_entry(alloc, &mut text, start, &leaf)?;
                count += 1;
            }
            Err(fault) => return Err(DataTileFault::AtLeaf(count, fault)),
        }
    }
    Ok(text)
}

/// Returns the bytes of the entries of a data tile, in order. For each entry it has the bytes of the tree's leaf (MerkleTreeLeaf, RFC 6962,
/// section 3.4). It also has the offset in the tile of the submitted certificate or precertificate, and that of the SHA-256 fingerprints of
/// its issuers. The tile may have any number of entries. The extensions of an entry are not checked.
///
/// # Errors
///
/// `AtLeaf` if the bytes are not a data tile: the index in the tile of the first entry that is missing or wrong, and its first fault.
/// `Memory` if memory could not be allocated.
pub fn tile_entries_text(alloc: Global, tile: &[u8]) -> Result<Vec<u8>, DataTileFault>
    ensures written { IfOk result (λ t. IsTileEntriesText tile.now t.items) }
    ensures refused { IfErr result (λ f. DataTileFaulty f tile.now) }
{
    count_tile_leaves(tile)?;
    text_of(alloc, tile)
}
