//! Reads whole data tiles from bytes (C2SP static-ct-api, "Log Entries").

ghost use Rattle.std.specs.Prelude.{◌≡◌, ◌≢◌, ◌⊎◌, List, length, IfOk, IfErr};
ghost use Rattle.ct_data_tiles.specs.TileLeaf.{Tiled};
ghost use Rattle.ct_data_tiles.specs.DataTile.{IsDataTile, tiled_all, DataTileFaulty, GivesTileLeaves};
ghost use Rattle.ct_data_tiles.specs.declared.fault.DataTileFault.TheVariants.{Memory};

use crate::fault::DataTileFault;
use crate::leaf::TileLeaf;
use crate::reading::tile_leaf_at;
use ct_codec::Reader;
use std::alloc::Allocator;

/// Returns the number of leaves that the bytes contain, one after the other, to their end. It allocates no memory.
///
/// The fault is the first from the left, and never `Memory`.
pub fn count_tile_leaves(bytes: &[u8]) -> Result<usize, DataTileFault>
    ensures found { IfOk result (λ count. (L : List Tiled) × IsDataTile L bytes.now × (length L ≡ count)) }
    ensures fault { IfErr result (λ f. DataTileFaulty f bytes.now) }
    ensures named { IfErr result (λ f. f ≢ Memory) }
{
    let mut reader = Reader::new(bytes);
    let mut count = 0;
    'leaves: while !reader.is_at_end() {
        match tile_leaf_at(&mut reader) {
            Ok(_) => count += 1,
            Err(fault) => return Err(DataTileFault::AtLeaf(count, fault)),
        }
    }
    Ok(count)
}

// Returns the leaves that the bytes contain, one after the other.
fn gather<'a, A: Allocator>(
    alloc: A,
    bytes: &'a [u8],
) -> Result<Vec<TileLeaf<'a>, A>, DataTileFault>
    ensures found { IfOk result (λ v. IsDataTile (tiled_all v.items) bytes.now) }
    ensures fault { IfErr result (λ f. (f ≡ Memory) ⊎ DataTileFaulty f bytes.now) }
{
    let mut leaves = Vec::new(alloc);
    let mut reader = Reader::new(bytes);
    'leaves: while !reader.is_at_end() {
        match tile_leaf_at(&mut reader) {
            Ok(leaf) => leaves.push(leaf)?,
            Err(fault) => return Err(DataTileFault::AtLeaf(leaves.len(), fault)),
        }
    }
    Ok(leaves)
}

/// Returns the leaves that the bytes of a data tile contain, one after the other, to their end. Each leaf borrows its parts from the bytes.
/// The extensions of each leaf are returned as they were read. The format does not require that they contain the leaf's index in the log.
///
/// The fault is the first from the left. The faults of the bytes are found before memory is allocated.
pub fn tile_leaves<'a, A: Allocator>(
    alloc: A,
    bytes: &'a [u8],
) -> Result<Vec<TileLeaf<'a>, A>, DataTileFault>
    // The bytes are the data tile with the leaves that are returned.
    ensures found { IfOk result (λ v. IsDataTile (tiled_all v.items) bytes.now) }
    // The bytes of a data tile are read, unless memory is refused.
    ensures every { (L : List Tiled) → IsDataTile L bytes.now → GivesTileLeaves L result }
    // The fault that the bytes have.
    ensures fault { IfErr result (λ f. DataTileFaulty f bytes.now) }
{
    count_tile_leaves(bytes)?;
    gather(alloc, bytes)
}
