//! Roots, audit paths and consistency proofs out of the tiles of a log (C2SP tlog-tiles; RFC 6962, section 2.1).

ghost use Rattle.std.specs.Prelude.{◌≡◌, ◌<◌, ◌≤◌, ◌⊎◌, All, IfOk, MatchResult, length, map, take, drop};
ghost use Rattle.ct_tiles.specs.Handed.{contents_in};
ghost use Rattle.ct_tiles.specs.Needed.{root_tiles, path_tiles, proof_tiles};
ghost use Rattle.libwagtenib.specs.Tiles.{root_of, path_of, proof_of, named_tile, IsNamedTile, names_text, pieces, handed_code};
ghost use Rattle.libwagtenib.specs.Tiles.{AreHanded, RefusesContents, IsRootOf, IsPathOf, IsProofOf, WritesNames, WritesRoot, WritesMade};
ghost use Rattle.libwagtenib.specs.Output.{WritesOutput};

use crate::codes;
use crate::codes::OUT_OF_MEMORY;
use crate::output::{write_hashes, write_output};
use ct_data_tiles::{Content, Tile};
use ct_tiles::{
    HandedFault, NeededTile, path_of_handed, proof_of_handed, root_of_handed, tiles_for_path,
    tiles_for_proof, tiles_for_root,
};
use ct_tree::Sha256Hash;
use std::alloc::{AllocError, Global};

// The number of a tile's fault.
fn number_of(fault: HandedFault) -> u32
    ensures { result ≡ handed_code fault }
{
    match fault {
        HandedFault::Missing(_) => codes::MISSING_TILE,
        HandedFault::BadLength(_) => codes::BAD_TILE,
        HandedFault::Memory => OUT_OF_MEMORY,
    }
}

// A tile of hashes, as its name has it.
fn named_tile(tile: &NeededTile) -> Tile
    requires { IsNamedTile tile.now }
    ensures { result ≡ named_tile tile.now }
{
    Tile {
        content: Content::Hashes(tile.level as u8),
        index: tile.index,
        width: tile.width as u16,
    }
}

// The names of tiles, each ended by a line feed.
fn names_of(alloc: Global, mut tiles: &[NeededTile]) -> Result<Vec<u8>, AllocError>
    requires { All IsNamedTile tiles.now }
    ensures { IfOk result (λ text. text.items ≡ names_text tiles.now) }
{
    let mut text = Vec::new(alloc);
    while let Some((tile, more)) = tiles.split_first() {
        let name = named_tile(tile).known_name(alloc)?;
        text.extend_from_slice(&name)?;
        text.push(b'\n')?;
        tiles = more;
    }
    Ok(text)
}

// The first bytes, so many or all, and those after them.
fn first_of(bytes: &[u8], length: u64) -> (&[u8], &[u8])
    ensures first { result.0.now ≡ take length bytes.now }
    ensures rest { result.1.now ≡ drop length bytes.now }
{
    if length >= bytes.len() as u64 {
        return (bytes, &[]);
    }
    let count = length as usize;
    (&bytes[..count], &bytes[count..])
}

// The pieces of these lengths that bytes begin with.
pub(crate) fn pieces_of(
    alloc: Global,
    mut bytes: &[u8],
    mut lengths: &[u64],
) -> Result<Vec<Vec<u8>>, AllocError>
    ensures { IfOk result (λ contents. contents_in contents.items ≡ pieces lengths.now bytes.now) }
{
    let mut contents = Vec::new(alloc);
    while let Some((length, more)) = lengths.split_first() {
        let (piece, rest) = first_of(bytes, *length);
        contents.push(Vec::from_slice(alloc, piece)?)?;
        bytes = rest;
        lengths = more;
    }
    Ok(contents)
}

// The same pieces, as parts of the bytes.
pub(crate) fn slices_of<'a>(
    alloc: Global,
    mut bytes: &'a [u8],
    mut lengths: &[u64],
) -> Result<Vec<&'a [u8]>, AllocError>
    ensures { IfOk result (λ contents. map (λ piece. piece.now) contents.items ≡ pieces lengths.now bytes.now) }
{
    let mut contents = Vec::new(alloc);
    while let Some((length, more)) = lengths.split_first() {
        let (piece, rest) = first_of(bytes, *length);
        contents.push(piece)?;
        bytes = rest;
        lengths = more;
    }
    Ok(contents)
}

// The pieces of these lengths that bytes begin with, which may be so many, or the number of the reason why they are not given.
fn handed(alloc: Global, count: usize, bytes: &[u8], lengths: &[u64]) -> Result<Vec<Vec<u8>>, u32>
    ensures { MatchResult result
        (λ v. (contents_in v.items ≡ pieces lengths.now bytes.now) × (length (pieces lengths.now bytes.now) ≤ count))
        (λ code. ((code ≡ 65) × (count < length (pieces lengths.now bytes.now))) ⊎ (code ≡ 8)) }
{
    if lengths.len() > count {
        return Err(codes::TOO_MANY_TILES);
    }
    match pieces_of(alloc, bytes, lengths) {
        Ok(contents) => Ok(contents),
        Err(AllocError) => Err(OUT_OF_MEMORY),
    }
}

// Writes the names of tiles.
fn write_names(alloc: Global, tiles: &[NeededTile], names: &mut [u8], length: &mut u64) -> u32
    requires { All IsNamedTile tiles.now }
    ensures { WritesOutput (names_text tiles.now) result names.old names.new length.new
        ⊎ ((result ≡ 8) × (names.new ≡ names.old) × (length.new ≡ length.old)) }
{
    match names_of(alloc, tiles) {
        Ok(text) => write_output(&text, names, length),
        Err(AllocError) => OUT_OF_MEMORY,
    }
}

// The tiles that the root of the first leaves is made of.
fn root_tiles(alloc: Global, size: u64) -> Result<Vec<NeededTile>, AllocError>
    requires { 0 < size }
    ensures tiles { IfOk result (λ tiles. tiles.items ≡ root_tiles size) }
    ensures named { IfOk result (λ tiles. All IsNamedTile tiles.items) }
{
    tiles_for_root(alloc, size)
}

// The tiles that an audit path is made of.
fn path_tiles(alloc: Global, index: u64, size: u64) -> Result<Vec<NeededTile>, AllocError>
    requires { index < size }
    ensures tiles { IfOk result (λ tiles. tiles.items ≡ path_tiles index size) }
    ensures named { IfOk result (λ tiles. All IsNamedTile tiles.items) }
{
    tiles_for_path(alloc, index, size)
}

// The tiles that a consistency proof is made of.
fn proof_tiles(alloc: Global, first: u64, size: u64) -> Result<Vec<NeededTile>, AllocError>
    requires positive { 0 < first }
    requires below { first < size }
    ensures tiles { IfOk result (λ tiles. tiles.items ≡ proof_tiles first size) }
    ensures named { IfOk result (λ tiles. All IsNamedTile tiles.items) }
{
    tiles_for_proof(alloc, first, size)
}

// The same out of contents that are no more than the tiles.
fn made_root(alloc: Global, size: u64, contents: &[Vec<u8>]) -> Result<[u8; 32], u32>
    requires some { 0 < size }
    requires few { length (contents_in contents.now) ≤ length (root_tiles size) }
    ensures { MatchResult result
        (λ found. AreHanded (root_of size) (contents_in contents.now) × IsRootOf size (contents_in contents.now) found)
        (λ code. RefusesContents (root_of size) (contents_in contents.now) code ⊎ (code ≡ 8)) }
{
    match root_of_handed(alloc, &Sha256Hash, size, contents) {
        Ok(found) => Ok(found),
        Err(fault) => Err(number_of(fault)),
    }
}

// The contents of its tiles, or the number of the reason why they are not given.
fn root_contents(
    alloc: Global,
    size: u64,
    bytes: &[u8],
    lengths: &[u64],
) -> Result<Vec<Vec<u8>>, u32>
    requires { 0 < size }
    ensures { MatchResult result
        (λ v. (contents_in v.items ≡ pieces lengths.now bytes.now) × (length (pieces lengths.now bytes.now) ≤ length (root_tiles size)))
        (λ code. RefusesContents (root_of size) (pieces lengths.now bytes.now) code ⊎ (code ≡ 8)) }
{
    match root_tiles(alloc, size) {
        Ok(tiles) => handed(alloc, tiles.len(), bytes, lengths),
        Err(AllocError) => Err(OUT_OF_MEMORY),
    }
}

// The root of the first leaves out of the bytes of tiles, or the number of the reason why it is not given.
fn read_root(alloc: Global, size: u64, bytes: &[u8], lengths: &[u64]) -> Result<[u8; 32], u32>
    requires { 0 < size }
    ensures { MatchResult result
        (λ found. AreHanded (root_of size) (pieces lengths.now bytes.now) × IsRootOf size (pieces lengths.now bytes.now) found)
        (λ code. RefusesContents (root_of size) (pieces lengths.now bytes.now) code ⊎ (code ≡ 8)) }
{
    match root_contents(alloc, size, bytes, lengths) {
        Ok(contents) => made_root(alloc, size, &contents),
        Err(code) => Err(code),
    }
}

// The same out of contents that are no more than the tiles.
fn made_path(
    alloc: Global,
    index: u64,
    size: u64,
    contents: &[Vec<u8>],
) -> Result<Vec<[u8; 32]>, u32>
    requires below { index < size }
    requires few { length (contents_in contents.now) ≤ length (path_tiles index size) }
    ensures { MatchResult result
        (λ found. AreHanded (path_of index size) (contents_in contents.now) × IsPathOf index size (contents_in contents.now) found.items)
        (λ code. RefusesContents (path_of index size) (contents_in contents.now) code ⊎ (code ≡ 8)) }
{
    match path_of_handed(alloc, &Sha256Hash, index, size, contents) {
        Ok(found) => Ok(found),
        Err(fault) => Err(number_of(fault)),
    }
}

// The contents of its tiles, or the number of the reason why they are not given.
fn path_contents(
    alloc: Global,
    index: u64,
    size: u64,
    bytes: &[u8],
    lengths: &[u64],
) -> Result<Vec<Vec<u8>>, u32>
    requires { index < size }
    ensures { MatchResult result
        (λ v. (contents_in v.items ≡ pieces lengths.now bytes.now) × (length (pieces lengths.now bytes.now) ≤ length (path_tiles index size)))
        (λ code. RefusesContents (path_of index size) (pieces lengths.now bytes.now) code ⊎ (code ≡ 8)) }
{
    match path_tiles(alloc, index, size) {
        Ok(tiles) => handed(alloc, tiles.len(), bytes, lengths),
        Err(AllocError) => Err(OUT_OF_MEMORY),
    }
}

// An audit path out of the bytes of tiles, or the number of the reason why it is not given.
fn read_path(
    alloc: Global,
    index: u64,
    size: u64,
    bytes: &[u8],
    lengths: &[u64],
) -> Result<Vec<[u8; 32]>, u32>
    requires { index < size }
    ensures { MatchResult result
        (λ found. AreHanded (path_of index size) (pieces lengths.now bytes.now) × IsPathOf index size (pieces lengths.now bytes.now) found.items)
        (λ code. RefusesContents (path_of index size) (pieces lengths.now bytes.now) code ⊎ (code ≡ 8)) }
{
    match path_contents(alloc, index, size, bytes, lengths) {
        Ok(contents) => made_path(alloc, index, size, &contents),
        Err(code) => Err(code),
    }
}

// The same out of contents that are no more than the tiles.
fn made_proof(
    alloc: Global,
    first: u64,
    size: u64,
    contents: &[Vec<u8>],
) -> Result<Vec<[u8; 32]>, u32>
    requires positive { 0 < first }
    requires below { first < size }
    requires few { length (contents_in contents.now) ≤ length (proof_tiles first size) }
    ensures { MatchResult result
        (λ found. AreHanded (proof_of first size) (contents_in contents.now) × IsProofOf first size (contents_in contents.now) found.items)
        (λ code. RefusesContents (proof_of first size) (contents_in contents.now) code ⊎ (code ≡ 8)) }
{
    match proof_of_handed(alloc, &Sha256Hash, first, size, contents) {
        Ok(found) => Ok(found),
        Err(fault) => Err(number_of(fault)),
    }
}

// The contents of its tiles, or the number of the reason why they are not given.
fn proof_contents(
    alloc: Global,
    first: u64,
    size: u64,
    bytes: &[u8],
    lengths: &[u64],
) -> Result<Vec<Vec<u8>>, u32>
    requires positive { 0 < first }
    requires below { first < size }
    ensures { MatchResult result
        (λ v. (contents_in v.items ≡ pieces lengths.now bytes.now) × (length (pieces lengths.now bytes.now) ≤ length (proof_tiles first size)))
        (λ code. RefusesContents (proof_of first size) (pieces lengths.now bytes.now) code ⊎ (code ≡ 8)) }
{
    match proof_tiles(alloc, first, size) {
        Ok(tiles) => handed(alloc, tiles.len(), bytes, lengths),
        Err(AllocError) => Err(OUT_OF_MEMORY),
    }
}

// A consistency proof out of the bytes of tiles, or the number of the reason why it is not given.
fn read_proof(
    alloc: Global,
    first: u64,
    size: u64,
    bytes: &[u8],
    lengths: &[u64],
) -> Result<Vec<[u8; 32]>, u32>
    requires positive { 0 < first }
    requires below { first < size }
    ensures { MatchResult result
        (λ found. AreHanded (proof_of first size) (pieces lengths.now bytes.now) × IsProofOf first size (pieces lengths.now bytes.now) found.items)
        (λ code. RefusesContents (proof_of first size) (pieces lengths.now bytes.now) code ⊎ (code ≡ 8)) }
{
    match proof_contents(alloc, first, size, bytes, lengths) {
        Ok(contents) => made_proof(alloc, first, size, &contents),
        Err(code) => Err(code),
    }
}

/// Writes the names of the tiles that the root of the first `tree_size` leaves is made of, the lowest level first, each ended by a line feed. 64: the tree has no leaves.
#[unsafe(no_mangle)]
pub extern "C" fn wagtenib_root_tiles(
    alloc: Global,
    tree_size: u64,
    names: &mut [u8],
    length: &mut u64,
) -> u32
    ensures { WritesNames (root_of tree_size) result names.old names.new length.old length.new }
{
    if tree_size == 0 {
        return codes::EMPTY_TREE;
    }
    match root_tiles(alloc, tree_size) {
        Ok(tiles) => write_names(alloc, &tiles, names, length),
        Err(AllocError) => OUT_OF_MEMORY,
    }
}

/// Writes the names of the tiles that the audit path of the leaf at an index in the tree of `tree_size` leaves is made of, the lowest level first, each ended by a
/// line feed. 1: the index is not below the size.
#[unsafe(no_mangle)]
pub extern "C" fn wagtenib_path_tiles(
    alloc: Global,
    leaf_index: u64,
    tree_size: u64,
    names: &mut [u8],
    length: &mut u64,
) -> u32
    ensures { WritesNames (path_of leaf_index tree_size) result names.old names.new length.old length.new }
{
    if leaf_index >= tree_size {
        return codes::INDEX_OUT_OF_RANGE;
    }
    match path_tiles(alloc, leaf_index, tree_size) {
        Ok(tiles) => write_names(alloc, &tiles, names, length),
        Err(AllocError) => OUT_OF_MEMORY,
    }
}

/// Writes the names of the tiles that the consistency proof from the tree of the first `first` leaves to that of `second` is made of, the lowest level first, each
/// ended by a line feed. 7: not 0 < first < second.
#[unsafe(no_mangle)]
pub extern "C" fn wagtenib_proof_tiles(
    alloc: Global,
    first: u64,
    second: u64,
    names: &mut [u8],
    length: &mut u64,
) -> u32
    ensures { WritesNames (proof_of first second) result names.old names.new length.old length.new }
{
    if first == 0 || first >= second {
        return codes::SIZES_OUT_OF_RANGE;
    }
    match proof_tiles(alloc, first, second) {
        Ok(tiles) => write_names(alloc, &tiles, names, length),
        Err(AllocError) => OUT_OF_MEMORY,
    }
}

/// Writes the root of the first `tree_size` leaves, out of the bytes of the tiles that `wagtenib_root_tiles` names, in this order. `contents` has the bytes of all tiles, one after the
/// other, and `lengths` how many each tile has. 64: the tree has no leaves. 65 to 67: the tiles are not as they must be.
#[unsafe(no_mangle)]
pub extern "C" fn wagtenib_root_of_tiles(
    alloc: Global,
    tree_size: u64,
    contents: &[u8],
    lengths: &[u64],
    root: &mut [u8; 32],
) -> u32
    ensures { WritesRoot tree_size (pieces lengths.now contents.now) result root.old root.new }
{
    if tree_size == 0 {
        return codes::EMPTY_TREE;
    }
    match read_root(alloc, tree_size, contents, lengths) {
        Ok(found) => {
            *root = found;
            codes::OK
        }
        Err(code) => code,
    }
}

/// Writes the audit path of the leaf at an index in the tree of `tree_size` leaves, out of the bytes of the tiles that `wagtenib_path_tiles` names, in this order,
/// as `wagtenib_root_of_tiles` does. 1: the index is not below the size. 65 to 67: the tiles are not as they must be. Whatever the tiles are, a verifier that
/// accepts the hashes is not deceived by them.
#[unsafe(no_mangle)]
pub extern "C" fn wagtenib_path_of_tiles(
    alloc: Global,
    leaf_index: u64,
    tree_size: u64,
    contents: &[u8],
    lengths: &[u64],
    path: &mut [[u8; 32]],
    count: &mut u64,
) -> u32
    ensures { WritesMade (path_of leaf_index tree_size) (pieces lengths.now contents.now) (IsPathOf leaf_index tree_size (pieces lengths.now contents.now))
        result path.old path.new count.old count.new }
{
    if leaf_index >= tree_size {
        return codes::INDEX_OUT_OF_RANGE;
    }
    match read_path(alloc, leaf_index, tree_size, contents, lengths) {
        Ok(found) => write_hashes(&found, path, count),
        Err(code) => code,
    }
}

/// Writes the consistency proof from the tree of the first `first` leaves to that of `second`, out of the bytes of the tiles that `wagtenib_proof_tiles` names, in
/// this order, as `wagtenib_root_of_tiles` does. 7: not 0 < first < second. 65 to 67: the tiles are not as they must be. Whatever the tiles are, a verifier that
/// accepts the hashes is not deceived by them.
#[unsafe(no_mangle)]
pub extern "C" fn wagtenib_proof_of_tiles(
    alloc: Global,
    first: u64,
    second: u64,
    contents: &[u8],
    lengths: &[u64],
    proof: &mut [[u8; 32]],
    count: &mut u64,
) -> u32
    ensures { WritesMade (proof_of first second) (pieces lengths.now contents.now) (IsProofOf first second (pieces lengths.now contents.now)) result proof.old proof.new count.old count.new }
{
    if first == 0 || first >= second {
        return codes::SIZES_OUT_OF_RANGE;
    }
    match read_proof(alloc, first, second, contents, lengths) {
        Ok(found) => write_hashes(&found, proof, count),
        Err(code) => code,
    }
}
