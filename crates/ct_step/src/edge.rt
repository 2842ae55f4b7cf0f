//! The contents at a log's right edge, in the form that a step takes.

ghost use Rattle.std.specs.Prelude.{◌≡◌, ℕ, List, IfOk, map, option_map};
ghost use Rattle.ct_step.specs.StepAnswers.{edge_part, edge_of};

use std::alloc::{AllocError, Global};

// Returns the bytes of the partial tile that `count` hashes or entries leave, which are empty if they leave none, and the contents after
// them.
fn part_of<'a>(count: u64, contents: &'a [Vec<u8>]) -> Option<(&'a [u8], &'a [Vec<u8>])>
    ensures { option_map {U = List ℕ × List (List ℕ)} (λ p. (p.0.now, map (λ b. b.items) p.1.now)) result ≡ edge_part count (map (λ b. b.items) contents.now) }
{
    if count % 256 == 0 {
        return Some((&[], contents));
    }
    match contents.split_first() {
        Some((first, rest)) => Some((first.as_slice(), rest)),
        None => None,
    }
}

// Returns the bytes of the 8 partial tiles of a log of this size, and those of its partial data tile, or None if there are more or fewer
// contents than these.
pub(crate) fn edge_of<'a>(
    alloc: Global,
    size: u64,
    contents: &'a [Vec<u8>],
) -> Result<Option<(Vec<Vec<u8>>, &'a [u8])>, AllocError>
    ensures { IfOk result (λ o. option_map {U = List (List ℕ) × List ℕ} (λ e. (map (λ t. t.items) e.0.items, e.1.now)) o ≡ edge_of size (map (λ b. b.items) contents.now)) }
{
    let mut tiles = Vec::new(alloc);
    let mut count = size;
    let mut rest = contents;
    for level in 0..8u64 {
        let Some((part, behind)) = part_of(count, rest) else {
            return Ok(None);
        };
        tiles.push(Vec::from_slice(alloc, part)?)?;
        count /= 256;
        rest = behind;
    }
    let Some((entries, left)) = part_of(size, rest) else {
        return Ok(None);
    };
    if left.is_empty() {
        Ok(Some((tiles, entries)))
    } else {
        Ok(None)
    }
}
