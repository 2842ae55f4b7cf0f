//! The only tile of which a text can be the name.
ghost use Rattle.std.specs.Prelude.{◌≡◌, Some, ◌<◌, ◌≤◌, ◌^◌, ℕ, List, MatchOption};
ghost use Rattle.ct_data_tiles.specs.TileNames.{IsTile, name_text};
ghost use Rattle.ct_data_tiles.specs.NameReading.{with_digit, number_until, HasNumbers};

use crate::tile::{Content, Tile};

// Appends one more digit to a number. A byte that is not a digit changes nothing. Returns `None` if the number does not fit.
fn with_byte(n: u64, byte: u8) -> Option<u64>
    ensures { MatchOption result (2 ^ 64 ≤ with_digit n byte) (λ more. more ≡ with_digit n byte) }
{
    if byte < 48 || byte > 57 {
        return Some(n);
    }
    n.checked_mul(10)?.checked_add(u64::from(byte - 48))
}

// Returns the number that the digits before the byte `end` write, and the text after that byte. Returns `None` if the number does not fit.
fn number_before(text: &[u8], end: u8) -> Option<(u64, &[u8])>
    ensures { MatchOption result (2 ^ 64 ≤ (number_until end 0 text.now).0)
        (λ r. (r.0 ≡ (number_until end 0 text.now).0) × (r.1.now ≡ (number_until end 0 text.now).1)) }
{
    let mut n = 0;
    for i in 0..text.len() {
        if text[i] == end {
            return Some((n, &text[i + 1..]));
        }
        let Some(more) = with_byte(n, text[i]) else {
            return None;
        };
        n = more;
    }
    Some((n, &[]))
}

// Returns the tile with these numbers, as a text has them: a width of 0 means that the text has no width.
fn tile_of(has_entries: bool, level: u64, index: u64, width: u64) -> Option<Tile>
    ensures { (tile : Tile) → IsTile tile → HasNumbers tile has_entries level index width → result ≡ Some tile }
{
    let content = if has_entries {
        Content::Entries
    } else {
        Content::Hashes(u8::try_from(level).ok()?)
    };
    let width = if width == 0 { 256 } else { width };
    Some(Tile {
        content,
        index,
        width: u16::try_from(width).ok()?,
    })
}

/// Returns the only tile of which this text can be the name. If the text is the name of any tile, it is that of the returned one.
pub(crate) fn read_tile(text: &[u8]) -> Option<Tile>
    ensures { MatchOption result ((tile : Tile) → IsTile tile → name_text tile ≡ text.now → ⊥)
        (λ read. (tile : Tile) → IsTile tile → name_text tile ≡ text.now → tile ≡ read) }
{
    if text.len() < 6 {
        return None;
    }
    let has_entries = text[5] == b'd';
    let Some((level, behind_level)) = number_before(&text[5..], b'/') else {
        return None;
    };
    let Some((index, behind_index)) = number_before(behind_level, b'.') else {
        return None;
    };
    let Some((width, _)) = number_before(behind_index, b'.') else {
        return None;
    };
    tile_of(has_entries, level, index, width)
}
