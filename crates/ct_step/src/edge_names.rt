//! The names of the objects that a step needs in addition to the line.

ghost use Rattle.std.specs.Prelude.{◌≡◌, ◌++◌, ◌≤◌, ℕ, map, IfOk, OnOk};
ghost use Rattle.ct_data_tiles.specs.TileNames.{IsContent};
ghost use Rattle.ct_step.specs.Needed.{partial_name, needed_names};

use crate::line::StateLine;
use ct_data_tiles::{Content, Tile};
use std::alloc::{AllocError, Global};

// Appends the name of the partial tile after the full ones, if `count` hashes or entries leave one.
fn push_partial(
    alloc: Global,
    names: &mut Vec<Vec<u8>>,
    content: Content,
    count: u64,
) -> Result<(), AllocError>
    requires { IsContent content }
    ensures { OnOk result (map (λ n. n.items) names.new.items ≡ map (λ n. n.items) names.old.items ++ partial_name content count) }
{
    let width = count % 256;
    if width == 0 {
        return Ok(());
    }
    let tile = Tile {
        content,
        index: count / 256,
        width: width as u16,
    };
    let name = tile.known_name(alloc)?;
    names.push(name)?;
    Ok(())
}

/// Returns the names of the objects that a step from this line needs: the partial tile of each level that has one, level 0 first, and the
/// partial data tile, if the log has one.
pub fn needed(alloc: Global, line: &StateLine) -> Result<Vec<Vec<u8>>, AllocError>
    ensures { IfOk result (λ names. map (λ n. n.items) names.items ≡ needed_names line.now.tree_size) }
{
    let mut names = Vec::new(alloc);
    let mut count = line.tree_size;
    for level in 0..8u8 {
        push_partial(alloc, &mut names, Content::Hashes(level), count)?;
        count /= 256;
    }
    push_partial(alloc, &mut names, Content::Entries, line.tree_size)?;
    Ok(names)
}
