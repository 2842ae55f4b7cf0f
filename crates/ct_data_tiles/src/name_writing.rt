//! Writes the parts of a name.
ghost use Rattle.std.specs.Prelude.{◌≡◌, ◌<◌, ◌≤◌, ◌+◌, ◌%◌, ◌++◌, ℕ, OnOk, IfOk};
ghost use Rattle.ct_data_tiles.specs.TileNames.{IsTile, IsContent, name_text, three_digits, decimal, leading_groups, index_text, content_text, width_text};

use crate::tile::{Content, Tile};
use std::alloc::{AllocError, Global};

// Returns the last digit of a number.
fn digit(n: u64) -> u8
    ensures { result ≡ 48 + n % 10 }
{
    48 + (n % 10) as u8
}

fn push_three_digits(text: &mut Vec<u8>, n: u64) -> Result<(), AllocError>
    requires { n < 1000 }
    ensures { OnOk result (text.new.items ≡ text.old.items ++ three_digits n) }
{
    text.push(digit(n / 100))?;
    text.push(digit(n / 10))?;
    text.push(digit(n))?;
    Ok(())
}

fn push_decimal(text: &mut Vec<u8>, n: u64) -> Result<(), AllocError>
    requires { n < 1000 }
    ensures { OnOk result (text.new.items ≡ text.old.items ++ decimal n) }
{
    if n >= 100 {
        return push_three_digits(text, n);
    }
    if n >= 10 {
        text.push(digit(n / 10))?;
    }
    text.push(digit(n))?;
    Ok(())
}

fn push_content(text: &mut Vec<u8>, content: Content) -> Result<(), AllocError>
    requires { IsContent content }
    ensures { OnOk result (text.new.items ≡ text.old.items ++ content_text content) }
{
    match content {
        Content::Hashes(level) => push_decimal(text, u64::from(level)),
        Content::Entries => text.extend_from_slice(b"data"),
    }
}

// Writes the groups before the last one, at most `groups` of them.
fn push_leading_groups(text: &mut Vec<u8>, groups: u64, n: u64) -> Result<(), AllocError>
    ensures { OnOk result (text.new.items ≡ text.old.items ++ leading_groups groups n) }
{
    if groups == 0 || n == 0 {
        return Ok(());
    }
    push_leading_groups(text, groups - 1, n / 1000)?;
    text.push(b'x')?;
    push_three_digits(text, n % 1000)?;
    text.push(b'/')?;
    Ok(())
}

fn push_index(text: &mut Vec<u8>, n: u64) -> Result<(), AllocError>
    ensures { OnOk result (text.new.items ≡ text.old.items ++ index_text n) }
{
    push_leading_groups(text, 6, n / 1000)?;
    push_three_digits(text, n % 1000)
}

fn push_width(text: &mut Vec<u8>, width: u16) -> Result<(), AllocError>
    requires { width ≤ 256 }
    ensures { OnOk result (text.new.items ≡ text.old.items ++ width_text width) }
{
    if width == 256 {
        return Ok(());
    }
    text.extend_from_slice(b".p/")?;
    push_decimal(text, u64::from(width))
}

// Returns the name of a tile that has one.
pub(crate) fn written(alloc: Global, tile: &Tile) -> Result<Vec<u8>, AllocError>
    requires { IsTile tile.now }
    ensures { IfOk result (λ text. text.items ≡ name_text tile.now) }
{
    let mut text = Vec::new(alloc);
    text.extend_from_slice(b"tile/")?;
    push_content(&mut text, tile.content)?;
    text.push(b'/')?;
    push_index(&mut text, tile.index)?;
    push_width(&mut text, tile.width)?;
    Ok(text)
}
