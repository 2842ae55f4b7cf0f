//! Writes the bytes of tile leaves (C2SP static-ct-api, "Log Entries").

ghost use Rattle.std.specs.Prelude.{◌≡◌, ◌<◌, ◌^◌, ◌++◌, length, IfOk, OnOk, IsOkUnless};
ghost use Rattle.ct_codec.specs.Bytes.{vec};
ghost use Rattle.ct_codec.specs.Leaf.{IsEntry, entry_text, timestamped_text};
ghost use Rattle.ct_codec.specs.Decoded.{entry_lent};
ghost use Rattle.ct_codec.specs.declared.refusal.Refusal.TheVariants as Refusal;
ghost use Rattle.ct_data_tiles.specs.TileLeaf.{IsTileLeaf, IsBesideEntry, beside_text, tile_leaf_text, leaf_of};
ghost use Rattle.ct_data_tiles.specs.Lent.{tiled};

use crate::leaf::TileLeaf;
use ct_codec::numbers::{number_bytes_2, number_bytes_8};
use ct_codec::{LentEntry, Refusal, push_vector};
use std::alloc::Allocator;

// Writes the entry type and the signed entry.
fn push_entry<A: Allocator>(out: &mut Vec<u8, A>, entry: LentEntry<'_>) -> Result<(), Refusal>
    requires { IsEntry (entry_lent entry) }
    ensures written { OnOk result (out.new.items ≡ out.old.items ++ entry_text (entry_lent entry.entry)) }
    ensures memory { IsOkUnless result Refusal.Memory }
{
    match entry {
        LentEntry::X509(certificate) => {
            out.extend_from_slice(&number_bytes_2(0))?;
            push_vector(out, certificate)
        }
        LentEntry::Precert(key_hash, tbs) => {
            out.extend_from_slice(&number_bytes_2(1))?;
            out.extend_from_slice(&key_hash)?;
            push_vector(out, tbs)
        }
    }
}

// Writes bytes as a vector whose length has two bytes.
fn push_vector_2<A: Allocator>(out: &mut Vec<u8, A>, bytes: &[u8]) -> Result<(), Refusal>
    requires { length bytes.now < 2 ^ 16 }
    ensures written { OnOk result (out.new.items ≡ out.old.items ++ vec 2 bytes.now) }
    ensures memory { IsOkUnless result Refusal.Memory }
{
    out.extend_from_slice(&number_bytes_2(bytes.len() as u16))?;
    out.extend_from_slice(bytes)?;
    Ok(())
}

// Writes the timestamped entry (TimestampedEntry, RFC 6962 section 3.4).
fn push_timestamped<A: Allocator>(out: &mut Vec<u8, A>, leaf: &TileLeaf<'_>) -> Result<(), Refusal>
    requires { IsTileLeaf (tiled leaf.now) }
    ensures written { OnOk result (out.new.items ≡ out.old.items ++ timestamped_text leaf.now.timestamp (entry_lent leaf.now.entry) leaf.now.extensions.now) }
    ensures memory { IsOkUnless result Refusal.Memory }
{
    out.extend_from_slice(&number_bytes_8(leaf.timestamp))?;
    push_entry(out, leaf.entry)?;
    push_vector_2(out, leaf.extensions)
}

// Writes the precertificate as a vector if the entry is that of a precertificate.
fn push_beside<A: Allocator>(
    out: &mut Vec<u8, A>,
    entry: LentEntry<'_>,
    precertificate: &[u8],
) -> Result<(), Refusal>
    requires { IsBesideEntry (entry_lent entry) precertificate.now }
    ensures written { OnOk result (out.new.items ≡ out.old.items ++ beside_text (entry_lent entry.entry) precertificate.now) }
    ensures memory { IsOkUnless result Refusal.Memory }
{
    match entry {
        LentEntry::X509(_) => Ok(()),
        LentEntry::Precert(_, _) => push_vector(out, precertificate),
    }
}

/// Appends a tile leaf to the bytes.
pub fn push_tile_leaf<A: Allocator>(
    out: &mut Vec<u8, A>,
    leaf: &TileLeaf<'_>,
) -> Result<(), Refusal>
    requires { IsTileLeaf (tiled leaf.now) }
    ensures written { OnOk result (out.new.items ≡ out.old.items ++ tile_leaf_text (tiled leaf.now)) }
    ensures memory { IsOkUnless result Refusal.Memory }
{
    push_timestamped(out, leaf)?;
    push_beside(out, leaf.entry, leaf.precertificate)?;
    push_vector_2(out, leaf.fingerprints)
}

/// Returns the bytes of the tree's leaf (MerkleTreeLeaf, RFC 6962 section 3.4) that a tile leaf holds.
pub fn leaf_input<A: Allocator>(alloc: A, leaf: &TileLeaf<'_>) -> Result<Vec<u8, A>, Refusal>
    requires { IsTileLeaf (tiled leaf.now) }
    ensures text { IfOk result (λ b. b.items ≡ leaf_of (tiled leaf.now)) }
    ensures memory { IsOkUnless result Refusal.Memory }
{
    let mut bytes = Vec::new(alloc);
    bytes.extend_from_slice(&[0, 0])?;
    push_timestamped(&mut bytes, leaf)?;
    Ok(bytes)
}
