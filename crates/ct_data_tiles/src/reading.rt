//! Reads tile leaves from bytes (C2SP static-ct-api, "Log Entries").

ghost use Rattle.std.specs.Prelude.{◌≡◌, ◌<◌, ◌^◌, ◌++◌, length, IfOk, IfErr};
ghost use Rattle.ct_codec.specs.Bytes.{vec};
ghost use Rattle.ct_codec.specs.Decoded.{entry_lent};
ghost use Rattle.ct_data_tiles.specs.TileLeaf.{IsBesideEntry, beside_text, AreFingerprints, BeginsWith};
ghost use Rattle.ct_data_tiles.specs.Faults.{FingerprintsFaulty, BesideFaulty, TileLeafFaulty};
ghost use Rattle.ct_data_tiles.specs.Lent.{tiled};

use crate::fault::TileFault;
use crate::leaf::TileLeaf;
use ct_codec::{DecodeFault, LentEntry, Reader, entry_at};

// Reads the fingerprints of the chain's issuers.
fn fingerprints_at<'a>(reader: &mut Reader<'a>) -> Result<&'a [u8], TileFault>
    ensures found { IfOk result (λ fs. AreFingerprints fs.now × (length fs.now < 2 ^ 16) × (reader.old ≡ vec 2 fs.now ++ reader.new)) }
    ensures fault { IfErr result (λ f. FingerprintsFaulty f reader.old) }
{
    let Some(size) = reader.number_2() else {
        return Err(TileFault::Field(DecodeFault::Truncated));
    };
    if size % 32 != 0 {
        return Err(TileFault::PartialFingerprint);
    }
    let Some(fingerprints) = reader.bytes(size as usize) else {
        return Err(TileFault::Field(DecodeFault::Truncated));
    };
    Ok(fingerprints)
}

// Reads the precertificate, or no bytes if the entry is a certificate.
fn precertificate_at<'a>(
    reader: &mut Reader<'a>,
    entry: LentEntry<'_>,
) -> Result<&'a [u8], TileFault>
    ensures found { IfOk result (λ p. IsBesideEntry (entry_lent entry.entry) p.now × (reader.old ≡ beside_text (entry_lent entry.entry) p.now ++ reader.new)) }
    ensures fault { IfErr result (λ f. BesideFaulty (entry_lent entry.entry) f reader.old) }
{
    match entry {
        LentEntry::X509(_) => Ok(&[]),
        LentEntry::Precert(_, _) => Ok(reader.certificate()?),
    }
}

/// Reads the tile leaf at the front of the bytes. The leaf borrows its parts from the bytes. It allocates no memory.
///
/// The fault is the first from the left.
#[tactic(auto, using(crate::proofs::Fields::text_of))]
pub fn tile_leaf_at<'a>(reader: &mut Reader<'a>) -> Result<TileLeaf<'a>, TileFault>
    // The bytes begin with the leaf that is returned.
    ensures found { IfOk result (λ l. BeginsWith (tiled l) reader.old reader.new) }
    // The fault that the bytes have.
    ensures fault { IfErr result (λ f. TileLeafFaulty f reader.old) }
{
    let Some(timestamp) = reader.number_8() else {
        return Err(TileFault::Field(DecodeFault::Truncated));
    };
    let entry = entry_at(reader)?;
    let Some(extensions) = reader.vector_2() else {
        return Err(TileFault::Field(DecodeFault::Truncated));
    };
    let precertificate = precertificate_at(reader, entry)?;
    let fingerprints = fingerprints_at(reader)?;
    Ok(TileLeaf {
        timestamp,
        entry,
        extensions,
        precertificate,
        fingerprints,
    })
}
