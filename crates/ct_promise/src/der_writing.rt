//! Elements written (X.690, sections 8.1 and 10.1).

ghost use Rattle.std.specs.Prelude.{◌≡◌, ◌<◌, ◌%◌, ◌++◌, length, OnOk};
ghost use Rattle.ct_promise.specs.Element.{IsTlv};
ghost use Rattle.ct_promise.specs.DerWriting.{length_octets, element_text};

use std::alloc::AllocError;

// Writes the length octets of a size, in the fewest bytes.
#[tactic(auto, unfolding(crate::specs::DerWriting::length_octets))]
fn push_length(out: &mut Vec<u8>, size: usize) -> Result<(), AllocError>
    requires { size < 4294967296 }
    ensures { OnOk result (out.new.items ≡ out.old.items ++ length_octets size) }
{
    if size < 128 {
        out.extend_from_slice(&[size as u8])
    } else if size < 256 {
        out.extend_from_slice(&[129, size as u8])
    } else if size < 65536 {
        out.extend_from_slice(&[130, (size / 256) as u8, (size % 256) as u8])
    } else if size < 16777216 {
        out.extend_from_slice(&[
            131,
            (size / 65536) as u8,
            (size / 256 % 256) as u8,
            (size % 256) as u8,
        ])
    } else {
        out.extend_from_slice(&[
            132,
            (size / 16777216) as u8,
            (size / 65536 % 256) as u8,
            (size / 256 % 256) as u8,
            (size % 256) as u8,
        ])
    }
}

/// Appends the element with this tag and this content to `out`: its only text, with the length in the fewest bytes.
///
/// # Errors
///
/// Returns an error if memory runs out. Some of the element may have been written to `out` then.
#[tactic(auto, using(crate::proofs::DerWritten::written_elements_are_there))]
pub fn push_element(out: &mut Vec<u8>, tag: u8, content: &[u8]) -> Result<(), AllocError>
    requires short { tag % 32 < 31 }
    requires fits { length content.now < 4294967296 }
    ensures written { OnOk result (out.new.items ≡ out.old.items ++ element_text tag content.now) }
    ensures element { IsTlv tag content.now (element_text tag content.now) }
{
    out.push(tag)?;
    push_length(out, content.len())?;
    out.extend_from_slice(content)
}
