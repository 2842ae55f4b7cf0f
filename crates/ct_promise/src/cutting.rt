//! One extension cut out (RFC 6962, sections 3.2 and 3.3).

ghost use Rattle.std.specs.Prelude.{◌≡◌, ◌<◌, ◌++◌, ℕ, List, length, Ok, IfOk, OnOk};
ghost use Rattle.ct_promise.specs.DerReading.{Gives};
ghost use Rattle.ct_promise.specs.DerWriting.{element_text};
ghost use Rattle.ct_promise.specs.Tbs.{Parts, IsParted, IsCutOut};
ghost use Rattle.ct_promise.specs.Reading.{before, extension_with_at, others_at, sole_at, list_at, parts_cut_at, extensions_text, without};
ghost use Rattle.ct_promise.specs.Cuts.{parts_of, IsCutOf};

use crate::fault::CutFault;
use crate::field::Place;
use crate::push_element;
use crate::reading::{after_subject_id, before, extensions_in, next_extension, only_in};
use std::alloc::{AllocError, Global};

/// A TBSCertificate with one extension cut out, as views of the input.
#[derive(Clone, Copy)]
pub struct Cut<'a> {
    /// The fields before the extensions (RFC 5280, section 4.1.2).
    pub head: &'a [u8],
    /// The extensions before the one that is cut out.
    pub front: &'a [u8],
    /// All bytes of the extension that is cut out.
    pub cut: &'a [u8],
    /// Its value: the content of its OCTET STRING.
    pub value: &'a [u8],
    /// The extensions after it.
    pub behind: &'a [u8],
}

// The bytes after all extensions, of which there are none. No extension may have this identifier.
fn after_others<'a>(identifier: &[u8], extensions: &'a [u8]) -> Result<&'a [u8], CutFault>
    ensures { Gives (λ r. r.now) result (others_at identifier.now (length extensions.now) extensions.now) }
{
    let mut rest = extensions;
    'others: while !rest.is_empty() {
        let (extension, after) = next_extension(rest)?;
        if extension.identifier == identifier {
            return Err(CutFault::SecondExtension);
        }
        rest = after;
    }
    Ok(rest)
}

// The bytes from the one extension with this identifier on, its value, and the bytes after it.
fn sole_extension<'a>(
    identifier: &[u8],
    extensions: &'a [u8],
) -> Result<(&'a [u8], &'a [u8], &'a [u8]), CutFault>
    ensures { Gives (λ x. (x.0.now, x.1.now, x.2.now)) result (sole_at identifier.now (length extensions.now) extensions.now) }
{
    let mut rest = extensions;
    'others: while !rest.is_empty() {
        let (extension, after) = next_extension(rest)?;
        if extension.identifier == identifier {
            after_others(identifier, after)?;
            return Ok((rest, extension.value, after));
        }
        rest = after;
    }
    Err(CutFault::NoExtension)
}

// The cut, in terms of reading.
#[tactic(auto, unfolding(crate::specs::Reading::parts_cut_at))]
fn read_cut<'a>(identifier: &[u8], tbs: &'a [u8]) -> Result<Cut<'a>, CutFault>
    ensures { Gives (λ c. parts_of c) result (parts_cut_at identifier.now tbs.now) }
{
    let fields = only_in(Place::Tbs, 48, tbs)?;
    let rest = after_subject_id(fields)?;
    let list = extensions_in(rest)?;
    let (from, value, behind) = sole_extension(identifier, list)?;
    Ok(Cut {
        head: before(fields, rest),
        front: before(list, from),
        cut: before(from, behind),
        value,
        behind,
    })
}

/// The one extension of a TBSCertificate with this identifier, which is the content of its OBJECT IDENTIFIER, and the parts before and
/// after it.
///
/// # Errors
///
/// `At`, the first fault that reading finds, if the bytes are not a TBSCertificate of the grammar. `NoExtension` and `SecondExtension` if
/// no extension has the identifier, or more than one has it. The bytes after the second one are not examined.
pub fn cut_extension<'a>(identifier: &[u8], tbs: &'a [u8]) -> Result<Cut<'a>, CutFault>
    // A cut is returned only if the bytes are in the grammar and have these parts.
    ensures found { IfOk result (λ c. IsParted identifier.now (parts_of c) tbs.now) }
    // The parts of each TBSCertificate with one such extension are always read.
    ensures every { (p : Parts) → IsParted identifier.now p tbs.now → Gives (λ c. parts_of c) result (Ok p) }
    // The fault is exactly that of reading.
    ensures exact { Gives (λ c. parts_of c) result (parts_cut_at identifier.now tbs.now) }
{
    read_cut(identifier, tbs)
}

// Writes the field of these extensions, or nothing if there are none.
fn push_extensions(alloc: Global, out: &mut Vec<u8>, list: &[u8]) -> Result<(), AllocError>
    requires list { length list.now < 4294967296 }
    requires field { length (element_text 48 list.now) < 4294967296 }
    ensures { OnOk result (out.new.items ≡ out.old.items ++ extensions_text list.now) }
{
    if list.is_empty() {
        return Ok(());
    }
    let mut inner = Vec::new(alloc);
    push_element(&mut inner, 48, list)?;
    push_element(out, 163, &inner)
}

// Writes the TBSCertificate without the extension, in terms of writing.
#[tactic(auto, unfolding(crate::specs::Reading::without))]
fn write_without(alloc: Global, out: &mut Vec<u8>, cut: &Cut<'_>) -> Result<(), AllocError>
    requires { IsCutOf cut.now }
    ensures { OnOk result (out.new.items ≡ out.old.items ++ without (parts_of cut.now)) }
{
    let mut list = Vec::from_slice(alloc, cut.front)?;
    list.extend_from_slice(cut.behind)?;
    let mut fields = Vec::from_slice(alloc, cut.head)?;
    push_extensions(alloc, &mut fields, &list)?;
    push_element(out, 48, &fields)
}

/// Appends to `out` the TBSCertificate of a cut, without the extension that is cut out (RFC 6962, section 3.2). All other bytes stay as
/// they are, except the lengths around them. If no extension is left, the result has no extensions field.
///
/// # Errors
///
/// Returns an error if memory runs out. Some of the bytes may have been written to `out` then.
pub fn push_without(alloc: Global, out: &mut Vec<u8>, cut: &Cut<'_>) -> Result<(), AllocError>
    requires { IsCutOf cut.now }
    ensures written { OnOk result (out.new.items ≡ out.old.items ++ without (parts_of cut.now)) }
    // The written bytes are the cut of each TBSCertificate that has these parts.
    ensures cut { (identifier b : List ℕ) → IsParted identifier (parts_of cut.now) b → IsCutOut identifier b (without (parts_of cut.now)) }
{
    write_without(alloc, out, cut)
}
