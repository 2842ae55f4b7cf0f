//! The entry of a precertificate (RFC 6962, section 3.2).

ghost use Rattle.std.specs.Prelude.{◌≡◌, ◌++◌, ℕ, List, Ok, IfOk};
ghost use Rattle.ct_promise.specs.DerReading.{Gives};
ghost use Rattle.ct_promise.specs.Cuts.{parts_of, IsCutOf};
ghost use Rattle.ct_promise.specs.Reading.{parts_cut_at, without};
ghost use Rattle.ct_promise.specs.Promise.{poison_identifier, poison_text, in_document, promised_entry_at, GivesPromise, IsEntryOf};

use crate::cutting::{Cut, cut_extension, push_without};
use crate::fault::{Document, PromiseFault, Unfit};
use std::alloc::Global;

// The contents of the object identifier of the poison, 1.3.6.1.4.1.11129.2.4.3.
const POISON_IDENTIFIER: [u8; 10] = [43, 6, 1, 4, 1, 214, 121, 2, 4, 3];

// The one form of the poison: its identifier, critical, and NULL in an OCTET STRING.
const POISON: [u8; 21] = [
    48, 19, 6, 10, 43, 6, 1, 4, 1, 214, 121, 2, 4, 3, 1, 1, 255, 4, 2, 5, 0,
];

// The cut of a document's TBSCertificate.
pub(crate) fn cut_in<'a>(
    document: Document,
    identifier: &[u8],
    tbs: &'a [u8],
) -> Result<Cut<'a>, Unfit>
    ensures gives { Gives (λ c. parts_of c) result (in_document document (parts_cut_at identifier.now tbs.now)) }
    ensures cut { IfOk result (λ c. IsCutOf c) }
{
    match cut_extension(identifier, tbs) {
        Ok(cut) => Ok(cut),
        Err(fault) => Err(Unfit::Uncut(document, fault)),
    }
}

// The TBSCertificate without the part that is cut out.
pub(crate) fn without_cut(alloc: Global, cut: &Cut<'_>) -> Result<Vec<u8>, PromiseFault>
    requires { IsCutOf cut.now }
    ensures { GivesPromise (λ v. v.items) result (Ok (without (parts_of cut.now))) }
{
    let mut out = Vec::new(alloc);
    push_without(alloc, &mut out, cut)?;
    Ok(out)
}

// The entry, in terms of reading.
#[tactic(auto, unfolding(crate::specs::Promise::promised_entry_at))]
fn read_entry(alloc: Global, tbs: &[u8]) -> Result<Vec<u8>, PromiseFault>
    ensures { GivesPromise (λ v. v.items) result (promised_entry_at tbs.now) }
{
    match cut_in(Document::Certificate, &POISON_IDENTIFIER, tbs) {
        Ok(cut) => {
            if cut.cut != POISON.as_slice() {
                return Err(PromiseFault::Unfit(Unfit::BadPoison));
            }
            without_cut(alloc, &cut)
        }
        Err(unfit) => Err(PromiseFault::Unfit(unfit)),
    }
}

/// The entry of the precertificate with this TBSCertificate: the same without the poison (RFC 6962, section 3.2). It assumes that the
/// issuer of the final certificate is the issuer of this one. For a precertificate signing certificate, the caller must replace the name
/// and the key identifier.
///
/// # Errors
///
/// `Unfit`, the first fault that reading finds, or `BadPoison`; `Memory` if memory runs out.
pub fn entry_of_precertificate(alloc: Global, tbs: &[u8]) -> Result<Vec<u8>, PromiseFault>
    // The returned bytes are always the entry.
    ensures found { IfOk result (λ v. IsEntryOf tbs.now v.items) }
    // Each precertificate's entry is returned, unless memory is refused.
    ensures every { (c : List ℕ) → IsEntryOf tbs.now c → GivesPromise (λ v. v.items) result (Ok c) }
    // The fault is exactly that of reading.
    ensures exact { GivesPromise (λ v. v.items) result (promised_entry_at tbs.now) }
{
    read_entry(alloc, tbs)
}
