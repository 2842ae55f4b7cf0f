//! The bytes of a leaf in parts, without copies of the submission's bytes.

ghost use Rattle.std.specs.Prelude.{◌≡◌, ◌<◌, ◌^◌, ◌++◌, ◌∷◌, [], ℕ, List, map};
ghost use Rattle.ct_codec.specs.Bytes.{num, vec};
ghost use Rattle.ct_codec.specs.Leaf.{LeafText};
ghost use Rattle.ct_codec.specs.Submitted.{entry_of};
ghost use Rattle.ct_codec.specs.Parts.{joined};

use crate::numbers::{number_bytes_2, number_bytes_3, number_bytes_8};
use crate::submission::Submission;
use crate::writing::type_and_key_hash;
use std::alloc::Allocator;
use std::marker::Model;

/// The bytes of a submission's leaf in five parts. Contracts see it as the list of the parts.
#[derive(Drop)]
pub struct LeafParts<'a> {
    head: [u8; 12],
    key_hash: &'a [u8],
    size: [u8; 3],
    certificate: &'a [u8],
    end: [u8; 2],
}

impl<'a> Model for LeafParts<'a> {
    ghost Value = { List (List ℕ) };

    ghost view = { λ p. p.head ∷ p.key_hash.now ∷ p.size ∷ p.certificate.now ∷ p.end ∷ [] };
}

// The bytes before the signed entry: the version, the leaf type, the timestamp and the entry type.
#[tactic(auto, unfolding(crate::specs::Bytes::num))]
fn leaf_head(timestamp: u64, entry_type: u16) -> [u8; 12]
    ensures { result ≡ 0 ∷ 0 ∷ (num 8 timestamp ++ num 2 entry_type) }
{
    let t = number_bytes_8(timestamp);
    let e = number_bytes_2(entry_type);
    [
        0, 0, t[0], t[1], t[2], t[3], t[4], t[5], t[6], t[7], e[0], e[1],
    ]
}

/// The parts of the submission's leaf with this timestamp, in milliseconds, and no extensions. Joined, they are the bytes that `leaf_input`
/// writes. It takes no memory.
pub fn leaf_parts<S: Allocator>(submission: &Submission<S>, timestamp: u64) -> LeafParts<'_>
    ensures { LeafText timestamp (entry_of submission.now) [] (joined result) }
{
    submission.in_range();
    let (entry_type, key_hash) = type_and_key_hash(submission);
    let certificate = submission.signed();
    let head = leaf_head(timestamp, entry_type);
    let size = number_bytes_3(certificate.len() as u32);
    let end = number_bytes_2(0);
    LeafParts {
        head,
        key_hash,
        size,
        certificate,
        end,
    }
}

// Five slices side by side.
fn five_slices<'a>(a: &'a [u8], b: &'a [u8], c: &'a [u8], d: &'a [u8], e: &'a [u8]) -> [&'a [u8]; 5]
    ensures { map (λ p. p.now) result ≡ a.now ∷ b.now ∷ c.now ∷ d.now ∷ e.now ∷ [] }
{
    [a, b, c, d, e]
}

impl<'a> LeafParts<'a> {
    /// The parts:
    /// - the 12 bytes up to and including the entry type,
    /// - the hash of the issuer's key (no bytes for a certificate),
    /// - the length, in 3 bytes,
    /// - the certificate or TBSCertificate,
    /// - the length of the extensions.
    pub fn parts(&self) -> [&[u8]; 5]
        ensures { map (λ p. p.now) result ≡ self.now }
    {
        five_slices(
            &self.head,
            self.key_hash,
            &self.size,
            self.certificate,
            &self.end,
        )
    }
}
