//! Fields read from the front of an input (RFC 5246 section 4), without taking memory.

ghost use Rattle.std.specs.Prelude.{◌≡◌, ◌<◌, ◌^◌, ◌++◌, ◌∷◌, ◌==◌, ℕ, List, length, IfSome, IfNone, IfOk, IfErr};
ghost use Rattle.ct_codec.specs.Bytes.{num, vec};
ghost use Rattle.ct_codec.specs.Leaf.{IsCertificate};
ghost use Rattle.ct_codec.specs.Faults.{VectorCut, VectorFaulty};

use crate::fault::DecodeFault;
use crate::numbers::{number_of_2, number_of_3, number_of_8};
use std::marker::Model;

/// The remaining bytes of an input. Contracts see it as the list of the bytes that were not read yet.
///
/// Each method reads one field from the front. If the field is missing, nothing more may be read.
#[derive(Drop)]
pub struct Reader<'a> {
    rest: &'a [u8],
}

impl<'a> Model for Reader<'a> {
    ghost Value = { List ℕ };

    ghost view = { λ r. r.rest.now };
}

impl<'a> Reader<'a> {
    /// A reader that starts at the first of the bytes.
    pub fn new(bytes: &'a [u8]) -> Reader<'a>
        ensures { result ≡ bytes.now }
    {
        Reader { rest: bytes }
    }

    /// Reports whether everything was read.
    pub fn is_at_end(&self) -> bool
        ensures { result ≡ (length self.now == 0) }
    {
        self.rest.is_empty()
    }

    /// The next bytes, `count` of them.
    pub fn bytes(&mut self, count: usize) -> Option<&'a [u8]>
        ensures some { IfSome result (λ b. (length b.now ≡ count) × (self.old ≡ b.now ++ self.new)) }
        ensures none { IfNone result (length self.old < count) }
    {
        let (bytes, rest) = self.rest.split_at_checked(count)?;
        self.rest = rest;
        Some(bytes)
    }

    /// A number of one byte.
    pub fn number_1(&mut self) -> Option<u8>
        ensures some { IfSome result (λ n. self.old ≡ n ∷ self.new) }
        ensures none { IfNone result (length self.old < 1) }
    {
        let (field, rest) = self.rest.split_first()?;
        self.rest = rest;
        Some(*field)
    }

    /// A number of two bytes.
    #[tactic(auto, using(crate::proofs::Leaves::field_front))]
    pub fn number_2(&mut self) -> Option<u16>
        ensures some { IfSome result (λ n. self.old ≡ num 2 n ++ self.new) }
        ensures fits { IfSome result (λ n. n < 2 ^ 16) }
        ensures none { IfNone result (length self.old < 2) }
    {
        let (field, rest) = self.rest.split_first_chunk::<2>()?;
        self.rest = rest;
        Some(number_of_2(field))
    }

    /// A number of three bytes.
    #[tactic(auto, using(crate::proofs::Leaves::field_front))]
    pub fn number_3(&mut self) -> Option<u32>
        ensures some { IfSome result (λ n. self.old ≡ num 3 n ++ self.new) }
        ensures fits { IfSome result (λ n. n < 2 ^ 24) }
        ensures none { IfNone result (length self.old < 3) }
    {
        let (field, rest) = self.rest.split_first_chunk::<3>()?;
        self.rest = rest;
        Some(number_of_3(field))
    }

    /// A number of eight bytes.
    #[tactic(auto, using(crate::proofs::Leaves::field_front))]
    pub fn number_8(&mut self) -> Option<u64>
        ensures some { IfSome result (λ n. self.old ≡ num 8 n ++ self.new) }
        ensures fits { IfSome result (λ n. n < 2 ^ 64) }
        ensures none { IfNone result (length self.old < 8) }
    {
        let (field, rest) = self.rest.split_first_chunk::<8>()?;
        self.rest = rest;
        Some(number_of_8(field))
    }

    /// The hash of a key: 32 bytes.
    pub fn key_hash(&mut self) -> Option<&'a [u8; 32]>
        ensures some { IfSome result (λ k. (length k.now ≡ 32) × (self.old ≡ k.now ++ self.new)) }
        ensures none { IfNone result (length self.old < 32) }
    {
        let (field, rest) = self.rest.split_first_chunk::<32>()?;
        self.rest = rest;
        Some(field)
    }

    /// A certificate or TBSCertificate: a vector of 1 to 2^24 - 1 bytes.
    pub fn certificate(&mut self) -> Result<&'a [u8], DecodeFault>
        ensures found { IfOk result (λ c. IsCertificate c.now × (self.old ≡ vec 3 c.now ++ self.new)) }
        ensures fault { IfErr result (λ f. VectorFaulty f self.old) }
    {
        let Some(size) = self.number_3() else {
            return Err(DecodeFault::Truncated);
        };
        if size == 0 {
            return Err(DecodeFault::EmptyVector);
        }
        let Some(certificate) = self.bytes(size as usize) else {
            return Err(DecodeFault::Truncated);
        };
        Ok(certificate)
    }

    /// A vector with a length of two bytes.
    pub fn vector_2(&mut self) -> Option<&'a [u8]>
        ensures some { IfSome result (λ x. (length x.now < 2 ^ 16) × (self.old ≡ vec 2 x.now ++ self.new)) }
        ensures none { IfNone result (VectorCut 2 self.old) }
    {
        let Some(size) = self.number_2() else {
            return None;
        };
        let Some(content) = self.bytes(size as usize) else {
            return None;
        };
        Some(content)
    }

    /// A vector with a length of three bytes.
    pub fn vector_3(&mut self) -> Option<&'a [u8]>
        ensures some { IfSome result (λ x. (length x.now < 2 ^ 24) × (self.old ≡ vec 3 x.now ++ self.new)) }
        ensures none { IfNone result (VectorCut 3 self.old) }
    {
        let Some(size) = self.number_3() else {
            return None;
        };
        let Some(content) = self.bytes(size as usize) else {
            return None;
        };
        Some(content)
    }
}
