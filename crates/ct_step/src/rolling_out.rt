//! Lets anybody publish a step that was decided.

ghost use Rattle.std.specs.Prelude.{◌≡◌, ℕ, map, MatchResult};
ghost use Rattle.ct_step.specs.Bundle.{IsBundleOf};
ghost use Rattle.ct_step.specs.Resumed.{object_parts, StopsResume};
ghost use Rattle.ct_step.specs.declared.rolling_out.ResumeFault.TheVariants.{Memory};

use crate::bundle::{Object, is_bundle, objects_of};
use crate::line::StateLine;
use ct_tree::{NodeHash, is_same_digest};
use std::alloc::{AllocError, Global};
use thiserror::Error;

/// The reason why no objects are returned.
#[derive(Clone, Copy, PartialEq, Eq, Debug, Error)]
pub enum ResumeFault {
    /// The bytes do not have the digest that the line has, or they are not a staged batch.
    #[error("the bundle is not that of the state")]
    Bundle,
    /// Memory could not be allocated.
    #[error("there is no memory for the objects")]
    Memory,
}

impl From<AllocError> for ResumeFault {
    ghost from_gives = { λ _ fault. fault ≡ Memory };

    fn from(_e: AllocError) -> ResumeFault {
        ResumeFault::Memory
    }
}

/// Returns the objects of the step that made this line, in order, under their names. They borrow their parts from its staged batch. So
/// anybody who has the staged batch can publish a step whose maker died.
///
/// Allocates only the list.
///
/// # Errors
/// `Bundle` if the digest of the bytes is not the line's, or they are not a staged batch; `Memory` if they are the line's staged batch, and
/// memory could not be allocated.
pub fn resume<'a, H: NodeHash>(
    alloc: Global,
    h: &H,
    line: &StateLine,
    bundle: &'a [u8],
) -> Result<Vec<Object<'a>>, ResumeFault>
    ensures { MatchResult result (λ objects. (H.digest bundle.now ≡ line.now.bundle) × IsBundleOf (map object_parts objects.items) bundle.now)
        (StopsResume H.digest line.now bundle.now) }
{
    if !is_same_digest(&h.hash(&[bundle]), &line.bundle) {
        return Err(ResumeFault::Bundle);
    }
    if !is_bundle(bundle) {
        return Err(ResumeFault::Bundle);
    }
    Ok(objects_of(alloc, bundle)?)
}
