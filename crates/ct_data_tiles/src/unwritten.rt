//! The meaning of a refusal to write a leaf, unless memory could not be allocated.

ghost use Rattle.std.specs.Prelude.{◌≡◌, ◌≢◌, MatchResult};
ghost use Rattle.ct_codec.specs.declared.refusal.Refusal.TheVariants.{Memory};

use ct_codec::Refusal;
use std::alloc::AllocError;

// The reason why a leaf is not written, unless memory could not be allocated.
#[derive(Drop)]
pub(crate) struct Unwritten {
    pub(crate) refusal: Result<Refusal, AllocError>,
}

impl From<Refusal> for Unwritten {
    ghost from_gives = { λ refusal unwritten. MatchResult unwritten.refusal (λ _. refusal ≢ Memory) (λ _. refusal ≡ Memory) };

    fn from(refusal: Refusal) -> Unwritten {
        let refusal = match refusal {
            Refusal::Memory => Err(AllocError),
            refusal => Ok(refusal),
        };
        Unwritten { refusal }
    }
}
