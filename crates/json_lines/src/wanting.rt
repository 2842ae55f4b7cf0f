//! Running out of memory, as an error of a crate below reports it, as opposed to an error in a text. Elsewhere such an error is passed on
//! by `?`.

ghost use Rattle.std.specs.Prelude.{◌≡◌, ◌≢◌, None, MatchResult};
ghost use Rattle.base64.specs.declared.decode.DecodeAllocError.TheVariants.{OutOfMemory};
ghost use Rattle.serde_json.specs.Errors.{IsMemory};

use base64::DecodeAllocError;
use serde_json::{Error, Value};
use std::alloc::AllocError;

// The result for a text that was not decoded: it represents no bytes, unless memory was refused.
#[derive(Drop)]
pub(crate) struct Undecoded {
    pub(crate) bytes: Result<Option<Vec<u8>>, AllocError>,
}

impl From<DecodeAllocError> for Undecoded {
    ghost from_gives = { λ error undecoded. MatchResult undecoded.bytes (λ o. (o ≡ None) × (error ≢ OutOfMemory)) (λ _. error ≡ OutOfMemory) };

    fn from(error: DecodeAllocError) -> Undecoded {
        let bytes = match error {
            DecodeAllocError::DecodeError(_) => Ok(None),
            DecodeAllocError::OutOfMemory => Err(AllocError),
        };
        Undecoded { bytes }
    }
}

// The result for a text that was not read as JSON: it is no value, unless memory was refused.
#[derive(Drop)]
pub(crate) struct Unread {
    pub(crate) value: Result<Option<Value>, AllocError>,
}

impl From<Error> for Unread {
    ghost from_gives = { λ error unread. MatchResult unread.value (λ o. (o ≡ None) × (IsMemory error → ⊥)) (λ _. IsMemory error) };

    fn from(error: Error) -> Unread {
        let value = if error.is_memory() {
            Err(AllocError)
        } else {
            Ok(None)
        };
        Unread { value }
    }
}
