//! The faults that end a run of a program over lines, and the error that bytes were not written.

ghost use Rattle.std.specs.Prelude.{◌≡◌};
ghost use Rattle.std.specs.IoError.{error_kind};
ghost use Rattle.json_lines.specs.Faults.{IsInputFault};
ghost use Rattle.json_lines.specs.declared.fault.RunFault.TheVariants.{Memory, Write};

use std::alloc::AllocError;
use std::io;
use thiserror::Error;

/// The output could not be written.
#[derive(Clone, Copy, Debug, PartialEq, Eq, Error)]
#[error("the output couldn't be written")]
pub struct Unwritten;

/// The fault that ends a run of a program over lines. Its exit status is 1 then.
#[derive(Clone, Copy, Debug, PartialEq, Eq, Error)]
pub enum RunFault {
    /// Memory could not be allocated.
    #[error("memory was refused")]
    Memory,
    /// The input could not be read.
    #[error("the input couldn't be read")]
    Read,
    /// The output could not be written.
    #[error("the output couldn't be written")]
    Write,
}

impl From<AllocError> for RunFault {
    ghost from_gives = { λ _ f. f ≡ Memory };

    fn from(_e: AllocError) -> RunFault {
        RunFault::Memory
    }
}

impl From<Unwritten> for RunFault {
    ghost from_gives = { λ _ f. f ≡ Write };

    fn from(_e: Unwritten) -> RunFault {
        RunFault::Write
    }
}

impl From<io::Error> for RunFault {
    ghost from_gives = { λ error f. IsInputFault (error_kind error) f };

    fn from(error: io::Error) -> RunFault {
        match error.kind() {
            io::ErrorKind::OutOfMemory => RunFault::Memory,
            _ => RunFault::Read,
        }
    }
}
