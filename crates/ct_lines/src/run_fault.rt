//! The faults that end a run before all output is written.

ghost use Rattle.std.specs.Prelude.{◌≡◌};
ghost use Rattle.ct_lines.specs.declared.run_fault.Fault.TheVariants.{Memory, Write};
ghost use Rattle.ct_lines.specs.Faults.{fault_name, IsReadingFault, IsRefusalFault};

use ct_codec::Refusal;
use json_lines::Unwritten;
use std::alloc::{AllocError, AllocFailed};
use std::io;
use thiserror::Error;

/// The reason why a run ended early.
#[derive(Clone, Copy, Debug, PartialEq, Eq, Error)]
pub enum Fault {
    /// Memory was refused.
    #[error("memory was refused")]
    Memory,
    /// The clock refuses the timestamp for closing the log.
    #[error("the clock refuses the moment at which the log is to be closed")]
    ClockBack,
    /// A thread could not be started.
    #[error("a thread didn't start")]
    Threads,
    /// The input could not be read.
    #[error("the input couldn't be read")]
    Read,
    /// The output could not be written.
    #[error("the output couldn't be written")]
    Write,
}

impl Fault {
    /// Returns the fault's name, in small letters.
    pub fn name(self) -> &'static str
        ensures { result.now ≡ fault_name self }
    {
        match self {
            Fault::Memory => "memory",
            Fault::ClockBack => "clock-back",
            Fault::Threads => "threads",
            Fault::Read => "read",
            Fault::Write => "write",
        }
    }
}

impl From<AllocError> for Fault {
    ghost from_gives = { λ _ f. f ≡ Memory };

    fn from(_e: AllocError) -> Fault {
        Fault::Memory
    }
}

impl<T: Drop> From<AllocFailed<T>> for Fault {
    ghost from_gives = { λ _ f. f ≡ Memory };

    fn from(_e: AllocFailed<T>) -> Fault {
        Fault::Memory
    }
}

// The fault if the opening or the closing is refused: by their contracts there is no other refusal.
impl From<Refusal> for Fault {
    ghost from_gives = { λ refusal f. IsRefusalFault refusal f };

    fn from(refusal: Refusal) -> Fault {
        match refusal {
            Refusal::Memory => Fault::Memory,
            _ => Fault::ClockBack,
        }
    }
}

// The fault if replies cannot be written.
impl From<Unwritten> for Fault {
    ghost from_gives = { λ _ f. f ≡ Write };

    fn from(_e: Unwritten) -> Fault {
        Fault::Write
    }
}

// The fault if arguments or the input cannot be read.
impl From<io::ErrorKind> for Fault {
    ghost from_gives = { λ kind f. IsReadingFault kind f };

    fn from(kind: io::ErrorKind) -> Fault {
        match kind {
            io::ErrorKind::OutOfMemory => Fault::Memory,
            _ => Fault::Read,
        }
    }
}
