//! Why a monitor refuses a head.
ghost use Rattle.std.specs.Prelude.{◌≡◌};
ghost use Rattle.ct_monitor.specs.declared.fault.MonitorFault.TheVariants.{Memory};

use std::alloc::AllocError;
use thiserror::Error;

/// Why a monitor refuses a head.
#[derive(Clone, Copy, PartialEq, Eq, Debug, Error)]
pub enum MonitorFault {
    /// The root is not that of the kept and the new leaves.
    #[error("the root is not that of the kept and the new leaves")]
    RootMismatch,
    /// The head has fewer leaves than are kept.
    #[error("the head has fewer leaves than are kept")]
    Shrunk,
    /// The last head has this size and a different root.
    #[error("the last head has this size and another root")]
    Fork,
    /// The head is not later than the last one, and not that same head again.
    #[error("the head is not later than the last one")]
    TimeNotLater,
    /// The number of kept and new leaves together is not the size of the head.
    #[error("the kept and the new leaves are not as many as the head says")]
    CountMismatch,
    /// Memory could not be allocated.
    #[error("there is no memory for the new leaves")]
    Memory,
}

impl From<AllocError> for MonitorFault {
    ghost from_gives = { λ _ fault. fault ≡ Memory };

    fn from(_e: AllocError) -> MonitorFault {
        MonitorFault::Memory
    }
}
