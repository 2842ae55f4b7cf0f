//! Verdicts on the answers of a log.
ghost use Rattle.std.specs.Prelude.{◌≡◌};
ghost use Rattle.ct_monitor.specs.Verdicts.{accuses, is_again};

use ct_tree::Head;
use ct_verify::ProofFault;

/// The verdict on a head, on entries or on a proof.
#[derive(Clone, Copy, PartialEq, Eq, Debug)]
pub enum Verdict {
    /// The waiting head is the head of all leaves that were read: its root was computed from them.
    Accepted,
    /// The waiting head has more leaves than were read.
    Pending,
    /// The head has the size and root of a known head.
    Again,
    /// Fewer leaves than the known head, which is this one, and an earlier timestamp. A front end that lags hands out such a head, and a fork
    /// that lags does. A consistency proof from the head to the known one tells them apart.
    Older(Head),
    /// Fewer leaves than the known head, which is this one, and a timestamp that is not earlier (RFC 6962, section 3.5).
    Shrunk(Head),
    /// The known head of this size, which is this one, has a different root.
    Fork(Head),
    /// More leaves than the known head, which is this one, and a timestamp that is not later (RFC 6962, section 3.5).
    TimeNotLater(Head),
    /// The waiting head's root is not the root of the leaves that were read, which is this one. The head and those leaves that were not
    /// accepted are discarded.
    RootMismatch([u8; 32]),
    /// The entries do not begin at the end of the leaves that were read, or no head waits. For a proof: there are not two heads that it
    /// could connect.
    Gap,
    /// The proof leads from the accepted head to the waiting one, or from an older head to the known one.
    Consistent,
    /// The proof does not lead there. This accuses nobody: the log did not sign the proof.
    Inconsistent(ProofFault),
}

impl Verdict {
    // Reports whether a known head was handed out again.
    pub(crate) fn is_again(&self) -> bool
        ensures { result ≡ is_again self.now }
    {
        match self {
            Verdict::Again => true,
            _ => false,
        }
    }

    /// Reports whether the verdict accuses the log.
    pub fn accuses(&self) -> bool
        ensures { result ≡ accuses self.now }
    {
        match self {
            Verdict::Shrunk(_)
            | Verdict::Fork(_)
            | Verdict::TimeNotLater(_)
            | Verdict::RootMismatch(_) => true,
            Verdict::Accepted
            | Verdict::Pending
            | Verdict::Again
            | Verdict::Older(_)
            | Verdict::Gap
            | Verdict::Consistent
            | Verdict::Inconsistent(_) => false,
        }
    }
}
