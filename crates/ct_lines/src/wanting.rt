//! Out of memory: how the errors of other crates report it, and how a refusal reports it. Other functions pass it on with `?`.

ghost use Rattle.std.specs.Prelude.{◌≡◌, ◌≢◌, Err, MatchResult};
ghost use Rattle.ct_codec.specs.declared.refusal.Refusal.TheVariants.{Memory};
ghost use Rattle.ct_core.specs.declared.query.Reply.TheVariants.{Refused};
ghost use Rattle.ct_verify.specs.declared.evidence.EvidenceFault.TheVariants.{Memory as NoEvidence};

use ct_codec::Refusal;
use ct_core::Reply;
use ct_verify::EvidenceFault;
use std::alloc::AllocError;

// The reply for a proof that gives no evidence: it is refused, unless memory was refused.
#[derive(Drop)]
pub(crate) struct Unproved {
    pub(crate) reply: Result<Reply, Refusal>,
}

impl From<EvidenceFault> for Unproved {
    ghost from_gives = { λ fault unproved. MatchResult unproved.reply (λ r. (r ≡ Refused) × (fault ≢ NoEvidence)) (λ e. (e ≡ Memory) × (fault ≡ NoEvidence)) };

    fn from(fault: EvidenceFault) -> Unproved {
        let reply = match fault {
            EvidenceFault::ProofRefused(_) => Ok(Reply::Refused),
            EvidenceFault::Memory => Err(Refusal::Memory),
        };
        Unproved { reply }
    }
}

// An answer that can be passed on, unless memory was refused.
#[derive(Drop)]
pub(crate) struct Told {
    pub(crate) answer: Result<Result<Reply, Refusal>, AllocError>,
}

impl From<Result<Reply, Refusal>> for Told {
    ghost from_gives = { λ answer told. MatchResult told.answer (λ r. (r ≡ answer) × (answer ≢ Err Memory)) (λ _. answer ≡ Err Memory) };

    fn from(answer: Result<Reply, Refusal>) -> Told {
        let answer = match answer {
            Err(Refusal::Memory) => Err(AllocError),
            answer => Ok(answer),
        };
        Told { answer }
    }
}
