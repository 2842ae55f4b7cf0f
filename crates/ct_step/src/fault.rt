//! The meaning of the errors of a step for a call.

ghost use Rattle.std.specs.Prelude.{◌≡◌, ◌≢◌, MatchResult, MatchOption};
ghost use Rattle.ct_step.specs.declared.rolling_out.ResumeFault.TheVariants.{Bundle, Memory as ResumeMemory};
ghost use Rattle.ct_codec.specs.declared.refusal.Refusal.{Refusal as RefusalOf};
ghost use Rattle.ct_codec.specs.declared.refusal.Refusal.TheVariants.{Memory as Refused};
ghost use Rattle.ct_step.specs.declared.growth.GrowthFault.TheVariants.{Refused as GrowthRefused};
ghost use Rattle.ct_step.specs.declared.claim.ClaimFault.TheVariants.{Refused as ClaimRefused};
ghost use Rattle.ct_step.specs.declared.step.StepFault.TheVariants.{Growth};
ghost use Rattle.ct_data_tiles.specs.declared.fault.DataTileFault.TheVariants.{Memory as DataTileMemory};
ghost use Rattle.ct_data_tiles.specs.declared.tile.NameFault.TheVariants.{NoSuchTile, Memory as NameMemory};
ghost use Rattle.ct_step.specs.StepAnswers.{NamesStepFault};

use crate::answer::StepRefusal;
use crate::{ClaimFault, GrowthFault, ResumeFault, StepFault};
use ct_codec::Refusal;
use ct_data_tiles::{DataTileFault, NameFault};
use std::alloc::AllocError;

// The meaning of a step that was not made: the name of the refusal, unless memory could not be allocated. Another refusal of the codec has
// no name.
#[derive(Drop)]
pub(crate) struct NotTaken {
    pub(crate) told: Result<Option<StepRefusal>, AllocError>,
}

impl From<StepFault> for NotTaken {
    ghost from_gives = { λ fault taken. MatchResult taken.told
        (λ o. MatchOption o ((e : RefusalOf) × (fault ≡ Growth (GrowthRefused e)) × (e ≢ Refused)) (λ r. NamesStepFault fault r))
        (λ _. fault ≡ Growth (GrowthRefused Refused)) };

    fn from(fault: StepFault) -> NotTaken {
        let told = match fault {
            StepFault::Edge => Ok(Some(StepRefusal::Edge)),
            StepFault::Entries => Ok(Some(StepRefusal::Entries)),
            StepFault::TooLong => Ok(Some(StepRefusal::TooLong)),
            StepFault::Growth(GrowthFault::ClockBack) => Ok(Some(StepRefusal::ClockBack)),
            StepFault::Growth(GrowthFault::Full) => Ok(Some(StepRefusal::Full)),
            StepFault::Growth(GrowthFault::Refused(Refusal::Memory)) => Err(AllocError),
            StepFault::Growth(GrowthFault::Refused(_)) => Ok(None),
        };
        NotTaken { told }
    }
}

// The meaning of a staged batch that is not read: it is not that of the line, unless memory could not be allocated.
#[derive(Drop)]
pub(crate) struct NotRolledOut {
    pub(crate) told: Result<(), AllocError>,
}

impl From<ResumeFault> for NotRolledOut {
    ghost from_gives = { λ fault rolled. MatchResult rolled.told (λ _. fault ≡ Bundle) (λ _. fault ≡ ResumeMemory) };

    fn from(fault: ResumeFault) -> NotRolledOut {
        let told = match fault {
            ResumeFault::Bundle => Ok(()),
            ResumeFault::Memory => Err(AllocError),
        };
        NotRolledOut { told }
    }
}

// The meaning of a claim that is not believed: it is not true of the state, unless memory could not be allocated.
#[derive(Drop)]
pub(crate) struct NotBelieved {
    pub(crate) told: Result<(), AllocError>,
}

impl From<ClaimFault> for NotBelieved {
    ghost from_gives = { λ fault believed. MatchResult believed.told (λ _. fault ≢ ClaimRefused Refused) (λ _. fault ≡ ClaimRefused Refused) };

    fn from(fault: ClaimFault) -> NotBelieved {
        let told = match fault {
            ClaimFault::IndexTooLarge => Ok(()),
            ClaimFault::ProofRefused(_) => Ok(()),
            ClaimFault::Refused(Refusal::Memory) => Err(AllocError),
            ClaimFault::Refused(_) => Ok(()),
        };
        NotBelieved { told }
    }
}

// The meaning of a text that is not read as a tile's name: it is not one, unless memory could not be allocated.
#[derive(Drop)]
pub(crate) struct NoName {
    pub(crate) told: Result<(), AllocError>,
}

impl From<NameFault> for NoName {
    ghost from_gives = { λ fault no_name. MatchResult no_name.told (λ _. fault ≡ NoSuchTile) (λ _. fault ≡ NameMemory) };

    fn from(fault: NameFault) -> NoName {
        let told = match fault {
            NameFault::NoSuchTile => Ok(()),
            NameFault::Memory => Err(AllocError),
        };
        NoName { told }
    }
}

// The meaning of bytes that are not made: whether memory could not be allocated.
#[derive(Drop)]
pub(crate) struct NotMade {
    pub(crate) told: Result<(), AllocError>,
}

impl From<Refusal> for NotMade {
    ghost from_gives = { λ refusal made. MatchResult made.told (λ _. refusal ≢ Refused) (λ _. refusal ≡ Refused) };

    fn from(refusal: Refusal) -> NotMade {
        let told = match refusal {
            Refusal::Memory => Err(AllocError),
            _ => Ok(()),
        };
        NotMade { told }
    }
}

// The meaning of bytes that are not read as tile leaves: they are not, unless memory could not be allocated.
#[derive(Drop)]
pub(crate) struct NoTile {
    pub(crate) told: Result<(), AllocError>,
}

impl From<DataTileFault> for NoTile {
    ghost from_gives = { λ fault no_tile. MatchResult no_tile.told (λ _. fault ≢ DataTileMemory) (λ _. fault ≡ DataTileMemory) };

    fn from(fault: DataTileFault) -> NoTile {
        let told = match fault {
            DataTileFault::AtLeaf(_, _) => Ok(()),
            DataTileFault::Memory => Err(AllocError),
        };
        NoTile { told }
    }
}
