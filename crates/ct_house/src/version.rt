//! The contents of the two copies, and the rule that they keep.

ghost use Rattle.std.specs.Prelude.{◌≡◌, ◌⊎◌, IfOk, IfErr, MatchResult, true};
ghost use Rattle.std.specs.Arc.{arc_value};
ghost use Rattle.ct_core.specs.Answers.{answer};
ghost use Rattle.ct_core.specs.Replies.{shown, refused, takes_memory};

use crate::publications::Reached;
use atomic_table::{Join, Split};
use crossbeam_utils::rule::{Outcome, Protocol};
use ct_codec::Refusal;
use ct_core::{Published, Query, Reply};
use left_right::Absorb;
use left_right::reader::Reader;
use left_right::writer::Writer;
use std::alloc::{AllocError, Global};
use std::marker::Model;
use std::sync::Arc;

/// A published state, with the evidence that it was announced. Both copies and the core share the state.
#[derive(Drop)]
pub struct Version {
    state: Arc<Published>,
    reached: Reached,
}

impl Model for Version {
    ghost use Rattle.std.specs.Prelude.{◌≡◌};
    ghost use Rattle.std.specs.Arc.{arc_value};
    ghost use Rattle.ct_house.specs.Publications.{Reach};

    ghost Value = { Reach };

    ghost view = { λ v. v.reached };

    ghost invariant = { λ v. v.reached.last.state ≡ arc_value v.state };
}

impl Version {
    // Returns a version of the state that was announced last.
    pub(crate) fn new(state: Arc<Published>, reached: Reached) -> Version
        requires { reached.last.state ≡ arc_value state }
        ensures { result ≡ reached }
    {
        Version { state, reached }
    }

    // Returns the same version, sharing the state.
    pub(crate) fn again(&self) -> Result<Version, AllocError>
        ensures { IfOk result (λ v. v ≡ self.now) }
    {
        Ok(Version {
            state: Arc::try_clone(&self.state)?,
            reached: self.reached.again(),
        })
    }

    pub(crate) fn reached(&self) -> &Reached
        ensures { result.now ≡ self.now }
    {
        &self.reached
    }

    // Returns the reply to a query.
    pub(crate) fn answer(&self, alloc: Global, query: &Query) -> Result<Reply, Refusal>
        ensures answer { MatchResult result
            (λ r. shown r ≡ answer self.now.last.state query.now)
            (λ e. (e ≡ Refusal.Memory) ⊎ (refused e ≡ answer self.now.last.state query.now)) }
        ensures memory { IfErr result (λ e. e ≡ Refusal.Memory → takes_memory (answer self.now.last.state query.now) ≡ true) }
    {
        let state = &self.state;
        state.answer(alloc, query)
    }
}

impl Absorb<Version> for Version {
    type State = Version;

    ghost state = { λ v. v };

    ghost applied = { λ _ next. next };

    fn absorb_first(&mut self, operation: &Version, _other: &Version) -> Result<(), AllocError> {
        *self = operation.again()?;
        Ok(())
    }
}

/// The rule of the two copies: all shown versions belong to one line.
pub struct OfOneLine;

impl Protocol<Version, Option<Reached>> for OfOneLine {
    ghost use Rattle.std.specs.Prelude.{None};
    ghost use Rattle.ct_house.specs.Sights.{AllFit};

    ghost holds = { AllFit };

    ghost first = { None };
}

/// The result of entering and showing: the version shown was seen.
pub struct Sees;

impl Outcome<Version, Option<Reached>> for Sees {
    ghost use Rattle.ct_house.specs.Sights.{Sees as SeesIt};

    ghost then = { SeesIt };
}

/// A note says all that its writer knows.
pub struct Notes;

impl Split<Option<Reached>> for Notes {
    ghost left = { λ v. v };

    ghost right = { λ v. v };
}

impl Join<Option<Reached>> for Notes {
    ghost use Rattle.std.specs.Prelude.{None};

    ghost both = { λ v w. w };

    ghost spent = { None };
}

/// A reader's end of the two copies.
pub type VersionReader = Reader<Version, Option<Reached>, OfOneLine>;

/// The writer's end of the two copies.
pub type VersionWriter = Writer<Version, Version, Option<Reached>, OfOneLine>;
