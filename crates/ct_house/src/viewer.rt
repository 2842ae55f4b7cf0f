//! The readers of published states.

ghost use Rattle.std.specs.Prelude.{◌≡◌, ◌⊎◌, IfErr, IfSome, Some, MatchResult, true};
ghost use Rattle.left_right.specs.Sides.{view};
ghost use Rattle.ct_core.specs.Answers.{answer};
ghost use Rattle.ct_core.specs.Replies.{shown, refused, takes_memory};
ghost use Rattle.ct_core.specs.Settlement.{Lawful};
ghost use Rattle.ct_core.specs.Core.{Extends};
ghost use Rattle.ct_house.specs.Publications.{Reach, series_of, IsBehind};
ghost use Rattle.ct_house.specs.Sights.{Moves, sight_of};

use crate::publications::Reached;
use crate::version::{Sees, Version, VersionReader};
use ct_codec::Refusal;
use ct_core::{Query, Reply};
use std::alloc::Global;
use std::marker::Model;

/// A token of everything that was published when it was made. It owns no memory.
#[derive(Drop)]
pub struct Bulletin {
    reached: Reached,
}

impl Model for Bulletin {
    ghost use Rattle.ct_house.specs.Sights.{Sight, sight_of};

    ghost Value = { Sight };

    ghost view = { λ b. sight_of b.reached };
}

impl Bulletin {
    pub(crate) fn new(reached: Reached) -> Bulletin
        ensures { result ≡ sight_of reached }
    {
        Bulletin { reached }
    }
}

/// A reader of published states. Contracts see whose publications these are, and the newest state that it has seen.
#[derive(Drop)]
pub struct Viewer {
    // It is `None` only while a query is answered.
    reader: Option<VersionReader>,
    reached: Reached,
}

impl Model for Viewer {
    ghost use Rattle.std.specs.Prelude.{◌≡◌, IfSome, Some};
    ghost use Rattle.left_right.specs.Sides.{view as view_of};
    ghost use Rattle.ct_house.specs.Publications.{Reach, series_of};
    ghost use Rattle.ct_house.specs.Sights.{Sight, sight_of};

    ghost Value = { Sight };

    ghost view = { λ v. sight_of v.reached };

    ghost invariant = { λ v. IfSome v.reader (λ r. (q : Reach) × (view_of r.place ≡ Some q) × (series_of q ≡ series_of v.reached)) };
}

// Returns the reply of a version, unless the version is older than the state that was seen. The version's state is then seen.
fn answer_at(
    reached: &mut Reached,
    alloc: Global,
    version: &Version,
    query: &Query,
) -> Result<Reply, Refusal>
    requires { series_of version.now ≡ series_of reached.old }
    ensures moves { Moves (sight_of reached.old) (sight_of reached.new) }
    ensures answer { MatchResult result
        (λ r. shown r ≡ answer reached.new.last.state query.now)
        (λ e. (e ≡ Refusal.Memory) ⊎ (((e ≡ Refusal.Closed) × IsBehind version.now reached.old) ⊎ (refused e ≡ answer reached.new.last.state query.now))) }
    ensures memory { IfErr result (λ e. e ≡ Refusal.Memory → takes_memory (answer reached.new.last.state query.now) ≡ true) }
{
    if reached.follow(version.reached()) {
        version.answer(alloc, query)
    } else {
        Err(Refusal::Closed)
    }
}

impl Viewer {
    pub(crate) fn new(reader: VersionReader, reached: Reached) -> Viewer
        requires { (q : Reach) × (view reader.place ≡ Some q) × (series_of q ≡ series_of reached) }
        ensures { result ≡ sight_of reached }
    {
        Viewer {
            reader: Some(reader),
            reached,
        }
    }

    pub(crate) fn reached(&self) -> &Reached
        ensures { sight_of result.now ≡ self.now }
    {
        &self.reached
    }

    /// Returns the reply to a query (RFC 6962, sections 4.3 to 4.6 and 4.8) at the state that is shown, which counts as seen from then on.
    /// It takes no lock and never waits.
    ///
    /// Refused as `Published::answer` is, and with `Closed` if no state is shown any more, or if the state that is shown is older than one
    /// that a bulletin reported.
    pub fn ask(&mut self, alloc: Global, query: &Query) -> Result<Reply, Refusal>
        ensures moves { Moves self.old self.new }
        ensures answer { MatchResult result
            (λ r. shown r ≡ answer self.new.seen query.now)
            (λ e. (e ≡ Refusal.Memory) ⊎ ((e ≡ Refusal.Closed) ⊎ (refused e ≡ answer self.new.seen query.now))) }
        ensures memory { IfErr result (λ e. e ≡ Refusal.Memory → takes_memory (answer self.new.seen query.now) ≡ true) }
    {
        let Some(reader) = self.reader.take() else {
            return Err(Refusal::Closed);
        };
        match reader.enter_as::<Sees>() {
            Ok(reading) => {
                let reply = answer_at(&mut self.reached, alloc, reading.get(), query);
                self.reader = Some(reading.leave());
                reply
            }
            Err(reader) => {
                self.reader = Some(reader);
                Err(Refusal::Closed)
            }
        }
    }

    /// Takes in a bulletin: from now on no state older than the bulletin's is seen. It allocates no memory and never waits.
    pub fn learn(&mut self, bulletin: &Bulletin)
        requires { bulletin.now.series ≡ self.old.series }
        ensures moves { Moves self.old self.new }
        ensures one { Extends self.old.seen bulletin.now.seen ⊎ Extends bulletin.now.seen self.old.seen }
        ensures that { Extends bulletin.now.seen self.new.seen }
    {
        let told = &bulletin.reached;
        self.reached.learn(told);
    }

    /// Shows that the newest state that was seen is lawful.
    pub fn vouch(&self)
        ensures { Lawful self.now.seen }
    {
        self.reached.vouch();
    }
}
