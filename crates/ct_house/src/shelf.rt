//! The writer: it announces published states, and shows them.

ghost use Rattle.std.specs.Prelude.{◌≡◌, ◌<◌, ◌^◌, drop, length, IfOk, OnOk, OnErr, IsOkUnless, MatchResult, Some};
ghost use Rattle.std.specs.Arc.{arc_value};
ghost use Rattle.left_right.specs.Sides.{view};
ghost use Rattle.ct_codec.specs.declared.refusal.Refusal.TheVariants.{Memory};
ghost use Rattle.ct_core.specs.Settlement.{Lawful};
ghost use Rattle.ct_core.specs.Core.{Extends};
ghost use Rattle.ct_house.specs.Publications.{series_of};
ghost use Rattle.ct_house.specs.Sights.{last_of, sight_at};

use crate::publications::{Announcer, Reached};
use crate::version::{Notes, Sees, Version, VersionWriter};
use crate::viewer::{Bulletin, Viewer};
use core::mem::replace_with;
use ct_codec::Refusal;
use ct_core::Published;
use std::alloc::{AllocError, Global};
use std::marker::Model;
use std::sync::{Arc, Wait};

/// Shows published states. It cannot be dropped: `close` ends it. Contracts see whose publications these are, the newest state, and the
/// state that viewers find.
pub struct Shelf {
    writer: VersionWriter,
    announcer: Announcer,
}

impl Model for Shelf {
    ghost use Rattle.std.specs.Prelude.{◌≡◌};
    ghost use Rattle.left_right.specs.Sides.{view as view_of};
    ghost use Rattle.ct_house.specs.Publications.{series_of};
    ghost use Rattle.ct_house.specs.Sights.{ShelfView, shelf_of, Knows};

    ghost Value = { ShelfView };

    ghost view = { λ s. shelf_of s.announcer s.writer.desk.shown.value };

    ghost invariant = { λ s. (series_of s.writer.desk.shown.value ≡ series_of s.announcer) × Knows (series_of s.announcer) (view_of s.writer.desk.place) };
}

// A version that the writer handed back. The writer does so if and only if it is out of memory, and reports that in no other way.
#[derive(Drop)]
struct NotAppended {
    version: Version,
}

impl From<NotAppended> for Refusal {
    ghost from_gives = { λ _ e. e ≡ Memory };

    fn from(refused: NotAppended) -> Refusal {
        let NotAppended { version: _ } = refused;
        Refusal::Memory
    }
}

// Returns three versions of the state that was announced last.
fn three_versions(
    state: Arc<Published>,
    reached: Reached,
) -> Result<(Version, Version, Version), AllocError>
    requires { reached.last.state ≡ arc_value state }
    ensures { IfOk result (λ v. (v.0 ≡ reached) × (v.1 ≡ reached) × (v.2 ≡ reached)) }
{
    let first = Version::new(state, reached);
    let second = first.again()?;
    let third = first.again()?;
    Ok((first, second, third))
}

// Shows the versions that were taken in, unless memory is refused.
fn turn<R: Wait>(writer: VersionWriter, rt: &R) -> (VersionWriter, Result<(), AllocError>)
    requires { series_of (last_of writer.desk.shown.value (drop writer.behind writer.log.items)) ≡ series_of writer.desk.shown.value }
    ensures series { series_of result.0.desk.shown.value ≡ series_of writer.desk.shown.value }
    ensures view { MatchResult result.1 (λ _. view result.0.desk.place ≡ Some result.0.desk.shown.value)
        (λ _. view result.0.desk.place ≡ view writer.desk.place) }
    ensures shows { MatchResult result.1 (λ _. result.0.desk.shown.value ≡ last_of writer.desk.shown.value (drop writer.behind writer.log.items))
        (λ _. result.0.desk.shown.value ≡ writer.desk.shown.value) }
{
    writer.publish_as::<Sees, R>(rt)
}

impl Shelf {
    /// Shows a first state, with room for this many viewers. It never waits, since there is no viewer yet.
    ///
    /// Refused with `Memory`.
    pub fn open<R: Wait>(
        rt: &R,
        alloc: Global,
        state: Arc<Published>,
        viewers: usize,
    ) -> Result<Shelf, Refusal>
        requires viewers { (0 < viewers) × (viewers < 2 ^ 32) }
        requires lawful { Lawful (arc_value state) }
        ensures seen { IfOk result (λ s. s.seen ≡ arc_value state) }
        ensures shown { IfOk result (λ s. s.shown ≡ arc_value state) }
        ensures memory { IsOkUnless result Refusal.Memory }
    {
        let announcer = Announcer::open(&state);
        let (first, second, again) = three_versions(state, announcer.reached())?;
        let mut writer = VersionWriter::new(alloc, first, second, viewers)?;
        // This makes the room that later publications use.
        if let Err(version) = writer.append(again) {
            writer.take(rt);
            return Err(Refusal::from(NotAppended { version }));
        }
        let (writer, done) = turn(writer, rt);
        match done {
            Ok(()) => Ok(Shelf { writer, announcer }),
            Err(refused) => {
                writer.take(rt);
                Err(refused.into())
            }
        }
    }

    /// Returns another viewer, which has seen the newest state.
    ///
    /// Refused with `Memory`, also if there are already as many viewers as there is room for.
    pub fn viewer(&mut self) -> Result<Viewer, Refusal>
        ensures same { self.new ≡ self.old }
        ensures viewer { IfOk result (λ v. v ≡ sight_at self.old) }
        ensures memory { IsOkUnless result Refusal.Memory }
    {
        let mut reader = self.writer.factory().reader()?;
        reader.learn::<Notes>(self.writer.tell::<Notes>());
        Ok(Viewer::new(reader, self.announcer.reached()))
    }

    /// Returns a token of all publications so far.
    pub fn bulletin(&self) -> Bulletin
        ensures { result ≡ sight_at self.now }
    {
        Bulletin::new(self.announcer.reached())
    }

    // Shows a version of this line, in place of the version shown now.
    fn show<R: Wait>(&mut self, rt: &R, version: Version) -> Result<(), Refusal>
        requires { series_of version ≡ self.old.series }
        ensures shown { OnOk result (self.new ≡ record self.old { shown = version.last.state }) }
        ensures stays { OnErr result (self.new ≡ self.old) }
        ensures memory { IsOkUnless result Refusal.Memory }
    {
        if let Err(version) = self.writer.append(version) {
            return Err(Refusal::from(NotAppended { version }));
        }
        replace_with(
            &mut self.writer,
            rt,
            |writer: VersionWriter, rt: &R| -> (VersionWriter, Result<(), AllocError>)
                requires { series_of (last_of writer.desk.shown.value (drop writer.behind writer.log.items)) ≡ series_of writer.desk.shown.value }
                ensures series { series_of result.0.desk.shown.value ≡ series_of writer.desk.shown.value }
                ensures view { MatchResult result.1 (λ _. view result.0.desk.place ≡ Some result.0.desk.shown.value)
                    (λ _. view result.0.desk.place ≡ view writer.desk.place) }
                ensures shows { MatchResult result.1 (λ _. result.0.desk.shown.value ≡ last_of writer.desk.shown.value (drop writer.behind writer.log.items))
                    (λ _. result.0.desk.shown.value ≡ writer.desk.shown.value) }
            { turn(writer, rt) },
        )?;
        Ok(())
    }

    /// Publishes a state, which the newest one is a prefix of and which has more heads, and shows it. It waits for viewers that still read
    /// the state before the newest one.
    ///
    /// The state is published in any case. Refused with `Memory` if there is none for showing it. Then viewers find the same state as
    /// before, and this one is shown with the next. The room that it needs is reserved by `open`.
    pub fn publish<R: Wait>(&mut self, rt: &R, next: Arc<Published>) -> Result<(), Refusal>
        requires extends { Extends self.old.seen (arc_value next) }
        requires newer { length self.old.seen.heads < length (arc_value next).heads }
        requires lawful { Lawful (arc_value next) }
        ensures series { self.new.series ≡ self.old.series }
        ensures seen { self.new.seen ≡ arc_value next }
        ensures shown { OnOk result (self.new.shown ≡ arc_value next) }
        ensures stays { OnErr result (self.new.shown ≡ self.old.shown) }
        ensures memory { IsOkUnless result Refusal.Memory }
    {
        let announcer = &mut self.announcer;
        announcer.announce(&next);
        let version = Version::new(next, announcer.reached());
        self.show(rt, version)
    }

    /// Shows that the state that a viewer of these publications has seen is a prefix of the newest state: nobody else publishes. It
    /// allocates no memory and never waits.
    pub fn vouch_for(&mut self, viewer: &Viewer)
        requires { viewer.now.series ≡ self.old.series }
        ensures same { self.new ≡ self.old }
        ensures begins { Extends viewer.now.seen self.old.seen }
    {
        self.announcer.vouch_for(viewer.reached());
    }

    /// Waits until no viewer is reading, and ends the shelf.
    pub fn close<R: Wait>(self, rt: &R) {
        let Shelf {
            writer,
            announcer: _,
        } = self;
        writer.take(rt);
    }
}
