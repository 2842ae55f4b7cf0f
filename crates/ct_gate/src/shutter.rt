//! The end that shuts the gate.

ghost use Rattle.std.specs.Prelude.{◌≡◌, ◌≢◌, None, Some, MatchResult};
ghost use Rattle.ct_codec.specs.declared.refusal.Refusal.TheVariants.{Shutdown};
ghost use Rattle.ct_gate.specs.Ends.{SameShutter};

use crate::word::{Gate, GateSeat, SHUTDOWN, Shut};
use ct_codec::Refusal;
use std::marker::Model;
use std::sync::Arc;

/// Shuts the gate, once. It can move to a thread of its own.
///
/// Contracts see its gate, the number of fronts of that gate, and, after it was shut, how many submissions were accepted.
#[derive(Drop)]
pub struct Shutter {
    pub(crate) table: Arc<Gate>,
    pub(crate) seat: GateSeat,
    pub(crate) accepted: Option<u64>,
}

impl Model for Shutter {
    ghost use Rattle.std.specs.Prelude.{◌≡◌, []};
    ghost use Rattle.std.specs.Arc.{arc_value};
    ghost use Rattle.ct_gate.specs.Seats.{view_of_shutter};
    ghost use Rattle.ct_gate.specs.Ends.{ShutterView};

    ghost Value = { ShutterView };

    ghost view = { λ s. record {
      gate = s.seat.table_id;
      fronts = (arc_value s.table).shared.key;
      accepted = s.accepted;
    } };

    // The seat belongs to the table, which has one word and no slot. Its view is the shutter's.
    ghost invariant = { λ s.
        (s.seat.table_id ≡ (arc_value s.table).shared.table_id) × (s.seat.table_id.words ≡ 1)
        × (s.seat.table_id.slots ≡ 0) × (s.seat.me ≡ (view_of_shutter s.accepted, [])) };
}

impl Shutter {
    /// Shuts the gate, and returns how many submissions were accepted in all. It allocates no memory and never waits.
    ///
    /// Each later call returns `Shutdown`.
    pub fn shut(&mut self) -> Result<u64, Refusal>
        ensures same { SameShutter self.old self.new }
        ensures answer { MatchResult result
            (λ n. (self.old.accepted ≡ None) × (self.new.accepted ≡ Some n))
            (λ r. (r ≡ Shutdown) × (self.old.accepted ≢ None) × (self.new ≡ self.old)) }
    {
        if self.accepted.is_some() {
            return Err(Refusal::Shutdown);
        }
        let count = self
            .table
            .shared
            .fetch_or::<Shut>(&mut self.seat, 0, SHUTDOWN);
        self.accepted = Some(count);
        Ok(count)
    }

    /// Returns how many submissions were accepted in all, or `None` before the gate is shut.
    pub fn accepted(&self) -> Option<u64>
        ensures { result ≡ self.now.accepted }
    {
        self.accepted
    }
}
