//! A front's end of the gate, which accepts submissions.

ghost use Rattle.std.specs.Prelude.{◌≡◌, ◌<◌, ◌≤◌, true, MatchBool, MatchResult};
ghost use Rattle.rtrb.specs.Ring.{known_free, ProducerLooked};
ghost use Rattle.ct_gate.specs.Ends.{SameIntake};
ghost use Rattle.ct_gate.specs.Sending.{Accepts, Refuses};

use crate::word::{Draw, Gate, GateSeat, Glance, SHUTDOWN};
use ct_codec::{Item, Refusal, Submission};
use rtrb::Producer;
use std::marker::Model;
use std::sync::Arc;

/// The maximum number of submissions accepted from one front.
const MOST: u64 = 1 << 32;

/// Accepts the submissions of one front. It can move to a thread of its own.
///
/// Contracts see its gate, its front's number, its ring and the ring's capacity, the items accepted so far, whether it knows of the
/// shutdown, and how many free slots of the ring it knows of.
#[derive(Drop)]
pub struct Intake {
    pub(crate) table: Arc<Gate>,
    pub(crate) seat: GateSeat,
    pub(crate) producer: Producer<Item>,
    pub(crate) number: u16,
    pub(crate) tickets: u64,
    // The number of free slots at the last look at the ring, minus those filled since.
    pub(crate) room: usize,
    pub(crate) knows_shutdown: bool,
}

impl Model for Intake {
    ghost use Rattle.std.specs.Prelude.{◌≡◌, ◌≤◌, ◌+◌, ◌^◌, [], length, All};
    ghost use Rattle.std.specs.Arc.{arc_value};
    ghost use Rattle.rtrb.specs.Ring.{sent, known_free, producer_capacity};
    ghost use Rattle.ct_codec.specs.Items.{tickets_of};
    ghost use Rattle.ct_gate.specs.Seats.{view_of_front};
    ghost use Rattle.ct_gate.specs.Ring.{producer_ring};
    ghost use Rattle.ct_gate.specs.Ends.{IntakeView};

    ghost Value = { IntakeView };

    ghost view = { λ i. record {
      gate = i.seat.table_id;
      number = i.number;
      ring = producer_ring i.producer;
      places = producer_capacity i.producer;
      accepted = sent i.producer;
      knows_shutdown = i.knows_shutdown;
      free = i.room;
    } };

    // The seat belongs to the table. Its view has the front's number and, in order, the tickets of the items that were pushed. There are at
    // most 2^32 of them, and each item has the front's number. The slots that are counted as free are free. Either as many items were
    // pushed as the ring has slots, or a slot is free.
    ghost invariant = { λ i.
        (i.seat.table_id ≡ (arc_value i.table).shared.table_id) × (i.seat.table_id.words ≡ 1)
        × (i.seat.me ≡ (view_of_front i.number (tickets_of (sent i.producer)) i.knows_shutdown i.seat.me.0.refused, []))
        × (i.tickets ≡ length (sent i.producer)) × (i.tickets ≤ 2 ^ 32)
        × All (λ t. t.front ≡ i.number) (sent i.producer)
        × (i.room ≤ known_free i.producer)
        × (producer_capacity i.producer ≤ i.room + length (sent i.producer)) };
}

// Returns how many slots of the ring are free: those counted before, or, if none was counted, all that a look at the ring finds.
fn free_places(producer: &mut Producer<Item>, counted: usize) -> usize
    requires { counted ≤ known_free producer.old }
    ensures looked { ProducerLooked producer.old producer.new }
    ensures counted { 0 < counted → result ≡ counted }
    ensures found { counted ≡ 0 → result ≡ known_free producer.new }
{
    if counted == 0 {
        producer.slots()
    } else {
        counted
    }
}

impl Intake {
    /// Returns the number of its front.
    pub fn number(&self) -> u16
        ensures { result ≡ self.now.number }
    {
        self.number
    }

    // Reports whether the gate is known to be shut. It reads the word once, unless the shutdown is known already.
    fn is_shut(&mut self) -> bool
        ensures same { SameIntake self.old self.new × (self.new.accepted ≡ self.old.accepted)
            × (self.new.free ≡ self.old.free) }
        ensures knows_shutdown { (result ≡ self.new.knows_shutdown)
            × (self.old.knows_shutdown ≡ true → self.new.knows_shutdown ≡ true) }
    {
        if !self.knows_shutdown {
            let found = self.table.shared.load::<Glance>(&mut self.seat, 0);
            self.knows_shutdown = found >= SHUTDOWN;
        }
        self.knows_shutdown
    }

    // Reports whether the ring has a free slot. If none is known, it looks once.
    fn has_room(&mut self) -> bool
        ensures same { SameIntake self.old self.new × (self.new.accepted ≡ self.old.accepted)
            × (self.new.knows_shutdown ≡ self.old.knows_shutdown) }
        ensures free { MatchBool result (0 < self.new.free) ((self.old.free ≡ 0) × (self.new.free ≡ 0)) }
        ensures kept { self.old.free ≤ self.new.free }
    {
        self.room = free_places(&mut self.producer, self.room);
        self.room > 0
    }

    /// Accepts a submission and returns its ticket, or hands the submission back with the reason. It allocates no memory and never waits.
    ///
    /// The refusals, in order:
    ///
    /// - `Shutdown`, if a glance at the gate word, or an earlier refused draw, showed the shutdown.
    /// - `FrontSpent`, if 2^32 submissions of this front were accepted.
    /// - `Full`, if no free slot of the ring is known before the call and after it. If none is counted, it looks; a test shows this too.
    ///
    /// Then one draw is made. If the gate was shut in between, the draw is refused, and this is `Shutdown` too.
    pub fn send(&mut self, submission: Submission) -> Result<u64, (Refusal, Submission)>
        ensures same { SameIntake self.old self.new }
        ensures shutdown { self.old.knows_shutdown ≡ true → self.new.knows_shutdown ≡ true }
        ensures answer { MatchResult result
            (λ ticket. Accepts self.old submission ticket self.new)
            (λ r. (r.1 ≡ submission) × (self.new.accepted ≡ self.old.accepted)
            × Refuses self.old r.0 self.new) }
    {
        if self.is_shut() {
            return Err((Refusal::Shutdown, submission));
        }
        if self.tickets == MOST {
            return Err((Refusal::FrontSpent, submission));
        }
        if !self.has_room() {
            return Err((Refusal::Full, submission));
        }
        let ticket = self.table.shared.fetch_add::<Draw>(&mut self.seat, 0, 1);
        if ticket >= SHUTDOWN {
            self.knows_shutdown = true;
            return Err((Refusal::Shutdown, submission));
        }
        self.tickets += 1;
        self.room -= 1;
        self.producer.push_reserved(Item {
            front: self.number,
            ticket,
            submission,
        });
        Ok(ticket)
    }
}
