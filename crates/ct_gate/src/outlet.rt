//! The end of a front's ring that takes items out.

ghost use Rattle.std.specs.Prelude.{◌≡◌, ◌++◌, ◌∷◌, [], ◌↔◌, IsTrue, MatchOption, IfSome, IfNone};
ghost use mathlib.Core.List.{IsPrefix};
ghost use Rattle.ct_gate.specs.Ends.{SameOutlet, AreEnds, made_item};

use crate::intake::Intake;
use ct_codec::Item;
use rtrb::Consumer;
use std::marker::Model;

/// Takes out the accepted submissions of one front, in order. It can move to a thread of its own.
///
/// Contracts see its front's number, its ring, the items received so far, and those that it has seen in the ring but not taken yet.
#[derive(Drop)]
pub struct Outlet {
    pub(crate) consumer: Consumer<Item>,
    pub(crate) number: u16,
}

impl Model for Outlet {
    ghost use Rattle.rtrb.specs.Ring.{received as taken, known_items};
    ghost use Rattle.ct_gate.specs.Ring.{consumer_ring};
    ghost use Rattle.ct_gate.specs.Ends.{OutletView, from_front};

    ghost Value = { OutletView };

    ghost view = { λ o. record {
      number = o.number;
      ring = consumer_ring o.consumer;
      received = from_front o.number (taken o.consumer);
      in_sight = from_front o.number (known_items o.consumer);
    } };
}

impl Outlet {
    /// Returns the next item of the front, if one is seen. It allocates no memory and never waits.
    ///
    /// Returns `None` if no item is in sight before the call and after it (a test shows that it looks into the ring). `None` says nothing
    /// about what the front has sent: an item may come into sight later.
    pub fn take(&mut self) -> Option<Item>
        ensures same { SameOutlet self.old self.new }
        ensures next { MatchOption result
            (self.new.received ≡ self.old.received)
            (λ i. self.new.received ≡ self.old.received ++ i ∷ []) }
        ensures in_sight { MatchOption result
            ((self.old.in_sight ≡ []) × (self.new.in_sight ≡ []))
            (λ i. IsPrefix self.old.in_sight (i ∷ self.new.in_sight)) }
        ensures numbered { IfSome result (λ i. i.front ≡ self.old.number) }
    {
        match self.consumer.pop() {
            Ok(item) => Some(from_front(self.number, item)),
            Err(_) => None,
        }
    }

    /// Returns the next item, given both ends of the ring, or `None` if all accepted items have been received. It allocates no memory and
    /// never waits.
    pub fn drain_step(&mut self, intake: &mut Intake) -> Option<Item>
        requires { AreEnds intake.old self.old }
        ensures same { SameOutlet self.old self.new × (intake.new ≡ intake.old) }
        ensures next { MatchOption result
            (self.new.received ≡ self.old.received)
            (λ i. self.new.received ≡ self.old.received ++ i ∷ []) }
        ensures drained { IfNone result (self.new.received ≡ intake.old.accepted) }
        ensures begins { IsPrefix self.new.received intake.old.accepted }
        ensures numbered { IfSome result (λ i. i.front ≡ self.old.number) }
    {
        if self.consumer.slots_beside(&mut intake.producer) == 0 {
            return None;
        }
        let item = self.consumer.pop_known();
        Some(from_front(self.number, item))
    }

    /// Reports whether all accepted items have been received. It takes no item out and allocates no memory.
    pub fn is_drained(&mut self, intake: &mut Intake) -> bool
        requires { AreEnds intake.old self.old }
        ensures same { SameOutlet self.old self.new × (intake.new ≡ intake.old) }
        ensures received { self.new.received ≡ self.old.received }
        ensures in_sight { IsPrefix self.old.in_sight self.new.in_sight }
        ensures answer { IsTrue result ↔ (self.old.received ≡ intake.old.accepted) }
    {
        self.consumer.slots_beside(&mut intake.producer) == 0
    }
}

// Returns the item with the front's number set.
fn from_front(number: u16, item: Item) -> Item
    ensures { result ≡ made_item number item.ticket item.submission }
{
    Item {
        front: number,
        ticket: item.ticket,
        submission: item.submission,
    }
}
