//! The gate word: its rule, and what a seat learns from each kind of step.

use crate::view::Knowledge;
use atomic_table::{Join, Play, Seat, Split, Table, TableRule};
use std::alloc::Global;

/// Bit 63 of the word, which is set when the gate is shut.
pub const SHUTDOWN: u64 = 1 << 63;

/// The table with the one word. Its key is the number of fronts.
pub type Gate = Table<(), Knowledge, u64, GateRule, Global>;

/// A seat at the gate word.
pub type GateSeat = Seat<(), Knowledge>;

/// The rule of the gate word.
pub struct GateRule;

impl TableRule<(), Knowledge, u64> for GateRule {
    ghost use Rattle.ct_gate.specs.Word.{GateHolds};
    ghost use Rattle.ct_gate.specs.Opening.{all_in_one};

    ghost holds = { GateHolds };

    ghost first = { all_in_one };
}

/// A draw: one is added to the word. Bit 63 of the word found says whether the draw is refused.
pub struct Draw;

impl Play<(), Knowledge> for Draw {
    ghost use Rattle.ct_gate.specs.Steps.{Draws};

    ghost then = { Draws };
}

/// A glance: the word is read.
pub struct Glance;

impl Play<(), Knowledge> for Glance {
    ghost use Rattle.ct_gate.specs.Steps.{Glances};

    ghost then = { Glances };
}

/// The shutdown: bit 63 is set.
pub struct Shut;

impl Play<(), Knowledge> for Shut {
    ghost use Rattle.ct_gate.specs.Steps.{Shuts};

    ghost then = { Shuts };
}

/// The first front of a view gets a seat of its own.
pub struct Deal;

impl Split<Knowledge> for Deal {
    ghost use Rattle.ct_gate.specs.Opening.{rest_of, first_seat};

    ghost left = { rest_of };

    ghost right = { first_seat };
}

/// A view takes in another's fronts.
pub struct Gather;

impl Join<Knowledge> for Gather {
    ghost use Rattle.ct_gate.specs.Closing.{gathered, spent};

    ghost both = { gathered };

    ghost spent = { spent };
}
