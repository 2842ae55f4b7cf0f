//! The knowledge of a seat at the gate word.

use std::marker::Model;

/// The knowledge of a seat at the gate word. It has a value only in contracts.
pub struct Knowledge;

impl Model for Knowledge {
    ghost use Rattle.ct_gate.specs.Seats.{SeatView, nothing_known};

    ghost Value = { SeatView };

    ghost view = { λ _. nothing_known };
}
