//! The fronts with their replies, and with their tasks in a shift.

ghost use Rattle.std.specs.Prelude.{◌≡◌, ◌<◌, vec_len, vec_capacity};

use ct_house::{Front, Retired, Sequencer};
use ct_lines::FrontRequest;

/// A front, and its replies so far.
#[derive(Drop)]
pub struct FrontParty {
    /// The front.
    pub front: Front,
    /// The lines of its replies, in order.
    pub replies: Vec<u8>,
}

/// A front's part of a shift.
#[derive(Drop)]
pub struct FrontShift {
    /// The front, and its replies so far.
    pub party: FrontParty,
    /// Its tasks, in order.
    pub tasks: Vec<FrontRequest>,
}

/// A house that was opened, between two shifts. It must be ended through its sequencer, which finishes the house or abandons it.
pub struct House {
    /// The sequencer.
    pub sequencer: Sequencer,
    /// The lines of the operator's replies so far, in order.
    pub told: Vec<u8>,
    /// The fronts, in order, with their replies so far.
    pub parties: Vec<FrontParty>,
    /// Room for the retired front that cannot be resumed.
    pub ends: Vec<Retired>,
    ghost room: { (vec_len ends ≡ 0) × (vec_len ends < vec_capacity ends) },
}
