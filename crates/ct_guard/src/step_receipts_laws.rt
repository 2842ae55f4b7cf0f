//! The law of the receipts of a step. It is the contract of a function that does nothing.

ghost use Rattle.ct_guard.specs.StepReceipts.{StepReceiptsStand};

/// If the last head is the head of a list of leaves, the leaves of a step whose receipts are let through are the
/// leaves of that list from the step's first index on, or two of the strings that are hashed collide.
#[tactic(auto, using(crate::proofs::StepReceipts::step_receipts_stand))]
pub fn step_receipts()
    ensures { StepReceiptsStand }
{}
