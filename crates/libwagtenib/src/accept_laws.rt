//! The laws of the calls of one node over a lock that may fall. Each is the contract of a function that does nothing.
//!
//! A node keeps the newest head that it accepted in a memory of its own. It accepts the head of a text from the lock only after `wagtenib_node_accept` returned 0 for it,
//! has only the accepted head signed, and has only receipts signed that `wagtenib_guard_receipts` let through after that head.

ghost use Rattle.libwagtenib.specs.AcceptLaws.{AcceptedAreSteps, ActsAreOfOneLog, StepReceiptsStandInNewest};

/// The heads that one node accepted were let through one after the other, whatever the lock held meanwhile.
#[tactic(auto, using(crate::proofs::AcceptLaws::accepted_are_steps))]
pub fn accepted_by_calls_are_steps()
    ensures { AcceptedAreSteps }
{}

/// If the newest head that a node accepted is that of a list, all heads and receipts that it ever had signed belong to this list, whatever the lock held
/// meanwhile: it may have fallen to any earlier text. Or two of the strings that are hashed collide.
#[tactic(auto, using(crate::proofs::AcceptLaws::acts_are_of_one_log))]
pub fn acts_by_calls_are_of_one_log()
    ensures { ActsAreOfOneLog }
{}

/// If the newest head that was signed over one register is that of a list, the leaves of each step whose receipts were let through after any head that was signed are in
/// this list from the step's first index on, or two of the strings that are hashed collide.
pub fn step_receipts_stand_in_the_newest()
    ensures { StepReceiptsStandInNewest }
{}
