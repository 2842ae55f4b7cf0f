//! The laws of many calls of the guard. Each is the contract of a function that does nothing.
//!
//! A call that let a head or a receipt through is one that returned 0. The laws speak of what [`crate::guard`] ensures of it, for any hash function
//! with hashes of 32 bytes in place of SHA-256.

ghost use Rattle.libwagtenib.specs.GuardLaws.{TakenAreSteps, TakenAgree, TakenGoBack, ReceiptsStandInNewest, ReceiptsAreNoHeads, StatesDiffer, StatesAreReadBack};

/// Heads that were signed over one register were let through one after the other, as the laws of `ct_guard` and of `ct_node` speak of heads. Each
/// was signed only after the register answered that it holds the head's state. Any number of processes may make calls, and may be killed anywhere.
#[tactic(auto, using(crate::proofs::GuardLaws::taken_are_steps))]
pub fn signed_by_calls_are_steps()
    ensures { TakenAreSteps }
{}

/// If each of these heads is that of some list of leaves, the lists are beginnings of one list, or two of the strings that are hashed collide.
pub fn signed_by_calls_agree()
    ensures { TakenAgree }
{}

/// If the newest of these heads is that of a list of leaves, each of them that has leaves is that of a beginning of this list, or two of the strings
/// that are hashed collide.
#[tactic(auto, using(crate::proofs::GuardLaws::taken_go_back))]
pub fn signed_by_calls_go_back()
    ensures { TakenGoBack }
{}

/// If the newest of these heads is that of a list of leaves, the leaf of each receipt that was let through after any of them is in this list at its
/// index, or two of the strings that are hashed collide.
pub fn receipts_stand_in_the_newest()
    ensures { ReceiptsStandInNewest }
{}

/// The bytes that are signed for a receipt are never those that are signed for a head.
#[tactic(auto, using(crate::proofs::GuardLaws::receipts_are_no_heads))]
pub fn receipts_are_no_heads()
    ensures { ReceiptsAreNoHeads }
{}

/// A state is that of one head. A call that reads it, without another one that was seen, returns 0 and writes this head.
pub fn states_are_read_back()
    ensures differ { StatesDiffer }
    ensures read { StatesAreReadBack }
{}
