//! The laws of many calls of a witness. Each is the contract of a function that does nothing.
//!
//! A cosignature is a call that returned 0. The laws speak of what [`crate::witness`] ensures of it, for any hash function with hashes of 32 bytes in place of
//! SHA-256.

ghost use Rattle.libwagtenib.specs.WitnessLaws.{CallsAreCosignatures, KeptAreAWitness, KeptGoBack, KeptAreInOrder, NoTimeIs0};

/// Each call that returned 0 wrote the message of one cosignature, whose time is not 0.
#[tactic(auto, using(crate::proofs::WitnessLaws::calls_are_cosignatures))]
pub fn calls_are_cosignatures()
    ensures one { CallsAreCosignatures }
    ensures timed { NoTimeIs0 }
{}

/// The trees that were cosigned over one register, which held none at first, are those of a witness of `ct_witness`. So its laws hold of them: of every two,
/// and of quorums of several witnesses.
#[tactic(auto, using(crate::proofs::WitnessLaws::kept_are_a_witness))]
pub fn cosigned_by_calls_are_a_witness()
    ensures { KeptAreAWitness }
{}

/// If the newest of these trees is that of a list of leaves, each of them is that of a beginning of this list, or two of the strings that are hashed
/// collide. Any number of processes may make calls, and may be killed anywhere.
#[tactic(auto, using(crate::proofs::WitnessLaws::kept_go_back))]
pub fn cosigned_by_calls_go_back()
    ensures { KeptGoBack }
{}

/// The cosignatures over one register are of one log, and neither their times nor their sizes fall.
#[tactic(auto, using(crate::proofs::WitnessLaws::kept_are_in_order))]
pub fn cosigned_by_calls_are_in_order()
    ensures { KeptAreInOrder }
{}
