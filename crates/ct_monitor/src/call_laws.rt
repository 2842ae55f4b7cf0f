//! The laws of many calls. Each law is the contract of a function that does nothing.
//!
//! The laws hold for every hash function with hashes of 32 bytes. The calls use SHA-256.

ghost use Rattle.ct_monitor.specs.Accusations.{HeadsAreAccusedExactly};
ghost use Rattle.ct_monitor.specs.CallLaws.{CallsAgree, CallsAgreeFrom, MonitorStatesDiffer, MonitorStatesFit, UnfitStatesAreRefused};
ghost use Rattle.ct_monitor.specs.Starts.{CallsAgreeFromStart, StartsAreRead};

/// Take any number of calls, each over the state that the previous one returned, the first over the state of `begin`. None of these states
/// is refused. Each accepted head is the head of a prefix of one list: the leaves that were handed out and are accepted after the last
/// call.
#[tactic(auto, using(crate::proofs::CallHistory::calls_agree))]
pub fn calls_agree()
    ensures { CallsAgree }
{}

/// The same from any state on that a log can have led to.
#[tactic(auto, using(crate::proofs::CallHistory::calls_agree_from))]
pub fn calls_agree_from()
    ensures { CallsAgreeFrom }
{}

/// The parts of a state fit one another, if a log can have led to it. So such a state can be read again.
#[tactic(auto, using(crate::proofs::Fits::states_fit))]
pub fn states_fit()
    ensures { MonitorStatesFit }
{}

/// The bytes of two states differ, even if the parts of the states do not fit. So a state is read as it was written, or is refused.
#[tactic(auto, using(crate::proofs::Apart::states_differ))]
pub fn states_differ()
    ensures { MonitorStatesDiffer }
{}

/// The bytes of a state whose parts do not fit are refused.
#[tactic(auto, using(crate::proofs::Apart::unfit_states_are_refused))]
pub fn unfit_states_are_refused()
    ensures { UnfitStatesAreRefused }
{}

/// The state of a start can be read again.
#[tactic(auto, using(crate::proofs::Starts::starts_are_read))]
pub fn starts_are_read()
    ensures { StartsAreRead }
{}

/// The same as `calls_agree`, starting from a trusted head: each accepted head is the head of a prefix of one list, which begins with the
/// leaves of the trusted head.
#[tactic(auto, using(crate::proofs::Starts::calls_agree_from_start))]
pub fn calls_agree_from_start()
    ensures { CallsAgreeFromStart }
{}

/// A head is accused if and only if it contradicts a known head, or the waiting head is not the head of the leaves that were read. Known are
/// the heads of the accepted and of the waiting tree, with the earliest and the newest timestamp that was handed out.
pub fn heads_are_accused_exactly()
    ensures { HeadsAreAccusedExactly }
{}
