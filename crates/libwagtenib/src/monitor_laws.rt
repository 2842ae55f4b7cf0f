//! The laws of many calls of the monitor. Each is the contract of a function that does nothing.
//!
//! The laws speak of what [`crate::monitor`] ensures of a call that returned 0.

ghost use Rattle.libwagtenib.specs.MonitorLaws.{JudgingCallsAgree, StartedCallsAgree};

/// However many calls are made, each over the state that the one before wrote, the first over that of `wagtenib_monitor_begin`: no state is refused, and each
/// head that was accepted is that of a beginning of one list, the leaves that were handed out and are accepted after the last call.
#[tactic(auto, using(crate::proofs::MonitorLaws::judging_calls_agree))]
pub fn calls_agree()
    ensures { JudgingCallsAgree }
{}

/// The same from a head on that the caller of `wagtenib_monitor_start` trusts. The list begins with the leaves of that head, if it has any.
#[tactic(auto, using(crate::proofs::MonitorLaws::started_calls_agree))]
pub fn started_calls_agree()
    ensures { StartedCallsAgree }
{}
