//! Consequences of the definitions, each a clause of a function that does nothing.

ghost use Rattle.ct_monitor.specs.History.{AcceptedHeadsAgree};

/// However many answers are taken, in however many runs, each accepted head is the head of a prefix of one list of leaves. These are the
/// leaves that the log has handed out and that are accepted after the last answer. No collision freedom is assumed.
#[tactic(auto, using(crate::proofs::History::accepted_heads_agree))]
pub fn accepted_heads()
    ensures { AcceptedHeadsAgree }
{}
