//! The laws of the guard. Each is the contract of a function that does nothing.

ghost use Rattle.ct_guard.specs.History.{PassedHeadsAgree, PassedReceiptsStand};
ghost use Rattle.ct_guard.specs.NewestHead.{HeadsGoBack};
ghost use Rattle.ct_guard.specs.Register.{GuardsAgree};

/// Take any heads that were let through, in any number of runs, each of which begins with the last head of the run before. If each of them is the head of
/// some list of leaves, these lists are beginnings of one list, or two of the strings that are hashed collide.
#[tactic(auto, using(crate::proofs::History::passed_heads_agree))]
pub fn heads()
    ensures { PassedHeadsAgree }
{}

/// Take any heads that were let through, in any number of runs, each of which begins with the last head of the run before. If the newest is the head of a
/// list of leaves, each of them that has leaves is the head of a beginning of that list, or two of the strings that are hashed collide. The roots of the
/// other heads may be any.
#[tactic(auto, using(crate::proofs::NewestHead::heads_go_back))]
pub fn heads_go_back()
    ensures { HeadsGoBack }
{}

/// If the last head is that of a list of leaves, a leaf whose audit path leads to that head's root is in that list at its index, or two of the strings that
/// are hashed collide. The audit path of each receipt that is let through leads there.
#[tactic(auto, using(crate::proofs::History::passed_receipts_stand))]
pub fn receipts()
    ensures { PassedReceiptsStand }
{}

/// Take any number of guards of one key, each made with the head that one register holds, and killed anywhere. A head is signed only after the register took
/// it in place of the head that its guard had. If each signed head is that of some list of leaves, the lists are beginnings of one list, or two of the
/// strings that are hashed collide.
#[tactic(auto, using(crate::proofs::Register::guards_agree))]
pub fn guards_over_a_register()
    ensures { GuardsAgree }
{}
