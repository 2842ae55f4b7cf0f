//! Theorems about many steps. Each is a clause of a function that does nothing.

ghost use Rattle.ct_step.specs.Believed.{BelievedEdgesTell, EdgesAreBelieved};
ghost use Rattle.ct_step.specs.Handed.{HandedSequencersAgree};
ghost use Rattle.ct_step.specs.Leaves.{ReceiptsAreLeaves};
ghost use Rattle.ct_step.specs.History.{SequencersAgree};
ghost use Rattle.ct_step.specs.Identities.{LeavesKeepIdentities};
ghost use Rattle.ct_step.specs.Misses.{MissesCanBeTrue, OneEntryAnIdentity};

/// However many sequencers carry on a log over one lock, and wherever they stop: there is one list of leaves to which everything belongs
/// that was written and promised by the steps whose states the lock took. Their timestamps rise, and their sizes do not fall.
#[tactic(auto, using(crate::proofs::Agree::sequencers_agree))]
pub fn sequencers()
    ensures { SequencersAgree }
{}

/// The same holds if the lock holds only heads, and each sequencer received the right edge from elsewhere and believed it
/// ([`crate::State::believed`]). The list has the leaves that were known, followed by those of each step whose head the lock took.
/// Everything that was written and promised by these steps belongs to this list. The alternative is a collision of two strings that are
/// hashed when roots are computed from the received tiles, or from the right edges of the beginnings of the list.
#[tactic(auto, using(crate::proofs::HandedAgree::handed_sequencers_agree))]
pub fn sequencers_over_heads()
    ensures { HandedSequencersAgree }
{}

/// The bytes that are signed for a receipt are the leaf that it names: RFC 6962, section 3.4, with an extension that has the index.
#[tactic(auto, using(crate::proofs::Steps::receipts_are_leaves))]
pub fn receipts()
    ensures { ReceiptsAreLeaves }
{}

/// - `tell`: partial tiles that are believed for the head of a list of leaves are the right edge of that list. The alternative is a
///   collision of two strings that are hashed when the root is computed from these tiles, or from the right edge of the list.
/// - `believed`: the right edge of a list is believed for its head.
#[tactic(auto, using(crate::proofs::EdgesTell::believed_edges_tell, crate::proofs::EdgesTell::edges_are_believed))]
pub fn edges()
    ensures tell { BelievedEdgesTell }
    ensures believed { EdgesAreBelieved }
{}

/// A leaf whose extension has its index has the identity of its submission, whatever its timestamp and its index are.
#[tactic(auto, using(crate::proofs::Once::leaves_keep_identities))]
pub fn leaves()
    ensures { LeavesKeepIdentities }
{}

/// However many sequencers carry on a log over one lock, and wherever they stop, suppose that:
/// - no batch has an identity twice
/// - each miss was true when the submissions of the step were looked up
/// - by then, the store had the identities of the known leaves, and those of each step that was taken before
///
/// Then the one list of leaves has at most one leaf for each identity after the known leaves, and none with an identity of a known leaf.
#[tactic(auto, using(crate::proofs::Once::one_entry_an_identity))]
pub fn one_entry_an_identity()
    ensures { OneEntryAnIdentity }
{}

/// For any steps that add each identity once, each miss can have been true. So each such history satisfies the premises of
/// [`one_entry_an_identity`] about the stores.
#[tactic(auto, using(crate::proofs::Missing::misses_can_be_true))]
pub fn misses()
    ensures { MissesCanBeTrue }
{}
