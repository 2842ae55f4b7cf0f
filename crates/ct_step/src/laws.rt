//! Theorems about the definitions. Each is a clause of a function that does nothing.

ghost use Rattle.ct_step.specs.Lines.{HandedAttemptsAreAttempts, HashedStringsAreListed, LineSequencersAgree, TrueEdgesAgree};
ghost use Rattle.ct_step.specs.RollingOut.{StepsAreRolledOut};
ghost use Rattle.ct_step.specs.Steps.{EdgesAreNamed, NamedEdgesTell};

/// However many sequencers carry on a log over one lock, each of which receives the right edge and the partial data tile from elsewhere,
/// and wherever they stop: the entries that were known, followed by those of each step whose line the lock took, are one list. Everything
/// that was written and promised by these steps belongs to this list, its leaves in the tree and its texts in the data tiles. The
/// alternative is a collision of two strings that the makers of the steps hashed, or that are hashed for the log's lines.
#[tactic(auto, using(crate::proofs::LinesAgree::line_sequencers_agree))]
pub fn sequencers_over_lines()
    ensures { LineSequencersAgree }
{}

/// The same without this alternative, if each step that was taken received the right edge of the log.
#[tactic(auto, using(crate::proofs::LinesAgree::true_edges_agree))]
pub fn sequencers_over_true_edges()
    ensures { TrueEdgesAgree }
{}

/// A step that was made from any received bytes is one to which [`sequencers_over_lines`] applies, if the strings that its maker hashed are
/// among those of that theorem.
pub fn attempts()
    ensures { HandedAttemptsAreAttempts }
{}

/// There is a list of all strings that the makers of steps hash, so the list that these theorems ask for can always be given.
#[tactic(auto, using(crate::proofs::Listed::hashed_strings_are_listed))]
pub fn listed()
    ensures { HashedStringsAreListed }
{}

/// - `tell`: received bytes that a line names are the right edge of each log that has the line. The alternative is a collision of two
///   strings that are hashed for the received bytes, or for the log's line.
/// - `named`: a line of a log names the log's right edge.
pub fn edges()
    ensures tell { NamedEdgesTell }
    ensures named { EdgesAreNamed }
{}

/// The objects that `resume` returns for the staged batch of a step are those that the step writes, whoever calls it. If it returns objects
/// of other bytes for the step's line, these bytes and the step's staged batch collide.
#[tactic(auto, using(crate::proofs::RollingOut::steps_are_rolled_out))]
pub fn rolled_out()
    ensures { StepsAreRolledOut }
{}
