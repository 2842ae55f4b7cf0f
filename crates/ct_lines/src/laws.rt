//! Laws of the lines, each the contract of a function that does nothing.

ghost use Rattle.ct_lines.specs.Laws.{RepliesByLines};

/// The replies of the frozen log to an input are the reply to its first line, if that is not empty, followed by the replies to the rest.
#[tactic(auto, using(crate::proofs::ByLines::replies_by_lines))]
pub fn replies_by_lines()
    ensures { RepliesByLines }
{}
