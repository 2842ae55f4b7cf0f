//! Theorems about the definitions. Each is a clause of a function that does nothing.

ghost use Rattle.ct_step.specs.StateLines.{StateLinesDiffer, StateLinesAreLines};
ghost use Rattle.ct_step.specs.Resumed.{BundlesAreResumed, BundlesTell};

/// No two lines have the same text. Each text has 295 bytes, none of which ends a line.
#[tactic(auto, using(crate::proofs::StateLines::state_lines_differ, crate::proofs::StateLines::state_lines_are_lines))]
pub fn state_lines()
    ensures differ { StateLinesDiffer }
    ensures one_line { StateLinesAreLines }
{}

/// `resume` returns the objects from which a staged batch was made. If it returns objects for two different byte strings and the same line,
/// these two strings collide.
#[tactic(auto, using(crate::proofs::Bundles::bundles_are_resumed, crate::proofs::Bundles::bundles_tell))]
pub fn bundles()
    ensures resumed { BundlesAreResumed }
    ensures tell { BundlesTell }
{}
