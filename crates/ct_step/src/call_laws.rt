//! Theorems about the definitions. Each is the contract of a function that does nothing.

ghost use Rattle.ct_step.specs.RolledOut.{ReferencesAreSlices, RepliedObjectsChange, ResumedLinesAreRolledOut};
ghost use Rattle.ct_step.specs.StepLaws.{BatchesAreSplit, ClaimsStandThere, FirstLineBegins, OneEntryAnIdentityByLines, ReceiptsNameEntries, RepliedStepsAreAttempts};

/// The first line of a log is that of a log without entries. The theorems of this module hold for every hash function, except that
/// [`claims`] and the clause `change` of [`objects_stand_there`] need digests of 32 bytes. The library uses SHA-256.
pub fn first_line_begins()
    ensures { FirstLineBegins }
{}

/// Each step in a reply is one to which the theorem about sequencers ([`crate::laws::sequencers_over_lines`]) applies, whoever passed the
/// edge.
pub fn replied_steps_are_attempts()
    ensures { RepliedStepsAreAttempts }
{}

/// - `slices`: the objects that a reply names are in the staged batch at the offsets that it says.
/// - `change`: those of a step are the tiles and data tiles that the step changes. The alternative is a collision of two strings that are
///   hashed for the received contents, or for the log's line.
pub fn objects_stand_there()
    ensures slices { ReferencesAreSlices }
    ensures change { RepliedObjectsChange }
{
    crate::laws::edges();
}

/// Anybody who publishes a step from the line that a lock holds puts the objects that its maker would have put. Otherwise the bytes that
/// are published collide with the step's staged batch.
pub fn rolled_out_by_lines()
    ensures { ResumedLinesAreRolledOut }
{}

/// A claim's receipt has the claimed index and timestamp. The bytes to be signed are the submission's leaf with these, which is at that
/// index of the log with the given state. The alternative is a collision of two strings that are hashed when the path is checked, or in the
/// log's tree.
pub fn claims()
    ensures { ClaimsStandThere }
{}

/// No identity occurs twice among the entries that are made from a batch. Each submission has the index of the first one with its identity.
pub fn batches()
    ensures { BatchesAreSplit }
{}

/// Each submission of a batch gets the receipt of the first one with its identity: its leaf index in the log, the timestamp, and the bytes
/// of that leaf. This holds in every log that has the state's line, and for any received edge.
pub fn receipts()
    ensures { ReceiptsNameEntries }
{}

/// However many sequencers carry on a log by lines, suppose that:
/// - each miss was true when the submissions of the step were looked up
/// - by then, the store had the identities of the known entries, and those of each step that was taken before
///
/// Then the log that the lock's line names has at most one entry of each identity after those that were known, and none with an identity of
/// a known entry. The alternative is a collision of two strings that the makers of the steps hashed, or that are hashed for the log's
/// lines.
pub fn one_entry_an_identity_by_lines()
    ensures { OneEntryAnIdentityByLines }
{}
