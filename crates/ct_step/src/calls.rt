//! The calls.

ghost use Rattle.std.specs.Prelude.{◌≡◌, [], IfOk, map, option_map};
ghost use Rattle.ct_codec.specs.Submitted.{Submitted};
ghost use Rattle.ct_step.specs.StepAnswers.{IsReplyTo};
ghost use Rattle.ct_step.specs.StepAsks.{for_begin, for_needs, for_resume};
ghost use Rattle.ct_step.specs.StepBytes.{entry_parts};
ghost use Rattle.ct_step.specs.StepCalls.{claim_of_one, one_submission, IsReplyToClaim, IsReplyToStep};
ghost use Rattle.ct_step.specs.StepReplies.{IsReplyText};

use crate::Claim;
use crate::answer::{Answer, StepRefusal};
use crate::entry::Entry;
use crate::reading::{batch_of, contents_of};
use crate::replies::{begun_line, refused_line};
use crate::stepping::{
    claim_reply, edge_refusal, first_line, needs_reply, resume_reply, step_reply,
};
use ct_codec::Submission;
use std::alloc::{AllocError, Global};

// The maximum number of submissions in a batch.
const MOST: usize = 4096;

/// Returns the state of a log without leaves, at a timestamp.
pub fn begin(alloc: Global, timestamp: u64) -> Result<Answer, AllocError>
    ensures { IfOk result (λ t. IsReplyText [] t (IsReplyTo (for_begin timestamp))) }
{
    begun_line(alloc, &first_line(timestamp))
}

/// Returns the names of the objects that a step from a state needs, in order.
pub fn needs(alloc: Global, state: &[u8]) -> Result<Answer, AllocError>
    ensures { IfOk result (λ t. IsReplyText [] t (IsReplyTo (for_needs state.now))) }
{
    needs_reply(alloc, state)
}

/// Makes a step of a log with this origin from a state, with a batch and the contents of the objects that it needs. Its timestamp may be at
/// most `most` milliseconds after the state's.
pub fn step(
    alloc: Global,
    origin: &str,
    state: &[u8],
    edge: &[u8],
    batch: &[u8],
    now: u64,
    most: u64,
) -> Result<Answer, AllocError>
    ensures { IfOk result (λ t. IsReplyText origin.now t (IsReplyToStep batch.now edge.now now state.now most)) }
{
    let contents = contents_of(alloc, edge)?;
    let Some(entries) = batch_of(alloc, batch)? else {
        return refused_line(StepRefusal::BadBatch);
    };
    if entries.len() > MOST {
        return refused_line(StepRefusal::TooMany);
    }
    match contents {
        Some(contents) => step_reply(alloc, origin, entries, &contents, now, most, state),
        None => refused_line(edge_refusal(state, now, most)),
    }
}

/// Returns the objects of the step that made a state of a log with this origin, by its staged batch.
pub fn resume(
    alloc: Global,
    origin: &str,
    state: &[u8],
    bundle: &[u8],
) -> Result<Answer, AllocError>
    ensures { IfOk result (λ t. IsReplyText origin.now t (IsReplyTo (for_resume bundle.now state.now))) }
{
    resume_reply(alloc, origin, bundle, state)
}

// Returns the submission of a batch that has exactly one.
fn one_of(batch: &[Entry]) -> Option<&Submission>
    ensures { option_map {U = Submitted} (λ s. s.now) result ≡ one_submission (map entry_parts batch.now) }
{
    let Some((entry, rest)) = batch.split_first() else {
        return None;
    };
    if rest.is_empty() {
        Some(&entry.submission)
    } else {
        None
    }
}

// Replies to the index that is claimed for the only submission of a batch.
fn claim_of(
    alloc: Global,
    state: &[u8],
    claim: Claim,
    path: &[[u8; 32]],
    batch: &[Entry],
) -> Result<Answer, AllocError>
    ensures { IfOk result (λ t. IsReplyText [] t (IsReplyTo (claim_of_one (one_submission (map entry_parts batch.now)) claim path.now state.now))) }
{
    match one_of(batch) {
        Some(submission) => claim_reply(alloc, claim, path, state, submission),
        None => refused_line(StepRefusal::BadBatch),
    }
}

/// Returns the bytes to be signed in the receipt of a submission's entry, by the index and timestamp that are claimed for it and an audit
/// path to the root of a state.
pub fn claim(
    alloc: Global,
    state: &[u8],
    claim: Claim,
    path: &[[u8; 32]],
    submission: &[u8],
) -> Result<Answer, AllocError>
    ensures { IfOk result (λ t. IsReplyText [] t (IsReplyToClaim submission.now claim path.now state.now)) }
{
    match batch_of(alloc, submission)? {
        Some(batch) => claim_of(alloc, state, claim, path, &batch),
        None => refused_line(StepRefusal::BadBatch),
    }
}
