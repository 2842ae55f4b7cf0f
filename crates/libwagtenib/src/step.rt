//! The step of a tiled log. Its state is the text of a line, and belongs to the caller.

ghost use Rattle.std.specs.Prelude.{◌≡◌, MatchOption};
ghost use Rattle.libwagtenib.specs.Step.{step_code, AnswersClaim, BeginsLog, IsAnswerTold, IsOrigin, MakesStep, NamesEdge, ResumesStep};

use crate::codes;
use crate::codes::OUT_OF_MEMORY;
use crate::output::write_output;
use ct_step::{Answer, Claim, StepRefusal};
use std::alloc::{AllocError, Global};

// The number of a refusal.
fn number_of(refusal: StepRefusal) -> u32
    ensures { result ≡ step_code refusal }
{
    match refusal {
        StepRefusal::TooFar => codes::TIMESTAMP_TOO_FAR,
        StepRefusal::BadState => codes::BAD_STATE,
        StepRefusal::Edge => codes::EDGE,
        StepRefusal::Entries => codes::ENTRIES,
        StepRefusal::ClockBack => codes::CLOCK_BACK,
        StepRefusal::Full => codes::LOG_FULL,
        StepRefusal::TooLong => codes::DATA_TILE_TOO_LONG,
        StepRefusal::Bundle => codes::BUNDLE,
        StepRefusal::Claim => codes::CLAIM,
        StepRefusal::BadBatch => codes::BAD_BATCH,
        StepRefusal::TooMany => codes::TOO_MANY,
    }
}

// Tells an answer.
fn answer_in(answer: Result<Answer, AllocError>, out: &mut [u8], length: &mut u64) -> u32
    ensures { IsAnswerTold answer result out.old out.new length.old length.new }
{
    match answer {
        Ok(Answer::Text(text)) => write_output(&text, out, length),
        Ok(Answer::Refused(refusal)) => number_of(refusal),
        Err(AllocError) => OUT_OF_MEMORY,
    }
}

// The origin that the bytes are.
pub(crate) fn origin_of(bytes: &[u8]) -> Option<&str>
    ensures { MatchOption result (IsOrigin bytes.now → ⊥) (λ text. (text.now ≡ bytes.now) × IsOrigin bytes.now) }
{
    if bytes.is_empty() || bytes.contains(&b'\n') {
        return None;
    }
    str::from_utf8(bytes).ok()
}

/// The state of a log without leaves at this timestamp, the text of a line. 0, 8 or 9.
#[tactic(auto, using(crate::proofs::Told::told))]
#[unsafe(no_mangle)]
pub extern "C" fn wagtenib_step_begin(
    alloc: Global,
    timestamp: u64,
    out: &mut [u8],
    length: &mut u64,
) -> u32
    ensures { BeginsLog timestamp result out.old out.new length.old length.new }
{
    answer_in(ct_step::calls::begin(alloc, timestamp), out, length)
}

/// Returns the names of the objects whose contents a step from this state needs, in order, each a vector whose length is in 8 bytes. 0, 8, 9 or 36
/// (`state` is none).
#[tactic(auto, using(crate::proofs::Told::told))]
#[unsafe(no_mangle)]
pub extern "C" fn wagtenib_step_needs(
    alloc: Global,
    state: &[u8],
    out: &mut [u8],
    length: &mut u64,
) -> u32
    ensures { NamesEdge state.now result out.old out.new length.old length.new }
{
    answer_in(ct_step::calls::needs(alloc, state), out, length)
}

/// A step from a state: of a batch, with the contents of the objects that it needs, at a timestamp that is at most `max_ahead` milliseconds beyond the
/// state's. 0, 8, 9 or the number of the first reason why there is none, in this order: 10, 55, 56, 36, 35, 48 to 52.
#[tactic(auto, using(crate::proofs::Told::told))]
#[unsafe(no_mangle)]
pub extern "C" fn wagtenib_step(
    alloc: Global,
    origin: &[u8],
    state: &[u8],
    edge: &[u8],
    batch: &[u8],
    now: u64,
    max_ahead: u64,
    out: &mut [u8],
    length: &mut u64,
) -> u32
    ensures { MakesStep origin.now state.now edge.now batch.now now max_ahead result out.old out.new length.old length.new }
{
    let Some(origin) = origin_of(origin) else {
        return codes::BAD_ORIGIN;
    };
    answer_in(
        ct_step::calls::step(alloc, origin, state, edge, batch, now, max_ahead),
        out,
        length,
    )
}

/// The bytes to sign in the receipt of a submission whose entry has this timestamp and is the leaf at this index, if the audit path leads from that leaf
/// to the root of the state. 0, 8, 9 or the number of the first reason why not, in this order: 55, 36, 54.
#[tactic(auto, using(crate::proofs::Told::told))]
#[unsafe(no_mangle)]
pub extern "C" fn wagtenib_step_claim(
    alloc: Global,
    state: &[u8],
    leaf_index: u64,
    timestamp: u64,
    path: &[[u8; 32]],
    submission: &[u8],
    out: &mut [u8],
    length: &mut u64,
) -> u32
    ensures { AnswersClaim state.now (record { leaf_index = leaf_index; timestamp = timestamp }) path.now submission.now result out.old out.new length.old length.new }
{
    let claim = Claim {
        leaf_index,
        timestamp,
    };
    answer_in(
        ct_step::calls::claim(alloc, state, claim, path, submission),
        out,
        length,
    )
}

/// The head of the step that made a state, the text of its checkpoint, and the objects in its bundle. 0, 8, 9 or the number of the first reason why not, in
/// this order: 10, 36, 53.
#[tactic(auto, using(crate::proofs::Told::told))]
#[unsafe(no_mangle)]
pub extern "C" fn wagtenib_step_resume(
    alloc: Global,
    origin: &[u8],
    state: &[u8],
    bundle: &[u8],
    out: &mut [u8],
    length: &mut u64,
) -> u32
    ensures { ResumesStep origin.now state.now bundle.now result out.old out.new length.old length.new }
{
    let Some(origin) = origin_of(origin) else {
        return codes::BAD_ORIGIN;
    };
    answer_in(
        ct_step::calls::resume(alloc, origin, state, bundle),
        out,
        length,
    )
}
