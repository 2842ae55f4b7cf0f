//! Replies to requests.

ghost use Rattle.std.specs.Prelude.{◌≡◌, ◌+◌, ◌^◌, ◌<◌, ◌≤◌, ℕ, List, [], All, IfOk, map, None, Some};
ghost use Rattle.std.specs.Bool.{MatchBool};
ghost use Rattle.sha2.specs.Sha256.{sha256};
ghost use Rattle.ct_step.specs.Resumed.{object_parts};
ghost use Rattle.ct_step.specs.StateLines.{IsStateLine};
ghost use Rattle.ct_step.specs.StepAsks.{for_needs, for_no_edge, for_step, for_resume, for_claim};
ghost use Rattle.ct_step.specs.StepBytes.{entry_parts};
ghost use Rattle.ct_step.specs.StepAnswers.{first_line, edge_of, AreObjectsIn, IsStepReply, TellsObjects, IsBoundedReply, IsResumeReply, IsClaimReply, IsReplyTo};
ghost use Rattle.ct_step.specs.StepReplies.{IsReplyText};
ghost use Rattle.ct_step.specs.StepWords.{IsTileName, bundle_size, names_edge, refuses, StepReply};
ghost use Rattle.ct_step.specs.Needed.{needed_names};

use crate::answer::{Answer, StepRefusal};
use crate::bundle::{is_bundle, objects_of};
use crate::edge::edge_of;
use crate::entry::Entry;
use crate::fault::{NoName, NotBelieved, NotRolledOut, NotTaken};
use crate::places::places_of;
use crate::repeats::split_batch;
use crate::replies::{claimed_line, names_line, refused_line, resumed_line, stepped_line};
use crate::{Claim, Object, StateLine, Step, answer_repeat, needed, resume, take_step};
use ct_codec::Submission;
use ct_data_tiles::Tile;
use ct_tree::{Head, NodeHash, Sha256Hash};
use std::alloc::{AllocError, Global};

// Returns the line of a log without leaves at a timestamp.
pub(crate) fn first_line(moment: u64) -> StateLine
    ensures { result ≡ first_line moment }
{
    let nothing = Sha256Hash.hash(&[]);
    StateLine {
        tree_size: 0,
        timestamp: moment,
        root: nothing,
        bundle: [0; 32],
        data_tile: nothing,
        before: [0; 32],
    }
}

// Replies with the names of the objects that a step from a line needs.
fn named_needs(alloc: Global, line: &StateLine) -> Result<Answer, AllocError>
    requires { IsStateLine line.now }
    ensures { IfOk result (λ t. IsReplyText [] t (λ reply. reply ≡ names_edge (needed_names line.now.tree_size))) }
{
    let names = needed(alloc, line)?;
    names_line(alloc, &names)
}

// Replies to the request for the names of the objects that a step from a state needs.
pub(crate) fn needs_reply(alloc: Global, state: &[u8]) -> Result<Answer, AllocError>
    ensures { IfOk result (λ t. IsReplyText [] t (IsReplyTo (for_needs state.now))) }
{
    match StateLine::read(state) {
        Some(line) => named_needs(alloc, &line),
        None => refused_line(StepRefusal::BadState),
    }
}

// Reports whether a text is the name of a tile.
fn is_tile_name(alloc: Global, name: &[u8]) -> Result<bool, AllocError>
    ensures { IfOk result (λ b. MatchBool b (IsTileName name.now) (IsTileName name.now → ⊥)) }
{
    match Tile::from_name(alloc, name) {
        Ok(_) => Ok(true),
        Err(fault) => {
            NoName::from(fault).told?;
            Ok(false)
        }
    }
}

// Reports whether each of the objects has the name of a tile.
fn are_tiles(alloc: Global, objects: &[Object<'_>]) -> Result<bool, AllocError>
    ensures { IfOk result (λ b. MatchBool b (All IsTileName (map (λ o. (object_parts o).0) objects.now))
        (All IsTileName (map (λ o. (object_parts o).0) objects.now) → ⊥)) }
{
    for object in objects {
        if !is_tile_name(alloc, object.name)? {
            return Ok(false);
        }
    }
    Ok(true)
}

// Returns the objects of a staged batch if it is one of objects with the names of tiles, and otherwise no objects. The digest is not computed:
// the caller made these bytes itself.
fn objects_in<'a>(alloc: Global, bundle: &'a [u8]) -> Result<Vec<Object<'a>>, AllocError>
    ensures found { IfOk result (λ objects. AreObjectsIn bundle.now (map object_parts objects.items)) }
    ensures named { IfOk result (λ objects. All IsTileName (map (λ o. (object_parts o).0) objects.items)) }
    ensures few { IfOk result (λ objects. bundle_size (map object_parts objects.items) < 2 ^ 64) }
{
    if !is_bundle(bundle) {
        return Ok(Vec::new(alloc));
    }
    let objects = objects_of(alloc, bundle)?;
    if are_tiles(alloc, &objects)? {
        Ok(objects)
    } else {
        Ok(Vec::new(alloc))
    }
}

// Replies with a step and the indexes of a batch's submissions among its entries.
fn step_made(
    alloc: Global,
    origin: &str,
    step: &Step,
    places: &[usize],
) -> Result<Answer, AllocError>
    requires { step.now.line.data_tile ≡ sha256 step.now.partial.items }
    ensures { IfOk result (λ t. IsReplyText origin.now t (TellsObjects step.now places.now)) }
{
    let objects = objects_in(alloc, &step.bundle)?;
    let standing = places_of(alloc, &objects, &step.partial, &step.line.data_tile)?;
    stepped_line(alloc, origin, step, places, &standing)
}

// Replies to the request for a step from a line with its edge.
fn taken(
    alloc: Global,
    origin: &str,
    line: &StateLine,
    edge: &[Vec<u8>],
    entries: &[u8],
    batch: Vec<Entry>,
    now: u64,
) -> Result<Answer, AllocError>
    ensures { IfOk result (λ t. IsReplyText origin.now t
        (IsStepReply line.now (Some (map (λ b. b.items) edge.now, entries.now)) (map entry_parts batch.items) now)) }
{
    let split = split_batch(alloc, batch)?;
    match take_step(alloc, &Sha256Hash, line, edge, entries, &split.firsts, now) {
        Ok(step) => step_made(alloc, origin, &step, &split.places),
        Err(fault) => match NotTaken::from(fault).told? {
            Some(refusal) => refused_line(refusal),
            None => unreachable!(),
        },
    }
}

// Replies to the request for a step from a line.
fn stepped(
    alloc: Global,
    origin: &str,
    line: &StateLine,
    batch: Vec<Entry>,
    contents: &[Vec<u8>],
    now: u64,
) -> Result<Answer, AllocError>
    ensures { IfOk result (λ t. IsReplyText origin.now t
        (IsStepReply line.now (edge_of line.now.tree_size (map (λ b. b.items) contents.now)) (map entry_parts batch.items) now)) }
{
    match edge_of(alloc, line.tree_size, contents)? {
        Some((tiles, entries)) => taken(alloc, origin, line, &tiles, entries, batch, now),
        None => refused_line(StepRefusal::Edge),
    }
}

// Reports whether a timestamp is more than `most` milliseconds after a line's.
fn is_too_far(line: &StateLine, now: u64, most: u64) -> bool
    ensures { MatchBool result (line.now.timestamp + most < now) (now ≤ line.now.timestamp + most) }
{
    now > line.timestamp && now - line.timestamp > most
}

// Replies to the request for a step from a line whose timestamp may be at most `most` milliseconds after the line's.
fn bounded(
    alloc: Global,
    origin: &str,
    line: &StateLine,
    batch: Vec<Entry>,
    contents: &[Vec<u8>],
    now: u64,
    most: u64,
) -> Result<Answer, AllocError>
    ensures { IfOk result (λ t. IsReplyText origin.now t
        (IsBoundedReply line.now (edge_of line.now.tree_size (map (λ b. b.items) contents.now)) (map entry_parts batch.items) now most)) }
{
    if is_too_far(line, now, most) {
        return refused_line(StepRefusal::TooFar);
    }
    stepped(alloc, origin, line, batch, contents, now)
}

// Replies to the request for a step.
pub(crate) fn step_reply(
    alloc: Global,
    origin: &str,
    batch: Vec<Entry>,
    contents: &[Vec<u8>],
    now: u64,
    most: u64,
    state: &[u8],
) -> Result<Answer, AllocError>
    ensures { IfOk result (λ t. IsReplyText origin.now t
        (IsReplyTo (for_step (map entry_parts batch.items) (map (λ b. b.items) contents.now) now state.now most))) }
{
    match StateLine::read(state) {
        Some(line) => bounded(alloc, origin, &line, batch, contents, now, most),
        None => refused_line(StepRefusal::BadState),
    }
}

// Returns why there is no step from a line with an edge that is not a list of contents.
fn line_refusal(line: &StateLine, now: u64, most: u64) -> StepRefusal
    ensures { IsBoundedReply line.now None [] now most (refuses result) }
{
    if is_too_far(line, now, most) {
        StepRefusal::TooFar
    } else {
        StepRefusal::Edge
    }
}

// Returns why there is no step with an edge that is not a list of contents: the state and the timestamp are judged before the edge.
pub(crate) fn edge_refusal(state: &[u8], now: u64, most: u64) -> StepRefusal
    ensures { IsReplyTo (for_no_edge now state.now most) (refuses result) }
{
    match StateLine::read(state) {
        Some(line) => line_refusal(&line, now, most),
        None => StepRefusal::BadState,
    }
}

// Replies to the request for the objects of a line's step.
fn resumed(
    alloc: Global,
    origin: &str,
    line: &StateLine,
    bundle: &[u8],
) -> Result<Answer, AllocError>
    ensures { IfOk result (λ t. IsReplyText origin.now t (IsResumeReply line.now bundle.now)) }
{
    let objects = match resume(alloc, &Sha256Hash, line, bundle) {
        Ok(objects) => objects,
        Err(fault) => {
            NotRolledOut::from(fault).told?;
            return refused_line(StepRefusal::Bundle);
        }
    };
    if !are_tiles(alloc, &objects)? {
        return refused_line(StepRefusal::Bundle);
    }
    let standing = places_of(alloc, &objects, &[], &Sha256Hash.hash(&[]))?;
    resumed_line(alloc, origin, line, &standing)
}

// Replies to the request for the objects of a step that was decided.
pub(crate) fn resume_reply(
    alloc: Global,
    origin: &str,
    bundle: &[u8],
    state: &[u8],
) -> Result<Answer, AllocError>
    ensures { IfOk result (λ t. IsReplyText origin.now t (IsReplyTo (for_resume bundle.now state.now))) }
{
    match StateLine::read(state) {
        Some(line) => resumed(alloc, origin, &line, bundle),
        None => refused_line(StepRefusal::BadState),
    }
}

// Replies to the index that is claimed for a submission in the log of a line.
fn claimed(
    alloc: Global,
    line: &StateLine,
    claim: Claim,
    path: &[[u8; 32]],
    submission: &Submission,
) -> Result<Answer, AllocError>
    ensures { IfOk result (λ t. IsReplyText [] t (IsClaimReply line.now claim path.now submission.now)) }
{
    let head = Head {
        tree_size: line.tree_size,
        timestamp: line.timestamp,
        root: line.root,
    };
    match answer_repeat(alloc, &Sha256Hash, &head, submission, claim, path) {
        Ok(receipt) => claimed_line(receipt),
        Err(fault) => {
            NotBelieved::from(fault).told?;
            refused_line(StepRefusal::Claim)
        }
    }
}

// Replies to the request for the receipt of a submission's entry.
pub(crate) fn claim_reply(
    alloc: Global,
    claim: Claim,
    path: &[[u8; 32]],
    state: &[u8],
    submission: &Submission,
) -> Result<Answer, AllocError>
    ensures { IfOk result (λ t. IsReplyText [] t
        (IsReplyTo (for_claim claim path.now state.now submission.now))) }
{
    match StateLine::read(state) {
        Some(line) => claimed(alloc, &line, claim, path, submission),
        None => refused_line(StepRefusal::BadState),
    }
}
