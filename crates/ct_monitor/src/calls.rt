//! The calls.

ghost use Rattle.std.specs.Prelude.{◌≡◌, ◌⊎◌, ◌+◌, ◌-◌, ◌<◌, ◌≤◌, ◌^◌, IfOk, MatchOption, None, Some, map};
ghost use Rattle.ct_monitor.specs.WatcherState.{WatcherState};
ghost use Rattle.ct_monitor.specs.StateText.{IsMonitorState, IsNoState};
ghost use Rattle.sha2.specs.Sha256.{sha256};
ghost use Rattle.ct_monitor.specs.declared.verdict.Verdict.TheVariants.{Gap};
ghost use Rattle.ct_monitor.specs.Calls.{FindsEntries, HasState, IsMonitorAnswer, IsEntriesAnswer, IsMonitorBegin, LeavesState, StateJudges, a_head, a_proof, an_older, entries_from};
ghost use Rattle.ct_monitor.specs.Entries.{moment_awaited, size_awaited};
ghost use Rattle.ct_monitor.specs.Fitting.{FitsTogether};
ghost use Rattle.ct_monitor.specs.Verdicts.{IsBeside, IsGrownLater};

use crate::answer::{Answer, EntriesAnswer};
use crate::entries::{FaultyEntry, LaterEntry, first_faulty, first_later};
use crate::facts::is_in_bytes;
use crate::fitting::fits_together;
use crate::reading::read_state;
use crate::watcher::beside;
use crate::writing::write_state;
use crate::{Newest, Peaks, Verdict, Watcher};
use ct_tree::{Head, Sha256Hash};
use std::alloc::{AllocError, Global};

// The size of the waiting head. If no head waits, the number of leaves that were read.
fn size_awaited(watcher: &Watcher<Sha256Hash>) -> u64
    ensures { result ≡ size_awaited watcher.now.waiting watcher.now.all.0 }
{
    match watcher.waiting() {
        Some(head) => head.tree_size,
        None => watcher.all().size(),
    }
}

// The number of leaves that were read.
fn leaves_read(watcher: &Watcher<Sha256Hash>) -> u64
    ensures { result ≡ watcher.now.all.0 }
{
    watcher.all().size()
}

// The number of accepted leaves.
fn leaves_accepted(watcher: &Watcher<Sha256Hash>) -> u64
    ensures { result ≡ watcher.now.sure.0 }
{
    watcher.sure().size()
}

// The timestamp of the waiting head.
fn waiting_moment(watcher: &Watcher<Sha256Hash>) -> u64
    ensures { result ≡ moment_awaited watcher.now.waiting }
{
    match watcher.waiting() {
        Some(head) => head.timestamp,
        None => 0,
    }
}

// The answer that has this verdict and this state, whose parts fit.
fn answer_of(
    alloc: Global,
    verdict: Verdict,
    watcher: &Watcher<Sha256Hash>,
) -> Result<Answer, AllocError>
    requires { FitsTogether sha256 watcher.now }
    ensures verdict { IfOk result (λ a. a.verdict ≡ verdict) }
    ensures state { IfOk result (λ a. HasState sha256 watcher.now a) }
{
    is_in_bytes(watcher);
    let state = write_state(alloc, watcher)?;
    Ok(Answer {
        verdict,
        leaves_accepted: leaves_accepted(watcher),
        leaves_read: leaves_read(watcher),
        leaves_wanted: size_awaited(watcher),
        state,
    })
}

/// The state of a monitor that was given nothing.
pub fn begin(alloc: Global) -> Result<Vec<u8>, AllocError>
    ensures { IfOk result (λ bytes. IsMonitorBegin sha256 bytes.items) }
{
    let watcher = Watcher::from_parts(
        Sha256Hash,
        None,
        None,
        Newest {
            accepted: 0,
            waiting: 0,
        },
        Peaks::from_parts(0, Vec::new(alloc)),
        Peaks::from_parts(0, Vec::new(alloc)),
    );
    write_state(alloc, &watcher)
}

// The verdict on a tree head.
fn judge_head(watcher: &mut Watcher<Sha256Hash>, head: Head) -> Result<Verdict, AllocError>
    ensures { IfOk result (λ v. StateJudges sha256 watcher.old (a_head head) v watcher.new) }
{
    watcher.take_head(head)
}

// The verdict on entries.
fn judge_entries(
    watcher: &mut Watcher<Sha256Hash>,
    start: u64,
    leaves: &[Vec<u8>],
) -> Result<Verdict, AllocError>
    ensures { IfOk result (λ v. StateJudges sha256 watcher.old (entries_from start (map (λ l. l.items) leaves.now)) v watcher.new) }
{
    watcher.take_entries(start, leaves)
}

// The verdict on a consistency proof.
fn judge_proof(watcher: &Watcher<Sha256Hash>, path: &[[u8; 32]]) -> Verdict
    ensures { StateJudges sha256 watcher.now (a_proof path.now) result watcher.now }
{
    watcher.take_proof(path)
}

// The verdict on a consistency proof from an older head.
fn judge_older(watcher: &Watcher<Sha256Hash>, head: Head, path: &[[u8; 32]]) -> Verdict
    ensures { StateJudges sha256 watcher.now (an_older head path.now) result watcher.now }
{
    watcher.take_older(head, path)
}

// The answer that has this verdict and leaves the state as it is.
fn unchanged(alloc: Global, state: &[u8], verdict: Verdict) -> Result<Option<Answer>, AllocError>
    ensures { IfOk result (λ o. MatchOption o (IsNoState sha256 state.now)
        (λ a. (a.verdict ≡ verdict) × ((s : WatcherState) × IsMonitorState sha256 s state.now × HasState sha256 s a))) }
{
    let Some(watcher) = read_state(alloc, state)? else {
        return Ok(None);
    };
    let answer = answer_of(alloc, verdict, &watcher)?;
    Ok(Some(answer))
}

// The answer that has this verdict and the state of the watcher, or that leaves the state as it is if the watcher's parts do not fit. No answer of a log leads there:
// then a state keeps nothing that a log handed out, and each verdict is right.
fn answer_after(
    alloc: Global,
    state: &[u8],
    verdict: Verdict,
    watcher: &Watcher<Sha256Hash>,
) -> Result<Option<Answer>, AllocError>
    ensures { IfOk result (λ o. MatchOption o (IsNoState sha256 state.now)
        (λ a. (a.verdict ≡ verdict) × LeavesState sha256 state.now watcher.now a)) }
{
    if !fits_together(watcher) {
        return unchanged(alloc, state, verdict);
    }
    let answer = answer_of(alloc, verdict, watcher)?;
    Ok(Some(answer))
}

/// The verdict on a tree head, over a state. `None` means that the bytes are not a state.
///
/// # Errors
///
/// Returns an error if memory runs out.
pub fn take_head(alloc: Global, state: &[u8], head: Head) -> Result<Option<Answer>, AllocError>
    ensures { IfOk result (λ o. MatchOption o (IsNoState sha256 state.now) (λ a. IsMonitorAnswer sha256 state.now (a_head head) a)) }
{
    let Some(mut watcher) = read_state(alloc, state)? else {
        return Ok(None);
    };
    let verdict = judge_head(&mut watcher, head)?;
    answer_after(alloc, state, verdict, &watcher)
}

// How many of the available leaves are read: as far as the waiting head goes.
fn room_for(wanted: u64, read: u64, available: usize) -> usize
    ensures as_far { (result ≡ wanted - read) ⊎ ((available ≤ wanted - read) × (result ≡ available)) }
    ensures fits { result ≤ available }
    ensures few { read + result < 2 ^ 64 }
{
    if wanted <= read {
        return 0;
    }
    let room = (wanted - read) as usize;
    if room < available { room } else { available }
}

// The report on entries.
#[derive(Clone, Copy)]
struct Report {
    later: Option<LaterEntry>,
    faulty: Option<FaultyEntry>,
}

// The report on the entries that are read over this state.
fn report_of(watcher: &Watcher<Sha256Hash>, leaves: &[Vec<u8>]) -> Report
    ensures { FindsEntries watcher.now (map (λ l. l.items) leaves.now) result.later result.faulty }
{
    let first = leaves_read(watcher);
    let count = room_for(size_awaited(watcher), first, leaves.len());
    let read = &leaves[..count];
    Report {
        later: first_later(waiting_moment(watcher), first, read),
        faulty: first_faulty(first, read),
    }
}

// The report, or nothing if the entries were not read.
fn reported(verdict: Verdict, report: Report) -> Report
    ensures { ((verdict ≡ Gap) × (result.later ≡ None) × (result.faulty ≡ None)) ⊎ ((verdict ≡ Gap → ⊥) × (result.later ≡ report.later) × (result.faulty ≡ report.faulty)) }
{
    match verdict {
        Verdict::Gap => Report {
            later: None,
            faulty: None,
        },
        _ => report,
    }
}

/// The verdict on the leaves from the index `start` on, over a state. `None` means that the bytes are not a state.
///
/// # Errors
///
/// Returns an error if memory runs out.
pub fn take_entries(
    alloc: Global,
    state: &[u8],
    start: u64,
    leaves: &[Vec<u8>],
) -> Result<Option<EntriesAnswer>, AllocError>
    ensures { IfOk result (λ o. MatchOption o (IsNoState sha256 state.now)
        (λ a. IsEntriesAnswer sha256 state.now start (map (λ l. l.items) leaves.now) a)) }
{
    let Some(mut watcher) = read_state(alloc, state)? else {
        return Ok(None);
    };
    let head_timestamp = waiting_moment(&watcher);
    let report = report_of(&watcher, leaves);
    let verdict = judge_entries(&mut watcher, start, leaves)?;
    let told = reported(verdict, report);
    let Some(answer) = answer_after(alloc, state, verdict, &watcher)? else {
        return Ok(None);
    };
    Ok(Some(EntriesAnswer {
        answer,
        head_timestamp,
        later: told.later,
        faulty: told.faulty,
    }))
}

/// The verdict on a consistency proof from the accepted head to the waiting one, over a state. `None` means that the bytes are not a state.
///
/// # Errors
///
/// Returns an error if memory runs out.
pub fn take_proof(
    alloc: Global,
    state: &[u8],
    path: &[[u8; 32]],
) -> Result<Option<Answer>, AllocError>
    ensures { IfOk result (λ o. MatchOption o (IsNoState sha256 state.now) (λ a. IsMonitorAnswer sha256 state.now (a_proof path.now) a)) }
{
    let Some(watcher) = read_state(alloc, state)? else {
        return Ok(None);
    };
    let verdict = judge_proof(&watcher, path);
    let answer = answer_of(alloc, verdict, &watcher)?;
    Ok(Some(answer))
}

/// The verdict on a consistency proof from an older head to the accepted one, if that has more leaves, otherwise to the waiting one, over a
/// state. `None` means that the bytes are not a state.
///
/// # Errors
///
/// Returns an error if memory runs out.
pub fn take_older(
    alloc: Global,
    state: &[u8],
    head: Head,
    path: &[[u8; 32]],
) -> Result<Option<Answer>, AllocError>
    ensures { IfOk result (λ o. MatchOption o (IsNoState sha256 state.now) (λ a. IsMonitorAnswer sha256 state.now (an_older head path.now) a)) }
{
    let Some(watcher) = read_state(alloc, state)? else {
        return Ok(None);
    };
    let verdict = judge_older(&watcher, head, path);
    let answer = answer_of(alloc, verdict, &watcher)?;
    Ok(Some(answer))
}

/// The verdict on a head compared with a known one: `Again`, `Older`, `Shrunk`, `Fork` or `TimeNotLater`. There is none if the head has more
/// leaves and is later.
pub fn compare_heads(known: Head, head: &Head) -> Option<Verdict>
    ensures { MatchOption result (IsGrownLater (Some known) known.timestamp head.now) (λ v. IsBeside known known.timestamp head.now v) }
{
    beside(Some(known), known.timestamp, head)
}
