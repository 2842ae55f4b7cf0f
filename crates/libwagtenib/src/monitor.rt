//! A monitor's verdicts on the answers of a log. Its state is bytes, and belongs to the caller.

ghost use Rattle.std.specs.Bool.{MatchBool};
ghost use Rattle.std.specs.Prelude.{◌≡◌, ◌⊎◌, IfOk, MatchOption, Some, length, sum};
ghost use Rattle.sha2.specs.Sha256.{sha256};
ghost use Rattle.ct_monitor.specs.Calls.{IsMonitorAnswer, IsEntriesAnswer, a_head, a_proof, an_older, entries_from};
ghost use Rattle.ct_monitor.specs.StateText.{IsNoState};
ghost use Rattle.libwagtenib.specs.Guard.{head_of_c};
ghost use Rattle.ct_monitor.specs.Verdicts.{IsBeside, IsGrownLater};
ghost use Rattle.libwagtenib.specs.Monitor.{AddUp, BeginsMonitor, ComparesHeads, GivesAnswer, Judges, JudgesEntries, JudgesEntry, JudgesPieces, StartsMonitor, TellsFaulty};
ghost use Rattle.libwagtenib.specs.Monitor.{TellsLater, TellsReport, TellsVerdict, start_code, verdict_code, verdict_fault, verdict_known, verdict_root};
ghost use Rattle.libwagtenib.specs.Output.{WritesOutput};
ghost use Rattle.libwagtenib.specs.Tiles.{pieces};

use crate::codes::OUT_OF_MEMORY;
use crate::head::{TreeHead, head_of, of_head};
use crate::output::write_output;
use crate::tiles::pieces_of;
use crate::{codes, leaf, proofs};
use ct_codec::lend_leaf;
use ct_monitor::{Answer, EntriesAnswer, FaultyEntry, LaterEntry, StartFault, Verdict};
use ct_tree::Head;
use std::alloc::{AllocError, Global};

/// A verdict, and the numbers of the state after it.
#[repr(C)]
#[derive(Clone, Copy)]
pub struct MonitorVerdict {
    pub leaves_accepted: u64,
    pub leaves_read: u64,
    pub leaves_wanted: u64,
    pub known: TreeHead,
    pub root: [u8; 32],
    pub verdict: u32,
    pub fault: u32,
}

/// The report on entries: the timestamp of the head that waited, the first entry that is later than it, and the first that is no leaf.
#[repr(C)]
#[derive(Clone, Copy)]
pub struct EntryReport {
    pub head_timestamp: u64,
    pub later_index: u64,
    pub later_timestamp: u64,
    pub faulty_index: u64,
    pub fault: u32,
}

// The number of a verdict.
fn number_of(verdict: Verdict) -> u32
    ensures { result ≡ verdict_code verdict }
{
    match verdict {
        Verdict::Accepted => codes::ACCEPTED,
        Verdict::Pending => codes::PENDING,
        Verdict::Again => codes::AGAIN,
        Verdict::Older(_) => codes::OLDER,
        Verdict::Shrunk(_) => codes::SHRUNK,
        Verdict::Fork(_) => codes::FORKED,
        Verdict::TimeNotLater(_) => codes::HEAD_NOT_LATER,
        Verdict::RootMismatch(_) => codes::OTHER_ROOT,
        Verdict::Gap => codes::GAP,
        Verdict::Consistent => codes::CONSISTENT,
        Verdict::Inconsistent(_) => codes::INCONSISTENT,
    }
}

// The number of the fault of an inconsistent proof.
fn fault_of(verdict: Verdict) -> u32
    ensures { result ≡ verdict_fault verdict }
{
    match verdict {
        Verdict::Inconsistent(fault) => proofs::number_of(fault),
        _ => 0,
    }
}

// The known head that a verdict names.
fn known_of(verdict: Verdict) -> Head
    ensures { result ≡ verdict_known verdict }
{
    match verdict {
        Verdict::Older(known) => known,
        Verdict::Shrunk(known) => known,
        Verdict::Fork(known) => known,
        Verdict::TimeNotLater(known) => known,
        _ => Head {
            tree_size: 0,
            timestamp: 0,
            root: [0; 32],
        },
    }
}

// The root that was computed from the leaves.
fn root_of(verdict: Verdict) -> [u8; 32]
    ensures { result ≡ verdict_root verdict }
{
    match verdict {
        Verdict::RootMismatch(root) => root,
        _ => [0; 32],
    }
}

// A verdict and the numbers of the state after it, as callers in C have them.
fn told_of(answer: &Answer) -> MonitorVerdict
    ensures { TellsVerdict result answer.now }
{
    MonitorVerdict {
        leaves_accepted: answer.leaves_accepted,
        leaves_read: answer.leaves_read,
        leaves_wanted: answer.leaves_wanted,
        known: of_head(&known_of(answer.verdict)),
        root: root_of(answer.verdict),
        verdict: number_of(answer.verdict),
        fault: fault_of(answer.verdict),
    }
}

// The verdict of an answer after this code, or the old one.
fn verdict_after(code: u32, answer: &Answer, old: MonitorVerdict) -> MonitorVerdict
    ensures { ((code ≡ 0) × TellsVerdict result answer.now) ⊎ ((code ≡ 0 → ⊥) × (result ≡ old)) }
{
    if code == codes::OK {
        told_of(answer)
    } else {
        old
    }
}

// Writes the state of an answer.
fn write_state(answer: &Answer, out: &mut [u8], length: &mut u64) -> u32
    ensures { WritesOutput answer.now.state.items result out.old out.new length.new }
{
    write_output(&answer.state, out, length)
}

// Writes the state of an answer, and then the verdict.
fn give(answer: &Answer, verdict: &mut MonitorVerdict, out: &mut [u8], length: &mut u64) -> u32
    ensures { GivesAnswer answer.now result verdict.old verdict.new out.old out.new length.new }
{
    let code = write_state(answer, out, length);
    let told = verdict_after(code, answer, *verdict);
    *verdict = told;
    code
}

/// The state of a monitor that was handed nothing. 0, 8 or 9.
#[unsafe(no_mangle)]
pub extern "C" fn wagtenib_monitor_begin(alloc: Global, out: &mut [u8], length: &mut u64) -> u32
    ensures { BeginsMonitor result out.old out.new length.old length.new }
{
    match ct_monitor::begin(alloc) {
        Ok(state) => write_output(&state, out, length),
        Err(AllocError) => OUT_OF_MEMORY,
    }
}

// The number of the reason why no state begins at a head.
fn number_of_start(fault: StartFault) -> u32
    ensures { result ≡ start_code fault }
{
    match fault {
        StartFault::OtherCount => codes::OTHER_COUNT,
        StartFault::OtherRoot => codes::ROOT_MISMATCH,
        StartFault::Memory => OUT_OF_MEMORY,
    }
}

/// Writes the state of a monitor that trusts this head, and continues with the leaf after its last one. `subtrees` are the roots of the perfect
/// subtrees of the head's leaves, largest first. 140 or 4: they are not those of this head. 0, 8 or 9.
#[unsafe(no_mangle)]
pub extern "C" fn wagtenib_monitor_start(
    alloc: Global,
    head: &TreeHead,
    subtrees: &[[u8; 32]],
    out: &mut [u8],
    length: &mut u64,
) -> u32
    ensures { StartsMonitor (head_of_c head.now) subtrees.now result out.old out.new length.old length.new }
{
    match ct_monitor::start(alloc, head_of(head), subtrees) {
        Ok(state) => write_output(&state, out, length),
        Err(fault) => number_of_start(fault),
    }
}

// The answer to a tree head.
fn answer_to_head(
    alloc: Global,
    state: &[u8],
    head: &TreeHead,
) -> Result<Option<Answer>, AllocError>
    ensures { IfOk result (λ o. MatchOption o (IsNoState sha256 state.now)
        (λ a. IsMonitorAnswer sha256 state.now (a_head (head_of_c head.now)) a)) }
{
    ct_monitor::take_head(alloc, state, head_of(head))
}

/// The verdict on a tree head, over a state. 0: the verdict is written, and `out` begins with the next state, which has `*length` bytes. 36: the bytes are no
/// state. 8 or 9.
#[unsafe(no_mangle)]
pub extern "C" fn wagtenib_monitor_head(
    alloc: Global,
    state: &[u8],
    head: &TreeHead,
    verdict: &mut MonitorVerdict,
    out: &mut [u8],
    length: &mut u64,
) -> u32
    ensures { Judges (a_head (head_of_c head.now)) state.now result verdict.old verdict.new out.old out.new length.old length.new }
{
    match answer_to_head(alloc, state, head) {
        Ok(Some(answer)) => give(&answer, verdict, out, length),
        Ok(None) => codes::BAD_STATE,
        Err(AllocError) => OUT_OF_MEMORY,
    }
}

/// The verdict on a consistency proof from the accepted head to the waiting one, over a state, as [`wagtenib_monitor_head`].
#[unsafe(no_mangle)]
pub extern "C" fn wagtenib_monitor_proof(
    alloc: Global,
    state: &[u8],
    path: &[[u8; 32]],
    verdict: &mut MonitorVerdict,
    out: &mut [u8],
    length: &mut u64,
) -> u32
    ensures { Judges (a_proof path.now) state.now result verdict.old verdict.new out.old out.new length.old length.new }
{
    match ct_monitor::take_proof(alloc, state, path) {
        Ok(Some(answer)) => give(&answer, verdict, out, length),
        Ok(None) => codes::BAD_STATE,
        Err(AllocError) => OUT_OF_MEMORY,
    }
}

// The answer to a consistency proof from an older head.
fn answer_to_older(
    alloc: Global,
    state: &[u8],
    head: &TreeHead,
    path: &[[u8; 32]],
) -> Result<Option<Answer>, AllocError>
    ensures { IfOk result (λ o. MatchOption o (IsNoState sha256 state.now)
        (λ a. IsMonitorAnswer sha256 state.now (an_older (head_of_c head.now) path.now) a)) }
{
    ct_monitor::take_older(alloc, state, head_of(head), path)
}

/// The verdict on a consistency proof from an older head to the accepted one, if that has more leaves, otherwise to the waiting one, over a state, as
/// [`wagtenib_monitor_head`].
#[unsafe(no_mangle)]
pub extern "C" fn wagtenib_monitor_older(
    alloc: Global,
    state: &[u8],
    head: &TreeHead,
    path: &[[u8; 32]],
    verdict: &mut MonitorVerdict,
    out: &mut [u8],
    length: &mut u64,
) -> u32
    ensures { Judges (an_older (head_of_c head.now) path.now) state.now result verdict.old verdict.new out.old out.new length.old length.new }
{
    match answer_to_older(alloc, state, head, path) {
        Ok(Some(answer)) => give(&answer, verdict, out, length),
        Ok(None) => codes::BAD_STATE,
        Err(AllocError) => OUT_OF_MEMORY,
    }
}

// The verdict on a head compared with a known one.
fn compared(known: &TreeHead, head: &TreeHead) -> Option<Verdict>
    ensures { MatchOption result (IsGrownLater (Some (head_of_c known.now)) (head_of_c known.now).timestamp (head_of_c head.now))
        (λ v. IsBeside (head_of_c known.now) (head_of_c known.now).timestamp (head_of_c head.now) v) }
{
    ct_monitor::compare_heads(head_of(known), &head_of(head))
}

/// Compares a head with a known one. 0: it has more leaves and is later. Otherwise the verdict, 130 to 134.
#[unsafe(no_mangle)]
pub extern "C" fn wagtenib_compare_heads(known: &TreeHead, head: &TreeHead) -> u32
    ensures { ComparesHeads (head_of_c known.now) (head_of_c head.now) result }
{
    match compared(known, head) {
        Some(verdict) => number_of(verdict),
        None => codes::OK,
    }
}

// The answer to entries, which are pieces of bytes.
fn answer_to(
    alloc: Global,
    state: &[u8],
    start: u64,
    leaves: &[u8],
    lengths: &[u64],
) -> Result<Option<EntriesAnswer>, AllocError>
    ensures { IfOk result (λ o. MatchOption o (IsNoState sha256 state.now)
        (λ a. IsEntriesAnswer sha256 state.now start (pieces lengths.now leaves.now) a)) }
{
    let entries = pieces_of(alloc, leaves, lengths)?;
    ct_monitor::take_entries(alloc, state, start, &entries)
}

// The index and the timestamp of an entry that is later than its head.
fn later_numbers(later: Option<LaterEntry>) -> (u64, u64)
    ensures { TellsLater later result.0 result.1 }
{
    match later {
        Some(entry) => (entry.index, entry.timestamp),
        None => (0, 0),
    }
}

// The index of an entry that is no leaf, and the number of its fault.
fn faulty_numbers(faulty: Option<FaultyEntry>) -> (u64, u32)
    ensures { TellsFaulty faulty result.0 result.1 }
{
    match faulty {
        Some(entry) => (entry.index, leaf::number_of(entry.fault)),
        None => (0, 0),
    }
}

// The report on entries, as callers in C have it.
fn report_of(answer: &EntriesAnswer) -> EntryReport
    ensures { TellsReport result answer.now }
{
    let later = later_numbers(answer.later);
    let faulty = faulty_numbers(answer.faulty);
    EntryReport {
        head_timestamp: answer.head_timestamp,
        later_index: later.0,
        later_timestamp: later.1,
        faulty_index: faulty.0,
        fault: faulty.1,
    }
}

// The report on entries after this code, or the old one.
fn report_after(code: u32, answer: &EntriesAnswer, old: EntryReport) -> EntryReport
    ensures { ((code ≡ 0) × TellsReport result answer.now) ⊎ ((code ≡ 0 → ⊥) × (result ≡ old)) }
{
    if code == codes::OK {
        report_of(answer)
    } else {
        old
    }
}

// Writes the state of an answer to entries, then the verdict and the report.
fn give_report(
    answer: &EntriesAnswer,
    verdict: &mut MonitorVerdict,
    report: &mut EntryReport,
    out: &mut [u8],
    length: &mut u64,
) -> u32
    ensures given { GivesAnswer answer.now.answer result verdict.old verdict.new out.old out.new length.new }
    ensures reported { ((result ≡ 0) × TellsReport report.new answer.now) ⊎ ((result ≡ 9) × (report.new ≡ report.old)) }
{
    let code = give(&answer.answer, verdict, out, length);
    let told = report_after(code, answer, *report);
    *report = told;
    code
}

// The verdict on leaves, which are pieces of bytes.
fn judge_pieces(
    alloc: Global,
    state: &[u8],
    start: u64,
    leaves: &[u8],
    lengths: &[u64],
    verdict: &mut MonitorVerdict,
    report: &mut EntryReport,
    out: &mut [u8],
    length: &mut u64,
) -> u32
    ensures { JudgesEntries start (pieces lengths.now leaves.now) state.now result verdict.old verdict.new report.old report.new out.old out.new length.old length.new }
{
    match answer_to(alloc, state, start, leaves, lengths) {
        Ok(Some(answer)) => give_report(&answer, verdict, report, out, length),
        Ok(None) => codes::BAD_STATE,
        Err(AllocError) => OUT_OF_MEMORY,
    }
}

// Whether lengths add up to a total.
fn are_in_all(mut lengths: &[u64], total: u64) -> bool
    ensures { MatchBool result (sum lengths.now ≡ total) (sum lengths.now ≡ total → ⊥) }
{
    let mut left = total;
    while let Some((length, more)) = lengths.split_first() {
        if *length > left {
            return false;
        }
        left -= *length;
        lengths = more;
    }
    left == 0
}

// Whether lengths add up to the number of the bytes of leaves.
fn add_up(lengths: &[u64], leaves: &[u8]) -> bool
    ensures { MatchBool result (AddUp lengths.now leaves.now) (AddUp lengths.now leaves.now → ⊥) }
{
    are_in_all(lengths, leaves.len() as u64)
}

/// The verdict on leaves from the index `start` on, over a state, as [`wagtenib_monitor_head`]. `leaves` has the bytes of all of them, one after the other, and
/// `lengths` how many each has. Those that are read are reported on: as many as the waiting head has. 141: the lengths do not add up to the bytes.
#[unsafe(no_mangle)]
pub extern "C" fn wagtenib_monitor_entries(
    alloc: Global,
    state: &[u8],
    start: u64,
    leaves: &[u8],
    lengths: &[u64],
    verdict: &mut MonitorVerdict,
    report: &mut EntryReport,
    out: &mut [u8],
    length: &mut u64,
) -> u32
    ensures { JudgesPieces start leaves.now lengths.now state.now result verdict.old verdict.new report.old report.new out.old out.new length.old length.new }
{
    let whole = add_up(lengths, leaves);
    if whole {
        judge_pieces(
            alloc, state, start, leaves, lengths, verdict, report, out, length,
        )
    } else {
        codes::OTHER_LENGTHS
    }
}

/// The verdict on one leaf (MerkleTreeLeaf, RFC 6962, section 3.4) beside a tree head with this timestamp, both in milliseconds. 0: it is no later than the head. 142:
/// it is later, which speaks against the log (section 3.5). `timestamp` gets the leaf's in both cases. 17 to 22: the bytes are no leaf, this is their first fault, and
/// nothing is written.
#[unsafe(no_mangle)]
pub extern "C" fn wagtenib_monitor_entry(
    head_timestamp: u64,
    leaf: &[u8],
    timestamp: &mut u64,
) -> u32
    ensures { JudgesEntry head_timestamp leaf.now result timestamp.old timestamp.new }
{
    match lend_leaf(leaf) {
        Ok(read) => {
            *timestamp = read.timestamp;
            if head_timestamp < read.timestamp {
                codes::LATER_ENTRY
            } else {
                codes::OK
            }
        }
        Err(fault) => crate::leaf::number_of(fault),
    }
}
