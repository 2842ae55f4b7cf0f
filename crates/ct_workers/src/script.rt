//! A log over the lines of an input: it is opened, served by its parties, closed and queried.

ghost use Rattle.std.specs.Prelude.{◌≡◌, ◌∷◌, ℕ, List, [], length, IfOk, OnOk, OnErr, IfErr, IsErrOf};
ghost use Rattle.std.specs.Io.KnownBytes.{Appends};
ghost use Rattle.std.specs.List.{flat_map};
ghost use Rattle.ct_lines.specs.Frozen.{frozen_text};
ghost use Rattle.ct_lines.specs.Serving.{IsShort};
ghost use Rattle.ct_workers.specs.Output.{IsFrozenFault};
ghost use Rattle.ct_workers.specs.Output.{AreFrozenLines, AreNewParties, request_reply, SomeReplies, WritesAll, WritesSome, IsServed, IsBegun};
ghost use Rattle.ct_workers.specs.Fronts.{AreFrontsOf};
ghost use Rattle.ct_workers.specs.Parties.{fronts_of};
ghost use Rattle.ct_workers.specs.Shifts.{start_of};
ghost use Rattle.ct_lines.specs.Plans.{AreForFronts};
ghost use Rattle.ct_workers.specs.declared.party.FrontParty.{FrontParty as FrontPartyOf};

use crate::close;
use crate::party::{FrontParty, House};
use crate::shifting::{Served, serve_parties};
use ct_core::Published;
use ct_house::{Front, open};
use ct_lines::{Fault, FrozenRequest, Options, Plan, Shift, Work, frozen_request_reply, read_plan};
use json_lines::{send, write_whole};
use std::alloc::{AllocError, Global};
use std::io::{Read, Write};
use std::sync::Wait;
use std::thread::Threads;

// Returns the fronts of a new house, none of which has replied to anything.
fn new_parties(alloc: Global, fronts: Vec<Front>) -> Result<Vec<FrontParty>, AllocError>
    ensures fronts { IfOk result (λ v. fronts_of v.items ≡ fronts.items) }
    ensures silent { IfOk result (λ v. flat_map (λ (p : FrontPartyOf). p.replies.items) v.items ≡ []) }
{
    let mut parties = Vec::new(alloc);
    for front in fronts {
        let replies = Vec::new(alloc);
        parties.push(FrontParty { front, replies })?;
    }
    Ok(parties)
}

// Opens a house.
fn open_house<H: Wait>(rt: &H, alloc: Global, options: Options) -> Result<House, Fault>
    ensures house { IfOk result (λ h. AreNewParties options.fronts options.ring options.open_at (start_of h)) }
    ensures faults { IfErr result (λ f. f ≡ Fault.Memory) }
{
    let ends = Vec::with_capacity(alloc, 1)?;
    match open(rt, alloc, options.fronts, options.ring, options.open_at) {
        Ok((sequencer, fronts)) => match new_parties(alloc, fronts) {
            Ok(parties) => Ok(House {
                sequencer,
                told: Vec::new(alloc),
                parties,
                ends,
            }),
            Err(error) => {
                sequencer.abandon(rt, ends);
                Err(Fault::from(error))
            }
        },
        Err(refusal) => {
            ends.destroy_empty();
            Err(Fault::from(refusal))
        }
    }
}

// Writes the closed log's reply to a request. If it fails, a proper prefix of the reply is written, and nothing if memory is refused.
fn send_reply<W: Write>(
    alloc: Global,
    log: &Published,
    request: &FrozenRequest,
    output: &mut W,
) -> Result<(), Fault>
    ensures all { OnOk result (Appends (W.contents output.old) (W.contents output.new) (request_reply log.now request.now)) }
    ensures some { OnErr result ((next : List ℕ) × IsShort next (request_reply log.now request.now ∷ [])
        × Appends (W.contents output.old) (W.contents output.new) next) }
    ensures memory { IsErrOf result Fault.Memory → Appends (W.contents output.old) (W.contents output.new) [] }
    ensures faults { IfErr result IsFrozenFault }
{
    let reply = frozen_request_reply(alloc, log, request)?;
    if !write_whole(output, &reply) {
        return Err(Fault::Write);
    }
    Ok(())
}

// Writes the replies of the closed log to the requests, in order.
fn send_frozen<W: Write>(
    alloc: Global,
    log: &Published,
    requests: &[FrozenRequest],
    output: &mut W,
) -> Result<(), Fault>
    ensures all { OnOk result ((lines : List ℕ) → AreFrozenLines requests.now lines
        → Appends (W.contents output.old) (W.contents output.new) (frozen_text log.now lines)) }
    ensures some { OnErr result ((lines : List ℕ) → AreFrozenLines requests.now lines → (written : List ℕ) × SomeReplies log.now lines written
        × Appends (W.contents output.old) (W.contents output.new) written) }
    ensures faults { IfErr result IsFrozenFault }
{
    for request in requests {
        send_reply(alloc, log, request, output)?;
    }
    match output.flush() {
        Ok(()) => Ok(()),
        Err(_) => Err(Fault::Write),
    }
}

// Has the parties do the shifts and then the last work, and writes their replies. Then closes the log at the timestamp `close_at`, and
// writes its replies to the requests.
fn serve_parties_and_log<H: Threads + Wait + Sync, W: Write>(
    rt: &H,
    alloc: Global,
    house: House,
    shifts: Vec<Shift>,
    last: Work,
    turns: u64,
    close_at: u64,
    requests: &[FrozenRequest],
    output: &mut W,
) -> Result<(), Fault>
    requires fronts { AreFrontsOf house.sequencer (fronts_of house.parties.items) }
    requires work { AreForFronts (length house.parties.items) shifts.items last }
    ensures all { OnOk result ((lines : List ℕ) → AreFrozenLines requests.now lines
        → WritesAll (start_of house) shifts.items last lines close_at (W.contents output.old) (W.contents output.new)) }
    ensures some { IfErr result (λ f. (lines : List ℕ) → AreFrozenLines requests.now lines
        → WritesSome (start_of house) shifts.items last lines close_at f (W.contents output.old) (W.contents output.new)) }
{
    let Served {
        sequencer,
        fronts,
        replies,
    } = serve_parties(rt, alloc, house, shifts, last, turns)?;
    match send(output, &replies) {
        Ok(()) => {}
        Err(error) => {
            sequencer.abandon(rt, Vec::new(alloc));
            return Err(Fault::from(error));
        }
    }
    let log = close(rt, alloc, sequencer, fronts, close_at)?;
    send_frozen(alloc, log.published(), requests, output)
}

/// Runs a log over the lines of the input, and writes the replies. A line that waits for another party looks `turns` times.
///
/// # Errors
///
/// The fault that ended the run:
///
/// - `Read`, `Threads`, `Memory`, or `ClockBack` if the clock refuses the timestamp at which a shift should end: no reply was written.
/// - `Write`: a prefix of the replies of the fronts and of the operator was written.
/// - `ClockBack`, if the clock refuses the timestamp of closing, or `Memory`: all of these replies were written.
/// - `Write` or `Memory`: all of these and some of the closed log's replies were written.
pub fn serve<H: Threads + Wait + Sync, R: Read, W: Write>(
    rt: &H,
    alloc: Global,
    options: Options,
    turns: u64,
    input: &mut R,
    output: &mut W,
) -> Result<(), Fault>
    ensures served { OnOk result (IsServed options.fronts options.ring options.open_at options.close_at
        (R.remaining input.old) (W.contents output.old) (W.contents output.new)) }
    ensures begun { IfErr result (λ f. IsBegun options.fronts options.ring options.open_at options.close_at f
        (R.remaining input.old) (W.contents output.old) (W.contents output.new)) }
{
    let Plan {
        shifts,
        last,
        frozen,
    } = read_plan(alloc, options.fronts, input)?;
    let house = open_house(rt, alloc, options)?;
    serve_parties_and_log(
        rt,
        alloc,
        house,
        shifts,
        last,
        turns,
        options.close_at,
        &frozen,
        output,
    )
}
