//! The end of a shift, and the shifts one after the other.

ghost use Rattle.std.specs.Prelude.{◌≡◌, ◌≢◌, ◌<◌, ◌≤◌, ◌⊎◌, ℕ, List, ◌++◌, length, All, IfOk, IfErr, OnOk, Some, slice_get, vec_len, vec_capacity};
ghost use Rattle.std.specs.List.{AllZip, flat_map};
ghost use Rattle.ct_codec.specs.declared.item.Item.{Item};
ghost use Rattle.ct_core.specs.Core.{clock_of};
ghost use Rattle.ct_house.specs.House.{SettlesMore, IsAllSettled, IsOfHouse, drained_lane};
ghost use Rattle.ct_workers.specs.declared.party.FrontParty.{FrontParty as FrontPartyOf};
ghost use Rattle.ct_lines.specs.declared.plan.Shift.{Shift as ShiftOf};
ghost use Rattle.ct_workers.specs.Fronts.{AreFrontsOf};
ghost use Rattle.ct_workers.specs.Parties.{fronts_of};
ghost use Rattle.ct_workers.specs.Shifts.{IsSuccessor, Succeeds, EndsShift, DoShifts, PartiesServe, IsEndRefused, IsShiftFault, start_of};
ghost use Rattle.ct_lines.specs.Plans.{AreForFronts};

use crate::party::{FrontParty, House};
use crate::replying::push_reply;
use crate::threads::{keep_party, serve_shift};
use ct_core::Reply;
use ct_house::{Front, Retired, Sequencer};
use ct_lines::{Fault, Shift, Work};
use std::alloc::{AllocError, Global};
use std::sync::Wait;
use std::thread::Threads;

// Resumes a front at the timestamp `now`, after it learned a new bulletin. A front that cannot be resumed is put into `ends`.
fn go_on<R: Threads + Sync>(
    rt: &R,
    alloc: Global,
    sequencer: &mut Sequencer,
    front: Front,
    ends: &mut Vec<Retired>,
    now: u64,
) -> Result<Front, Fault>
    requires of_house { IsOfHouse sequencer.old.house front }
    requires room { vec_len ends.old < vec_capacity ends.old }
    ensures settled { OnOk result ((xs : List Item) × SettlesMore sequencer.old sequencer.new xs now) }
    ensures others { OnOk result ((g : ℕ) → g ≢ front.intake.number → slice_get sequencer.new.lanes g ≡ slice_get sequencer.old.lanes g) }
    ensures drained { OnOk result (slice_get sequencer.new.lanes front.intake.number ≡ Some (drained_lane front)) }
    ensures in_time { OnOk result (clock_of sequencer.old.core ≤ now) }
    ensures time { OnOk result (clock_of sequencer.new.core ≤ now) }
    ensures successor { IfOk result (λ f. IsSuccessor sequencer.old.core.published front f) }
    ensures ends { OnOk result (ends.new ≡ ends.old) }
    ensures refused { IfErr result (IsEndRefused sequencer.old now) }
{
    match sequencer.succeed(rt, alloc, front.retire(), now) {
        Ok(mut successor) => match sequencer.bulletin() {
            Ok(bulletin) => {
                successor.learn(&bulletin);
                Ok(successor)
            }
            Err(refusal) => Err(Fault::from(refusal)),
        },
        Err((refusal, end)) => {
            ends.push_reserved(end);
            Err(Fault::from(refusal))
        }
    }
}

// Resumes all fronts at the timestamp `now`, in order.
fn all_go_on<R: Threads + Sync>(
    rt: &R,
    alloc: Global,
    sequencer: &mut Sequencer,
    parties: Vec<FrontParty>,
    ends: &mut Vec<Retired>,
    now: u64,
) -> Result<Vec<FrontParty>, Fault>
    requires fronts { AreFrontsOf sequencer.old (fronts_of parties.items) }
    requires room { vec_len ends.old < vec_capacity ends.old }
    ensures settled { OnOk result ((xs : List Item) × SettlesMore sequencer.old sequencer.new xs now) }
    ensures all { OnOk result (IsAllSettled sequencer.new (fronts_of parties.items)) }
    ensures in_time { OnOk result (clock_of sequencer.old.core ≤ now) }
    ensures successors { IfOk result (λ v. AllZip (Succeeds sequencer.old.core.published) parties.items v.items) }
    ensures ends { OnOk result (ends.new ≡ ends.old) }
    ensures refused { IfErr result (IsEndRefused sequencer.old now) }
{
    let mut successors = Vec::new(alloc);
    for party in parties {
        let FrontParty { front, replies } = party;
        let front = go_on(rt, alloc, sequencer, front, ends, now)?;
        keep_party(&mut successors, FrontParty { front, replies })?;
    }
    Ok(successors)
}

// Ends a shift on a borrowed sequencer, at the timestamp `now`, so that the shift with this number starts.
fn end_lent_shift<R: Threads + Sync>(
    rt: &R,
    alloc: Global,
    sequencer: &mut Sequencer,
    told: &mut Vec<u8>,
    parties: Vec<FrontParty>,
    ends: &mut Vec<Retired>,
    number: u64,
    now: u64,
) -> Result<Vec<FrontParty>, Fault>
    requires fronts { AreFrontsOf sequencer.old (fronts_of parties.items) }
    requires room { vec_len ends.old < vec_capacity ends.old }
    ensures ends_shift { IfOk result (λ v. EndsShift number now (record { house = sequencer.old; told = told.old.items; fronts = parties.items })
        (record { house = sequencer.new; told = told.new.items; fronts = v.items })) }
    ensures ends { OnOk result (ends.new ≡ ends.old) }
    ensures refused { IfErr result (IsEndRefused sequencer.old now) }
{
    let parties = all_go_on(rt, alloc, sequencer, parties, ends, now)?;
    push_reply(alloc, told, &Ok(Reply::Shift(number)))?;
    Ok(parties)
}

// The same for the house itself, which is given up if the shift cannot end.
fn end_shift<R: Threads + Wait + Sync>(
    rt: &R,
    alloc: Global,
    house: House,
    number: u64,
    now: u64,
) -> Result<House, Fault>
    requires fronts { AreFrontsOf house.sequencer (fronts_of house.parties.items) }
    ensures ends_shift { IfOk result (λ h. EndsShift number now (start_of house) (start_of h)) }
    ensures refused { IfErr result (IsEndRefused house.sequencer now) }
{
    let House {
        mut sequencer,
        mut told,
        parties,
        mut ends,
    } = house;
    match end_lent_shift(
        rt,
        alloc,
        &mut sequencer,
        &mut told,
        parties,
        &mut ends,
        number,
        now,
    ) {
        Ok(parties) => Ok(House {
            sequencer,
            told,
            parties,
            ends,
        }),
        Err(fault) => {
            sequencer.abandon(rt, ends);
            Err(fault)
        }
    }
}

// Does the shifts, each of which ends.
fn serve_shifts<R: Threads + Wait + Sync>(
    rt: &R,
    alloc: Global,
    mut house: House,
    shifts: Vec<Shift>,
    turns: u64,
) -> Result<House, Fault>
    requires fronts { AreFrontsOf house.sequencer (fronts_of house.parties.items) }
    requires work { All (λ (s : ShiftOf). length s.work.fronts.items ≡ length house.parties.items) shifts.items }
    ensures do_shifts { IfOk result (λ h. DoShifts 1 (start_of house) shifts.items (start_of h)) }
    ensures faults { IfErr result (IsShiftFault (start_of house) shifts.items) }
{
    let mut number = 0;
    for shift in shifts {
        let Shift { work, now } = shift;
        let done = serve_shift(rt, alloc, house, work, turns)?;
        number += 1;
        let successor = end_shift(rt, alloc, done, number, now)?;
        house = successor;
    }
    Ok(house)
}

// Returns the fronts without their replies, and all replies: those of each front in order, and then `told`.
fn join_replies(
    alloc: Global,
    parties: Vec<FrontParty>,
    told: &[u8],
) -> Result<(Vec<Front>, Vec<u8>), AllocError>
    ensures fronts { IfOk result (λ d. d.0.items ≡ fronts_of parties.items) }
    ensures replies { IfOk result (λ d. d.1.items ≡ flat_map (λ (p : FrontPartyOf). p.replies.items) parties.items ++ told.now) }
{
    let mut fronts = Vec::new(alloc);
    let mut all = Vec::new(alloc);
    for party in parties {
        let FrontParty { front, replies } = party;
        fronts.push(front)?;
        all.extend_from_slice(&replies)?;
    }
    all.extend_from_slice(told)?;
    Ok((fronts, all))
}

/// The result of the parties' work: the sequencer, the fronts in order, and all replies.
pub struct Served {
    pub sequencer: Sequencer,
    pub fronts: Vec<Front>,
    pub replies: Vec<u8>,
}

/// Does the shifts, one after the other, and then the last work. All parties do each shift's lines: each front in a thread of its own,
/// which is joined, and the operator in the calling thread. Then each front is resumed at the timestamp at which the shift ends. Returns
/// the sequencer, the fronts and all replies: those of each front in order, over all shifts, and then the operator's. A line that waits for
/// another party looks `turns` times.
///
/// # Errors
///
/// `Threads` if a thread cannot be started; `ClockBack` if the clock refuses the timestamp at which a shift should end; and `Memory`. The
/// house is given up.
pub fn serve_parties<R: Threads + Wait + Sync>(
    rt: &R,
    alloc: Global,
    house: House,
    shifts: Vec<Shift>,
    last: Work,
    turns: u64,
) -> Result<Served, Fault>
    requires fronts { AreFrontsOf house.sequencer (fronts_of house.parties.items) }
    requires work { AreForFronts (length house.parties.items) shifts.items last }
    ensures serve { IfOk result (λ s. PartiesServe (start_of house) shifts.items last s.sequencer s.fronts.items s.replies.items) }
    ensures fronts { IfOk result (λ s. AreFrontsOf s.sequencer s.fronts.items) }
    ensures faults { IfErr result (IsShiftFault (start_of house) shifts.items) }
{
    let begun = serve_shifts(rt, alloc, house, shifts, turns)?;
    let done = serve_shift(rt, alloc, begun, last, turns)?;
    let House {
        sequencer,
        told,
        parties,
        ends,
    } = done;
    match join_replies(alloc, parties, &told) {
        Ok((fronts, replies)) => {
            ends.destroy_empty();
            Ok(Served {
                sequencer,
                fronts,
                replies,
            })
        }
        Err(error) => {
            sequencer.abandon(rt, ends);
            Err(Fault::from(error))
        }
    }
}
