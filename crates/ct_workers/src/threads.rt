//! A shift: each front in a thread of its own, and the operator in the calling thread.

ghost use Rattle.std.specs.Prelude.{◌≡◌, ◌≢◌, [], ◌∷◌, ◌++◌, length, map, IfOk, IfErr, OnOk, Some, None};
ghost use Rattle.ct_house.specs.House.{HouseState};
ghost use Rattle.ct_workers.specs.OperatorWork.{GoesOn, OperatorServes};
ghost use Rattle.ct_workers.specs.Parties.{FrontDoesShift, FrontsDo, DoesShift, IsPartyFault};
ghost use Rattle.ct_workers.specs.Shifts.{start_of};

use crate::party::{FrontParty, FrontShift, House};
use crate::{Waiting, serve_all};
use ct_house::Sequencer;
use ct_lines::{Fault, FrontRequest, OperatorTask, Work};
use std::alloc::{AllocError, Global};
use std::snapshot::Snapshot;
use std::sync::Wait;
use std::thread;
use std::thread::{Promise, PromisedHandle, Scope, Threads};

// Does a front's tasks, and returns the front with its replies. If memory is refused, no line waits any more.
fn serve_front_shift<R: Threads + Wait + Sync>(
    rt: &R,
    alloc: Global,
    shift: FrontShift,
    waiting: &Waiting,
) -> Result<FrontParty, AllocError>
    ensures { IfOk result (λ d. FrontDoesShift shift.party shift.tasks.items d) }
{
    let FrontShift { party, tasks } = shift;
    let FrontParty {
        mut front,
        mut replies,
    } = party;
    match serve_all(rt, alloc, waiting, tasks, &mut front, &mut replies) {
        Ok(()) => Ok(FrontParty { front, replies }),
        Err(error) => {
            waiting.end();
            Err(error)
        }
    }
}

// Gives each front its tasks, in order.
fn front_shifts(
    alloc: Global,
    mut parties: Vec<FrontParty>,
    mut tasks: Vec<Vec<FrontRequest>>,
) -> Result<Vec<FrontShift>, AllocError>
    requires { length tasks.items ≡ length parties.items }
    ensures parties { IfOk result (λ v. map (λ s. s.party) v.items ≡ parties.items) }
    ensures tasks { IfOk result (λ v. map (λ s. s.tasks) v.items ≡ tasks.items) }
{
    let mut shifts = Vec::new(alloc);
    while let Some(party) = parties.pop() {
        let Some(own) = tasks.pop() else {
            unreachable!()
        };
        shifts.push(FrontShift { party, tasks: own })?;
    }
    shifts.reverse();
    Ok(shifts)
}

// The promise of a front's thread.
#[derive(Drop)]
struct FrontPromise(Snapshot<FrontShift>);

impl Promise<Result<FrontParty, AllocError>> for FrontPromise {
    ghost kept_by = { λ p r. IfOk r (λ d. FrontDoesShift p.0.value.party p.0.value.tasks.items d) };
}

type FrontThread = PromisedHandle<Result<FrontParty, AllocError>, FrontPromise>;

// Starts a thread for each front.
fn start_fronts<'e: 's, 's, R: Threads + Wait + Sync>(
    rt: &'e R,
    alloc: Global,
    scope: &'s Scope<'s, &'e ()>,
    shifts: Vec<FrontShift>,
    waiting: &'e Waiting,
) -> Result<Vec<FrontThread>, Fault>
    ensures started { IfOk result (λ v. map (λ t. t.promise.0.value) v.items ≡ shifts.items) }
    ensures faults { IfErr result IsPartyFault }
{
    let mut threads = Vec::new(alloc);
    for shift in shifts {
        let promise = FrontPromise(Snapshot::of(&shift));
        let work = move || -> Result<FrontParty, AllocError>
            ensures { IfOk result (λ d. FrontDoesShift shift.party shift.tasks.items d) }
        { serve_front_shift(rt, alloc, shift, waiting) };
        let Ok(thread) = scope.spawn_with(promise, work) else {
            return Err(Fault::Threads);
        };
        threads.push(thread)?;
    }
    Ok(threads)
}

/// Appends a front, with its replies.
pub fn keep_party(parties: &mut Vec<FrontParty>, party: FrontParty) -> Result<(), Fault>
    ensures kept { OnOk result (parties.new.items ≡ parties.old.items ++ party ∷ []) }
    ensures memory { IfErr result (λ f. f ≡ Fault.Memory) }
{
    parties.push(party)?;
    Ok(())
}

// Joins the fronts' threads, and returns the fronts in order, with their replies.
fn join_fronts<R: Threads>(
    rt: &R,
    alloc: Global,
    threads: Vec<FrontThread>,
) -> Result<Vec<FrontParty>, Fault>
    ensures served { IfOk result (λ d. FrontsDo (map (λ t. t.promise.0.value) threads.items) d.items) }
    ensures faults { IfErr result IsPartyFault }
{
    let mut parties = Vec::new(alloc);
    for thread in threads {
        let party = thread.join(rt)?;
        keep_party(&mut parties, party)?;
    }
    Ok(parties)
}

// Starts a thread for each front, does the operator's tasks in this thread on a borrowed sequencer, and joins the threads. Appends the
// operator's replies to `told`, and returns the fronts in order, with their replies. If a thread cannot be started, no line waits any more,
// and the operator does nothing. If the operator is refused memory, no line waits any more.
fn serve_in_threads<'e: 's, 's, R: Threads + Wait + Sync>(
    rt: &'e R,
    alloc: Global,
    scope: &'s Scope<'s, &'e ()>,
    waiting: &'e Waiting,
    shifts: Vec<FrontShift>,
    tasks: Vec<OperatorTask>,
    sequencer: &mut Sequencer,
    told: &mut Vec<u8>,
) -> Result<Vec<FrontParty>, Fault>
    ensures fronts { IfOk result (λ d. FrontsDo shifts.items d.items) }
    ensures serves { OnOk result (OperatorServes sequencer.old tasks.items told.old.items sequencer.new told.new.items) }
    ensures goes_on { OnOk result (GoesOn sequencer.old sequencer.new) }
    ensures faults { IfErr result IsPartyFault }
{
    let threads = match start_fronts(rt, alloc, scope, shifts, waiting) {
        Ok(threads) => threads,
        Err(fault) => {
            waiting.end();
            return Err(fault);
        }
    };
    let operated = serve_all(rt, alloc, waiting, tasks, sequencer, told);
    if operated.is_err() {
        waiting.end();
    }
    let parties = join_fronts(rt, alloc, threads)?;
    match operated {
        Ok(()) => Ok(parties),
        Err(error) => Err(Fault::from(error)),
    }
}

// The result after all threads of a shift have ended: the sequencer, the operator's replies, and the fronts in order with theirs, or the
// fault that ended them.
struct Done {
    sequencer: Sequencer,
    told: Vec<u8>,
    parties: Result<Vec<FrontParty>, Fault>,
}

// The same with an owned sequencer.
fn serve_in<'e: 's, 's, R: Threads + Wait + Sync>(
    rt: &'e R,
    alloc: Global,
    scope: &'s Scope<'s, &'e ()>,
    waiting: &'e Waiting,
    shifts: Vec<FrontShift>,
    tasks: Vec<OperatorTask>,
    mut sequencer: Sequencer,
    mut told: Vec<u8>,
) -> Done
    ensures fronts { IfOk result.parties (λ d. FrontsDo shifts.items d.items) }
    ensures serves { OnOk result.parties (OperatorServes sequencer tasks.items told.items result.sequencer result.told.items) }
    ensures goes_on { OnOk result.parties (GoesOn sequencer result.sequencer) }
    ensures faults { IfErr result.parties IsPartyFault }
{
    let parties = serve_in_threads(
        rt,
        alloc,
        scope,
        waiting,
        shifts,
        tasks,
        &mut sequencer,
        &mut told,
    );
    Done {
        sequencer,
        told,
        parties,
    }
}

// The same, with a scope for the threads. When the scope returns, all of them have ended. Values that the scope's closure owns must be
// `Drop`, which the sequencer is not. So the closure takes the sequencer out of a variable outside the scope.
fn serve_beside<R: Threads + Wait + Sync>(
    rt: &R,
    alloc: Global,
    waiting: &Waiting,
    shifts: Vec<FrontShift>,
    tasks: Vec<OperatorTask>,
    sequencer: Sequencer,
    told: Vec<u8>,
) -> Done
    ensures fronts { IfOk result.parties (λ d. FrontsDo shifts.items d.items) }
    ensures serves { OnOk result.parties (OperatorServes sequencer tasks.items told.items result.sequencer result.told.items) }
    ensures goes_on { OnOk result.parties (GoesOn sequencer result.sequencer) }
    ensures faults { IfErr result.parties IsPartyFault }
{
    let mut slot = Some(sequencer);
    let taken = &mut slot;
    let done = thread::scope(
        thread::scope_env(),
        rt,
        move |scope| -> Done
            requires { taken.now ≢ None }
            ensures fronts { IfOk result.parties (λ d. FrontsDo shifts.items d.items) }
            ensures serves { OnOk result.parties ((s : HouseState) → taken.entry.now ≡ Some s
                → OperatorServes s tasks.items told.items result.sequencer result.told.items) }
            ensures goes_on { OnOk result.parties ((s : HouseState) → taken.entry.now ≡ Some s → GoesOn s result.sequencer) }
            ensures faults { IfErr result.parties IsPartyFault }
        {
            let Some(sequencer) = taken.take() else {
                unreachable!()
            };
            serve_in(rt, alloc, scope, waiting, shifts, tasks, sequencer, told)
        },
    );
    if let Some(sequencer) = slot {
        sequencer.abandon(rt, Vec::new(alloc));
    }
    done
}

/// Does the work of a shift: each front's in a thread of its own, all of which are joined, and the operator's in the calling thread.
/// Appends the operator's replies to those so far, and each front's to its own. A line that waits for another party looks `turns` times:
/// the operator's work of another shift comes too late for it, or was done before.
///
/// # Errors
///
/// `Threads` if a front's thread cannot be started, after those that were started have ended; and `Memory`. The house is given up.
pub fn serve_shift<R: Threads + Wait + Sync>(
    rt: &R,
    alloc: Global,
    house: House,
    work: Work,
    turns: u64,
) -> Result<House, Fault>
    requires count { length work.fronts.items ≡ length house.parties.items }
    ensures does { IfOk result (λ h. DoesShift (start_of house) work (start_of h)) }
    ensures faults { IfErr result IsPartyFault }
{
    let House {
        sequencer,
        told,
        parties,
        ends,
    } = house;
    let Work { fronts, operator } = work;
    let shifts = match front_shifts(alloc, parties, fronts) {
        Ok(shifts) => shifts,
        Err(error) => {
            sequencer.abandon(rt, ends);
            return Err(Fault::from(error));
        }
    };
    let waiting = Waiting::new(turns);
    let done = serve_beside(rt, alloc, &waiting, shifts, operator, sequencer, told);
    let Done {
        sequencer,
        told,
        parties,
    } = done;
    match parties {
        Ok(parties) => Ok(House {
            sequencer,
            told,
            parties,
            ends,
        }),
        Err(fault) => {
            sequencer.abandon(rt, ends);
            Err(fault)
        }
    }
}
