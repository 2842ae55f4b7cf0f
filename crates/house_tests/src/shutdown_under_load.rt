// Sixteen fronts in threads of their own send a thousand submissions each, while another thread shuts the gate: before the first of them,
// somewhere in the middle, and after all.
use crate::common::submission;
use ct_codec::Refusal;
use ct_gate::{Intake, Outlet, Shutter, open_gate};
use std::alloc::{AllocError, Global};
use std::test::Fail;
use std::thread;
use std::thread::Threads;

// When the gate is shut.
#[derive(Clone, Copy)]
enum When {
    BeforeAll,
    InTheMiddle,
    BehindAll,
}

// A front's results: its tickets, and whether there were only these, and from some time on only refusals because the gate is shut.
#[derive(Drop)]
struct Told {
    tickets: Vec<u64>,
    right: bool,
}

// Sends the thousand certificates of the two bytes of 0 to 999.
fn send_all(alloc: Global, mut intake: Intake) -> Result<Told, Refusal> {
    let mut tickets = Vec::new(alloc);
    let mut right = true;
    let mut shut = false;
    for number in 0..1000u16 {
        match intake.send(submission(alloc, &number.to_be_bytes())?) {
            Ok(ticket) => {
                right = right && !shut;
                tickets.push(ticket)?;
            }
            Err((refusal, _)) => {
                right = right && refusal == Refusal::Shutdown;
                shut = true;
            }
        }
    }
    Ok(Told { tickets, right })
}

// The gate after it was shut: the result of the shutdown, and the tickets that were taken before it.
#[derive(Drop)]
struct Shut {
    shutter: Shutter,
    outlet: Outlet,
    taken: Vec<u64>,
    answer: Result<u64, Refusal>,
}

// Tries for some time to take `count` items of a front, and then shuts the gate.
fn shut_after(
    alloc: Global,
    mut shutter: Shutter,
    mut outlet: Outlet,
    count: usize,
) -> Result<Shut, AllocError> {
    let mut taken = Vec::new(alloc);
    for _ in 0..10_000_000u32 {
        if taken.len() >= count {
            break;
        }
        match outlet.take() {
            Some(item) => taken.push(item.ticket)?,
            None => thread::yield_now(),
        }
    }
    let answer = shutter.shut();
    Ok(Shut {
        shutter,
        outlet,
        taken,
        answer,
    })
}

// Adds the tickets of the items left in the outlet.
fn take_rest(outlet: &mut Outlet, taken: &mut Vec<u64>) -> Result<(), AllocError> {
    for _ in 0..1001u32 {
        if let Some(item) = outlet.take() {
            taken.push(item.ticket)?;
        }
    }
    Ok(())
}

// Notes each ticket. Reports whether each is below their number and was not noted before.
fn note_all(noted: &mut [bool], tickets: &[u64]) -> bool {
    for ticket in tickets {
        match noted.get_mut(*ticket as usize) {
            Some(place) if !*place => *place = true,
            _ => return false,
        }
    }
    true
}

// Runs each front in a thread of its own.
fn send_in_threads<R: Threads + Sync>(
    rt: &R,
    alloc: Global,
    intakes: Vec<Intake>,
) -> Result<Vec<Result<Told, Refusal>>, Fail> {
    Ok(thread::map_vec(rt, intakes, &|intake| send_all(alloc, intake))?)
}

// The fronts' results, and the gate.
#[derive(Drop)]
struct Outcome {
    sent: Vec<Result<Told, Refusal>>,
    gate: Shut,
}

fn shut_before_all<R: Threads + Sync>(
    rt: &R,
    alloc: Global,
    shutter: Shutter,
    first: Outlet,
    intakes: Vec<Intake>,
) -> Result<Outcome, Fail> {
    let gate = shut_after(alloc, shutter, first, 0)?;
    let sent = send_in_threads(rt, alloc, intakes)?;
    Ok(Outcome { sent, gate })
}

fn shut_in_the_middle<R: Threads + Sync>(
    rt: &R,
    alloc: Global,
    shutter: Shutter,
    first: Outlet,
    intakes: Vec<Intake>,
) -> Result<Outcome, Fail> {
    let closer = thread::spawn(rt, move || shut_after(alloc, shutter, first, 100))?;
    let sent = send_in_threads(rt, alloc, intakes)?;
    let gate = closer.join(rt)?;
    Ok(Outcome { sent, gate })
}

fn shut_behind_all<R: Threads + Sync>(
    rt: &R,
    alloc: Global,
    shutter: Shutter,
    first: Outlet,
    intakes: Vec<Intake>,
) -> Result<Outcome, Fail> {
    let sent = send_in_threads(rt, alloc, intakes)?;
    let gate = shut_after(alloc, shutter, first, 0)?;
    Ok(Outcome { sent, gate })
}

// Sends and shuts.
fn send_and_shut<R: Threads + Sync>(
    rt: &R,
    alloc: Global,
    when: When,
    shutter: Shutter,
    first: Outlet,
    intakes: Vec<Intake>,
) -> Result<Outcome, Fail> {
    match when {
        When::BeforeAll => shut_before_all(rt, alloc, shutter, first, intakes),
        When::InTheMiddle => shut_in_the_middle(rt, alloc, shutter, first, intakes),
        When::BehindAll => shut_behind_all(rt, alloc, shutter, first, intakes),
    }
}

// Reports whether the items of a front, some of which were taken before, have the tickets of the front's results, in order, and no other
// front got one of them.
fn is_told(
    outlet: &mut Outlet,
    told: &Result<Told, Refusal>,
    taken: &mut Vec<u64>,
    noted: &mut [bool],
) -> bool {
    let is_same = match (take_rest(outlet, taken), told) {
        (Ok(()), Ok(told)) => told.right && told.tickets == *taken,
        _ => false,
    };
    let is_right = is_same && taken.is_sorted() && note_all(noted, taken);
    taken.clear();
    is_right
}

// The same for all these fronts. `taken` has the tickets taken from the first of them.
fn are_told(
    outlets: &mut [Outlet],
    sent: &[Result<Told, Refusal>],
    taken: &mut Vec<u64>,
    noted: &mut [bool],
) -> bool {
    for (outlet, told) in outlets.iter_mut().zip(sent) {
        if !is_told(outlet, told, taken, noted) {
            return false;
        }
    }
    true
}

// The same for the front whose items were taken and the other ones. Also reports whether all tickets are 0 to n - 1.
fn are_all_told(alloc: Global, outcome: &mut Outcome, others: &mut [Outlet], n: u64) -> bool {
    let Ok(mut noted) = vec![in alloc; false; n as usize] else {
        return false;
    };
    let Some((told, rest)) = outcome.sent.split_first() else {
        return false;
    };
    let gate = &mut outcome.gate;
    is_told(&mut gate.outlet, told, &mut gate.taken, &mut noted)
        && are_told(others, rest, &mut gate.taken, &mut noted)
        && !noted.contains(&false)
}

// Reports whether a second shutdown is refused and changes nothing.
fn stays_shut(gate: &mut Shut, n: u64) -> bool {
    gate.shutter.shut() == Err(Refusal::Shutdown) && gate.shutter.accepted() == Some(n)
}

// Returns how many submissions were accepted, if everything is right: each front's items come in the order of its tickets, which rise; all
// tickets are 0 to n - 1; and a second shutdown is refused and changes nothing.
fn judged(alloc: Global, outcome: &mut Outcome, others: &mut [Outlet]) -> Option<u64> {
    let answer = outcome.gate.answer;
    match answer {
        Ok(n) if stays_shut(&mut outcome.gate, n) && are_all_told(alloc, outcome, others, n) => {
            Some(n)
        }
        _ => None,
    }
}

// Returns the first outlet, and the others.
fn split_first(outlets: Vec<Outlet>) -> Option<(Outlet, Vec<Outlet>)> {
    let mut outlets = outlets;
    outlets.reverse();
    let first = outlets.pop()?;
    outlets.reverse();
    Some((first, outlets))
}

fn accepted<R: Threads + Sync>(rt: &R, alloc: Global, when: When) -> Result<Option<u64>, Fail> {
    let (shutter, intakes, outlets) = open_gate(alloc, 16, 4096)?;
    let (first, mut others) = split_first(outlets).ok_or("an outlet")?;
    let mut outcome = send_and_shut(rt, alloc, when, shutter, first, intakes)?;
    Ok(judged(alloc, &mut outcome, &mut others))
}

#[test]
fn sixteen_fronts_and_the_shutdown_at_three_moments(rt: HostRuntime) -> Result<(), Fail> {
    let before = accepted(&rt, rt.alloc(), When::BeforeAll)?;
    let middle = accepted(&rt, rt.alloc(), When::InTheMiddle)?;
    let behind = accepted(&rt, rt.alloc(), When::BehindAll)?;
    assert!(rt; before == Some(0) && middle.unwrap_or(0) >= 100 && behind == Some(16_000));
    Ok(())
}
