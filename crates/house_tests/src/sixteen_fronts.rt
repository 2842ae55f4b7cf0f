// Sixteen fronts in threads of their own and a sequencer run at the same time, in a house that is shut before their first submission, in
// the middle, and after the last one.
ghost use Rattle.std.specs.Prelude.{◌≡◌, ◌≤◌, ◌<◌, ◌+◌, ℕ, length, All, IfOk, slice_index_or, vec_len, vec_capacity};
ghost use Rattle.ct_house.specs.House.{IsOfHouse};
ghost use Rattle.house_tests.specs.Fronts.{SameFront};
ghost use Rattle.house_tests.specs.declared.sixteen_fronts.Party.{Party};

use crate::common::{closed, head_of, submission};
use ct_codec::{Refusal, Submission};
use ct_core::{Query, Settled};
use ct_house::{FinalLog, Front, Retired, Sequencer, open};
use ct_tree::Head;
use shared_list::SharedList;
use std::alloc::Global;
use std::process::Abort;
use std::sync::Wait;
use std::test::Fail;
use std::thread;
use std::thread::{Threads, join_mut};

// How often a submission is repeated if the ring is full, before it is given up.
const TRIES: u32 = 100_000;

// When the house is shut.
#[derive(Clone, Copy)]
enum When {
    BeforeAll,
    // After `ENOUGH` items were taken.
    InTheMiddle,
    BehindAll,
}

// The number of items after which the house is shut in the middle. Rings with 64 slots hold 1,024 more, so this is before all 16,000
// submissions were made.
const ENOUGH: u64 = 6_000;

// The timestamp at which the remaining items settle, and the last head is made. The rounds before it, one timestamp each, end long before.
const LAST: u64 = u64::MAX;

// A front, and its thread's observations: the tickets, each with the byte that is its certificate, the heads, and whether it was refused
// because of the shutdown.
#[derive(Drop)]
struct Party {
    front: Front,
    tickets: Vec<(u64, u8)>,
    heads: Vec<Head>,
    is_shut: bool,
    end: Result<(), Refusal>,
}

impl Party {
    fn new(alloc: Global, front: Front) -> Party
        ensures { result.front ≡ front }
    {
        Party {
            front,
            tickets: Vec::new(alloc),
            heads: Vec::new(alloc),
            is_shut: false,
            end: Ok(()),
        }
    }

    // Submits once. If the ring is full, the submission comes back. After the first refusal because of the shutdown, any other result is an
    // error.
    fn attempt(
        &mut self,
        waiting: Submission,
        certificate: u8,
    ) -> Result<Option<Submission>, Refusal>
        ensures { SameFront self.old.front self.new.front }
    {
        match self.front.submit(waiting) {
            Ok(ticket) => {
                if self.is_shut {
                    return Err(Refusal::BadLine);
                }
                self.tickets.push((ticket, certificate))?;
                Ok(None)
            }
            Err((Refusal::Shutdown, _)) => {
                self.is_shut = true;
                Ok(None)
            }
            Err((Refusal::Full, back)) => {
                if self.is_shut {
                    return Err(Refusal::Full);
                }
                Ok(Some(back))
            }
            Err((refusal, _)) => Err(refusal),
        }
    }

    // Submits a certificate until it is accepted or given up.
    fn submit(&mut self, alloc: Global, certificate: u8) -> Result<(), Refusal>
        ensures { SameFront self.old.front self.new.front }
    {
        let mut waiting = submission(alloc, &[certificate])?;
        for _ in 0..TRIES {
            match self.attempt(waiting, certificate)? {
                Some(back) => waiting = back,
                None => return Ok(()),
            }
            thread::yield_now();
        }
        Ok(())
    }

    // Asks for the last head.
    fn look(&mut self, alloc: Global) -> Result<(), Refusal>
        ensures { SameFront self.old.front self.new.front }
    {
        let head = head_of(self.front.ask(alloc, &Query::GetSth))?;
        self.heads.push(head)?;
        Ok(())
    }

    // Submits 1,000 certificates, 250 of which differ, and sometimes looks at the head.
    fn submit_all(&mut self, alloc: Global, first: usize) -> Result<(), Refusal>
        ensures { SameFront self.old.front self.new.front }
    {
        for number in 0..1000usize {
            if number % 50 == 0 {
                self.look(alloc)?;
            }
            self.submit(alloc, ((first % 16 * 61 + number * 7) % 250) as u8)?;
        }
        Ok(())
    }

    fn run(&mut self, alloc: Global, first: usize)
        ensures { SameFront self.old.front self.new.front }
    {
        self.end = self.submit_all(alloc, first);
    }
}

// Runs each front in a thread of its own.
fn run_fronts<R: Threads + Sync>(rt: &R, alloc: Global, parties: &mut [Party])
    ensures count { length parties.new ≡ length parties.old }
    ensures same { (k : ℕ) (d : Party) → k < length parties.old
        → SameFront (slice_index_or parties.old k d).front (slice_index_or parties.new k d).front }
{
    thread::for_each_mut(rt, parties, 16, &|first, party| party.run(alloc, first));
}

// Takes from each front, and returns how many items.
fn take_round<R: Threads + Sync>(
    rt: &R,
    alloc: Global,
    house: &mut Sequencer,
    now: u64,
) -> Result<u64, Refusal>
    requires { length house.old.lanes ≡ 16 }
    ensures same { (house.new.house ≡ house.old.house) × (length house.new.lanes ≡ length house.old.lanes) }
{
    let mut taken = 0u64;
    for front in 0..16u16 {
        let count = house.take(rt, alloc, front, 64, now)?;
        taken = taken.saturating_add(u64::from(count));
    }
    Ok(taken)
}

// Shuts the house, and shuts it again, which must be refused. Returns the result of the first shutdown.
fn shut_twice(house: &mut Sequencer) -> Result<u64, Refusal>
    ensures same { (house.new.house ≡ house.old.house) × (length house.new.lanes ≡ length house.old.lanes) }
{
    let answer = house.shutdown();
    match house.shutdown() {
        Err(Refusal::Shutdown) => answer,
        _ => Err(Refusal::BadLine),
    }
}

// Takes until enough items were taken, sometimes publishes, and shuts the house. Returns the result of the shutdown.
fn sequence<R: Threads + Wait + Sync>(
    rt: &R,
    alloc: Global,
    house: &mut Sequencer,
) -> Result<u64, Refusal>
    requires { length house.old.lanes ≡ 16 }
    ensures same { (house.new.house ≡ house.old.house) × (length house.new.lanes ≡ length house.old.lanes) }
{
    let mut taken = 0u64;
    let mut published = 0u64;
    for round in 1..LAST {
        let more = take_round(rt, alloc, house, round)?;
        taken = taken.saturating_add(more);
        if taken >= published.saturating_add(250) {
            house.publish(rt, alloc, round)?;
            published = taken;
        }
        if taken >= ENOUGH {
            break;
        }
        thread::yield_now();
    }
    shut_twice(house)
}

// Runs the fronts and the sequencer at the same time. Returns the result of the shutdown.
fn run_together<R: Threads + Wait + Sync>(
    rt: &R,
    alloc: Global,
    house: &mut Sequencer,
    parties: &mut [Party],
) -> Result<u64, Refusal>
    requires { length house.old.lanes ≡ 16 }
    ensures house { (house.new.house ≡ house.old.house) × (length house.new.lanes ≡ length house.old.lanes) }
    ensures count { length parties.new ≡ length parties.old }
    ensures same { (k : ℕ) (d : Party) → k < length parties.old
        → SameFront (slice_index_or parties.old k d).front (slice_index_or parties.new k d).front }
{
    let (_, shut) = join_mut(
        rt,
        &mut ||
            ensures { (length parties.exit.now ≡ length parties.entry.now) × ((k : ℕ) (d : Party) → k < length parties.entry.now
                → SameFront (slice_index_or parties.entry.now k d).front (slice_index_or parties.exit.now k d).front) }
        { run_fronts(rt, alloc, parties) },
        &mut ||
            requires { length house.now.lanes ≡ 16 }
            ensures { (house.exit.now.house ≡ house.entry.now.house) × (length house.exit.now.lanes ≡ length house.entry.now.lanes) }
        { sequence(rt, alloc, house) },
    );
    shut
}

// Runs the fronts and the shutdown. Returns the shutdown's result.
fn run_and_shut<R: Threads + Wait + Sync>(
    rt: &R,
    alloc: Global,
    house: &mut Sequencer,
    parties: &mut [Party],
    when: When,
) -> Result<u64, Refusal>
    requires { length house.old.lanes ≡ 16 }
    ensures house { (house.new.house ≡ house.old.house) × (length house.new.lanes ≡ length house.old.lanes) }
    ensures count { length parties.new ≡ length parties.old }
    ensures same { (k : ℕ) (d : Party) → k < length parties.old
        → SameFront (slice_index_or parties.old k d).front (slice_index_or parties.new k d).front }
{
    match when {
        When::BeforeAll => {
            let shut = shut_twice(house);
            run_fronts(rt, alloc, parties);
            shut
        }
        When::InTheMiddle => run_together(rt, alloc, house, parties),
        When::BehindAll => {
            run_fronts(rt, alloc, parties);
            shut_twice(house)
        }
    }
}

// The observations of a front's thread.
#[derive(Drop)]
struct Seen {
    tickets: Vec<(u64, u8)>,
    heads: Vec<Head>,
    end: Result<(), Refusal>,
}

// Returns the fronts with room for their threads' observations, the last one first.
fn parties_of(
    alloc: Global,
    _house: &Sequencer,
    mut fronts: Vec<Front>,
) -> Result<Vec<Party>, Refusal>
    requires { All (IsOfHouse _house.now.house) fronts.items }
    ensures { IfOk result (λ v. All (λ (p : Party). IsOfHouse _house.now.house p.front) v.items) }
{
    let mut parties = Vec::new(alloc);
    while let Some(front) = fronts.pop() {
        parties.push(Party::new(alloc, front))?;
    }
    Ok(parties)
}

// Retires the fronts, the last one first. Each list has room for all.
fn retire_all(
    _house: &Sequencer,
    mut parties: Vec<Party>,
    mut ends: Vec<Retired>,
    mut seen: Vec<Seen>,
) -> (Vec<Retired>, Vec<Seen>)
    requires of_house { All (λ (p : Party). IsOfHouse _house.now.house p.front) parties.items × All (IsOfHouse _house.now.house) ends.items }
    requires room { (vec_len ends + vec_len parties ≤ vec_capacity ends) × (vec_len seen + vec_len parties ≤ vec_capacity seen) }
    ensures { All (IsOfHouse _house.now.house) result.0.items }
{
    while let Some(party) = parties.pop() {
        let Party {
            front,
            tickets,
            heads,
            is_shut: _,
            end,
        } = party;
        ends.push_reserved(front.retire());
        seen.push_reserved(Seen {
            tickets,
            heads,
            end,
        });
    }
    (ends, seen)
}

// Returns the number of slots of a ring: fewer than the submissions, if items are taken at the same time.
fn places(when: When) -> usize
    ensures { (0 < result) × (result ≤ 4096) }
{
    match when {
        When::InTheMiddle => 64,
        _ => 1024,
    }
}

// A house with sixteen fronts, and when it will be shut.
struct Crowd {
    alloc: Global,
    house: Sequencer,
    parties: Vec<Party>,
    when: When,
    ghost lanes: { length house.lanes ≡ 16 },
    ghost of_house: { All (λ (p : Party). IsOfHouse house.house p.front) parties.items },
}

impl Crowd {
    #[tactic(auto, using(crate::proofs::FrontLemmas::of_new_house, crate::proofs::FrontLemmas::lanes_of_new_house))]
    fn open<R: Wait>(rt: &R, alloc: Global, when: When) -> Result<Crowd, Refusal> {
        let (house, fronts) = open(rt, alloc, 16, places(when), 0)?;
        match parties_of(alloc, &house, fronts) {
            Ok(parties) => Ok(Crowd {
                alloc,
                house,
                parties,
                when,
            }),
            Err(refusal) => {
                house.abandon(rt, Vec::new(alloc));
                Err(refusal)
            }
        }
    }

    #[tactic(auto, using(crate::proofs::FrontLemmas::still_of_house))]
    fn run<R: Threads + Wait + Sync>(&mut self, rt: &R) -> Result<u64, Refusal> {
        run_and_shut(
            rt,
            self.alloc,
            &mut self.house,
            &mut self.parties,
            self.when,
        )
    }

    // Returns the final log, and the threads' observations, in the fronts' order.
    fn finish<R: Threads + Wait + Abort + Sync>(self, rt: &R) -> (FinalLog, Vec<Seen>) {
        let Crowd {
            alloc,
            mut house,
            parties,
            when: _,
        } = self;
        let room = Vec::with_capacity(alloc, parties.len()).expect(rt, "memory");
        let seen = Vec::with_capacity(alloc, parties.len()).expect(rt, "memory");
        let (mut ends, seen) = retire_all(&house, parties, room, seen);
        assert_eq!(rt; house.settle(rt, alloc, &mut ends, LAST), Ok(()));
        assert!(rt; house.publish(rt, alloc, LAST).is_ok());
        (closed(rt, house, ends), seen)
    }
}

// Reports whether the records of this front have its tickets, in order, and these rise.
fn are_recorded(settlement: &SharedList<Settled>, front: u16, tickets: &[(u64, u8)]) -> bool {
    let mut place = 0usize;
    let mut least = 0u64;
    for record in settlement {
        if record.front != front {
            continue;
        }
        match tickets.get(place) {
            Some((ticket, _)) if *ticket == record.ticket && *ticket >= least => {
                place = place.saturating_add(1);
                least = ticket.saturating_add(1);
            }
            _ => return false,
        }
    }
    place == tickets.len()
}

// Returns the index of the head.
fn place_of(heads: &SharedList<Head>, head: &Head) -> Option<usize> {
    for place in 0..heads.len() {
        if heads.at(place) == head {
            return Some(place);
        }
    }
    None
}

// Reports whether the heads that were seen are heads of the log, in order.
fn are_published(heads: &SharedList<Head>, seen: &[Head]) -> bool {
    let mut least = 0usize;
    for head in seen {
        match place_of(heads, head) {
            Some(place) if place >= least => least = place,
            _ => return false,
        }
    }
    true
}

// Notes the certificate of each ticket. Returns false if a ticket has another certificate already, or is not below their number.
fn note_tickets(certificates: &mut [Option<u8>], tickets: &[(u64, u8)]) -> bool {
    for (ticket, certificate) in tickets {
        match certificates.get_mut(*ticket as usize) {
            Some(place) if place.is_none() => *place = Some(*certificate),
            _ => return false,
        }
    }
    true
}

// Reports whether the first record of each certificate got a leaf, and each later one that leaf.
fn are_first_occurrences(settlement: &SharedList<Settled>, certificates: &[Option<u8>]) -> bool {
    let mut leaves = [None; 256];
    let mut count = 0u64;
    for record in settlement {
        let Some(Some(certificate)) = certificates.get(record.ticket as usize) else {
            return false;
        };
        let place = usize::from(*certificate);
        let index = leaves[place].unwrap_or(count);
        if record.index != index || record.first != leaves[place].is_none() {
            return false;
        }
        if record.first {
            leaves[place] = Some(count);
            count = count.saturating_add(1);
        }
    }
    true
}

// Reports whether the log agrees with this front's observations. It notes the front's certificates.
fn is_in_log(log: &FinalLog, front: u16, seen: &Seen, certificates: &mut [Option<u8>]) -> bool {
    seen.end == Ok(())
        && are_recorded(log.settlement(), front, &seen.tickets)
        && are_published(log.published().heads(), &seen.heads)
        && note_tickets(certificates, &seen.tickets)
}

// Reports whether the log agrees with the observations of all fronts, and its records with their certificates.
fn are_in_log(alloc: Global, log: &FinalLog, seen: &[Seen]) -> bool {
    let Ok(mut certificates) = vec![in alloc; None; log.settlement().len()] else {
        return false;
    };
    for (front, seen) in (0..16u16).zip(seen) {
        if !is_in_log(log, front, seen, &mut certificates) {
            return false;
        }
    }
    are_first_occurrences(log.settlement(), &certificates)
}

// Returns how many submissions were accepted, if everything is right.
fn accepted<R: Threads + Wait + Abort + Sync>(
    rt: &R,
    alloc: Global,
    when: When,
) -> Result<Option<u64>, Refusal> {
    let mut crowd = Crowd::open(rt, alloc, when)?;
    let shut = crowd.run(rt);
    let (log, seen) = crowd.finish(rt);
    let n = log.accepted();
    let is_right = shut == Ok(n)
        && log.settlement().len() as u64 == n
        && are_in_log(alloc, &log, &seen);
    Ok(if is_right { Some(n) } else { None })
}

// Reports whether the number accepted is within these limits.
fn accepts<R: Threads + Wait + Abort + Sync>(
    rt: &R,
    alloc: Global,
    when: When,
    (least, most): (u64, u64),
) -> bool {
    match accepted(rt, alloc, when) {
        Ok(Some(n)) => least <= n && n <= most,
        _ => false,
    }
}

#[test]
fn sixteen_fronts_and_a_shutdown_at_three_moments(rt: HostRuntime) -> Result<(), Fail> {
    assert!(rt; accepts(&rt, rt.alloc(), When::BeforeAll, (0, 0)));
    assert!(rt; accepts(&rt, rt.alloc(), When::InTheMiddle, (ENOUGH, 15_999)));
    assert!(rt; accepts(&rt, rt.alloc(), When::BehindAll, (16_000, 16_000)));
    Ok(())
}
