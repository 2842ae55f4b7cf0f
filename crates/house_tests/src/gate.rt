ghost use Rattle.std.specs.Prelude.{◌≡◌, ◌≤◌, [], ◌∷◌, vec_capacity};
ghost use Rattle.ct_gate.specs.Ends.{AreEnds};

use crate::common::submission;
use crate::rows::{Words, expect_right, is_answer, is_handed_back, is_submission};
use ct_codec::{Item, Refusal};
use ct_gate::{Intake, Outlet, Shutter, close_gate, open_gate};
use std::alloc::Global;
use std::process::Abort;
use std::sync::Wait;
use std::test::Fail;
use std::thread;
use std::thread::Threads;

// Reports whether `count` is this number, or whether it is `None` and `nothing` is expected.
fn is_count(count: Option<u64>, wanted: &str) -> bool {
    match count {
        Some(count) => is_answer(Ok(count), wanted),
        None => wanted == "nothing",
    }
}

// Reports whether the item has this front, this ticket and this identity, or whether there is none and `nothing` is expected.
fn is_item(alloc: Global, item: Option<Item>, wanted: &str) -> bool {
    let mut words = Words::of(wanted);
    match item {
        Some(item) => {
            words.front() == item.front
                && words.number() == item.ticket
                && is_submission(alloc, &item.submission, words.word())
                && words.are_read()
        }
        None => wanted == "nothing",
    }
}

// A gate with two fronts.
#[derive(Drop)]
struct TwoFronts {
    shutter: Shutter,
    zero: Intake,
    one: Intake,
    outlet_zero: Outlet,
    outlet_one: Outlet,
    ghost ends: { AreEnds zero outlet_zero × AreEnds one outlet_one },
    ghost gate: { (zero.gate ≡ shutter.gate) × (one.gate ≡ shutter.gate) },
    ghost numbers: { (zero.number ≡ 0) × (one.number ≡ 1) × (shutter.fronts ≡ 2) },
}

impl TwoFronts {
    fn open(alloc: Global) -> Result<Option<TwoFronts>, Refusal> {
        let (shutter, mut intakes, mut outlets) = open_gate(alloc, 2, 2)?;
        let (Some(one), Some(zero)) = (intakes.pop(), intakes.pop()) else {
            return Ok(None);
        };
        let (Some(outlet_one), Some(outlet_zero)) = (outlets.pop(), outlets.pop()) else {
            return Ok(None);
        };
        Ok(Some(TwoFronts {
            shutter,
            zero,
            one,
            outlet_zero,
            outlet_one,
        }))
    }

    // Sends a submission. Reports whether the result is the expected ticket, or the expected refusal with the identity of the submission
    // that came back.
    fn sends(&mut self, alloc: Global, words: &mut Words<'_>, wanted: &str) -> bool {
        let front = words.front();
        let Ok(submission) = submission(alloc, &[words.byte()]) else {
            return false;
        };
        let sent = match front {
            0 => self.zero.send(submission),
            _ => self.one.send(submission),
        };
        match sent {
            Ok(ticket) => is_answer(Ok(ticket), wanted),
            refused => is_handed_back(alloc, refused, wanted),
        }
    }

    fn drain(&mut self, front: u16) -> Option<Item> {
        match front {
            0 => self.outlet_zero.drain_step(&mut self.zero),
            _ => self.outlet_one.drain_step(&mut self.one),
        }
    }

    fn is_drained(&mut self, front: u16) -> bool {
        match front {
            0 => self.outlet_zero.is_drained(&mut self.zero),
            _ => self.outlet_one.is_drained(&mut self.one),
        }
    }

    fn number(&self, front: u16) -> u16 {
        match front {
            0 => self.zero.number(),
            _ => self.one.number(),
        }
    }

    // Makes the call in these words. Reports whether its result is as expected.
    fn answers(&mut self, alloc: Global, words: &mut Words<'_>, wanted: &str) -> bool {
        match words.word() {
            "number" => is_answer(Ok(u64::from(self.number(words.front()))), wanted),
            "accepted" => is_count(self.shutter.accepted(), wanted),
            "send" => self.sends(alloc, words, wanted),
            "shut" => is_answer(self.shutter.shut(), wanted),
            "drain" => is_item(alloc, self.drain(words.front()), wanted),
            "is-drained" => is_answer(Ok(u64::from(self.is_drained(words.front()))), wanted),
            _ => false,
        }
    }

    // Makes the call in this row. Reports whether its result is as the row says.
    fn is_row(&mut self, alloc: Global, row: &str) -> bool {
        let Some((text, wanted)) = row.split_once(" -> ") else {
            return false;
        };
        let mut words = Words::of(text);
        self.answers(alloc, &mut words, wanted) && words.are_read()
    }

    // Makes the calls in the rows. Each result must be as its row says.
    fn follow<R: Abort>(&mut self, rt: &R, alloc: Global, rows: &str) {
        for row in rows.lines() {
            expect_right(rt, self.is_row(alloc, row.trim_start()), row);
        }
    }

    fn close<R: Wait>(self, rt: &R, alloc: Global) -> Result<Option<u64>, Refusal> {
        let room = Vec::with_capacity(alloc, 2)?;
        let TwoFronts {
            shutter,
            zero,
            one,
            outlet_zero: _,
            outlet_one: _,
        } = self;
        if shutter.accepted().is_none() {
            return Ok(None);
        }
        Ok(Some(close_gate(rt, shutter, listed(room, zero, one))))
    }
}

// Returns the two ends in a list that has room for them.
fn listed(room: Vec<Intake>, zero: Intake, one: Intake) -> Vec<Intake>
    requires { (room.items ≡ []) × (2 ≤ vec_capacity room) }
    ensures { result.items ≡ zero ∷ one ∷ [] }
{
    let mut list = room;
    list.push_reserved(zero);
    list.push_reserved(one);
    list
}

// Opens a gate with two fronts, makes the calls in the rows, and closes it. Returns how many submissions were accepted.
fn closed_after<R: Wait + Abort>(
    rt: &R,
    alloc: Global,
    rows: &str,
) -> Result<Option<u64>, Refusal> {
    let Some(mut gate) = TwoFronts::open(alloc)? else {
        return Ok(None);
    };
    gate.follow(rt, alloc, rows);
    gate.close(rt, alloc)
}

// In these rows, an identity is `00 00 00 00 01` followed by the certificate.
#[test]
fn two_fronts_and_a_shutdown(rt: HostRuntime) -> Result<(), Fail> {
    let closed = closed_after(
        &rt,
        rt.alloc(),
        "number 0 -> 0
        number 1 -> 1
        accepted -> nothing
        send 0 41 -> 0
        send 1 42 -> 1
        send 0 41 -> 2
        send 0 42 -> Full 000000000142
        shut -> 3
        send 0 42 -> Shutdown 000000000142
        send 1 41 -> Shutdown 000000000141
        shut -> Shutdown
        accepted -> 3
        is-drained 0 -> 0
        drain 0 -> 0 0 000000000141
        drain 0 -> 0 2 000000000141
        drain 0 -> nothing
        drain 1 -> 1 1 000000000142
        drain 1 -> nothing
        is-drained 0 -> 1
        is-drained 1 -> 1",
    );
    assert_eq!(rt; closed, Ok(Some(3)));
    Ok(())
}

// Sends the certificate that is this byte.
fn send_byte(alloc: Global, intake: &mut Intake, byte: u8) -> Result<u64, Refusal> {
    match intake.send(submission(alloc, &[byte])?) {
        Ok(ticket) => Ok(ticket),
        Err((refusal, _)) => Err(refusal),
    }
}

// Sends this many submissions, and returns how many were accepted. The only refusal must be `Shutdown`.
fn send_all(alloc: Global, mut intake: Intake, count: u32) -> Result<u64, Refusal> {
    let mut accepted = 0u64;
    for _ in 0..count {
        match send_byte(alloc, &mut intake, 0x41) {
            Ok(_) => accepted = accepted.saturating_add(1),
            Err(Refusal::Shutdown) => {}
            Err(refusal) => return Err(refusal),
        }
    }
    Ok(accepted)
}

// Sends at most this many submissions. Returns how many are accepted before the first refusal, and that refusal.
fn fill(alloc: Global, intake: &mut Intake, most: u32) -> (u64, Option<Refusal>) {
    let mut accepted = 0u64;
    for _ in 0..most {
        match send_byte(alloc, intake, 0x41) {
            Ok(_) => accepted = accepted.saturating_add(1),
            Err(refusal) => return (accepted, Some(refusal)),
        }
    }
    (accepted, None)
}

// Takes at most this many items from the outlet, and returns their number. Their tickets must rise and be below the bound.
fn take_all(outlet: &mut Outlet, most: u32, bound: u64) -> Option<u64> {
    let mut taken = 0u64;
    let mut least = 0u64;
    for _ in 0..most {
        let Some(Item { ticket, .. }) = outlet.take() else {
            break;
        };
        if ticket < least || ticket >= bound {
            return None;
        }
        least = ticket.saturating_add(1);
        taken = taken.saturating_add(1);
    }
    Some(taken)
}

// Takes the items of all outlets, with the conditions of `take_all`, and returns their number.
fn take_from_all(outlets: &mut [Outlet], bound: u64) -> Option<u64> {
    let mut taken = 0u64;
    for outlet in outlets {
        taken = taken.saturating_add(take_all(outlet, 4096, bound)?);
    }
    Some(taken)
}

// Two threads send 2,000 submissions each while the gate is shut. Returns how many of them were accepted, and whether the gate reports the
// same number.
fn send_beside_shut<R: Threads>(
    rt: &R,
    alloc: Global,
    shutter: &mut Shutter,
    zero: Intake,
    one: Intake,
) -> Result<(u64, bool), Fail> {
    let first = thread::spawn(rt, move || send_all(alloc, zero, 2000))?;
    let second = thread::spawn(rt, move || send_all(alloc, one, 2000))?;
    let shut = shutter.shut();
    let accepted = first.join(rt)?.saturating_add(second.join(rt)?);
    Ok((
        accepted,
        shut == Ok(accepted) && shutter.accepted() == Some(accepted),
    ))
}

// Returns the two intakes in the list.
fn both_of(intakes: Vec<Intake>) -> Option<(Intake, Intake)> {
    let mut intakes = intakes;
    let one = intakes.pop()?;
    let zero = intakes.pop()?;
    Some((zero, one))
}

// Reports whether the gate and the two threads agree on the number of accepted submissions, and the outlets have as many.
fn two_threads_send<R: Threads>(rt: &R, alloc: Global) -> Result<bool, Fail> {
    let (mut shutter, intakes, mut outlets) = open_gate(alloc, 2, 4096)?;
    let (zero, one) = both_of(intakes).ok_or("two intakes")?;
    let (accepted, is_told) = send_beside_shut(rt, alloc, &mut shutter, zero, one)?;
    Ok(is_told && take_from_all(&mut outlets, accepted) == Some(accepted))
}

#[test]
fn two_threads_send_while_the_gate_is_shut(rt: HostRuntime) -> Result<(), Fail> {
    assert!(rt; two_threads_send(&rt, rt.alloc())?);
    Ok(())
}

// Reports whether each front had a thousand submissions accepted.
fn are_thousands(sent: &[Result<u64, Refusal>]) -> bool {
    for accepted in sent {
        if *accepted != Ok(1000) {
            return false;
        }
    }
    sent.len() == 16
}

// Reports whether each outlet has a thousand items.
fn give_thousands(outlets: &mut [Outlet]) -> bool {
    for outlet in outlets {
        if take_all(outlet, 4096, 16_000) != Some(1000) {
            return false;
        }
    }
    true
}

// Reports whether each front, in a thread of its own, has a thousand submissions accepted.
fn send_thousands<R: Threads + Sync>(rt: &R, alloc: Global, intakes: Vec<Intake>) -> bool {
    match thread::map_vec(rt, intakes, &|intake| send_all(alloc, intake, 1000)) {
        Ok(sent) => are_thousands(&sent),
        Err(_) => false,
    }
}

#[test]
fn sixteen_threads_send(rt: HostRuntime) -> Result<(), Fail> {
    let (mut shutter, intakes, mut outlets) = open_gate(rt.alloc(), 16, 1000)?;
    assert!(rt; send_thousands(&rt, rt.alloc(), intakes));
    assert!(rt; shutter.shut() == Ok(16_000) && give_thousands(&mut outlets));
    Ok(())
}

// Sends one submission in a thread, and returns how many are accepted.
fn send_one<R: Threads>(rt: &R, alloc: Global, intake: Intake) -> Result<u64, Fail> {
    let sender = thread::spawn(rt, move || send_all(alloc, intake, 1))?;
    Ok(sender.join(rt)?)
}

// Shuts the gate in a thread, and returns how many submissions were accepted.
fn shut_one<R: Threads>(rt: &R, shutter: Shutter) -> Result<u64, Fail> {
    let mut shutter = shutter;
    let closer = thread::spawn(rt, move || shutter.shut())?;
    Ok(closer.join(rt)?)
}

// Takes an item in a thread, and returns its front and its ticket.
fn take_one<R: Threads>(rt: &R, outlet: Outlet) -> Result<Option<(u16, u64)>, Fail> {
    let mut outlet = outlet;
    let taker = thread::spawn(
        rt,
        move || outlet.take().map(|item| (item.front, item.ticket)),
    )?;
    Ok(taker.join(rt))
}

// Returns the ends of a gate with one front and a ring with this many slots.
fn open_one(alloc: Global, places: usize) -> Result<(Shutter, Intake, Outlet), Fail>
    requires { (1 ≤ places) × (places ≤ 4096) }
{
    let (shutter, mut intakes, mut outlets) = open_gate(alloc, 1, places)?;
    match (intakes.pop(), outlets.pop()) {
        (Some(intake), Some(outlet)) => Ok((shutter, intake, outlet)),
        _ => Err(Fail::new("one front")),
    }
}

#[test]
fn each_end_moves_to_a_thread(rt: HostRuntime) -> Result<(), Fail> {
    let (shutter, intake, outlet) = open_one(rt.alloc(), 1)?;
    let sent = send_one(&rt, rt.alloc(), intake)?;
    let shut = shut_one(&rt, shutter)?;
    let taken = take_one(&rt, outlet)?;
    assert!(rt; sent == 1 && shut == 1 && taken == Some((0, 0)));
    Ok(())
}

fn take_ticket(outlet: &mut Outlet) -> Option<u64> {
    Some(outlet.take()?.ticket)
}

// Reports whether the ring with one slot takes one item, refuses another, and returns only the first one, with this ticket.
fn is_round(alloc: Global, intake: &mut Intake, outlet: &mut Outlet, ticket: u64) -> bool {
    send_byte(alloc, intake, 0x41) == Ok(ticket)
        && send_byte(alloc, intake, 0x42) == Err(Refusal::Full)
        && take_ticket(outlet) == Some(ticket)
        && outlet.take().is_none()
}

// More tickets than a limit of a hundred thousand, of 2^16 or of 2^17 would allow.
const ROUNDS: u64 = 1 << 18;

// Returns how many of the rounds succeed before the first that does not.
fn count_rounds(alloc: Global, intake: &mut Intake, outlet: &mut Outlet) -> u64 {
    for round in 0..ROUNDS {
        if !is_round(alloc, intake, outlet, round) {
            return round;
        }
    }
    ROUNDS
}

#[test]
fn a_full_ring_takes_again_after_a_take(rt: HostRuntime) -> Result<(), Fail> {
    let (_shutter, mut intake, mut outlet) = open_one(rt.alloc(), 1)?;
    assert!(rt; count_rounds(rt.alloc(), &mut intake, &mut outlet) == ROUNDS);
    Ok(())
}

// Fills the ring, and empties it. Reports whether it takes 4,096 items and then none, and returns them with tickets below the bound.
fn is_filled(alloc: Global, intake: &mut Intake, outlet: &mut Outlet, bound: u64) -> bool {
    fill(alloc, intake, 5000) == (4096, Some(Refusal::Full))
        && take_all(outlet, 5000, bound) == Some(4096)
}

// Returns how many of seventeen fillings succeed before the first that does not. They are 69,632 submissions, whose tickets pass 2^16.
fn seventeen_fillings(alloc: Global, intake: &mut Intake, outlet: &mut Outlet) -> u64 {
    for filling in 0..17u64 {
        if !is_filled(alloc, intake, outlet, 4096 * filling + 4096) {
            return filling;
        }
    }
    17
}

#[test]
fn a_ring_of_4096_places_is_filled_seventeen_times(rt: HostRuntime) -> Result<(), Fail> {
    let (_shutter, mut intake, mut outlet) = open_one(rt.alloc(), 4096)?;
    assert!(rt; seventeen_fillings(rt.alloc(), &mut intake, &mut outlet) == 17);
    Ok(())
}
