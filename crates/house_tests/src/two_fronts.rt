ghost use Rattle.std.specs.Prelude.{◌≡◌, ◌≤◌, length, All};
ghost use Rattle.ct_house.specs.House.{IsOfHouse};

use crate::common::{closed, head_of, submission};
use crate::rows::{Answer, Words, expect_right, is_answer, is_handed_back, is_hex, is_reply};
use ct_codec::{Refusal, Submission};
use ct_core::{Query, Reply, Settled};
use ct_house::{FinalLog, Front, Retired, Sequencer, open};
use ct_tree::Head;
use std::alloc::Global;
use std::process::Abort;
use std::sync::Wait;
use std::test::Fail;
use std::thread::Threads;

// A call of a house whose fronts are open, and its row.
#[derive(Clone, Copy)]
enum Call {
    // `submit 0 41`: the front, and the byte that is the certificate.
    Submit(u16, u8),
    // `hand-back 0 41`: the front and the certificate of a submission that is refused. The result is the refusal, and the identity of the
    // submission that comes back.
    HandBack(u16, u8),
    // `submit-numbers 300`: submits this many certificates to front 0, which are the two bytes of 0, of 1 and so on. The result is how many
    // it accepts.
    SubmitNumbers(u64),
    // `submit-large 40`: submits this many certificates to front 0, which are 2,000 bytes 0, 2,000 bytes 1 and so on. The result is how
    // many it accepts.
    SubmitLarge(u64),
    // `grow-by-tens 300`: submits this many rounds of ten certificates to front 0, and settles and publishes each round one timestamp
    // later. The result is the size.
    GrowByTens(u64),
    // `refill 1000`: this many times, a ring with two slots is filled, refuses a third certificate, and is emptied. The result is how often
    // that succeeded.
    Refill(u64),
    // `take 0 256 1`: the front, the maximum number of items, and the timestamp.
    Take(u16, u64, u64),
    // `publish 1`: the timestamp.
    Publish(u64),
    Shutdown,
    // `take-all 1`: the timestamp. It takes from front 0 until no item is left. The result is how many.
    TakeAll(u64),
    // `learn 0`: the front, which learns of all publications so far. The result is 0.
    Learn(u16),
    // `size 0`: the front. The result is the size of the head that the front sees.
    Size(u16),
    // `proof-length 2 5`: two sizes. The result is the number of hashes in the consistency proof that front 0 shows.
    ProofLength(u64, u64),
    // `ask 0 sth`: the front and the query. The result is the reply.
    Ask(u16, Query),
    // `succeed 3 5`: front 0 retires, and is resumed at the first timestamp, or at the second if that is refused. The result is 0 or the
    // refusal.
    Succeed(u64, u64),
}

// Returns the call with this name, whose words are numbers.
fn numbers_of(name: &str, words: &mut Words<'_>) -> Option<Call> {
    Some(match name {
        "submit-numbers" => Call::SubmitNumbers(words.number()),
        "submit-large" => Call::SubmitLarge(words.number()),
        "grow-by-tens" => Call::GrowByTens(words.number()),
        "refill" => Call::Refill(words.number()),
        "publish" => Call::Publish(words.number()),
        "take-all" => Call::TakeAll(words.number()),
        "proof-length" => Call::ProofLength(words.number(), words.number()),
        "succeed" => Call::Succeed(words.number(), words.number()),
        "shutdown" => Call::Shutdown,
        _ => return None,
    })
}

// Returns the call in these words.
fn call_in(words: &mut Words<'_>) -> Option<Call> {
    Some(match words.word() {
        "submit" => Call::Submit(words.front(), words.byte()),
        "hand-back" => Call::HandBack(words.front(), words.byte()),
        "take" => Call::Take(words.front(), words.number(), words.number()),
        "learn" => Call::Learn(words.front()),
        "size" => Call::Size(words.front()),
        "ask" => Call::Ask(words.front(), words.query()),
        name => return numbers_of(name, words),
    })
}

// Returns the call in this row.
fn call_of(row: &str) -> Option<Call> {
    let mut words = Words::of(row);
    let call = call_in(&mut words);
    if words.are_read() { call } else { None }
}

// A house with two fronts.
pub(crate) struct TwoFronts {
    pub(crate) alloc: Global,
    pub(crate) house: Sequencer,
    pub(crate) zero: Front,
    pub(crate) one: Front,
    ghost lanes: { length house.lanes ≡ 2 },
    ghost of_house: { IsOfHouse house.house zero × IsOfHouse house.house one },
}

// Resumes a retired front at the timestamp `now`, or at the timestamp `later` if that is refused. Returns the successor, and 0 or the
// refusal.
fn go_on<R: Threads + Abort + Sync>(
    rt: &R,
    alloc: Global,
    house: &mut Sequencer,
    end: Retired,
    now: u64,
    later: u64,
) -> (Front, Answer)
    requires { IsOfHouse house.old.house end }
    ensures house { house.new.house ≡ house.old.house }
    ensures lanes { length house.new.lanes ≡ length house.old.lanes }
    ensures front { result.0 ≡ end }
{
    let (refusal, end) = match house.succeed(rt, alloc, end, now) {
        Ok(front) => return (front, Ok(0)),
        Err(refused) => refused,
    };
    match house.succeed(rt, alloc, end, later) {
        Ok(front) => (front, Err(refusal)),
        Err((refusal, _end)) => panic!(rt; "{refusal:?}"),
    }
}

impl TwoFronts {
    pub(crate) fn open<R: Wait>(
        rt: &R,
        alloc: Global,
        ring: usize,
        now: u64,
    ) -> Result<TwoFronts, Refusal>
        requires { (1 ≤ ring) × (ring ≤ 4096) }
    {
        let (house, mut fronts) = open(rt, alloc, 2, ring, now)?;
        let (Some(one), Some(zero)) = (fronts.pop(), fronts.pop()) else {
            house.abandon(rt, Vec::new(alloc));
            return Err(Refusal::MissingFront);
        };
        Ok(TwoFronts {
            alloc,
            house,
            zero,
            one,
        })
    }

    pub(crate) fn abandon<R: Wait>(self, rt: &R) {
        let TwoFronts {
            alloc,
            house,
            zero: _,
            one: _,
        } = self;
        house.abandon(rt, Vec::new(alloc));
    }

    fn submit(&mut self, front: u16, submission: Submission) -> Result<u64, (Refusal, Submission)> {
        match front {
            0 => self.zero.submit(submission),
            _ => self.one.submit(submission),
        }
    }

    fn ticket(&mut self, front: u16, certificate: &[u8]) -> Answer {
        let submission = submission(self.alloc, certificate)?;
        match self.submit(front, submission) {
            Ok(ticket) => Ok(ticket),
            Err((refusal, _)) => Err(refusal),
        }
    }

    // Reports whether the submission is refused and handed back, as expected.
    fn hands_back(&mut self, front: u16, certificate: u8, wanted: &str) -> bool {
        match submission(self.alloc, &[certificate]) {
            Ok(submission) => is_handed_back(self.alloc, self.submit(front, submission), wanted),
            Err(_) => false,
        }
    }

    fn submit_numbers(&mut self, count: u64) -> u64 {
        for number in 0..count {
            if self.ticket(0, &number.to_be_bytes()[6..]).is_err() {
                return number;
            }
        }
        count
    }

    fn submit_large(&mut self, count: u64) -> u64 {
        for number in 0..=u8::MAX {
            if u64::from(number) == count || self.ticket(0, &[number; 2000]).is_err() {
                return u64::from(number);
            }
        }
        256
    }

    // Submits ten certificates, and settles and publishes them at the timestamp `round`, round after round.
    fn grow_by_tens<R: Threads + Wait + Sync>(&mut self, rt: &R, rounds: u64) -> Answer {
        let mut size = 0u64;
        for round in 0..rounds {
            size = self.grow_by_ten(rt, round)?;
        }
        Ok(size)
    }

    fn grow_by_ten<R: Threads + Wait + Sync>(&mut self, rt: &R, round: u64) -> Answer {
        for place in 0..10u64 {
            let number = round.wrapping_mul(10).wrapping_add(place);
            self.ticket(0, &number.to_be_bytes()[6..])?;
        }
        let now = round.wrapping_add(1);
        self.take(rt, 0, 10, now)?;
        self.publish(rt, now)
    }

    // Reports whether a ring with two slots is filled from this ticket on, refuses a third certificate, and is emptied.
    fn refill<R: Threads + Sync>(&mut self, rt: &R, ticket: u64) -> bool {
        self.ticket(0, b"A") == Ok(ticket)
            && self.ticket(0, b"B") == Ok(ticket.wrapping_add(1))
            && self.ticket(0, b"A") == Err(Refusal::Full)
            && self.take(rt, 0, 2, 1) == Ok(2)
    }

    fn refills<R: Threads + Sync>(&mut self, rt: &R, count: u64) -> u64 {
        for number in 0..count {
            if !self.refill(rt, number.wrapping_mul(2)) {
                return number;
            }
        }
        count
    }

    fn take<R: Threads + Sync>(&mut self, rt: &R, front: u16, max: u64, now: u64) -> Answer {
        if front >= 2 || max == 0 || max > 256 {
            return Err(Refusal::BadLine);
        }
        let count = self.house.take(rt, self.alloc, front, max as u32, now)?;
        Ok(u64::from(count))
    }

    // Takes all items that front 0 has sent, 256 at a time, and returns how many.
    fn take_all<R: Threads + Sync>(&mut self, rt: &R, now: u64) -> Answer {
        let mut taken = 0u64;
        for _ in 0..32u8 {
            taken = taken.saturating_add(self.take(rt, 0, 256, now)?);
        }
        Ok(taken)
    }

    pub(crate) fn publish<R: Wait>(&mut self, rt: &R, now: u64) -> Answer {
        Ok(self.house.publish(rt, self.alloc, now)?.tree_size)
    }

    // The front learns of all publications so far.
    pub(crate) fn learn(&mut self, front: u16) -> Answer {
        let bulletin = self.house.bulletin()?;
        match front {
            0 => self.zero.learn(&bulletin),
            _ => self.one.learn(&bulletin),
        }
        Ok(0)
    }

    fn ask(&mut self, front: u16, query: Query) -> Result<Reply, Refusal> {
        match front {
            0 => self.zero.ask(self.alloc, &query),
            _ => self.one.ask(self.alloc, &query),
        }
    }

    // Returns the head that the front sees.
    pub(crate) fn head(&mut self, front: u16) -> Result<Head, Refusal> {
        head_of(self.ask(front, Query::GetSth))
    }

    fn proof_length(&mut self, first: u64, second: u64) -> Answer {
        match self.ask(0, Query::Consistency { first, second })? {
            Reply::Consistency(path) => Ok(path.len() as u64),
            _ => Err(Refusal::BadLine),
        }
    }

    // Returns the timestamps that front 0 sees after a publication, and again after a bulletin that is older than it.
    pub(crate) fn moments_behind<R: Wait>(
        &mut self,
        rt: &R,
        now: u64,
    ) -> Result<(u64, u64), Refusal> {
        let older = self.house.bulletin()?;
        self.house.publish(rt, self.alloc, now)?;
        let first = head_of(self.zero.ask(self.alloc, &Query::GetSth))?;
        self.zero.learn(&older);
        let second = head_of(self.zero.ask(self.alloc, &Query::GetSth))?;
        Ok((first.timestamp, second.timestamp))
    }

    // Makes a call whose result is a number, and returns the result.
    fn call<R: Threads + Wait + Sync>(&mut self, rt: &R, call: Call) -> Answer {
        match call {
            Call::Submit(front, certificate) => self.ticket(front, &[certificate]),
            Call::SubmitNumbers(count) => Ok(self.submit_numbers(count)),
            Call::SubmitLarge(count) => Ok(self.submit_large(count)),
            Call::GrowByTens(rounds) => self.grow_by_tens(rt, rounds),
            Call::Refill(count) => Ok(self.refills(rt, count)),
            Call::Take(front, max, now) => self.take(rt, front, max, now),
            Call::Publish(now) => self.publish(rt, now),
            Call::Shutdown => self.house.shutdown(),
            Call::TakeAll(now) => self.take_all(rt, now),
            Call::Learn(front) => self.learn(front),
            Call::Size(front) => Ok(self.head(front)?.tree_size),
            Call::ProofLength(first, second) => self.proof_length(first, second),
            Call::HandBack(..) | Call::Ask(..) | Call::Succeed(..) => Err(Refusal::BadLine),
        }
    }

    // Makes a call that leaves both fronts in place. Reports whether the result is as expected.
    fn answers<R: Threads + Wait + Sync>(&mut self, rt: &R, call: Call, wanted: &str) -> bool {
        match call {
            Call::HandBack(front, certificate) => self.hands_back(front, certificate, wanted),
            Call::Ask(front, query) => is_reply(&self.ask(front, query), wanted),
            call => is_answer(self.call(rt, call), wanted),
        }
    }

    // Retires front 0, and resumes it at the timestamp `now`, or at the timestamp `later` if that is refused.
    fn succeed<R: Threads + Abort + Sync>(
        self,
        rt: &R,
        now: u64,
        later: u64,
    ) -> (TwoFronts, Answer) {
        let TwoFronts {
            alloc,
            mut house,
            zero,
            one,
        } = self;
        let (zero, answer) = go_on(rt, alloc, &mut house, zero.retire(), now, later);
        let fronts = TwoFronts {
            alloc,
            house,
            zero,
            one,
        };
        (fronts, answer)
    }

    // Makes the call in a row. Its result must be as the row says.
    fn step<R: Threads + Wait + Abort + Sync>(mut self, rt: &R, row: &str) -> TwoFronts {
        let (text, wanted) = row.split_once(" -> ").expect(rt, "a call and its answer");
        match call_of(text).expect(rt, "a call") {
            Call::Succeed(now, later) => {
                let (house, answer) = self.succeed(rt, now, later);
                expect_right(rt, is_answer(answer, wanted), row);
                house
            }
            call => {
                expect_right(rt, self.answers(rt, call, wanted), row);
                self
            }
        }
    }

    // Makes the calls in the rows. Each result must be as its row says.
    fn follow<R: Threads + Wait + Abort + Sync>(self, rt: &R, rows: &str) -> TwoFronts {
        let mut house = self;
        for row in rows.lines() {
            house = house.step(rt, row.trim_start());
        }
        house
    }

    fn retire(self) -> Closing {
        let TwoFronts {
            alloc,
            house,
            zero,
            one,
        } = self;
        Closing {
            alloc,
            house,
            ends: [zero.retire(), one.retire()],
        }
    }
}

// A house whose two fronts have retired.
struct Closing {
    alloc: Global,
    house: Sequencer,
    ends: [Retired; 2],
    ghost of_house: { All (IsOfHouse house.house) ends },
}

impl Closing {
    fn settle<R: Threads + Sync>(&mut self, rt: &R, now: u64) -> Answer {
        self.house.settle(rt, self.alloc, &mut self.ends, now)?;
        Ok(0)
    }

    fn settle_swapped<R: Threads + Sync>(&mut self, rt: &R, now: u64) -> Answer {
        self.ends.reverse();
        let answer = self.settle(rt, now);
        self.ends.reverse();
        answer
    }

    fn settle_alone<R: Threads + Sync>(&mut self, rt: &R, now: u64) -> Answer {
        self.house.settle(rt, self.alloc, &mut self.ends[..1], now)?;
        Ok(0)
    }

    fn is_settled(&mut self) -> bool {
        self.house.is_settled(&mut self.ends)
    }

    fn publish<R: Wait>(&mut self, rt: &R, now: u64) -> Answer {
        Ok(self.house.publish(rt, self.alloc, now)?.tree_size)
    }

    // Makes the call that the words name, and returns its result:
    //
    // - `settle` at a timestamp, `settle-swapped` with the ends in the other order, or `settle-alone` with only the end of front 0;
    // - `publish` at a timestamp;
    // - `shutdown`;
    // - `is-settled`, whose result is 1 for yes.
    fn call<R: Threads + Wait + Sync>(&mut self, rt: &R, words: &mut Words<'_>) -> Answer {
        match words.word() {
            "shutdown" => self.house.shutdown(),
            "settle" => self.settle(rt, words.number()),
            "settle-swapped" => self.settle_swapped(rt, words.number()),
            "settle-alone" => self.settle_alone(rt, words.number()),
            "publish" => self.publish(rt, words.number()),
            "is-settled" => Ok(u64::from(self.is_settled())),
            _ => Err(Refusal::BadLine),
        }
    }

    // Makes the call in a row. Reports whether its result is as the row says.
    fn answers<R: Threads + Wait + Sync>(&mut self, rt: &R, row: &str) -> bool {
        let Some((text, wanted)) = row.split_once(" -> ") else {
            return false;
        };
        let mut words = Words::of(text);
        is_answer(self.call(rt, &mut words), wanted) && words.are_read()
    }

    // Makes the calls in the rows. Each result must be as its row says.
    fn follow<R: Threads + Wait + Abort + Sync>(&mut self, rt: &R, rows: &str) {
        for row in rows.lines() {
            expect_right(rt, self.answers(rt, row.trim_start()), row);
        }
    }

    fn finish<R: Wait + Abort>(self, rt: &R) -> FinalLog {
        let mut room = Vec::with_capacity(self.alloc, 2).expect(rt, "memory");
        let Closing {
            alloc: _,
            house,
            ends: [zero, one],
        } = self;
        room.push_reserved(zero);
        room.push_reserved(one);
        closed(rt, house, room)
    }
}

// Reports whether the record has this front, this ticket and this index, and `first` or `again`.
fn is_record(record: Option<&Settled>, wanted: &str) -> bool {
    let mut words = Words::of(wanted);
    match record {
        Some(record) => {
            let is_first = if record.first { "first" } else { "again" };
            words.front() == record.front
                && words.number() == record.ticket
                && words.number() == record.index
                && words.word() == is_first
                && words.are_read()
        }
        None => false,
    }
}

// Reports whether the final log has this result: how many submissions were accepted and have records (`accepted`, `records`), the record at
// an index (`record 0`), the receipt of a ticket (`receipt 0`), or the last head's root (`root`).
fn log_answers(alloc: Global, log: &FinalLog, words: &mut Words<'_>, wanted: &str) -> bool {
    match words.word() {
        "accepted" => is_answer(Ok(log.accepted()), wanted),
        "records" => is_answer(Ok(log.settlement().len() as u64), wanted),
        "record" => is_record(log.settlement().get(words.number() as usize), wanted),
        "receipt" => {
            let query = Query::Receipt {
                ticket: words.number(),
            };
            is_reply(&log.published().answer(alloc, &query), wanted)
        }
        "root" => is_hex(wanted, &log.published().last_head().root),
        _ => false,
    }
}

// Reports whether the final log has the result in the row.
fn is_log_row(alloc: Global, log: &FinalLog, row: &str) -> bool {
    let Some((text, wanted)) = row.split_once(" -> ") else {
        return false;
    };
    let mut words = Words::of(text);
    log_answers(alloc, log, &mut words, wanted) && words.are_read()
}

// The final log must have the result in each row.
fn expect_log<R: Abort>(rt: &R, alloc: Global, log: &FinalLog, rows: &str) {
    for row in rows.lines() {
        expect_right(rt, is_log_row(alloc, log, row.trim_start()), row);
    }
}

// Opens a house with rings of this size at this timestamp, and makes the calls in the rows.
pub(crate) fn follows<R: Threads + Wait + Abort + Sync>(
    rt: &R,
    alloc: Global,
    ring: usize,
    now: u64,
    rows: &str,
) -> Result<(), Fail> {
    assert!(rt; 1 <= ring && ring <= 4096);
    let house = TwoFronts::open(rt, alloc, ring, now)?;
    house.follow(rt, rows).abandon(rt);
    Ok(())
}

// The same, and then the fronts retire, the calls of the `endings` are made, the house is closed, and its log is queried.
pub(crate) fn closes<R: Threads + Wait + Abort + Sync>(
    rt: &R,
    alloc: Global,
    (ring, now): (usize, u64),
    rows: &str,
    endings: &str,
    answers: &str,
) -> Result<(), Fail> {
    assert!(rt; 1 <= ring && ring <= 4096);
    let house = TwoFronts::open(rt, alloc, ring, now)?;
    let mut closing = house.follow(rt, rows).retire();
    closing.follow(rt, endings);
    let log = closing.finish(rt);
    expect_log(rt, alloc, &log, answers);
    Ok(())
}

// The hashes below were computed with Python's hashlib over the bytes of the leaves. A leaf is the bytes 00 00, the timestamp in eight
// bytes, 00 00, the length of the certificate in three bytes, the certificate, and 00 00. The hash of a leaf is SHA-256 of 00 and its
// bytes. The hash of a node is SHA-256 of 01 and the two hashes below it.

// The root of the leaves of the certificates 41 and 42 at the timestamp 10.
#[test]
fn repeats_in_one_take(rt: HostRuntime) -> Result<(), Fail> {
    closes(
        &rt,
        rt.alloc(),
        (4, 0),
        "submit 0 41 -> 0
        submit 0 42 -> 1
        submit 0 41 -> 2
        take 0 256 10 -> 3
        publish 10 -> 2",
        "shutdown -> 3",
        "records -> 3
        record 0 -> 0 0 0 first
        record 1 -> 0 1 1 first
        record 2 -> 0 2 0 again
        root -> 2dd5ef2a16f790889566458183f24d6cc3dc963b75d47f64bebe67273edf4ecb",
    )
}

#[test]
fn two_fronts_with_one_certificate(rt: HostRuntime) -> Result<(), Fail> {
    closes(
        &rt,
        rt.alloc(),
        (4, 0),
        "submit 0 41 -> 0
        submit 1 41 -> 1
        take 1 1 5 -> 1
        take 0 1 6 -> 1
        publish 6 -> 1",
        "shutdown -> 2",
        "records -> 2
        record 0 -> 1 1 0 first
        record 1 -> 0 0 0 again
        receipt 0 -> 0 5
        receipt 1 -> 0 5",
    )
}

#[test]
fn a_full_ring_hands_the_submission_back(rt: HostRuntime) -> Result<(), Fail> {
    follows(
        &rt,
        rt.alloc(),
        2,
        0,
        "submit 0 41 -> 0
        submit 0 42 -> 1
        hand-back 0 41 -> Full 000000000141",
    )
}

#[test]
fn a_full_ring_takes_again(rt: HostRuntime) -> Result<(), Fail> {
    follows(&rt, rt.alloc(), 2, 0, "refill 1000 -> 1000")
}

#[test]
fn a_ring_of_4096_places_takes_again(rt: HostRuntime) -> Result<(), Fail> {
    follows(
        &rt,
        rt.alloc(),
        4096,
        0,
        "submit-numbers 4096 -> 4096
        submit 0 41 -> Full
        take-all 1 -> 4096
        submit-numbers 1200 -> 1200
        take-all 2 -> 1200
        publish 2 -> 4096",
    )
}

// Heads of the sizes 0, 2 and 5.
const THREE_HEADS: &str = "submit 0 41 -> 0
    submit 0 42 -> 1
    take 0 256 1 -> 2
    publish 2 -> 2
    submit 1 43 -> 2
    submit 1 44 -> 3
    submit 1 45 -> 4
    take 1 256 3 -> 3
    publish 4 -> 5";

// Opens a house with heads of the sizes 0, 2 and 5, and makes the calls in these rows.
fn follows_three_heads<R: Threads + Wait + Abort + Sync>(
    rt: &R,
    alloc: Global,
    rows: &str,
) -> Result<(), Fail> {
    let house = TwoFronts::open(rt, alloc, 4, 0)?;
    let house = house.follow(rt, THREE_HEADS);
    house.follow(rt, rows).abandon(rt);
    Ok(())
}

// The leaves are those of the certificates 41 and 42 at the timestamp 1, and 43, 44 and 45 at the timestamp 3. The hashes are the node over
// the leaves 2 and 3, and the leaf 4.
#[test]
fn consistency_between_published_sizes(rt: HostRuntime) -> Result<(), Fail> {
    follows_three_heads(
        &rt,
        rt.alloc(),
        "ask 1 consistency 2 5 -> e556b7cf7d7b721d5555489baba1e7aa6708460eb129dd74ea5acd7b55816edb 8da03f115f29ab45372d93acbaef82cb8ea2b310cbec90bc94faba95edef45d4",
    )
}

// The hash of the leaf 1, then its index, and the leaf 0, the node over the leaves 2 and 3, and the leaf 4.
#[test]
fn a_proof_by_hash(rt: HostRuntime) -> Result<(), Fail> {
    follows_three_heads(
        &rt,
        rt.alloc(),
        "ask 0 proof-by-hash 78ef67414b70d2ba2f65109f9fe7071405094c1b57559a4a144680db9bebb580 5 -> 1 200a7664e4328058301cdadff3e62a0f912f807ca1d4513f8a10a74c4c873569 e556b7cf7d7b721d5555489baba1e7aa6708460eb129dd74ea5acd7b55816edb 8da03f115f29ab45372d93acbaef82cb8ea2b310cbec90bc94faba95edef45d4",
    )
}

// The hashes are those of the leaves 1 and 4.
#[test]
fn proofs_that_are_refused(rt: HostRuntime) -> Result<(), Fail> {
    follows_three_heads(
        &rt,
        rt.alloc(),
        "ask 0 consistency 2 2 -> BadRange
        ask 0 consistency 0 5 -> BadRange
        ask 0 consistency 3 5 -> UnknownSize
        ask 0 proof-by-hash 78ef67414b70d2ba2f65109f9fe7071405094c1b57559a4a144680db9bebb580 3 -> UnknownSize
        ask 0 proof-by-hash 8da03f115f29ab45372d93acbaef82cb8ea2b310cbec90bc94faba95edef45d4 2 -> UnknownLeaf",
    )
}

// The last row has the leaf of the certificate that is the two bytes of 255, at the timestamp 1.
#[test]
fn entries_of_three_hundred(rt: HostRuntime) -> Result<(), Fail> {
    follows(
        &rt,
        rt.alloc(),
        300,
        0,
        "submit-numbers 300 -> 300
        take 0 256 1 -> 256
        take 0 256 1 -> 44
        publish 1 -> 300
        ask 0 entries 0 999 -> 256
        ask 0 entries 299 299 -> 1
        ask 0 entries 300 300 -> BadRange
        ask 0 entries 2 1 -> BadRange
        ask 0 entries 0 999 -> 256 00000000000000000001000000000200ff0000",
    )
}

#[test]
fn moments_that_the_clock_refuses(rt: HostRuntime) -> Result<(), Fail> {
    follows(
        &rt,
        rt.alloc(),
        4,
        5,
        "publish 5 -> ClockBack
        submit 0 41 -> 0
        submit 0 42 -> 1
        take 0 1 4 -> ClockBack
        take 0 1 8 -> 1
        publish 7 -> ClockBack
        publish 8 -> 1
        take 0 1 7 -> ClockBack
        publish 8 -> ClockBack
        publish 9 -> 1",
    )
}

// The root is that of the leaf of the certificate 41 at the timestamp 3.
#[test]
fn a_front_sees_what_was_published(rt: HostRuntime) -> Result<(), Fail> {
    follows(
        &rt,
        rt.alloc(),
        4,
        0,
        "submit 0 41 -> 0
        take 0 1 3 -> 1
        size 1 -> 0
        publish 4 -> 1
        size 1 -> 1
        ask 1 sth -> 1 4 e706867067a42ed483cf26ccd4dcc35463bb635f1afee23db546b72f19f280e6",
    )
}

// The root is that of 40 leaves at the timestamp 1, whose certificates are 2,000 bytes 0, 2,000 bytes 1 and so on.
#[test]
fn many_workers_hash_a_large_batch(rt: HostRuntime) -> Result<(), Fail> {
    follows(
        &rt,
        rt.alloc(),
        64,
        0,
        "submit-large 40 -> 40
        take 0 256 1 -> 40
        publish 1 -> 40
        ask 0 sth -> 40 1 a7d5895ca922522f442226f1a6de1cc37622d23c0e2c95683f29c5e2071e6be6",
    )
}

#[test]
fn what_is_left_settles_after_the_shutdown(rt: HostRuntime) -> Result<(), Fail> {
    closes(
        &rt,
        rt.alloc(),
        (4, 0),
        "submit 0 41 -> 0
        submit 0 42 -> 1
        take 0 1 5 -> 1",
        "shutdown -> 2
        shutdown -> Shutdown
        settle 4 -> ClockBack
        is-settled -> 0
        settle 6 -> 0
        is-settled -> 1
        settle 5 -> ClockBack
        publish 6 -> 2",
        "accepted -> 2
        receipt 0 -> 0 5
        receipt 1 -> 1 6",
    )
}

#[test]
fn ends_that_are_not_all_fronts_in_order(rt: HostRuntime) -> Result<(), Fail> {
    closes(
        &rt,
        rt.alloc(),
        (4, 5),
        "submit 0 41 -> 0
        submit 1 42 -> 1",
        "settle-swapped 6 -> MissingFront
        settle-alone 6 -> MissingFront
        settle-swapped 4 -> MissingFront
        settle-alone 4 -> MissingFront
        settle 4 -> ClockBack
        is-settled -> 0
        shutdown -> 2
        settle 7 -> 0
        publish 7 -> 2",
        "receipt 0 -> 0 7
        receipt 1 -> 1 7",
    )
}
