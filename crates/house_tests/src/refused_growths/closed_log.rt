// A house whose fronts have retired, and its closed log.
ghost use Rattle.std.specs.Prelude.{◌≡◌, [], ◌∷◌, All};
ghost use Rattle.ct_house.specs.House.{IsOfHouse};

use crate::refused_growths::page::Page;
use crate::refused_growths::refused::Refused;
use ct_codec::Refusal;
use ct_core::{Published, Query, Reply};
use ct_house::{FinalLog, Retired, Sequencer};
use ct_lines::{ServeFault, serve_frozen};
use ct_tree::Head;
use std::alloc::Global;
use std::process::Abort;
use std::sync::Wait;
use std::thread::Threads;

// A house whose two fronts have retired, and the calls that were refused memory.
pub(crate) struct ClosedHouse {
    pub(crate) alloc: Global,
    pub(crate) house: Sequencer,
    pub(crate) ends: [Retired; 2],
    pub(crate) refused: Refused,
    ghost of_house: { All (IsOfHouse house.house) ends },
}

impl ClosedHouse {
    fn settle_once<R: Threads + Sync>(&mut self, rt: &R, now: u64) -> Result<(), Refusal> {
        self.house.settle(rt, self.alloc, &mut self.ends, now)
    }

    pub(crate) fn settle<R: Threads + Sync>(&mut self, rt: &R, now: u64) -> Result<(), Refusal> {
        match self.settle_once(rt, now) {
            Err(Refusal::Memory) => {
                self.refused.tell("settle");
                self.settle_once(rt, now)
            }
            answer => answer,
        }
    }

    fn publish_once<R: Wait>(&mut self, rt: &R, now: u64) -> Result<Head, Refusal> {
        self.house.publish(rt, self.alloc, now)
    }

    pub(crate) fn publish<R: Wait>(&mut self, rt: &R, now: u64) -> Result<Head, Refusal> {
        match self.publish_once(rt, now) {
            Err(Refusal::Memory) => {
                self.refused.tell("publish");
                self.publish_once(rt, now)
            }
            answer => answer,
        }
    }

    // Returns the final log, after `is_settled`, `is_shut` and `is_covered` report true, and the refused calls.
    pub(crate) fn finish<R: Wait + Abort>(self, rt: &R) -> (FinalLog, Refused) {
        let ClosedHouse {
            alloc,
            house,
            ends: [zero, one],
            mut refused,
        } = self;
        let ends = listed(rt, alloc, zero, one, &mut refused);
        (closed(rt, house, ends), refused)
    }
}

// Returns the two ends as a list. Its allocation is the test's own.
fn listed<R: Abort>(
    rt: &R,
    alloc: Global,
    zero: Retired,
    one: Retired,
    refused: &mut Refused,
) -> Vec<Retired>
    ensures { result.items ≡ zero ∷ one ∷ [] }
{
    let mut list = match Vec::with_capacity(alloc, 2) {
        Ok(list) => list,
        Err(_) => {
            refused.tell("a growth of the test's own");
            Vec::with_capacity(alloc, 2).expect(rt, "memory")
        }
    };
    list.push_reserved(zero);
    list.push_reserved(one);
    list
}

// Returns the final log of a house whose fronts have retired.
fn closed<R: Wait + Abort>(rt: &R, mut house: Sequencer, mut ends: Vec<Retired>) -> FinalLog
    requires { All (IsOfHouse house.house) ends.items }
{
    if !house.is_settled(&mut ends) {
        panic!(rt; "not settled");
    }
    if !house.is_shut() {
        panic!(rt; "not shut");
    }
    if !house.is_covered() {
        panic!(rt; "not covered");
    }
    house.finish(rt, ends)
}

// Returns the answer of the closed log.
pub(crate) fn ask_log(
    alloc: Global,
    log: &Published,
    query: &Query,
    refused: &mut Refused,
) -> Result<Reply, Refusal> {
    match log.answer(alloc, query) {
        Err(Refusal::Memory) => {
            refused.tell("answer");
            log.answer(alloc, query)
        }
        answer => answer,
    }
}

// Returns how many lines end in the text.
fn ends_in(text: &[u8]) -> u64 {
    let mut count = 0u64;
    for byte in text {
        if *byte == b'\n' {
            count = count.saturating_add(1);
        }
    }
    count
}

// Reports whether the first `count` replies were written, each of them whole.
fn are_first(page: &Page<'_>, count: u64) -> bool {
    match page.written() {
        Some(written) => {
            ends_in(written) == count && written.is_empty() == (count == 0) && is_ended(written)
        }
        None => false,
    }
}

// Reports whether the last line of the text is ended.
fn is_ended(text: &[u8]) -> bool {
    text.is_empty() || text.ends_with(b"\n")
}

// Reports whether the lines get these replies, over a new reader and writer.
fn is_served(alloc: Global, log: &Published, lines: &[u8], replies: &[u8]) -> bool {
    let mut page = Page::of(replies);
    let mut reader = lines;
    serve_frozen(alloc, log, &mut reader, &mut page).is_ok() && page.is_whole()
}

// Serves the lines, and repeats it over a new reader and writer if it is refused memory. The replies must be these.
pub(crate) fn is_served_again(
    alloc: Global,
    log: &Published,
    lines: &[u8],
    replies: &[u8],
    refused: &mut Refused,
) -> bool {
    let mut first = Page::of(replies);
    let mut reader = lines;
    match serve_frozen(alloc, log, &mut reader, &mut first) {
        Ok(()) => first.is_whole(),
        Err(ServeFault::Memory(count)) => {
            refused.tell("serve_frozen");
            are_first(&first, count) && is_served(alloc, log, lines, replies)
        }
        Err(_) => false,
    }
}
