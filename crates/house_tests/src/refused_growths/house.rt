// A house with two fronts, whose calls are repeated if they are refused memory.
ghost use Rattle.std.specs.Prelude.{◌≡◌, ◌<◌, ◌≤◌, length, IfOk, IfErr};
ghost use Rattle.ct_house.specs.House.{IsNewHouse, IsOfHouse};

use crate::refused_growths::closed_log::ClosedHouse;
use crate::refused_growths::refused::Refused;
use ct_codec::{Refusal, Submission};
use ct_core::{Query, Reply};
use ct_house::{Front, Retired, Sequencer, open};
use ct_tree::Head;
use std::alloc::Global;
use std::process::Abort;
use std::sync::Wait;
use std::thread::Threads;

// A house with two fronts, and the calls that were refused memory.
pub(crate) struct House {
    pub(crate) alloc: Global,
    pub(crate) house: Sequencer,
    pub(crate) zero: Front,
    pub(crate) one: Front,
    pub(crate) refused: Refused,
    ghost lanes: { length house.lanes ≡ 2 },
    ghost of_house: { IsOfHouse house.house zero × IsOfHouse house.house one },
}

// Returns a chain of one certificate.
fn chain_of(alloc: Global, certificate: &[u8]) -> Result<Submission, Refusal> {
    let mut chain = Vec::new(alloc);
    chain.push(Vec::from_slice(alloc, certificate)?)?;
    Submission::x509(chain)
}

// Returns a house opened at 0.
fn opened<R: Wait>(
    rt: &R,
    alloc: Global,
    ring: usize,
    refused: &mut Refused,
) -> Result<(Sequencer, Vec<Front>), Refusal>
    requires { (1 ≤ ring) × (ring ≤ 4096) }
    ensures fresh { IfOk result (λ h. IsNewHouse h.0 h.1.items 2 ring 0) }
    ensures err { IfErr result (λ e. e ≡ Refusal.Memory) }
{
    match open(rt, alloc, 2, ring, 0) {
        Err(Refusal::Memory) => {
            refused.tell("open");
            open(rt, alloc, 2, ring, 0)
        }
        answer => answer,
    }
}

// Resumes a retired front.
fn go_on<R: Threads + Abort + Sync>(
    rt: &R,
    alloc: Global,
    house: &mut Sequencer,
    end: Retired,
    now: u64,
    refused: &mut Refused,
) -> Front
    requires { IsOfHouse house.old.house end }
    ensures house { house.new.house ≡ house.old.house }
    ensures lanes { length house.new.lanes ≡ length house.old.lanes }
    ensures front { result ≡ end }
{
    let (refusal, end) = match house.succeed(rt, alloc, end, now) {
        Ok(front) => return front,
        Err(refused) => refused,
    };
    assert_eq!(rt; refusal, Refusal::Memory);
    refused.tell("succeed");
    match house.succeed(rt, alloc, end, now) {
        Ok(front) => front,
        Err((refusal, _end)) => panic!(rt; "{refusal:?}"),
    }
}

impl House {
    pub(crate) fn open<R: Wait>(rt: &R, alloc: Global, ring: usize) -> Result<House, Refusal>
        requires { (1 ≤ ring) × (ring ≤ 4096) }
    {
        let mut refused = Refused::new();
        let (house, mut fronts) = opened(rt, alloc, ring, &mut refused)?;
        let (Some(one), Some(zero)) = (fronts.pop(), fronts.pop()) else {
            house.abandon(rt, Vec::new(alloc));
            return Err(Refusal::MissingFront);
        };
        Ok(House {
            alloc,
            house,
            zero,
            one,
            refused,
        })
    }

    fn submission(&mut self, certificate: &[u8]) -> Result<Submission, Refusal> {
        match chain_of(self.alloc, certificate) {
            Err(Refusal::Memory) => {
                self.refused.tell("a growth of the test's own");
                chain_of(self.alloc, certificate)
            }
            answer => answer,
        }
    }

    // Returns the ticket. `submit` is not repeated.
    pub(crate) fn ticket(&mut self, front: u16, certificate: &[u8]) -> Result<u64, Refusal> {
        let submission = self.submission(certificate)?;
        let answer = match front {
            0 => self.zero.submit(submission),
            _ => self.one.submit(submission),
        };
        match answer {
            Ok(ticket) => Ok(ticket),
            Err((refusal, _)) => Err(refusal),
        }
    }

    fn take_once<R: Threads + Sync>(&mut self, rt: &R, max: u32, now: u64) -> Result<u32, Refusal>
        requires { (0 < max) × (max ≤ 256) }
    {
        self.house.take(rt, self.alloc, 0, max, now)
    }

    // Takes at most two items of front 0, and returns the reported number.
    pub(crate) fn take_two<R: Threads + Sync>(&mut self, rt: &R, now: u64) -> Result<u32, Refusal> {
        match self.take_once(rt, 2, now) {
            Err(Refusal::Memory) => {
                self.refused.tell("take");
                self.take_once(rt, 2, now)
            }
            answer => answer,
        }
    }

    // Takes the items of front 0 until none is left, and counts those that were reported. A refused call reports none of those that it
    // settled.
    pub(crate) fn take_all<R: Threads + Sync>(&mut self, rt: &R, now: u64) -> Result<u32, Refusal> {
        let mut told = 0u32;
        for _ in 0..4u32 {
            match self.take_once(rt, 256, now) {
                Ok(0) => return Ok(told),
                Ok(count) => told = told.saturating_add(count),
                Err(Refusal::Memory) => self.refused.tell("take"),
                Err(refusal) => return Err(refusal),
            }
        }
        Err(Refusal::Full)
    }

    fn publish_once<R: Wait>(&mut self, rt: &R, now: u64) -> Result<Head, Refusal> {
        self.house.publish(rt, self.alloc, now)
    }

    pub(crate) fn publish<R: Wait>(&mut self, rt: &R, now: u64) -> Result<Head, Refusal> {
        match self.publish_once(rt, now) {
            Err(Refusal::Memory) => {
                self.refused.tell("publish");
                self.publish_once(rt, now)
            }
            answer => answer,
        }
    }

    fn learn_once(&mut self) -> Result<(), Refusal> {
        let bulletin = self.house.bulletin()?;
        self.zero.learn(&bulletin);
        self.one.learn(&bulletin);
        Ok(())
    }

    // Both fronts learn of all publications so far.
    pub(crate) fn learn(&mut self) -> Result<(), Refusal> {
        match self.learn_once() {
            Err(Refusal::Memory) => {
                self.refused.tell("bulletin");
                self.learn_once()
            }
            answer => answer,
        }
    }

    fn ask_once(&mut self, front: u16, query: &Query) -> Result<Reply, Refusal> {
        match front {
            0 => self.zero.ask(self.alloc, query),
            _ => self.one.ask(self.alloc, query),
        }
    }

    pub(crate) fn ask(&mut self, front: u16, query: &Query) -> Result<Reply, Refusal> {
        match self.ask_once(front, query) {
            Err(Refusal::Memory) => {
                self.refused.tell("ask");
                self.ask_once(front, query)
            }
            answer => answer,
        }
    }

    // Retires front 0 and resumes it.
    pub(crate) fn succeed<R: Threads + Abort + Sync>(self, rt: &R, now: u64) -> House {
        let House {
            alloc,
            mut house,
            zero,
            one,
            mut refused,
        } = self;
        let zero = go_on(rt, alloc, &mut house, zero.retire(), now, &mut refused);
        House {
            alloc,
            house,
            zero,
            one,
            refused,
        }
    }

    // Gives the house up, and returns the refused calls.
    pub(crate) fn abandon<R: Wait>(self, rt: &R) -> Refused {
        let House {
            alloc,
            house,
            zero: _,
            one: _,
            refused,
        } = self;
        house.abandon(rt, Vec::new(alloc));
        refused
    }

    pub(crate) fn retire(self) -> ClosedHouse {
        let House {
            alloc,
            house,
            zero,
            one,
            refused,
        } = self;
        ClosedHouse {
            alloc,
            house,
            ends: [zero.retire(), one.retire()],
            refused,
        }
    }
}
