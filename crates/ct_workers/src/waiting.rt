//! A line waits for another party at that party's bell. It glances at the bell several times in a row, and then sleeps until the bell was
//! rung often enough. It looks again after that, and after each sleep that ended by itself. A turn of the line is a look at the bell, which
//! shows whether anything has happened since. Each front has a bell of its own: the operator waits for one front at a time, and the others
//! do not wake it.

ghost use Rattle.std.specs.Prelude.{◌≡◌, ◌<◌, ◌≤◌, ◌+◌, ◌-◌, ◌^◌};

use std::array::from_fn;
use std::hint::spin_loop;
use std::sync::Wait;
use std::sync::atomic::{AtomicBool, AtomicU64, Ordering};
use std::time::Duration;

// How often a line that waits for a head glances at the bell (each time a load of a word) before it sleeps, and the maximum number of
// milliseconds that it sleeps. Before a head comes, the operator settles everything that all fronts have accepted, so the line sleeps at
// once.
const GLANCES_FOR_HEADS: u64 = 0;

const MILLISECONDS_FOR_HEADS: u64 = 4;

// The same for the operator, which waits for a front. A front that is working rings within microseconds.
const GLANCES_FOR_FRONT: u64 = 64;

const MILLISECONDS_FOR_FRONT: u64 = 1;

// The maximum number of looks at the bell after a sleep, each a load of a word. All of them are made only if nobody rang.
const LOOKS: u64 = 16_384;

// The number of fronts that have a bell.
const FRONTS: usize = 16;

/// A bell that one party rings, and at which others wait until it was rung often enough.
#[derive(Drop)]
pub struct Bell {
    // How often a waiting line glances before it sleeps, and for how many milliseconds it sleeps.
    glances: u64,
    milliseconds: u64,
    rung: AtomicU64,
    // The number of rings at which a sleeping line must be woken, or 0 if none sleeps. If these numbers differ, it is the least.
    awaited: AtomicU64,
}

impl Bell {
    // Returns a bell that was not rung.
    fn new(glances: u64, milliseconds: u64) -> Bell {
        Bell {
            glances,
            milliseconds,
            rung: AtomicU64::new(0),
            awaited: AtomicU64::new(0),
        }
    }

    /// Returns how often it was rung.
    pub fn rung(&self) -> u64 {
        self.rung.load(Ordering::SeqCst)
    }

    /// Rings, and wakes the lines that sleep until it was rung this often. If none sleeps, this is two steps on words, and no system call.
    pub fn ring(&self) {
        let rung = self.rung.fetch_add(1, Ordering::SeqCst).wrapping_add(1);
        let awaited = self.awaited.load(Ordering::SeqCst);
        if awaited > 0 && awaited <= rung {
            self.awaited.store(0, Ordering::SeqCst);
            self.awaited.wake_all();
        }
    }

    // Sleeps until the bell was rung this often, or for the maximum time. No ring is missed: the ringing thread reads `awaited` after its
    // ring, and the sleep ends if `awaited` has changed.
    fn sleep<R: Wait>(&self, rt: &R, until: u64) {
        let awaited = self.awaited.load(Ordering::SeqCst);
        let least = if awaited > 0 {
            until.min(awaited)
        } else {
            until
        };
        self.awaited.store(least, Ordering::SeqCst);
        if self.rung() < until {
            self.awaited.park_timeout(
                rt,
                (least & 0xffff_ffff) as u32,
                Duration::from_millis(self.milliseconds),
            );
        }
    }

    // Reports whether the bell had been rung this often at one of several glances in a row.
    fn is_rung(&self, until: u64) -> bool {
        for _ in 0..self.glances {
            if self.rung() >= until {
                return true;
            }
            spin_loop();
        }
        false
    }

    // Looks at the bell until it was rung since, at most `LOOKS` times, and returns how often it looked.
    fn looks(&self, seen: u64) -> u64
        ensures some { 0 < result }
        ensures few { result ≤ 16384 }
    {
        for look in 1..LOOKS {
            if self.rung() != seen {
                return look;
            }
        }
        LOOKS
    }

    /// Waits until the bell was rung `more` times, or for the maximum time, and returns the number of the next turn. `seen` is how often
    /// the bell was rung before the line looked. Each look at the bell is a turn.
    pub fn wait_turn<R: Wait>(&self, rt: &R, turn: u64, seen: u64, more: u64) -> u64
        ensures later { turn < 2 ^ 64 - 1 → turn < result }
        ensures some { result ≤ turn + 16384 }
    {
        let until = seen.saturating_add(more);
        if !self.is_rung(until) {
            self.sleep(rt, until);
        }
        turn.saturating_add(self.looks(seen))
    }
}

/// How the lines of a run wait for one another.
#[derive(Drop)]
pub struct Waiting {
    /// The maximum number of turns that a line waits.
    pub turns: u64,
    /// Rung when a head was published.
    pub heads: Bell,
    // The bell of each front, rung when the front accepted a submission.
    accepted: [Bell; FRONTS],
    // Whether a thread of the run could not be started, or had no memory: then no line waits any more.
    ended: AtomicBool,
}

impl Waiting {
    /// Returns the state for lines that wait this many turns, with bells that were not rung.
    pub fn new(turns: u64) -> Waiting
        ensures { result.turns ≡ turns }
    {
        Waiting {
            turns,
            heads: Bell::new(GLANCES_FOR_HEADS, MILLISECONDS_FOR_HEADS),
            accepted: from_fn(|_| Bell::new(GLANCES_FOR_FRONT, MILLISECONDS_FOR_FRONT)),
            ended: AtomicBool::new(false),
        }
    }

    /// Returns the bell of the front with this number, which is rung when the front accepted a submission.
    pub fn accepted(&self, front: u16) -> &Bell {
        &self.accepted[usize::from(front) % FRONTS]
    }

    /// Stops all waiting: no line waits any more.
    pub fn end(&self) {
        self.ended.store(true, Ordering::SeqCst);
    }

    /// Reports whether waiting was stopped.
    pub fn is_over(&self) -> bool {
        self.ended.load(Ordering::SeqCst)
    }
}
