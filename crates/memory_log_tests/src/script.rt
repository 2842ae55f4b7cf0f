// A script over a reader and a writer whose calls fail, and lines that look only a few times.
use ct_lines::{Fault, Options};
use ct_workers::serve;
use std::alloc::Global;
use std::io;
use std::io::{ErrorKind, Read, Write};
use std::sync::Wait;
use std::thread::Threads;

// A log with one front, closed at 7.
const ONE_FRONT: Options = Options {
    fronts: 1,
    ring: 4,
    open_at: 0,
    close_at: 7,
};

// A log that is closed at the timestamp at which it opens, which the clock refuses.
const LATE: Options = Options {
    fronts: 1,
    ring: 4,
    open_at: 0,
    close_at: 0,
};

// Reports whether a script over these lines writes this, if a line that waits looks this many times.
fn replies<H: Threads + Wait + Sync>(
    rt: &H,
    alloc: Global,
    (options, turns): (Options, u64),
    lines: &[u8],
    wanted: &[u8],
) -> bool {
    let mut input = lines;
    let mut output: Vec<u8> = Vec::new(alloc);
    serve(rt, alloc, options, turns, &mut input, &mut output) == Ok(())
        && output.as_slice() == wanted
}

// Waits that are too long. With one turn to wait, a line is answered if its condition holds at once, and is late if it never holds.
const LONG_WAITS: &[u8] = br#"{"who":0,"op":"await-size","tree_size":0}
{"who":0,"op":"await-size","tree_size":1}
{"who":"operator","op":"sequence","from":0,"count":0,"now":0}
{"who":"operator","op":"sequence","from":0,"count":1,"now":1}
"#;

const TOLD_LATE: &[u8] = br#"{"reached":0}
{"error":"late"}
{"settled":0}
{"error":"late"}
"#;

#[test]
fn waits_that_are_too_long(rt: HostRuntime) {
    let options = Options {
        fronts: 1,
        ring: 4,
        open_at: 0,
        close_at: 9_007_199_254_740_991,
    };
    assert!(rt; replies(&rt, rt.alloc(), (options, 1), LONG_WAITS, TOLD_LATE));
}

// Lines that look three times for the results of another shift's lines. They give up too early, or find the results at once.
const OVER_SHIFTS: &[u8] = br#"{"who":0,"op":"await-size","tree_size":1}
{"who":"operator","op":"sequence","from":0,"count":1,"now":1}
{"who":"operator","op":"shift","now":2}
{"who":0,"op":"add-chain","chain":["QQ=="]}
{"who":"operator","op":"shift","now":3}
{"who":"operator","op":"publish","now":4}
{"who":"operator","op":"shift","now":4}
{"who":0,"op":"await-size","tree_size":1}
"#;

const TOLD_OVER_SHIFTS: &[u8] = br#"{"error":"late"}
{"ticket":0}
{"reached":1}
{"error":"late"}
{"shift":1}
{"shift":2}
{"timestamp":4,"tree_size":1}
{"shift":3}
"#;

#[test]
fn lines_that_wait_for_another_shift(rt: HostRuntime) {
    let options = Options {
        fronts: 1,
        ring: 1,
        open_at: 0,
        close_at: 9,
    };
    assert!(rt; replies(&rt, rt.alloc(), (options, 3), OVER_SHIFTS, TOLD_OVER_SHIFTS));
}

// A query for the head of the frozen log, and a submission, whose reply comes first. The input has 76 bytes, and the replies 13 and 96.
const TWO_LINES: &[u8] = br#"{"who":"frozen","op":"get-sth"}
{"who":0,"op":"add-chain","chain":["QQ=="]}
"#;

const WHOLE: &[u8] = br#"{"ticket":0}
{"sha256_root_hash":"fV9+kfNWc6WhrBC4FWQ8cnZ9Z8PW7wGOv6AnRvHlwco=","timestamp":7,"tree_size":1}
"#;

// A reader that returns 7 bytes for each call, and fails with this error after this many calls.
#[derive(Drop)]
struct Source<'a> {
    text: &'a [u8],
    calls: usize,
    kind: ErrorKind,
}

impl Read for Source<'_> {
    fn read(&mut self, buf: &mut [u8]) -> io::Result<usize> {
        if self.calls == 0 {
            return Err(io::Error::from(self.kind));
        }
        self.calls -= 1;
        let n = self.text.len().min(7).min(buf.len());
        let (given, left) = self.text.split_at(n);
        buf[..n].copy_from_slice(given);
        self.text = left;
        Ok(n)
    }
}

// A writer that accepts 10 bytes for each call, as far as it has room. It fails after this many calls, whether to write or to flush. It
// hands bytes on only at `flush`.
#[derive(Drop)]
struct Sink {
    taken: Vec<u8>,
    handed_on: usize,
    room: usize,
    calls: usize,
}

impl Sink {
    fn new(alloc: Global, room: usize, calls: usize) -> Sink {
        Sink {
            taken: Vec::new(alloc),
            handed_on: 0,
            room,
            calls,
        }
    }

    fn count(&mut self) -> io::Result<()> {
        if self.calls == 0 {
            return Err(io::Error::from(ErrorKind::BrokenPipe));
        }
        self.calls -= 1;
        Ok(())
    }
}

impl Write for Sink {
    fn write(&mut self, buf: &[u8]) -> io::Result<usize> {
        self.count()?;
        if self.room == 0 {
            return Err(io::Error::from(ErrorKind::BrokenPipe));
        }
        let n = buf.len().min(self.room).min(10);
        self.taken.extend_from_slice(&buf[..n])?;
        self.room -= n;
        Ok(n)
    }

    fn flush(&mut self) -> io::Result<()> {
        self.count()?;
        self.handed_on = self.taken.len();
        Ok(())
    }
}

// Reports whether a script over the two lines has this result, and its output is a prefix of the replies, and all of them if it succeeded.
fn ends<H: Threads + Wait + Sync>(
    rt: &H,
    alloc: Global,
    options: Options,
    (calls, kind): (usize, ErrorKind),
    output: &mut Sink,
    end: Result<(), Fault>,
) -> bool {
    let mut input = Source {
        text: TWO_LINES,
        calls,
        kind,
    };
    serve(rt, alloc, options, 9, &mut input, output) == end
        && WHOLE.starts_with(&output.taken)
        && (end.is_err() || output.taken.len() == WHOLE.len())
}

// More calls than are made.
const ENOUGH: usize = 99;

// Reports whether a script whose reader fails with this error after this many calls ends as it should, with no output if it fails.
fn ends_at_read<H: Threads + Wait + Sync>(
    rt: &H,
    alloc: Global,
    calls: usize,
    kind: ErrorKind,
    fault: Fault,
) -> bool {
    let mut output = Sink::new(alloc, WHOLE.len(), ENOUGH);
    let end = if calls < 12 { Err(fault) } else { Ok(()) };
    ends(rt, alloc, ONE_FRONT, (calls, kind), &mut output, end)
        && output.taken.is_empty() == end.is_err()
}

// Reading the input takes 11 calls, and one that finds its end. Each of these calls fails in turn. A failure after the last of them has no
// effect.
#[test]
fn an_input_that_fails_at_each_call(rt: HostRuntime) {
    for calls in 0..=14usize {
        let alloc = rt.alloc();
        let is_read = ends_at_read(&rt, alloc, calls, ErrorKind::BrokenPipe, Fault::Read);
        let is_memory = ends_at_read(&rt, alloc, calls, ErrorKind::OutOfMemory, Fault::Memory);
        assert!(rt; is_read && is_memory, "{calls} reads");
    }
}

// Reports whether a script whose writer has this room, and this many calls, has this result. If no call succeeds, nothing is written.
fn ends_at_write<H: Threads + Wait + Sync>(
    rt: &H,
    alloc: Global,
    room: usize,
    calls: usize,
    end: Result<(), Fault>,
) -> bool {
    let reads = (ENOUGH, ErrorKind::BrokenPipe);
    let mut output = Sink::new(alloc, room, calls);
    ends(rt, alloc, ONE_FRONT, reads, &mut output, end)
        && output.taken.is_empty() == (room == 0 || calls == 0)
}

// Writing the replies takes 2 calls and 10 calls, each group followed by a flush. Each of these calls fails in turn. A failure after the
// last of them has no effect.
#[test]
fn an_output_that_fails_at_each_call(rt: HostRuntime) {
    for calls in 0..=14usize {
        let end = if calls < 14 {
            Err(Fault::Write)
        } else {
            Ok(())
        };
        assert!(rt;
            ends_at_write(&rt, rt.alloc(), WHOLE.len(), calls, end),
            "{calls} writes"
        );
    }
}

// An output that becomes full in the middle.
#[test]
fn an_output_without_room(rt: HostRuntime) {
    for room in [0usize, 12, 13, 100, 13 + 96] {
        let end = if room < WHOLE.len() {
            Err(Fault::Write)
        } else {
            Ok(())
        };
        assert!(rt;
            ends_at_write(&rt, rt.alloc(), room, ENOUGH, end),
            "room {room}"
        );
    }
}

// The result of a log's script if the writer has this many calls, the number of bytes written, and the number of those that were handed on.
struct HandedOn {
    options: Options,
    calls: usize,
    end: Result<(), Fault>,
    written: usize,
    handed_on: usize,
}

// The replies are handed on when the log is closed, and when the clock refuses to close it. If the writer cannot hand on, that is a fault.
const HANDED_ON: [HandedOn; 4] = [
    HandedOn {
        options: ONE_FRONT,
        calls: ENOUGH,
        end: Ok(()),
        written: 13 + 96,
        handed_on: 13 + 96,
    },
    HandedOn {
        options: ONE_FRONT,
        calls: 2,
        end: Err(Fault::Write),
        written: 13,
        handed_on: 0,
    },
    HandedOn {
        options: LATE,
        calls: ENOUGH,
        end: Err(Fault::ClockBack),
        written: 13,
        handed_on: 13,
    },
    HandedOn {
        options: LATE,
        calls: 2,
        end: Err(Fault::Write),
        written: 13,
        handed_on: 0,
    },
];

fn hands_on<H: Threads + Wait + Sync>(rt: &H, alloc: Global, wanted: &HandedOn) -> bool {
    let reads = (ENOUGH, ErrorKind::BrokenPipe);
    let mut output = Sink::new(alloc, WHOLE.len(), wanted.calls);
    ends(rt, alloc, wanted.options, reads, &mut output, wanted.end)
        && output.taken.len() == wanted.written
        && output.handed_on == wanted.handed_on
}

#[test]
fn an_output_that_hands_on_at_flush(rt: HostRuntime) {
    for wanted in &HANDED_ON {
        assert!(rt; hands_on(&rt, rt.alloc(), wanted));
    }
}
