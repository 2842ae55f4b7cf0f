// The frozen log over a reader and a writer that fail at one of their calls, for each call in turn.
use crate::settled_log::publish;
use ct_core::{Core, Published};
use ct_lines::{ServeFault, serve_frozen};
use std::io;
use std::io::{ErrorKind, Read, Write};
use std::test::*;

// Two lines that are no request, and between them an empty line and a query for the head.
const LINES: &[u8] = b"{}\n\n{\"who\":\"frozen\",\"op\":\"get-sth\"}\n[]";

const REPLIES: &[u8] =
    b"{\"error\":\"bad-line\"}\n{\"sha256_root_hash\":\"47DEQpj8HBSa+/TImW+5JCeuQeRkm5NMpJWZG3hSuFU=\",\"timestamp\":7,\"tree_size\":0}\n{\"error\":\"bad-line\"}\n";

// The result of a call that fails.
#[derive(Clone, Copy)]
enum Failure {
    Error(ErrorKind),
    // It moves no bytes.
    Nothing,
}

// Counts calls: the call that fails, and how many have failed.
#[derive(Clone, Copy)]
struct Calls {
    made: u32,
    failing: u32,
    failed: u32,
    failure: Failure,
}

impl Calls {
    fn new(failing: u32, failure: Failure) -> Calls {
        Calls {
            made: 0,
            failing,
            failed: 0,
            failure,
        }
    }

    // Counts a call that should move `most` bytes, and returns how many it moves.
    fn next(&mut self, most: usize) -> io::Result<usize> {
        self.made = self.made.saturating_add(1);
        if self.made != self.failing {
            return Ok(most);
        }
        self.failed = self.failed.saturating_add(1);
        match self.failure {
            Failure::Error(kind) => Err(io::Error::from(kind)),
            Failure::Nothing => Ok(0),
        }
    }
}

// A reader that returns 7 bytes for each call.
#[derive(Drop)]
struct Source<'a> {
    text: &'a [u8],
    calls: Calls,
}

impl Read for Source<'_> {
    fn read(&mut self, buf: &mut [u8]) -> io::Result<usize> {
        let n = self.calls.next(self.text.len().min(7).min(buf.len()))?;
        if n > self.text.len() || n > buf.len() {
            return Err(io::Error::from(ErrorKind::Other));
        }
        let (given, left) = self.text.split_at(n);
        buf[..n].copy_from_slice(given);
        self.text = left;
        Ok(n)
    }
}

// A writer that accepts at most 10 bytes for each call.
#[derive(Drop)]
struct Sink {
    taken: Vec<u8>,
    calls: Calls,
}

impl Write for Sink {
    fn write(&mut self, buf: &[u8]) -> io::Result<usize> {
        let n = self.calls.next(buf.len().min(10))?;
        if n > buf.len() {
            return Err(io::Error::from(ErrorKind::Other));
        }
        self.taken.extend_from_slice(&buf[..n])?;
        Ok(n)
    }

    fn flush(&mut self) -> io::Result<()> {
        Ok(())
    }
}

// Returns the result of a run over a reader and a writer that count their calls, and the bytes written.
fn served(
    rt: &HostRuntime,
    log: &Published,
    read: &mut Calls,
    write: &mut Calls,
) -> (Result<(), ServeFault>, Vec<u8>) {
    let mut source = Source {
        text: LINES,
        calls: *read,
    };
    let mut sink = Sink {
        taken: Vec::new(rt.alloc()),
        calls: *write,
    };
    let end = serve_frozen(rt.alloc(), log, &mut source, &mut sink);
    *read = source.calls;
    *write = sink.calls;
    let Sink { taken, calls: _ } = sink;
    (end, taken)
}

// Returns how many lines end in the text.
fn ends_in(text: &[u8]) -> u64 {
    let mut count = 0u64;
    for byte in text {
        if *byte == b'\n' {
            count = count.saturating_add(1);
        }
    }
    count
}

// Returns the number of replies to the lines that end in the first `given` bytes of the input. The end bytes are at the indexes 2, 3 and
// 35.
fn replies_to(given: u32) -> u64 {
    match given {
        0..=2 => 0,
        3..=35 => 1,
        _ => 2,
    }
}

// Reports whether the run with this failing read ends as it should.
fn ends_at_read(rt: &HostRuntime, log: &Published, failing: u32, kind: ErrorKind) -> bool {
    let mut read = Calls::new(failing, Failure::Error(kind));
    let mut write = Calls::new(0, Failure::Nothing);
    let (end, taken) = served(rt, log, &mut read, &mut write);
    let calls = (read.failed, write.failed);
    let is_whole = failing == 8;
    if is_whole {
        return end == Ok(()) && ends_in(&taken) == 3 && is_cut_off(&taken, 3) && calls == (0, 0);
    }
    let k = replies_to(failing.saturating_sub(1).saturating_mul(7));
    end == Err(ServeFault::Read(k))
        && ends_in(&taken) == k
        && is_cut_off(&taken, k)
        && calls == (1, 0)
}

// Reports whether this many whole replies, of at most three, were written.
fn is_cut_off(taken: &[u8], count: u64) -> bool {
    REPLIES.starts_with(taken) && taken.ends_with(b"\n") == (count > 0)
}

// Returns for how many failing calls the run ends as it should, before the first for which it does not.
fn ends_at_reads(rt: &HostRuntime, log: &Published) -> u32 {
    for failing in 1..=8 {
        for kind in [ErrorKind::BrokenPipe, ErrorKind::Interrupted] {
            if !ends_at_read(rt, log, failing, kind) {
                return failing - 1;
            }
        }
    }
    8
}

// Turns the core into a closed log of no leaves. Reports whether that succeeded.
fn is_closed(rt: &HostRuntime, core: &mut Core) -> bool {
    publish(rt, core, 7).is_ok()
}

#[test]
fn a_reader_that_fails_at_each_call(rt: HostRuntime) -> Result<(), Fail> {
    let mut core = Core::open(rt.alloc(), 0)?;
    assert!(rt; is_closed(&rt, &mut core) && ends_at_reads(&rt, core.published()) == 8);
    Ok(())
}

// Reports whether the run with this failing write ends as it should.
fn ends_at_write(rt: &HostRuntime, log: &Published, failing: u32, failure: Failure) -> bool {
    let mut read = Calls::new(0, Failure::Nothing);
    let mut write = Calls::new(failing, failure);
    let (end, taken) = served(rt, log, &mut read, &mut write);
    let calls = (read.failed, write.failed);
    if failing == 17 {
        return end == Ok(()) && taken.as_slice() == REPLIES && calls == (0, 0);
    }
    end == Err(ServeFault::Write(ends_in(&taken)))
        && REPLIES.starts_with(&taken)
        && taken.len() != REPLIES.len()
        && calls == (0, 1)
}

// Returns for how many failing calls the run ends as it should, before the first for which it does not.
fn ends_at_writes(rt: &HostRuntime, log: &Published) -> u32 {
    for failing in 1..=17 {
        for failure in [
            Failure::Error(ErrorKind::BrokenPipe),
            Failure::Error(ErrorKind::Interrupted),
            Failure::Nothing,
        ] {
            if !ends_at_write(rt, log, failing, failure) {
                return failing - 1;
            }
        }
    }
    17
}

// The replies have 21, 96 and 21 bytes: 3, 10 and 3 calls.
#[test]
fn a_writer_that_fails_at_each_call(rt: HostRuntime) -> Result<(), Fail> {
    let mut core = Core::open(rt.alloc(), 0)?;
    assert!(rt; is_closed(&rt, &mut core) && ends_at_writes(&rt, core.published()) == 17);
    Ok(())
}
