use crate::rows::{Row, Shown, right_rows};
use crate::settled_log::{publish, settle};
use ct_codec::Refusal;
use ct_core::{Core, Published};
use ct_lines::{ServeFault, serve_frozen};
use std::io;
use std::io::{ErrorKind, Read, Write};
use std::test::*;

// Returns a log opened at 0, in which the certificate 41 (one byte) was settled this many times at one timestamp, and which was closed at
// another.
fn closed_log(rt: &HostRuntime, count: u64, now: u64, close_at: u64) -> Result<Core, Refusal> {
    let mut core = Core::open(rt.alloc(), 0)?;
    settle_often(rt, &mut core, count, now)?;
    publish(rt, &mut core, close_at)?;
    Ok(core)
}

fn settle_often(rt: &HostRuntime, core: &mut Core, count: u64, now: u64) -> Result<(), Refusal> {
    for ticket in 0..count {
        settle(rt, core, (0, ticket), b"A", now)?;
    }
    Ok(())
}

// Reports whether the log writes this text for this input.
fn writes(rt: &HostRuntime, log: &Published, mut input: &[u8], text: &[u8]) -> bool {
    let mut output: Vec<u8> = Vec::new(rt.alloc());
    let end = serve_frozen(rt.alloc(), log, &mut input, &mut output);
    end.is_ok() && output.as_slice() == text
}

// Returns the text with an end byte in place of each bar. A text that is only a hyphen is empty.
fn unfolded(rt: &HostRuntime, text: &str) -> Result<Vec<u8>, Refusal> {
    let mut bytes = Vec::new(rt.alloc());
    if text == "-" {
        return Ok(bytes);
    }
    for byte in text.as_bytes() {
        bytes.push(if *byte == b'|' { b'\n' } else { *byte })?;
    }
    Ok(bytes)
}

// The output of logs for their input.
#[derive(Clone, Copy)]
struct Logs;

impl Shown for Logs {
    // A row has how often the certificate was settled and when, when the log was closed, the lines, and the replies.
    fn is_right(&mut self, rt: &HostRuntime, mut row: Row<'_>) -> bool {
        let (count, now, close_at) = (row.number(), row.number(), row.number());
        match (unfolded(rt, row.rest()), unfolded(rt, row.answer())) {
            (Ok(lines), Ok(replies)) => {
                !row.is_bad() && is_written(rt, (count, now, close_at), &lines, &replies)
            }
            _ => false,
        }
    }
}

// Reports whether such a log writes these replies.
fn is_written(
    rt: &HostRuntime,
    (count, now, close_at): (u64, u64, u64),
    lines: &[u8],
    replies: &[u8],
) -> bool {
    match closed_log(rt, count, now, close_at) {
        Ok(log) => writes(rt, log.published(), lines, replies),
        Err(_) => false,
    }
}

// The inputs: a head; receipts of a repeat and of no ticket; an entry and an audit of its proof; audits at another index, of another leaf,
// at a size that no head has, and at size 0; no line, and lines that are not for the log.
#[test]
fn what_the_frozen_log_writes(rt: HostRuntime) {
    let rows =
        r#"0 0 7 {"who":"frozen","op":"get-sth"}| => {"sha256_root_hash":"47DEQpj8HBSa+/TImW+5JCeuQeRkm5NMpJWZG3hSuFU=","timestamp":7,"tree_size":0}|
2 3 9 {"who":"frozen","op":"receipt","ticket":1}|{"who":"frozen","op":"receipt","ticket":2}| => {"extensions":"","leaf_index":0,"sct_version":0,"timestamp":3}|{"error":"not-yet"}|
1 1 9 {"who":"frozen","op":"get-entry-and-proof","leaf_index":0,"tree_size":1}|{"who":"frozen","op":"audit","leaf_input":"AAAAAAAAAAAAAQAAAAABQQAA","leaf_index":0,"tree_size":1,"audit_path":[]}| => {"audit_path":[],"extra_data":"AAAA","leaf_input":"AAAAAAAAAAAAAQAAAAABQQAA"}|{"verdict":"holds"}|
1 1 9 {"who":"frozen","op":"audit","leaf_input":"AAAAAAAAAAAAAQAAAAABQQAA","leaf_index":1,"tree_size":1,"audit_path":[]}|{"who":"frozen","op":"audit","leaf_input":"AAAAAAAAAAAAAQAAAAABQgAA","leaf_index":0,"tree_size":1,"audit_path":[]}|{"who":"frozen","op":"audit","leaf_input":"AAAAAAAAAAAAAQAAAAABQQAA","leaf_index":0,"tree_size":2,"audit_path":[]}|{"who":"frozen","op":"audit","leaf_input":"AAAAAAAAAAAAAQAAAAABQQAA","leaf_index":0,"tree_size":0,"audit_path":[]}| => {"verdict":"refused"}|{"verdict":"refused"}|{"error":"unknown-size"}|{"verdict":"refused"}|
0 0 9 - => -
0 0 9 | => -
0 0 9 {}||{"who":1,"op":"get-sth"}|{"who":"operator","op":"publish","now":-1} => {"error":"bad-line"}|{"error":"bad-line"}|{"error":"bad-line"}|"#;
    assert!(rt; right_rows(&rt, &mut Logs, rows) == 7);
    let row =
        "0 0 9 |\r| |{\"who\":\"operator\",\"op\":\"shutdown\"}|| => {\"error\":\"bad-line\"}|{\"error\":\"bad-line\"}|{\"error\":\"bad-line\"}|";
    assert!(rt; right_rows(&rt, &mut Logs, row) == 1);
}

// Reports whether the log refuses a line with this name, and answers a query after it.
fn refuses(rt: &HostRuntime, log: &Published, line: &str, name: &str) -> Result<bool, Refusal> {
    let question = r#"{"who":"frozen","op":"receipt","ticket":0}"#;
    let answer = r#"{"extensions":"","leaf_index":0,"sct_version":0,"timestamp":1}"#;
    let lines = format!(in rt.alloc(); "{line}\n{question}\n")?;
    let replies = format!(in rt.alloc(); "{{\"error\":\"{name}\"}}\n{answer}\n")?;
    Ok(writes(rt, log, lines.as_bytes(), replies.as_bytes()))
}

// A log of one leaf, with a query after each line, which is answered.
#[derive(Drop)]
struct Refusing<'a> {
    log: &'a Published,
}

impl Shown for Refusing<'_> {
    // A row has a line, and the name of its refusal.
    fn is_right(&mut self, rt: &HostRuntime, row: Row<'_>) -> bool {
        let is_refused = refuses(rt, self.log, row.rest(), row.answer());
        !row.is_bad() && matches!(&is_refused, Ok(true))
    }
}

// Each refusal of the frozen log, with a query after it, which is answered.
#[test]
fn a_refusal_and_then_an_answer(rt: HostRuntime) -> Result<(), Fail> {
    let rows = r#"{"who":"frozen","op":"get-sth-consistency","first":1,"second":2} => unknown-size
{"who":"frozen","op":"get-sth-consistency","first":0,"second":1} => bad-range
{"who":"frozen","op":"get-proof-by-hash","hash":"AAAAAAAAAAAAAAAAAAAAAAAAAAAAAAAAAAAAAAAAAAA=","tree_size":2} => unknown-size
{"who":"frozen","op":"get-proof-by-hash","hash":"AAAAAAAAAAAAAAAAAAAAAAAAAAAAAAAAAAAAAAAAAAA=","tree_size":1} => unknown-leaf
{"who":"frozen","op":"get-entries","start":1,"end":1} => bad-range
{"who":"frozen","op":"get-entry-and-proof","leaf_index":0,"tree_size":3} => unknown-size
{"who":"frozen","op":"get-entry-and-proof","leaf_index":1,"tree_size":1} => bad-range
{"who":"frozen","op":"receipt","ticket":1} => not-yet
{"who":"frozen","op":"audit","leaf_input":"","leaf_index":0,"tree_size":2,"audit_path":[]} => unknown-size
{"who":"frozen","op":"await-size"} => bad-line"#;
    let log = closed_log(&rt, 1, 1, 9)?;
    let mut refusing = Refusing {
        log: log.published(),
    };
    assert!(rt; right_rows(&rt, &mut refusing, rows) == 10);
    Ok(())
}

// Returns a line that starts with `start`, padded to this many bytes with spaces at the end, and followed by `behind`.
fn padded(rt: &HostRuntime, start: &[u8], len: usize, behind: &[u8]) -> Result<Vec<u8>, Refusal> {
    let mut line = Vec::from_slice(rt.alloc(), start)?;
    line.resize(len, b' ')?;
    line.extend_from_slice(behind)?;
    Ok(line)
}

// A log of no leaves, and lines that are padded.
#[derive(Drop)]
struct Padding<'a> {
    log: &'a Published,
}

// A row has the length of the line, the bytes after it, its start, and the replies.
fn is_padded_answered(
    rt: &HostRuntime,
    log: &Published,
    mut row: Row<'_>,
) -> Result<bool, Refusal> {
    let len = row.number() as usize;
    let behind = unfolded(rt, row.word())?;
    let lines = padded(rt, row.rest().as_bytes(), len, &behind)?;
    let replies = unfolded(rt, row.answer())?;
    Ok(!row.is_bad() && writes(rt, log, &lines, &replies))
}

impl Shown for Padding<'_> {
    fn is_right(&mut self, rt: &HostRuntime, row: Row<'_>) -> bool {
        matches!(is_padded_answered(rt, self.log, row), Ok(true))
    }
}

// The longest line that is a request; the longest line that is no JSON, with a query after it; and longer ones, one of them of 9 MB.
#[test]
fn long_lines(rt: HostRuntime) -> Result<(), Fail> {
    let rows =
        r#"1048576 - {"who":"frozen","op":"get-sth"} => {"sha256_root_hash":"47DEQpj8HBSa+/TImW+5JCeuQeRkm5NMpJWZG3hSuFU=","timestamp":7,"tree_size":0}|
1048576 |{"who":"frozen","op":"get-sth"}| {"who": => {"error":"bad-line"}|{"sha256_root_hash":"47DEQpj8HBSa+/TImW+5JCeuQeRkm5NMpJWZG3hSuFU=","timestamp":7,"tree_size":0}|
1048577 - {"who":"frozen","op":"get-sth"} => {"error":"bad-line"}|
9000000 |{"who":"frozen","op":"get-sth"}| {"who":"frozen","op":"get-sth"} => {"error":"bad-line"}|{"sha256_root_hash":"47DEQpj8HBSa+/TImW+5JCeuQeRkm5NMpJWZG3hSuFU=","timestamp":7,"tree_size":0}|
1048599 |{}||[] {"who":"frozen","op":"get-sth"} => {"error":"bad-line"}|{"error":"bad-line"}|{"error":"bad-line"}|"#;
    let log = closed_log(&rt, 0, 0, 7)?;
    let mut padding = Padding {
        log: log.published(),
    };
    assert!(rt; right_rows(&rt, &mut padding, rows) == 5);
    Ok(())
}

// Returns this line `count` times, and another one after that.
fn repeated(rt: &HostRuntime, line: &[u8], count: u32, last: &[u8]) -> Result<Vec<u8>, Refusal> {
    let mut bytes = Vec::new(rt.alloc());
    for _ in 0..count {
        bytes.extend_from_slice(line)?;
    }
    bytes.extend_from_slice(last)?;
    Ok(bytes)
}

// Reports whether a log of no leaves answers each of this many queries of a thousand bytes, and a line after them.
fn are_questions_answered(rt: &HostRuntime, count: u32) -> Result<bool, Refusal> {
    let question = padded(
        rt,
        b"{\"who\":\"frozen\",\"op\":\"receipt\",\"ticket\":0}",
        999,
        b"\n",
    )?;
    let lines = repeated(rt, &question, count, b"{}\n")?;
    let reply = b"{\"error\":\"not-yet\"}\n";
    let replies = repeated(rt, reply, count, b"{\"error\":\"bad-line\"}\n")?;
    let log = closed_log(rt, 0, 0, 7)?;
    Ok(writes(rt, log.published(), &lines, &replies))
}

// The input has 9,000,003 bytes.
#[test]
fn nine_thousand_questions(rt: HostRuntime) -> Result<(), Fail> {
    assert!(rt; are_questions_answered(&rt, 9_000)?);
    Ok(())
}

// A reader that returns this many bytes of a text for each call, and fails at its end.
#[derive(Drop)]
struct Breaking<'a> {
    text: &'a [u8],
    step: usize,
}

impl Read for Breaking<'_> {
    fn read(&mut self, buf: &mut [u8]) -> io::Result<usize> {
        if self.text.is_empty() {
            return Err(io::Error::from(ErrorKind::BrokenPipe));
        }
        let n = self.text.len().min(self.step).min(buf.len());
        let (given, left) = self.text.split_at(n);
        buf[..n].copy_from_slice(given);
        self.text = left;
        Ok(n)
    }
}

// Returns how serving ends over such a reader, if it writes this text.
fn broken_end(
    rt: &HostRuntime,
    log: &Published,
    mut reader: Breaking<'_>,
    text: &[u8],
) -> Option<ServeFault> {
    let mut output: Vec<u8> = Vec::new(rt.alloc());
    let end = serve_frozen(rt.alloc(), log, &mut reader, &mut output);
    if output.as_slice() == text {
        end.err()
    } else {
        None
    }
}

// Returns 8,192 empty lines and one that is no request.
fn long_text(rt: &HostRuntime) -> Result<Vec<u8>, Refusal> {
    let mut long = vec![in rt.alloc(); b'\n'; 8_192]?;
    long.extend_from_slice(b"{}\n")?;
    Ok(long)
}

// A log of no leaves, over readers and writers that fail.
#[derive(Drop)]
struct Failing<'a> {
    log: &'a Published,
}

// A row has the bytes for each call, the count of replies, the text, and the replies.
fn is_read_fault(rt: &HostRuntime, log: &Published, mut row: Row<'_>) -> Result<bool, Refusal> {
    let step = row.number() as usize;
    let count = row.number();
    let text = match row.rest() {
        "long" => long_text(rt)?,
        rest => unfolded(rt, rest)?,
    };
    let replies = unfolded(rt, row.answer())?;
    let end = broken_end(rt, log, Breaking { text: &text, step }, &replies);
    Ok(!row.is_bad() && end == Some(ServeFault::Read(count)))
}

// A row has the room, whether the writer fails there, the count of replies, and the output.
fn is_write_fault(rt: &HostRuntime, log: &Published, mut row: Row<'_>) -> Result<bool, Refusal> {
    let left = row.number() as usize;
    let fails = row.word();
    let count = row.number();
    let text = unfolded(rt, row.answer())?;
    let end = cramped_end(rt, log, left, fails == "true", &text);
    Ok(
        !row.is_bad()
            && (fails == "true" || fails == "false")
            && end == Some(ServeFault::Write(count)),
    )
}

impl Shown for Failing<'_> {
    fn is_right(&mut self, rt: &HostRuntime, mut row: Row<'_>) -> bool {
        let answer = match row.word() {
            "reader" => is_read_fault(rt, self.log, row),
            "writer" => is_write_fault(rt, self.log, row),
            _ => Ok(false),
        };
        matches!(answer, Ok(true))
    }
}

// Returns how many rows a log of no leaves answers correctly, before the first that it does not.
fn failed(rt: &HostRuntime, rows: &str) -> u32 {
    match closed_log(rt, 0, 0, 9) {
        Ok(log) => {
            let mut failing = Failing {
                log: log.published(),
            };
            right_rows(rt, &mut failing, rows)
        }
        Err(_) => 0,
    }
}

// A writer that accepts at most 10 bytes for each call, and none past its room: there it fails, or accepts no bytes.
#[derive(Drop)]
struct Room {
    taken: Vec<u8>,
    left: usize,
    fails: bool,
}

impl Write for Room {
    fn write(&mut self, buf: &[u8]) -> io::Result<usize> {
        if self.left == 0 && self.fails {
            return Err(io::Error::from(ErrorKind::BrokenPipe));
        }
        let n = buf.len().min(self.left).min(10);
        self.taken.extend_from_slice(&buf[..n])?;
        self.left -= n;
        Ok(n)
    }

    fn flush(&mut self) -> io::Result<()> {
        Ok(())
    }
}

// Returns how serving a bad line and a query for the head ends with this much room, if this text is written.
fn cramped_end(
    rt: &HostRuntime,
    log: &Published,
    left: usize,
    fails: bool,
    text: &[u8],
) -> Option<ServeFault> {
    let mut input: &[u8] = b"{}\n{\"who\":\"frozen\",\"op\":\"get-sth\"}\n";
    let mut output = Room {
        taken: Vec::new(rt.alloc()),
        left,
        fails,
    };
    let end = serve_frozen(rt.alloc(), log, &mut input, &mut output);
    if output.taken.as_slice() == text {
        end.err()
    } else {
        None
    }
}

// One of the readers fails after 8,195 reads of one byte.
#[test]
fn a_reader_that_fails(rt: HostRuntime) {
    let rows = r#"reader 9 1 {}| => {"error":"bad-line"}|
reader 1 3 |{}||[]|{|{ => {"error":"bad-line"}|{"error":"bad-line"}|{"error":"bad-line"}|
reader 9 0 - => -
reader 1 1 long => {"error":"bad-line"}|"#;
    assert!(rt; failed(&rt, rows) == 4);
}

#[test]
fn writers_that_fail_or_take_no_bytes(rt: HostRuntime) {
    let rows = r#"writer 20 true 0 => {"error":"bad-line"}
writer 21 true 1 => {"error":"bad-line"}|
writer 25 true 1 => {"error":"bad-line"}|{"sh
writer 0 false 0 => -
writer 21 false 1 => {"error":"bad-line"}|"#;
    assert!(rt; failed(&rt, rows) == 5);
}

// Whether a fault is displayed as this sentence.
fn is_told(rt: &HostRuntime, fault: ServeFault, text: &str) -> bool {
    match format!(in rt.alloc(); "{fault}") {
        Ok(told) => told.as_str() == text,
        Err(_) => false,
    }
}

#[test]
fn faults_are_sentences(rt: HostRuntime) {
    assert!(rt;
        is_told(
            &rt,
            ServeFault::Read(1),
            "the reader failed after 1 replies"
        )
    );
    let text = "the writer failed or took no bytes after 2 replies";
    assert!(rt; is_told(&rt, ServeFault::Write(2), text));
    assert!(rt;
        is_told(
            &rt,
            ServeFault::Memory(3),
            "memory was refused after 3 replies"
        )
    );
    let text = "the input had not ended after 4 replies and 2^50 reads";
    assert!(rt; is_told(&rt, ServeFault::Endless(4), text));
}
