use crate::rows::{Row, Shown, right_rows};
use crate::submissions::REFUSALS;
use ct_codec::Refusal;
use ct_core::{Reply, ShownEntry};
use ct_lines::{read_line, reply_text};
use ct_tree::Head;
use std::alloc::AllocError;

// The bytes 0 to 31. Their base64 was computed by Python.
const HASH: [u8; 32] = [
    0, 1, 2, 3, 4, 5, 6, 7, 8, 9, 10, 11, 12, 13, 14, 15, 16, 17, 18, 19, 20, 21, 22, 23, 24, 25,
    26, 27, 28, 29, 30, 31,
];

// Reports whether `read_line` returns this request, given as its `Debug` text.
fn is_read(rt: &HostRuntime, line: &[u8], request: &str) -> bool {
    let answer = read_line(rt.alloc(), line);
    match format!(in rt.alloc(); "{answer:?}") {
        Ok(text) => text.as_str() == request,
        Err(_) => false,
    }
}

// Reads lines.
#[derive(Clone, Copy)]
struct Lines;

impl Shown for Lines {
    // A row has a line, and the request.
    fn is_right(&mut self, rt: &HostRuntime, row: Row<'_>) -> bool {
        !row.is_bad() && is_read(rt, row.rest().as_bytes(), row.answer())
    }
}

#[test]
fn each_request_is_read(rt: HostRuntime) {
    let rows =
        r#"{"who":0,"op":"add-chain","chain":["QQ==","QkM=",""]} => Ok(Front(0, AddChain { chain: [[65], [66, 67], []] }))
{"who":15,"op":"add-chain","chain":[]} => Ok(Front(15, AddChain { chain: [] }))
{"who":1,"op":"add-pre-chain","chain":["Qg==",""],"tbs":"QQ==","issuer_key_hash":"AAECAwQFBgcICQoLDA0ODxAREhMUFRYXGBkaGxwdHh8="} => Ok(Front(1, AddPreChain { issuer_key_hash: [0, 1, 2, 3, 4, 5, 6, 7, 8, 9, 10, 11, 12, 13, 14, 15, 16, 17, 18, 19, 20, 21, 22, 23, 24, 25, 26, 27, 28, 29, 30, 31], tbs: [65], chain: [[66], []] }))
{"who":16,"op":"await-size","tree_size":0} => Ok(Front(16, AwaitSize { tree_size: 0 }))
{"who":18446744073709551615,"op":"get-sth"} => Ok(Front(18446744073709551615, Ask(GetSth)))
{"who":"frozen","op":"get-sth"} => Ok(Frozen(Ask(GetSth)))
{"who":1,"op":"get-sth-consistency","first":2,"second":5} => Ok(Front(1, Ask(Consistency { first: 2, second: 5 })))
{"who":"frozen","op":"get-proof-by-hash","hash":"AAECAwQFBgcICQoLDA0ODxAREhMUFRYXGBkaGxwdHh8=","tree_size":9} => Ok(Frozen(Ask(ProofByHash { hash: [0, 1, 2, 3, 4, 5, 6, 7, 8, 9, 10, 11, 12, 13, 14, 15, 16, 17, 18, 19, 20, 21, 22, 23, 24, 25, 26, 27, 28, 29, 30, 31], tree_size: 9 })))
{"who":"frozen","op":"get-entries","start":0,"end":999} => Ok(Frozen(Ask(Entries { start: 0, end: 999 })))
{"who":2,"op":"get-entry-and-proof","leaf_index":3,"tree_size":4} => Ok(Front(2, Ask(EntryAndProof { leaf_index: 3, tree_size: 4 })))
{"who":"frozen","op":"receipt","ticket":1} => Ok(Frozen(Ask(Receipt { ticket: 1 })))
{"who":"frozen","op":"audit","leaf_input":"AEE=","leaf_index":0,"tree_size":1,"audit_path":[]} => Ok(Frozen(Audit(Audit { leaf_input: [0, 65], leaf_index: 0, tree_size: 1, audit_path: [] })))
{"who":"frozen","op":"audit","leaf_input":"","leaf_index":1,"tree_size":2,"audit_path":["AAECAwQFBgcICQoLDA0ODxAREhMUFRYXGBkaGxwdHh8="]} => Ok(Frozen(Audit(Audit { leaf_input: [], leaf_index: 1, tree_size: 2, audit_path: [[0, 1, 2, 3, 4, 5, 6, 7, 8, 9, 10, 11, 12, 13, 14, 15, 16, 17, 18, 19, 20, 21, 22, 23, 24, 25, 26, 27, 28, 29, 30, 31]] })))
{"who":"operator","op":"sequence","from":7,"count":18446744073709551615,"now":3} => Ok(Operator(Sequence { from: 7, count: 18446744073709551615, now: 3 }))
{"who":"operator","op":"publish","now":4} => Ok(Operator(Publish { now: 4 }))
{"who":"operator","op":"shutdown"} => Ok(Operator(Shutdown))
{"who":"operator","op":"shift","now":18446744073709551615} => Ok(Operator(Shift { now: 18446744073709551615 }))
{"chain":"no array","from":-1.5e3,"who":"operator","op":"shutdown","tree_size":null,"":{"a":[true]}} => Ok(Operator(Shutdown))
{"who":5,"who":"operator","op":"publish","now":1,"op":"shutdown"} => Ok(Operator(Shutdown))"#;
    assert!(rt; right_rows(&rt, &mut Lines, rows) == 19);
    let line = " {\"op\" : \"shutdown\" ,\t\"who\":\"\\u006fperator\"}\r => Ok(Operator(Shutdown))";
    assert!(rt; right_rows(&rt, &mut Lines, line) == 1);
}

// Reports whether a line is refused as a bad line.
fn is_bad(rt: &HostRuntime, line: &[u8]) -> bool {
    matches!(read_line(rt.alloc(), line), Err(Refusal::BadLine))
}

#[test]
fn other_lines_are_bad(rt: HostRuntime) {
    let rows = r#"["who","operator","op","shutdown"] => Err(BadLine)
"shutdown" => Err(BadLine)
{"who":"operator"} => Err(BadLine)
{"op":"shutdown"} => Err(BadLine)
{"who":"operator","op":null} => Err(BadLine)
{"who":"operator","op":["shutdown"]} => Err(BadLine)
{"who":"operator","op":"Shutdown"} => Err(BadLine)
{"who":"operator","op":"get-sth"} => Err(BadLine)
{"who":"operator","op":"add-chain","chain":[]} => Err(BadLine)
{"who":"operators","op":"shutdown"} => Err(BadLine)
{"who":null,"op":"get-sth"} => Err(BadLine)
{"who":"0","op":"get-sth"} => Err(BadLine)
{"who":[0],"op":"get-sth"} => Err(BadLine)
{"who":{},"op":"get-sth"} => Err(BadLine)
{"who":true,"op":"get-sth"} => Err(BadLine)
{"who":0,"op":"shutdown"} => Err(BadLine)
{"who":0,"op":"shift","now":1} => Err(BadLine)
{"who":"frozen","op":"shift","now":1} => Err(BadLine)
{"who":"operator","op":"shift"} => Err(BadLine)
{"who":"operator","op":"shift","now":"1"} => Err(BadLine)
{"who":0,"op":"audit","leaf_input":"","leaf_index":0,"tree_size":1,"audit_path":[]} => Err(BadLine)
{"who":"frozen","op":"await-size","tree_size":1} => Err(BadLine)
{"who":"frozen","op":"add-chain","chain":[]} => Err(BadLine)
{"who":0,"op":"await-size","tree_size":1.0} => Err(BadLine)
{"who":0,"op":"await-size","tree_size":1e0} => Err(BadLine)
{"who":0,"op":"await-size","tree_size":18446744073709551616} => Err(BadLine)
{"who":0,"op":"await-size","tree_size":"1"} => Err(BadLine)
{"who":0,"op":"await-size","tree_size":-1} => Err(BadLine)
{"who":0,"op":"await-size","tree_size":-0} => Err(BadLine)
{"who":0,"op":"await-size","tree_size":01} => Err(BadLine)
{"who":0,"op":"await-size","tree_size":null} => Err(BadLine)
{"who":0,"op":"await-size"} => Err(BadLine)
{"who":1.0,"op":"get-sth"} => Err(BadLine)
{"who":-0,"op":"get-sth"} => Err(BadLine)
{"who":18446744073709551616,"op":"get-sth"} => Err(BadLine)
{"who":0,"op":"add-chain"} => Err(BadLine)
{"who":0,"op":"add-chain","chain":"QQ=="} => Err(BadLine)
{"who":0,"op":"add-chain","chain":[["QQ=="]]} => Err(BadLine)
{"who":0,"op":"add-chain","chain":["QQ==",1]} => Err(BadLine)
{"who":0,"op":"add-chain","chain":["QQ"]} => Err(BadLine)
{"who":0,"op":"add-chain","chain":["QQ="]} => Err(BadLine)
{"who":0,"op":"add-chain","chain":["QR=="]} => Err(BadLine)
{"who":0,"op":"add-chain","chain":["Q Q=="]} => Err(BadLine)
{"who":0,"op":"add-chain","chain":["QQ==\n"]} => Err(BadLine)
{"who":0,"op":"add-chain","chain":["-_=="]} => Err(BadLine)
{"who":0,"op":"add-pre-chain","tbs":"QQ==","chain":["Qg=="]} => Err(BadLine)
{"who":0,"op":"add-pre-chain","issuer_key_hash":"AAAAAAAAAAAAAAAAAAAAAAAAAAAAAAAAAAAAAAAAAA==","tbs":"QQ==","chain":["Qg=="]} => Err(BadLine)
{"who":0,"op":"add-pre-chain","issuer_key_hash":"AAAAAAAAAAAAAAAAAAAAAAAAAAAAAAAAAAAAAAAAAAAA","tbs":"QQ==","chain":["Qg=="]} => Err(BadLine)
{"who":0,"op":"add-pre-chain","issuer_key_hash":"AAAAAAAAAAAAAAAAAAAAAAAAAAAAAAAAAAAAAAAAAAA=","chain":["Qg=="]} => Err(BadLine)
{"who":0,"op":"add-pre-chain","issuer_key_hash":"AAAAAAAAAAAAAAAAAAAAAAAAAAAAAAAAAAAAAAAAAAA=","tbs":["QQ=="],"chain":["Qg=="]} => Err(BadLine)
{"who":0,"op":"add-pre-chain","issuer_key_hash":"AAAAAAAAAAAAAAAAAAAAAAAAAAAAAAAAAAAAAAAAAAA=","tbs":"QQ=="} => Err(BadLine)
{"who":"frozen","op":"add-pre-chain","issuer_key_hash":"AAAAAAAAAAAAAAAAAAAAAAAAAAAAAAAAAAAAAAAAAAA=","tbs":"QQ==","chain":["Qg=="]} => Err(BadLine)
{"who":"frozen","op":"get-sth-consistency","first":2} => Err(BadLine)
{"who":"frozen","op":"get-proof-by-hash","hash":"AAAAAAAAAAAAAAAAAAAAAAAAAAAAAAAAAAAAAAAAAA==","tree_size":9} => Err(BadLine)
{"who":"frozen","op":"get-proof-by-hash","hash":"AAAAAAAAAAAAAAAAAAAAAAAAAAAAAAAAAAAAAAAAAAAA","tree_size":9} => Err(BadLine)
{"who":"frozen","op":"get-entries","start":0,"end":1e400} => Err(BadLine)
{"who":"frozen","op":"audit","leaf_input":"","leaf_index":0,"tree_size":1,"audit_path":["QQ=="]} => Err(BadLine)
{"who":"operator","op":"sequence","from":0,"count":1} => Err(BadLine)
{"who":"operator","op":"shutdown","ignored":1e400} => Err(BadLine)"#;
    assert!(rt; right_rows(&rt, &mut Lines, rows) == 59);
}

#[test]
fn lines_that_are_no_requests_are_bad(rt: HostRuntime) {
    let rows = " => Err(BadLine)
  => Err(BadLine)
\r => Err(BadLine)
\u{feff}{\"who\":\"operator\",\"op\":\"shutdown\"} => Err(BadLine)
{\"who\":\"operator\",\"op\":\"shutdown\" => Err(BadLine)
{\"who\":\"operator\",\"op\":\"shutdown\"}} => Err(BadLine)
{} => Err(BadLine)
null => Err(BadLine)";
    assert!(rt; right_rows(&rt, &mut Lines, rows) == 8);
    assert!(rt;
        is_bad(
            &rt,
            b"{\"who\":\"operator\",\"op\":\"shutdown\",\"\xff\":0}"
        )
    );
}

// Returns a shutdown with an ignored key that contains this many nested arrays.
fn nested(rt: &HostRuntime, arrays: usize) -> Result<Vec<u8>, AllocError> {
    let mut line = Vec::new(rt.alloc());
    line.extend_from_slice(b"{\"who\":\"operator\",\"op\":\"shutdown\",\"ignored\":")?;
    line.resize(line.len().saturating_add(arrays), b'[')?;
    line.resize(line.len().saturating_add(arrays), b']')?;
    line.push(b'}')?;
    Ok(line)
}

// Returns a shutdown of this many bytes, with spaces at the end.
fn padded(rt: &HostRuntime, len: usize) -> Result<Vec<u8>, AllocError> {
    let mut line = Vec::from_slice(rt.alloc(), b"{\"who\":\"operator\",\"op\":\"shutdown\"}")?;
    line.resize(len, b' ')?;
    Ok(line)
}

// Reports whether the line was made, and is read as this request.
fn is_made_read(rt: &HostRuntime, line: Result<Vec<u8>, AllocError>, request: &str) -> bool {
    match line {
        Ok(line) => is_read(rt, &line, request),
        Err(_) => false,
    }
}

#[test]
fn depth_and_length_have_limits(rt: HostRuntime) {
    let shutdown = "Ok(Operator(Shutdown))";
    assert!(rt; is_made_read(&rt, nested(&rt, 126), shutdown));
    assert!(rt; is_made_read(&rt, nested(&rt, 127), "Err(BadLine)"));
    assert!(rt; is_made_read(&rt, padded(&rt, 1_048_576), shutdown));
    assert!(rt; is_made_read(&rt, padded(&rt, 1_048_577), "Err(BadLine)"));
}

fn entry(rt: &HostRuntime, byte: u8) -> Result<ShownEntry, AllocError> {
    Ok(ShownEntry {
        leaf_input: Vec::from_slice(rt.alloc(), &[byte])?,
        extra_data: Vec::from_slice(rt.alloc(), &[0, 0, 0])?,
    })
}

fn two_entries(rt: &HostRuntime) -> Result<Reply, AllocError> {
    let mut entries = Vec::new(rt.alloc());
    entries.push(entry(rt, b'A')?)?;
    entries.push(entry(rt, b'B')?)?;
    Ok(Reply::Entries(entries))
}

fn entry_and_proof(rt: &HostRuntime) -> Result<Reply, AllocError> {
    Ok(Reply::EntryAndProof {
        entry: entry(rt, b'A')?,
        audit_path: Vec::from_slice(rt.alloc(), &[HASH])?,
    })
}

fn proof_by_hash(rt: &HostRuntime) -> Result<Reply, AllocError> {
    Ok(Reply::ProofByHash {
        leaf_index: 5,
        audit_path: Vec::from_slice(rt.alloc(), &[HASH, [0; 32]])?,
    })
}

fn collision(rt: &HostRuntime) -> Result<Reply, AllocError> {
    let left = Vec::from_slice(rt.alloc(), &[0, 0x42])?;
    let right = Vec::from_slice(rt.alloc(), &[0, 0x41])?;
    Ok(Reply::Collision(left, right))
}

fn proof(rt: &HostRuntime, path: &[[u8; 32]]) -> Result<Reply, AllocError> {
    Ok(Reply::Consistency(Vec::from_slice(rt.alloc(), path)?))
}

// Reports whether the line of a reply or a refusal is this text followed by an end byte.
fn is_line(rt: &HostRuntime, reply: Result<Reply, Refusal>, text: &str) -> bool {
    match reply_text(rt.alloc(), &reply) {
        Ok(bytes) => bytes.strip_suffix(b"\n") == Some(text.as_bytes()),
        Err(_) => false,
    }
}

// The hash is that of no leaves.
const HEAD: Head = Head {
    tree_size: 0,
    timestamp: 7,
    root: [
        0xe3, 0xb0, 0xc4, 0x42, 0x98, 0xfc, 0x1c, 0x14, 0x9a, 0xfb, 0xf4, 0xc8, 0x99, 0x6f, 0xb9,
        0x24, 0x27, 0xae, 0x41, 0xe4, 0x64, 0x9b, 0x93, 0x4c, 0xa4, 0x95, 0x99, 0x1b, 0x78, 0x52,
        0xb8, 0x55,
    ],
};

const PUBLISHED: Head = Head {
    tree_size: 1,
    timestamp: 4,
    root: HASH,
};

// Returns the reply with a number, by its name.
fn numbered(name: &str, number: u64) -> Option<Reply> {
    match name {
        "ticket" => Some(Reply::Ticket(number)),
        "reached" => Some(Reply::Reached(number)),
        "settled" => Some(Reply::Settled(number)),
        "accepted" => Some(Reply::Accepted(number)),
        "shift" => Some(Reply::Shift(number)),
        _ => None,
    }
}

// Returns the reply that has a proof or entries, by its name.
fn long_reply(rt: &HostRuntime, name: &str) -> Option<Reply> {
    match name {
        "empty-proof" => proof(rt, &[]).ok(),
        "proof" => proof(rt, &[HASH]).ok(),
        "proof-by-hash" => proof_by_hash(rt).ok(),
        "entries" => two_entries(rt).ok(),
        "entry-and-proof" => entry_and_proof(rt).ok(),
        "collision" => collision(rt).ok(),
        _ => None,
    }
}

// Returns the reply with this name.
fn reply(rt: &HostRuntime, name: &str, number: u64) -> Option<Reply> {
    match name {
        "head" => Some(Reply::Sth(HEAD)),
        "receipt" => Some(Reply::Receipt {
            leaf_index: 0,
            timestamp: number,
        }),
        "published" => Some(Reply::Published(PUBLISHED)),
        "holds" => Some(Reply::Holds),
        "refused" => Some(Reply::Refused),
        _ => long_reply(rt, name).or(numbered(name, number)),
    }
}

// Writes replies.
#[derive(Clone, Copy)]
struct Replies;

impl Shown for Replies {
    // A row has a reply's name and number, and its line.
    fn is_right(&mut self, rt: &HostRuntime, mut row: Row<'_>) -> bool {
        let name = row.word();
        let number = row.number();
        match reply(rt, name, number) {
            Some(reply) => !row.is_bad() && is_line(rt, Ok(reply), row.answer()),
            None => false,
        }
    }
}

#[test]
fn replies_of_heads_and_proofs_are_written(rt: HostRuntime) {
    let rows =
        r#"head 0 => {"sha256_root_hash":"47DEQpj8HBSa+/TImW+5JCeuQeRkm5NMpJWZG3hSuFU=","timestamp":7,"tree_size":0}
empty-proof 0 => {"consistency":[]}
proof 0 => {"consistency":["AAECAwQFBgcICQoLDA0ODxAREhMUFRYXGBkaGxwdHh8="]}
proof-by-hash 0 => {"audit_path":["AAECAwQFBgcICQoLDA0ODxAREhMUFRYXGBkaGxwdHh8=","AAAAAAAAAAAAAAAAAAAAAAAAAAAAAAAAAAAAAAAAAAA="],"leaf_index":5}"#;
    assert!(rt; right_rows(&rt, &mut Replies, rows) == 4);
}

#[test]
fn replies_of_entries_are_written(rt: HostRuntime) {
    let rows =
        r#"entries 0 => {"entries":[{"extra_data":"AAAA","leaf_input":"QQ=="},{"extra_data":"AAAA","leaf_input":"Qg=="}]}
entry-and-proof 0 => {"audit_path":["AAECAwQFBgcICQoLDA0ODxAREhMUFRYXGBkaGxwdHh8="],"extra_data":"AAAA","leaf_input":"QQ=="}
receipt 3 => {"extensions":"","leaf_index":0,"sct_version":0,"timestamp":3}"#;
    assert!(rt; right_rows(&rt, &mut Replies, rows) == 3);
}

#[test]
fn other_replies_are_written(rt: HostRuntime) {
    let rows = r#"ticket 18446744073709551615 => {"ticket":18446744073709551615}
reached 1 => {"reached":1}
settled 2 => {"settled":2}
published 0 => {"timestamp":4,"tree_size":1}
accepted 0 => {"accepted":0}
shift 1 => {"shift":1}
holds 0 => {"verdict":"holds"}
refused 0 => {"verdict":"refused"}
collision 0 => {"left":"AEI=","right":"AEE=","verdict":"collision"}"#;
    assert!(rt; right_rows(&rt, &mut Replies, rows) == 9);
}

// Writes refusals, by their numbers.
#[derive(Clone, Copy)]
struct Refusals;

impl Shown for Refusals {
    // A row has a refusal's number, and its line.
    fn is_right(&mut self, rt: &HostRuntime, mut row: Row<'_>) -> bool {
        match REFUSALS.get(row.short() as usize) {
            Some(refusal) => !row.is_bad() && is_line(rt, Err(*refusal), row.answer()),
            None => false,
        }
    }
}

#[test]
fn each_refusal_has_its_name(rt: HostRuntime) {
    let rows = r#"0 => {"error":"memory"}
1 => {"error":"full"}
2 => {"error":"shutdown"}
3 => {"error":"front-spent"}
4 => {"error":"empty-chain"}
5 => {"error":"empty-certificate"}
6 => {"error":"certificate-too-long"}
7 => {"error":"chain-too-long"}
8 => {"error":"clock-back"}
9 => {"error":"unknown-size"}
10 => {"error":"bad-range"}
11 => {"error":"unknown-leaf"}
12 => {"error":"missing-front"}
13 => {"error":"bad-line"}
14 => {"error":"not-yet"}
15 => {"error":"late"}
16 => {"error":"closed"}"#;
    assert!(rt; right_rows(&rt, &mut Refusals, rows) == 17);
}
