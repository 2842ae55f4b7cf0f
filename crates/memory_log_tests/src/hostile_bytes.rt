// Leaves and chains that are cut off, changed and made longer. The expected results were worked out by hand from RFC 6962, sections 3.4 and
// 4.6.
use crate::rows::{Row, Shown, right_rows};
use ct_codec::{DecodeFault, decode_chain, decode_leaf, decode_pre_chain};
use std::alloc::AllocError;

// The kind of value that is read from the bytes.
#[derive(Clone, Copy)]
enum Kind {
    Leaf,
    Chain,
    PreChain,
}

// Returns one character for the result of reading the bytes.
fn sign(rt: &HostRuntime, kind: Kind, bytes: &[u8]) -> char {
    let fault = match kind {
        Kind::Leaf => decode_leaf(rt.alloc(), bytes).err(),
        Kind::Chain => decode_chain(rt.alloc(), bytes).err(),
        Kind::PreChain => decode_pre_chain(rt.alloc(), bytes).err(),
    };
    match fault {
        None => '.',
        Some(DecodeFault::Truncated) => 'T',
        Some(DecodeFault::BadVersion) => 'V',
        Some(DecodeFault::BadLeafType) => 'L',
        Some(DecodeFault::BadEntryType) => 'B',
        Some(DecodeFault::EmptyVector) => 'E',
        Some(DecodeFault::Trailing) => 'X',
        Some(DecodeFault::Memory) => 'M',
    }
}

// Returns the characters for each prefix of the bytes, and for the bytes followed by one byte 00.
fn cut(rt: &HostRuntime, kind: Kind, bytes: &[u8]) -> Result<String, AllocError> {
    let mut signs = String::new(rt.alloc());
    let mut longer = Vec::from_slice(rt.alloc(), bytes)?;
    longer.push(0)?;
    for size in 0..=longer.len() {
        signs.push(sign(rt, kind, &longer[..size]))?;
    }
    Ok(signs)
}

// Returns the characters for the bytes with each of them in turn replaced by this byte.
fn changed(rt: &HostRuntime, kind: Kind, bytes: &[u8], byte: u8) -> Result<String, AllocError> {
    let mut signs = String::new(rt.alloc());
    for place in 0..bytes.len() {
        let mut other = Vec::from_slice(rt.alloc(), bytes)?;
        if let Some(there) = other.get_mut(place) {
            *there = byte;
        }
        signs.push(sign(rt, kind, &other))?;
    }
    Ok(signs)
}

// Cuts off and changes bytes.
#[derive(Clone, Copy)]
struct Hostile;

fn kind_of(word: &str) -> Option<Kind> {
    match word {
        "leaf" => Some(Kind::Leaf),
        "chain" => Some(Kind::Chain),
        "pre-chain" => Some(Kind::PreChain),
        _ => None,
    }
}

// Returns the characters for the bytes cut off, or with each byte replaced by 00 and by ff, or nothing.
fn signs(rt: &HostRuntime, how: &str, kind: Kind, bytes: &[u8]) -> Result<String, AllocError> {
    match how {
        "cut" => cut(rt, kind, bytes),
        "zeros" => changed(rt, kind, bytes, 0x00),
        "ones" => changed(rt, kind, bytes, 0xff),
        _ => Ok(String::new(rt.alloc())),
    }
}

impl Shown for Hostile {
    // A row has the change, the kind of value that is read, and the bytes. The result is the characters.
    fn is_right(&mut self, rt: &HostRuntime, mut row: Row<'_>) -> bool {
        let how = row.word();
        let kind = kind_of(row.word());
        let bytes = row.bytes(rt);
        match kind {
            Some(kind) => is_signed(rt, &signs(rt, how, kind, &bytes), row),
            None => false,
        }
    }
}

fn is_signed(rt: &HostRuntime, signs: &Result<String, AllocError>, row: Row<'_>) -> bool {
    match signs {
        Ok(signs) => row.says(rt, signs),
        Err(_) => false,
    }
}

// The values, in order:
//
// - a leaf of the certificate 41 at the timestamp 1;
// - the leaf of a precertificate at the timestamp 0, with a key's hash of 32 bytes 11, the TBSCertificate 41, and the extensions aa bb;
// - the chain of the certificates 42 and 41 42;
// - the precertificate 42 followed by that chain.
#[test]
fn leaves_and_chains_cut_off_and_changed(rt: HostRuntime) {
    let rows = "\
cut leaf 0,0,0,0,0,0,0,0,0,1,0,0,0,0,1,65,0,0 => \"TTTTTTTTTTTTTTTTTT.X\"
zeros leaf 0,0,0,0,0,0,0,0,0,1,0,0,0,0,1,65,0,0 => \"..............E...\"
ones leaf 0,0,0,0,0,0,0,0,0,1,0,0,0,0,1,65,0,0 => \"VL........BBTTT.TT\"
cut leaf 0,0,0,0,0,0,0,0,0,0,0,1,17,17,17,17,17,17,17,17,17,17,17,17,17,17,17,17,17,17,17,17,17,17,17,17,17,17,17,17,17,17,17,17,0,0,1,65,0,2,170,187 => \"TTTTTTTTTTTTTTTTTTTTTTTTTTTTTTTTTTTTTTTTTTTTTTTTTTTT.X\"
zeros leaf 0,0,0,0,0,0,0,0,0,0,0,1,17,17,17,17,17,17,17,17,17,17,17,17,17,17,17,17,17,17,17,17,17,17,17,17,17,17,17,17,17,17,17,17,0,0,1,65,0,2,170,187 => \"...........T..................................E..X..\"
ones leaf 0,0,0,0,0,0,0,0,0,0,0,1,17,17,17,17,17,17,17,17,17,17,17,17,17,17,17,17,17,17,17,17,17,17,17,17,17,17,17,17,17,17,17,17,0,0,1,65,0,2,170,187 => \"VL........BB................................TTT.TT..\"
cut chain 0,0,9,0,0,1,66,0,0,2,65,66 => \"TTTTTTTTTTTT.X\"
zeros chain 0,0,9,0,0,1,66,0,0,2,65,66 => \"..X..E...E..\"
ones chain 0,0,9,0,0,1,66,0,0,2,65,66 => \"TTTTTT.TTT..\"
cut pre-chain 0,0,1,66,0,0,9,0,0,1,66,0,0,2,65,66 => \"TTTTTTTTTTTTTTTT.X\"
zeros pre-chain 0,0,1,66,0,0,9,0,0,1,66,0,0,2,65,66 => \"..E...X..E...E..\"
ones pre-chain 0,0,1,66,0,0,9,0,0,1,66,0,0,2,65,66 => \"TTT.TTTTTT.TTT..\"";
    assert!(rt; right_rows(&rt, &mut Hostile, rows) == 12);
}
