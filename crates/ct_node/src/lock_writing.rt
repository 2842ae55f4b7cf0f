//! Writes a lock's text, and the name of a staged batch.

ghost use Rattle.std.specs.Prelude.{◌≡◌, ◌≤◌, ◌+◌, ◌++◌, IfOk, length, take, string_bytes};
ghost use Rattle.ct_node.specs.LockText.{number_digits, next_text, bundle_name};

use crate::State;
use ct_codec::numbers::number_bytes_8;
use std::alloc::{AllocError, Global};

// Returns the digits of a number.
fn digits_of(alloc: Global, number: u64) -> Result<String, AllocError>
    ensures { IfOk result (λ text. string_bytes text ≡ number_digits number) }
{
    hex::encode(alloc, number_bytes_8(number).as_slice())
}

/// Returns the lock's text for a state's line, which this node sets in place of a state with the timestamp `before`. The salt is a random
/// number.
pub fn text_of(
    alloc: Global,
    line: &[u8],
    node: &[u8],
    before: u64,
    salt: u64,
) -> Result<Vec<u8>, AllocError>
    ensures text { IfOk result (λ text. text.items ≡ next_text line.now node.now before salt) }
{
    let before = digits_of(alloc, before)?;
    let salt = digits_of(alloc, salt)?;
    let mut text = Vec::new(alloc);
    text.extend_from_slice(line)?;
    text.extend_from_slice(b"\nnode ")?;
    text.extend_from_slice(node)?;
    text.extend_from_slice(b"\nsalt ")?;
    text.extend_from_slice(before.as_bytes())?;
    text.extend_from_slice(salt.as_bytes())?;
    text.extend_from_slice(b"\n")?;
    Ok(text)
}

// Writes a part after the first `at` bytes.
fn put(out: &mut [u8; 56], at: usize, part: &[u8])
    requires { at + length part.now ≤ 56 }
    ensures { take (at + length part.now) out.new ≡ take at out.old ++ part.now }
{
    out[at..at + part.len()].copy_from_slice(part);
}

// Writes the digits of a number after the first `at` bytes.
fn put_number(out: &mut [u8; 56], at: usize, number: u64)
    requires { at + 16 ≤ 56 }
    ensures { take (at + 16) out.new ≡ take at out.old ++ number_digits number }
{
    let mut digits = [0u8; 16];
    match hex::encode_to_slice(number_bytes_8(number).as_slice(), &mut digits) {
        Ok(()) => put(out, at, &digits),
        Err(_) => put(out, at, &digits),
    }
}

/// Writes the name of a state's staged batch.
pub fn write_name(state: &State, name: &mut [u8; 56])
    ensures name { name.new ≡ bundle_name state.now }
{
    put(name, 0, b"staging/");
    put_number(name, 8, state.moment);
    put_number(name, 24, state.before);
    put_number(name, 40, state.salt);
}
