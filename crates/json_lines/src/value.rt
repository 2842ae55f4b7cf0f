//! Lines as JSON values, and bytes as JSON values.

ghost use Rattle.std.specs.Prelude.{◌≡◌, ◌≤◌, length, IfOk, IfErr, option_map, string_bytes};
ghost use Rattle.serde_json.specs.View.{view};
ghost use Rattle.json_lines.specs.Values.{value_of_line, base64_text, bytes_data, hashes_data};

use crate::wanting::Unread;
use base64::engine::general_purpose::STANDARD;
use serde_json::Value;
use std::alloc::{AllocError, Global};

/// The number of bytes of the longest request, without the end of its line.
pub const LONGEST_REQUEST: usize = 1_048_576;

/// The JSON value of a line (RFC 8259), without the byte that ends it. There is none if the line is not UTF-8 or not JSON, or if it has
/// more than `longest` bytes; in the last case it takes no memory.
///
/// # Errors
///
/// Returns an error if memory runs out.
pub fn line_value(alloc: Global, longest: usize, line: &[u8]) -> Result<Option<Value>, AllocError>
    ensures value { IfOk result (λ o. option_map view o ≡ value_of_line longest line.now) }
    ensures fits { IfErr result (λ _. length line.now ≤ longest) }
{
    if line.len() > longest {
        return Ok(None);
    }
    match Value::from_slice(alloc, line) {
        Ok(value) => Ok(Some(value)),
        Err(error) => Unread::from(error).value,
    }
}

// The base64 of bytes.
#[tactic(auto, unfolding(crate::specs::Values::base64_text))]
fn base64_of(alloc: Global, bytes: &[u8]) -> Result<String, AllocError>
    ensures { IfOk result (λ s. string_bytes s ≡ base64_text bytes.now) }
{
    STANDARD.encode(alloc, bytes)
}

/// Bytes as a JSON string.
pub fn bytes_value(alloc: Global, bytes: &[u8]) -> Result<Value, AllocError>
    ensures { IfOk result (λ v. view v ≡ bytes_data bytes.now) }
{
    Ok(Value::String(base64_of(alloc, bytes)?))
}

/// Hashes as a JSON array.
pub fn hashes_value(alloc: Global, hashes: &[[u8; 32]]) -> Result<Value, AllocError>
    ensures { IfOk result (λ v. view v ≡ hashes_data hashes.now) }
{
    let mut values = Vec::with_capacity(alloc, hashes.len())?;
    for hash in hashes {
        values.push(bytes_value(alloc, hash)?)?;
    }
    Ok(Value::Array(values))
}
