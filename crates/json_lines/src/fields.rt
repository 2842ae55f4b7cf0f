//! The value under a key of a JSON object, by its type.

ghost use Rattle.std.specs.Prelude.{◌≡◌, ◌++◌, IfOk, option_map, map};
ghost use Rattle.serde_json.specs.View.{view, items_view};
ghost use Rattle.json_lines.specs.Fields.{text_at, number_at, bytes_of, bytes_in, bytes_at, bytes_of_items, bytes_list_at, hash_in, hash_at, hashes_of_items, hashes_at};

use crate::wanting::Undecoded;
use base64::engine::general_purpose::STANDARD;
use serde_json::Value;
use std::alloc::{AllocError, Global};

/// The text under a key.
pub fn text<'v>(value: &'v Value, key: &str) -> Option<&'v str>
    ensures { option_map (λ s. s.now) result ≡ text_at key.now (view value.now) }
{
    match value.get(key) {
        Some(field) => field.as_str(),
        None => None,
    }
}

/// The number under a key.
pub fn number(value: &Value, key: &str) -> Option<u64>
    ensures { result ≡ number_at key.now (view value.now) }
{
    match value.get(key) {
        Some(field) => field.as_u64(),
        None => None,
    }
}

// The bytes whose base64 is this text.
#[tactic(auto, unfolding(crate::specs::Fields::bytes_of))]
fn decode(alloc: Global, text: &str) -> Result<Option<Vec<u8>>, AllocError>
    ensures { IfOk result (λ o. option_map (λ b. b.items) o ≡ bytes_of text.now) }
{
    match STANDARD.decode(alloc, text.as_bytes()) {
        Ok(bytes) => Ok(Some(bytes)),
        Err(error) => Undecoded::from(error).bytes,
    }
}

// The bytes that a value represents.
fn bytes_of_value(alloc: Global, value: &Value) -> Result<Option<Vec<u8>>, AllocError>
    ensures { IfOk result (λ o. option_map (λ b. b.items) o ≡ bytes_in (view value.now)) }
{
    match value.as_str() {
        Some(text) => decode(alloc, text),
        None => Ok(None),
    }
}

/// The bytes under a key.
pub fn bytes(alloc: Global, value: &Value, key: &str) -> Result<Option<Vec<u8>>, AllocError>
    ensures { IfOk result (λ o. option_map (λ b. b.items) o ≡ bytes_at key.now (view value.now)) }
{
    match value.get(key) {
        Some(field) => bytes_of_value(alloc, field),
        None => Ok(None),
    }
}

// The bytes that each of the values represents.
fn bytes_of_values(alloc: Global, values: &[Value]) -> Result<Option<Vec<Vec<u8>>>, AllocError>
    ensures { IfOk result (λ o. option_map (λ v. map (λ c. c.items) v.items) o ≡ bytes_of_items (items_view values.now)) }
{
    let mut all = Vec::new(alloc);
    for value in values {
        let Some(bytes) = bytes_of_value(alloc, value)? else {
            return Ok(None);
        };
        all.push(bytes)?;
    }
    Ok(Some(all))
}

/// The array of bytes under a key.
pub fn bytes_list(
    alloc: Global,
    value: &Value,
    key: &str,
) -> Result<Option<Vec<Vec<u8>>>, AllocError>
    ensures { IfOk result (λ o. option_map (λ v. map (λ c. c.items) v.items) o ≡ bytes_list_at key.now (view value.now)) }
{
    let Some(field) = value.get(key) else {
        return Ok(None);
    };
    match field.as_array() {
        Some(values) => bytes_of_values(alloc, values),
        None => Ok(None),
    }
}

// The hash that a value represents.
fn hash_value(alloc: Global, value: &Value) -> Result<Option<[u8; 32]>, AllocError>
    ensures { IfOk result (λ o. o ≡ hash_in (view value.now)) }
{
    let Some(bytes) = bytes_of_value(alloc, value)? else {
        return Ok(None);
    };
    match <[u8; 32]>::try_from(bytes.as_slice()) {
        Ok(hash) => Ok(Some(hash)),
        Err(_) => Ok(None),
    }
}

/// The hash under a key.
pub fn hash(alloc: Global, value: &Value, key: &str) -> Result<Option<[u8; 32]>, AllocError>
    ensures { IfOk result (λ o. o ≡ hash_at key.now (view value.now)) }
{
    match value.get(key) {
        Some(field) => hash_value(alloc, field),
        None => Ok(None),
    }
}

// The hash that each of the values represents.
fn hash_values(alloc: Global, values: &[Value]) -> Result<Option<Vec<[u8; 32]>>, AllocError>
    ensures { IfOk result (λ o. option_map (λ v. v.items) o ≡ hashes_of_items (items_view values.now)) }
{
    let mut all = Vec::new(alloc);
    for value in values {
        let Some(hash) = hash_value(alloc, value)? else {
            return Ok(None);
        };
        all.push(hash)?;
    }
    Ok(Some(all))
}

/// The array of hashes under a key.
pub fn hashes(alloc: Global, value: &Value, key: &str) -> Result<Option<Vec<[u8; 32]>>, AllocError>
    ensures { IfOk result (λ o. option_map (λ v. v.items) o ≡ hashes_at key.now (view value.now)) }
{
    let Some(field) = value.get(key) else {
        return Ok(None);
    };
    match field.as_array() {
        Some(values) => hash_values(alloc, values),
        None => Ok(None),
    }
}
