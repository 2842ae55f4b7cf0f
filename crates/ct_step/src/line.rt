//! Writes and reads the line.

ghost use Rattle.std.specs.Prelude.{◌≡◌, ℕ, List, length, IfOk, IfSome, IsSome, MatchOption, string_bytes};
ghost use Rattle.hex.specs.Hex.{encode_lower, IsBytes};
ghost use Rattle.ct_step.specs.StateLines.{IsStateLine, NoStateLine, state_line_bytes, state_line_text};

use ct_codec::numbers::{number_bytes_8, number_of_8};
use std::alloc::{AllocError, Global};

/// The content of a tiled log's lock. Any values of the fields are a `StateLine`: the step must ensure their meaning.
#[derive(Clone, Copy, Debug, PartialEq, Eq)]
pub struct StateLine {
    /// The number of leaves of the log.
    pub tree_size: u64,
    /// The timestamp of its head, in milliseconds.
    pub timestamp: u64,
    /// The root of its tree.
    pub root: [u8; 32],
    /// The digest of all the objects of the step that made this state.
    pub bundle: [u8; 32],
    /// The digest of the partial data tile at the log's end.
    pub data_tile: [u8; 32],
    /// The digest of the line before this one.
    pub before: [u8; 32],
}

// Returns the fields, one after the other.
fn bytes_of(alloc: Global, line: &StateLine) -> Result<Vec<u8>, AllocError>
    ensures { IfOk result (λ b. b.items ≡ state_line_bytes line.now) }
{
    let mut bytes = Vec::new(alloc);
    bytes.extend_from_slice(&number_bytes_8(line.tree_size))?;
    bytes.extend_from_slice(&number_bytes_8(line.timestamp))?;
    bytes.extend_from_slice(&line.root)?;
    bytes.extend_from_slice(&line.bundle)?;
    bytes.extend_from_slice(&line.data_tile)?;
    bytes.extend_from_slice(&line.before)?;
    Ok(bytes)
}

// Returns the line with these fields, one after the other.
fn line_of(bytes: &[u8]) -> Option<StateLine>
    requires { length bytes.now ≡ 144 }
    ensures some { IsSome result }
    ensures fields { IfSome result (λ line. state_line_bytes line ≡ bytes.now) }
    ensures fits { IfSome result IsStateLine }
{
    let (tree_size, rest) = bytes.split_first_chunk::<8>()?;
    let (timestamp, rest) = rest.split_first_chunk::<8>()?;
    let (root, rest) = rest.split_first_chunk::<32>()?;
    let (bundle, rest) = rest.split_first_chunk::<32>()?;
    let (data_tile, rest) = rest.split_first_chunk::<32>()?;
    let (before, _) = rest.split_first_chunk::<32>()?;
    Some(StateLine {
        tree_size: number_of_8(tree_size),
        timestamp: number_of_8(timestamp),
        root: *root,
        bundle: *bundle,
        data_tile: *data_tile,
        before: *before,
    })
}

// Returns the 144 bytes that these digits in lower case write.
fn bytes_of_digits(digits: &[u8]) -> Option<[u8; 144]>
    ensures { MatchOption result ((b : List ℕ) → length b ≡ 144 → IsBytes b → encode_lower b ≡ digits.now → ⊥)
        (λ b. (length b ≡ 144) × (encode_lower b ≡ digits.now)) }
{
    let mut bytes = [0u8; 144];
    if hex::decode_to_slice(digits, &mut bytes).is_err() {
        return None;
    }
    let mut again = [0u8; 288];
    if hex::encode_to_slice(&bytes, &mut again).is_err() {
        return None;
    }
    if again.as_slice() == digits {
        Some(bytes)
    } else {
        None
    }
}

impl StateLine {
    /// Returns the line's text, without an end of line. Allocates the text and its bytes.
    pub fn write(&self, alloc: Global) -> Result<String, AllocError>
        ensures { IfOk result (λ text. string_bytes text ≡ state_line_text self.now) }
    {
        let digits = hex::encode(alloc, bytes_of(alloc, self)?)?;
        let mut text = String::from_str(alloc, "growth ")?;
        text.push_str(&digits)?;
        Ok(text)
    }

    /// Returns the line with this text, which must not have an end of line, or None if it is the text of no line. Allocates no memory.
    pub fn read(text: &[u8]) -> Option<StateLine>
        ensures { MatchOption result (NoStateLine text.now) (λ line. IsStateLine line × (state_line_text line ≡ text.now)) }
    {
        let (word, digits) = text.split_first_chunk::<7>()?;
        if *word != *b"growth " {
            return None;
        }
        let bytes = bytes_of_digits(digits)?;
        line_of(&bytes)
    }
}
