//! Reads a lock's text, and the name of a staged batch.

ghost use Rattle.std.specs.Prelude.{◌≡◌, ◌≤◌, ◌+◌, length, bytes_eq};
ghost use Rattle.ct_node.specs.LockText.{digits_number, number_from, has_word, has_words, moment_before, numbers_said, text_said, says_root, numbers_state, bundle_name, name_state};

use crate::State;
use crate::lock_writing::write_name;

/// The content of a lock's text.
#[derive(Clone, Copy, Debug, PartialEq, Eq)]
pub struct Said {
    /// The number of entries.
    pub size: u64,
    /// The state.
    pub state: State,
}

// Returns the number that these 16 digits write, or None if they are not digits.
#[tactic(auto, unfolding(crate::specs::LockText::digits_number))]
fn number_of(digits: &[u8]) -> Option<u64>
    ensures { result ≡ digits_number digits.now }
{
    let mut bytes = [0u8; 8];
    match hex::decode_to_slice(digits, &mut bytes) {
        Ok(()) => Some(u64::from_be_bytes(bytes)),
        Err(_) => None,
    }
}

// Returns the number whose 16 digits begin at this offset of a text.
fn number_in(text: &[u8], from: usize) -> Option<u64>
    requires { from + 16 ≤ length text.now }
    ensures { result ≡ number_from from text.now }
{
    let (_, rest) = text.split_at(from);
    let (digits, _) = rest.split_at(16);
    number_of(digits)
}

// Reports whether a text has a word at this offset.
fn has(text: &[u8], from: usize, word: &[u8]) -> bool
    requires { from + length word.now ≤ length text.now }
    ensures { result ≡ has_word from word.now text.now }
{
    let (_, rest) = text.split_at(from);
    let (part, _) = rest.split_at(word.len());
    part == word
}

// Reports whether a lock's text has its words at their offsets.
fn is_worded(text: &[u8]) -> bool
    requires { 340 ≤ length text.now }
    ensures { result ≡ has_words text.now }
{
    has(text, 0, b"growth ")
        && has(text, 295, b"\nnode ")
        && has(text, text.len() - 39, b"\nsalt ")
        && has(text, text.len() - 1, b"\n")
}

// Returns the timestamp of the state before, or 0 if the digits are not a timestamp before the state's.
fn before_of(digits: u64, moment: u64) -> u64
    ensures { result ≡ moment_before digits moment }
{
    if digits < moment { digits } else { 0 }
}

// Returns the content of a lock's text, read from its numbers.
fn numbers_in(text: &[u8]) -> Option<Said>
    requires { 340 ≤ length text.now }
    ensures { result ≡ numbers_said text.now }
{
    let size = number_in(text, 7)?;
    let moment = number_in(text, 23)?;
    let before = number_in(text, text.len() - 33)?;
    let salt = number_in(text, text.len() - 17)?;
    Some(Said {
        size,
        state: State {
            moment,
            before: before_of(before, moment),
            salt,
        },
    })
}

/// Returns the content of a lock's text, or None if the bytes are not a lock's text.
pub fn said_in(text: &[u8]) -> Option<Said>
    ensures said { result ≡ text_said text.now }
{
    if text.len() < 340 {
        return None;
    }
    if is_worded(text) {
        numbers_in(text)
    } else {
        None
    }
}

/// Reports whether a lock's text has this root, which is written in 64 digits.
pub fn has_root(text: &[u8], root: &[u8; 32]) -> bool
    ensures root { result ≡ says_root text.now root.now }
{
    let mut digits = [0u8; 64];
    match hex::encode_to_slice(root.as_slice(), &mut digits) {
        Ok(()) => text.len() >= 103 && has(text, 39, &digits),
        Err(_) => false,
    }
}

// Returns the state whose numbers are in a name.
fn state_in(name: &[u8]) -> Option<State>
    requires { length name.now ≡ 56 }
    ensures { result ≡ numbers_state name.now }
{
    let moment = number_in(name, 8)?;
    let before = number_in(name, 24)?;
    let salt = number_in(name, 40)?;
    Some(State {
        moment,
        before,
        salt,
    })
}

// Reports whether a state's staged batch has this name.
fn has_name(state: &State, name: &[u8]) -> bool
    ensures { result ≡ bytes_eq (bundle_name state.now) name.now }
{
    let mut written = [0u8; 56];
    write_name(state, &mut written);
    written.as_slice() == name
}

/// Returns the state whose staged batch has this name, or None if no batch has it. A name with digits in upper case is that of no batch.
pub fn state_of_name(name: &[u8]) -> Option<State>
    ensures state { result ≡ name_state name.now }
{
    if name.len() != 56 {
        return None;
    }
    let state = state_in(name)?;
    if has_name(&state, name) {
        Some(state)
    } else {
        None
    }
}
