//! Elements read from the front of bytes (X.690, sections 8.1 and 10.1).

ghost use Rattle.std.specs.Prelude.{◌≡◌, ◌<◌, length, IfOk};
ghost use Rattle.std.specs.Option.{option_map};
ghost use Rattle.ct_promise.specs.DerReading.{Gives, minimal, long_1, long_2, long_3, long_4, length_at, element_at, expected_at, only_at, optional_at};

use crate::der_fault::DerFault;

/// An element as a view of the input (X.690, section 8.1.1): its tag, and the bytes of its content.
#[derive(Clone, Copy)]
pub struct Element<'a> {
    /// The identifier octet: the tag's number, with its class and form.
    pub tag: u8,
    /// The contents octets.
    pub content: &'a [u8],
}

// The length, unless fewer bytes would do, and the bytes after it. `least` is the least length that needs that many bytes.
fn minimal_length(least: usize, size: usize, rest: &[u8]) -> Result<(usize, &[u8]), DerFault>
    ensures gives { Gives (λ x. (x.0, x.1.now)) result (minimal least size rest.now) }
    ensures same { IfOk result (λ x. x.1.now ≡ rest.now) }
{
    if size < least {
        return Err(DerFault::PaddedLength);
    }
    Ok((size, rest))
}

// The length in one byte, and the bytes after it.
#[tactic(auto, unfolding(crate::specs::DerReading::long_1))]
fn length_of_1(bytes: &[u8]) -> Result<(usize, &[u8]), DerFault>
    ensures gives { Gives (λ x. (x.0, x.1.now)) result (long_1 bytes.now) }
    ensures shorter { IfOk result (λ x. length x.1.now < length bytes.now) }
{
    match bytes {
        [a, rest @ ..] => minimal_length(128, *a as usize, rest),
        _ => Err(DerFault::Truncated),
    }
}

// The length in two bytes, and the bytes after it.
#[tactic(auto, unfolding(crate::specs::DerReading::long_2))]
fn length_of_2(bytes: &[u8]) -> Result<(usize, &[u8]), DerFault>
    ensures gives { Gives (λ x. (x.0, x.1.now)) result (long_2 bytes.now) }
    ensures shorter { IfOk result (λ x. length x.1.now < length bytes.now) }
{
    match bytes {
        [a, b, rest @ ..] => minimal_length(256, *a as usize * 256 + *b as usize, rest),
        _ => Err(DerFault::Truncated),
    }
}

// The length in three bytes, and the bytes after it.
#[tactic(auto, unfolding(crate::specs::DerReading::long_3))]
fn length_of_3(bytes: &[u8]) -> Result<(usize, &[u8]), DerFault>
    ensures gives { Gives (λ x. (x.0, x.1.now)) result (long_3 bytes.now) }
    ensures shorter { IfOk result (λ x. length x.1.now < length bytes.now) }
{
    match bytes {
        [a, b, c, rest @ ..] => minimal_length(
            65536,
            *a as usize * 65536 + *b as usize * 256 + *c as usize,
            rest,
        ),
        _ => Err(DerFault::Truncated),
    }
}

// The length in four bytes, and the bytes after it.
#[tactic(auto, unfolding(crate::specs::DerReading::long_4))]
fn length_of_4(bytes: &[u8]) -> Result<(usize, &[u8]), DerFault>
    ensures gives { Gives (λ x. (x.0, x.1.now)) result (long_4 bytes.now) }
    ensures shorter { IfOk result (λ x. length x.1.now < length bytes.now) }
{
    match bytes {
        [a, b, c, d, rest @ ..] => minimal_length(
            16777216,
            *a as usize * 16777216 + *b as usize * 65536 + *c as usize * 256 + *d as usize,
            rest,
        ),
        _ => Err(DerFault::Truncated),
    }
}

// The length that the bytes begin with, and the bytes after it.
#[tactic(auto, unfolding(crate::specs::DerReading::length_at))]
fn length_and_rest(bytes: &[u8]) -> Result<(usize, &[u8]), DerFault>
    ensures shorter { IfOk result (λ x. length x.1.now < length bytes.now) }
    ensures gives { Gives (λ x. (x.0, x.1.now)) result (length_at bytes.now) }
{
    match bytes {
        [] => Err(DerFault::Truncated),
        [first, rest @ ..] => {
            if *first < 128 {
                Ok((*first as usize, rest))
            } else if *first == 128 {
                Err(DerFault::IndefiniteLength)
            } else if *first == 129 {
                length_of_1(rest)
            } else if *first == 130 {
                length_of_2(rest)
            } else if *first == 131 {
                length_of_3(rest)
            } else if *first == 132 {
                length_of_4(rest)
            } else {
                Err(DerFault::LongLength)
            }
        }
    }
}

/// The element that the bytes begin with, and the bytes after it (X.690, section 8.1.1).
///
/// # Errors
///
/// If the bytes do not begin with an element: the first fault from the left.
#[tactic(auto, unfolding(crate::specs::DerReading::element_at))]
pub fn next_element(bytes: &[u8]) -> Result<(Element<'_>, &[u8]), DerFault>
    ensures gives { Gives (λ x. (x.0.tag, x.0.content.now, x.1.now)) result (element_at bytes.now) }
    ensures shorter { IfOk result (λ x. length x.1.now < length bytes.now) }
{
    match bytes {
        [] => Err(DerFault::Truncated),
        [tag, rest @ ..] => {
            if *tag % 32 == 31 {
                return Err(DerFault::LongTag);
            }
            let (size, rest) = length_and_rest(rest)?;
            if rest.len() < size {
                return Err(DerFault::Truncated);
            }
            let (content, rest) = rest.split_at(size);
            Ok((Element { tag: *tag, content }, rest))
        }
    }
}

/// The content of the element with this tag that the bytes begin with, and the bytes after it.
///
/// # Errors
///
/// The errors of [`next_element`], and `OtherTag` if the bytes begin with an element with another tag.
#[tactic(auto, unfolding(crate::specs::DerReading::expected_at))]
pub fn expected(tag: u8, bytes: &[u8]) -> Result<(&[u8], &[u8]), DerFault>
    ensures gives { Gives (λ x. (x.0.now, x.1.now)) result (expected_at tag bytes.now) }
    ensures shorter { IfOk result (λ x. length x.1.now < length bytes.now) }
{
    let (found, rest) = next_element(bytes)?;
    if found.tag != tag {
        return Err(DerFault::OtherTag);
    }
    Ok((found.content, rest))
}

/// The content of the element with this tag that the bytes consist of, to their end.
///
/// # Errors
///
/// The errors of [`expected`], and `Trailing` if bytes follow the element.
#[tactic(auto, unfolding(crate::specs::DerReading::only_at))]
pub fn only(tag: u8, bytes: &[u8]) -> Result<&[u8], DerFault>
    ensures { Gives (λ x. x.now) result (only_at tag bytes.now) }
{
    let (content, rest) = expected(tag, bytes)?;
    if !rest.is_empty() {
        return Err(DerFault::Trailing);
    }
    Ok(content)
}

/// The content of the element with this tag that the bytes begin with, and the bytes after it. If the bytes are empty or begin with another
/// tag, it returns no content and all the bytes.
///
/// # Errors
///
/// The errors of [`expected`], if the bytes begin with this tag.
#[tactic(auto, unfolding(crate::specs::DerReading::optional_at))]
pub fn optional(tag: u8, bytes: &[u8]) -> Result<(Option<&[u8]>, &[u8]), DerFault>
    ensures { Gives (λ x. (option_map (λ c. c.now) x.0, x.1.now)) result (optional_at tag bytes.now) }
{
    match bytes {
        [] => Ok((None, bytes)),
        [first, ..] => {
            if *first != tag {
                return Ok((None, bytes));
            }
            let (content, rest) = expected(tag, bytes)?;
            Ok((Some(content), rest))
        }
    }
}
