//! The watched names that a name covers, label by label (RFC 9525, section 6.3).

ghost use Rattle.std.specs.Prelude.{◌≡◌, IfOk, IfSome, IfNone};
ghost use Rattle.std.specs.Str.{str_eq_ignore_ascii_case};
ghost use Rattle.ct_names.specs.Covers.{behind_first, ends_label, at_or_below, wildcard_over, plain_of, covered, narrow, star_parent};

use std::alloc::{AllocError, Global};

// The bytes after the first byte with this value.
pub(crate) fn bytes_behind(byte: u8, bytes: &[u8]) -> Option<&[u8]>
    ensures some { IfSome result (λ r. behind_first byte bytes.now ≡ Some r.now) }
    ensures none { IfNone result (behind_first byte bytes.now ≡ None) }
{
    let mut rest = bytes;
    'rest: while let [first, after @ ..] = rest {
        if *first == byte {
            return Some(after);
        }
        rest = after;
    }
    None
}

// Reports whether a label ends at the end of these bytes: there are none, or the last is a dot.
fn is_label_end(front: &[u8]) -> bool
    ensures { result ≡ ends_label front.now }
{
    match front {
        [] => true,
        [.., last] => *last == 46,
    }
}

/// The name without one dot at its end.
#[tactic(auto, unfolding(crate::specs::Covers::plain_of))]
pub fn without_dot(name: &[u8]) -> &[u8]
    ensures { result.now ≡ plain_of name.now }
{
    match name {
        [front @ .., last] => {
            if *last == 46 {
                return front;
            }
            name
        }
        [] => name,
    }
}

// Reports whether the name is the watched one or below it.
#[tactic(auto, unfolding(crate::specs::Covers::at_or_below))]
fn is_at_or_below(name: &[u8], watched: &[u8]) -> bool
    ensures { result ≡ at_or_below name.now watched.now }
{
    if name.len() < watched.len() {
        return false;
    }
    let (front, back) = name.split_at(name.len() - watched.len());
    is_label_end(front) && back.eq_ignore_ascii_case(watched)
}

// The bytes after the `*.` with which the name begins.
#[tactic(auto, unfolding(crate::specs::Covers::star_parent))]
pub(crate) fn parent_of_star(name: &[u8]) -> Option<&[u8]>
    ensures some { IfSome result (λ r. star_parent name.now ≡ Some r.now) }
    ensures none { IfNone result (star_parent name.now ≡ None) }
{
    match name {
        [star, dot, parent @ ..] => {
            if *star == 42 && *dot == 46 {
                Some(parent)
            } else {
                None
            }
        }
        _ => None,
    }
}

// Reports whether the name is a wildcard that matches the watched name.
#[tactic(auto, unfolding(crate::specs::Covers::wildcard_over))]
pub(crate) fn is_wildcard_over(name: &[u8], watched: &[u8]) -> bool
    ensures { result ≡ wildcard_over name.now watched.now }
{
    match parent_of_star(name) {
        Some(parent) => match bytes_behind(46, watched) {
            Some(rest) => rest.eq_ignore_ascii_case(parent),
            None => false,
        },
        None => false,
    }
}

/// Reports whether a name of a certificate is the watched one or below it, or is a wildcard that matches it. In a wildcard, `*` is the
/// whole first label, and matches one label (RFC 9525, section 6.3). The case of ASCII letters makes no difference, and one dot at the
/// name's end is ignored.
#[tactic(auto, unfolding(crate::specs::Covers::covered))]
pub fn covers(name: &[u8], watched: &[u8]) -> bool
    ensures { result ≡ covered name.now watched.now }
{
    let name = without_dot(name);
    is_at_or_below(name, watched) || is_wildcard_over(name, watched)
}

/// The characters of a BMPString (X.690, section 8.23), one byte each, with 255 for characters above 255, which no host name has.
///
/// # Errors
///
/// Returns an error if memory runs out.
pub fn narrowed(alloc: Global, bytes: &[u8]) -> Result<Vec<u8>, AllocError>
    ensures { IfOk result (λ v. v.items ≡ narrow bytes.now) }
{
    let mut out = Vec::new(alloc);
    let mut rest = bytes;
    'rest: while let [high, low, after @ ..] = rest {
        out.push(if *high == 0 { *low } else { 255 })?;
        rest = after;
    }
    Ok(out)
}
