//! The host in a mail address and in a URI, and the text of an IP address.

ghost use Rattle.std.specs.Prelude.{◌≡◌, ◌≤◌, IfOk, length};
ghost use Rattle.std.specs.Option.{option_map};
ghost use Rattle.std.specs.Str.{str_eq_ignore_ascii_case};
ghost use Rattle.ct_names.specs.Hosts.{behind_last, before_any, authority_host, uri_host, address_text, is_text};

use crate::matching::bytes_behind;
use std::alloc::{AllocError, Global};
use std::net::{Ipv4Addr, Ipv6Addr};

// The bytes after the last byte with this value.
#[tactic(auto, using(crate::proofs::Hosting::latest_again))]
pub(crate) fn behind_last(byte: u8, bytes: &[u8]) -> Option<&[u8]>
    ensures { option_map (λ h. h.now) result ≡ behind_last byte bytes.now }
{
    let mut found = None;
    let mut rest = bytes;
    'rest: while let [first, after @ ..] = rest {
        if *first == byte {
            found = Some(after);
        }
        rest = after;
    }
    found
}

// The number of bytes before the first byte with one of these values.
fn size_before(one: u8, two: u8, three: u8, bytes: &[u8]) -> usize
    ensures size { result ≡ length (before_any one two three bytes.now) }
    ensures within { result ≤ length bytes.now }
{
    let mut rest = bytes;
    'rest: while let [first, after @ ..] = rest {
        if *first == one || *first == two || *first == three {
            return bytes.len() - rest.len();
        }
        rest = after;
    }
    bytes.len()
}

// The bytes before the first byte with one of these values.
#[tactic(auto, using(crate::proofs::Hosting::before_is_front))]
fn bytes_before(one: u8, two: u8, three: u8, bytes: &[u8]) -> &[u8]
    ensures { result.now ≡ before_any one two three bytes.now }
{
    &bytes[..size_before(one, two, three, bytes)]
}

// The host in an authority: without user information and port (RFC 3986, section 3.2).
fn host_of_authority(authority: &[u8]) -> &[u8]
    ensures { result.now ≡ authority_host authority.now }
{
    match behind_last(64, authority) {
        Some(host) => bytes_before(58, 58, 58, host),
        None => bytes_before(58, 58, 58, authority),
    }
}

// The host in a URI that has an authority (RFC 3986, section 3).
pub(crate) fn host_of_uri(uri: &[u8]) -> Option<&[u8]>
    ensures { option_map (λ h. h.now) result ≡ uri_host uri.now }
{
    match bytes_behind(58, uri) {
        Some(rest) => match rest {
            [first, second, behind @ ..] => {
                if *first == 47 && *second == 47 {
                    return Some(host_of_authority(bytes_before(47, 63, 35, behind)));
                }
                None
            }
            _ => None,
        },
        None => None,
    }
}

// The text of an IP address of four octets or of sixteen (RFC 5952).
pub(crate) fn text_of_address(alloc: Global, bytes: &[u8]) -> Result<Option<Vec<u8>>, AllocError>
    ensures { IfOk result (λ t. option_map (λ v. v.items) t ≡ address_text bytes.now) }
{
    match bytes {
        [a, b, c, d] => {
            let address = Ipv4Addr::new(*a, *b, *c, *d);
            let text = format!(in alloc; "{address}")?;
            Ok(Some(text.into_bytes()))
        }
        [a, b, c, d, e, f, g, h, i, j, k, l, m, n, o, p] => {
            let address = Ipv6Addr::from_octets([
                *a, *b, *c, *d, *e, *f, *g, *h, *i, *j, *k, *l, *m, *n, *o, *p,
            ]);
            let text = format!(in alloc; "{address}")?;
            Ok(Some(text.into_bytes()))
        }
        _ => Ok(None),
    }
}

// Reports whether an IP address has this text.
pub(crate) fn is_address(alloc: Global, bytes: &[u8], watched: &[u8]) -> Result<bool, AllocError>
    ensures { IfOk result (λ told. told ≡ is_text (address_text bytes.now) watched.now) }
{
    match text_of_address(alloc, bytes)? {
        Some(text) => Ok(text.eq_ignore_ascii_case(watched)),
        None => Ok(false),
    }
}
