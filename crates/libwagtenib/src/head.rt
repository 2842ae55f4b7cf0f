//! Tree heads, as callers in C hand them in, and as the bytes under a signature.

ghost use Rattle.std.specs.Prelude.{◌≡◌, ◌+◌, ◌≤◌, ◌++◌, length, take, MatchOption};
ghost use Rattle.libwagtenib.specs.Guard.{head_of_c, IsStateOf, IsOfNoHead};

use ct_codec::Reader;
use ct_codec::numbers::number_bytes_8;
use ct_tree::Head;

/// A tree head without its signature (RFC 6962, section 3.5). The timestamp is in milliseconds.
#[repr(C)]
#[derive(Clone, Copy)]
pub struct TreeHead {
    pub tree_size: u64,
    pub timestamp: u64,
    pub root: [u8; 32],
}

// The same head, as the crates below have it.
pub(crate) fn head_of(head: &TreeHead) -> Head
    ensures { result ≡ head_of_c head.now }
{
    Head {
        tree_size: head.tree_size,
        timestamp: head.timestamp,
        root: head.root,
    }
}

// The same head, as callers in C have it.
pub(crate) fn of_head(head: &Head) -> TreeHead
    ensures { head_of_c result ≡ head.now }
{
    TreeHead {
        tree_size: head.tree_size,
        timestamp: head.timestamp,
        root: head.root,
    }
}

// Writes a part after the first `at` bytes.
fn put(out: &mut [u8; 50], at: usize, part: &[u8])
    requires { at + length part.now ≤ 50 }
    ensures { take (at + length part.now) out.new ≡ take at out.old ++ part.now }
{
    out[at..at + part.len()].copy_from_slice(part);
}

// Writes the TreeHeadSignature of a head.
pub(crate) fn write_state(head: &Head, out: &mut [u8; 50])
    ensures { IsStateOf head.now out.new }
{
    put(out, 0, &[0, 1]);
    put(out, 2, &number_bytes_8(head.timestamp));
    put(out, 10, &number_bytes_8(head.tree_size));
    put(out, 18, &head.root);
}

// The head whose TreeHeadSignature the bytes are.
pub(crate) fn read_state(bytes: &[u8]) -> Option<Head>
    ensures { MatchOption result (IsOfNoHead bytes.now) (λ head. IsStateOf head bytes.now) }
{
    let mut fields = Reader::new(bytes);
    let version = fields.number_1()?;
    let signature_type = fields.number_1()?;
    let timestamp = fields.number_8()?;
    let tree_size = fields.number_8()?;
    let root = fields.key_hash()?;
    if version == 0 && signature_type == 1 && fields.is_at_end() {
        Some(Head {
            tree_size,
            timestamp,
            root: *root,
        })
    } else {
        None
    }
}
