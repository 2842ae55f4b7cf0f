//! The facts about a state that follow from its types. Each function does nothing, and its contract is a fact.

ghost use Rattle.std.specs.Prelude.{◌≡◌, ◌<◌, ◌^◌, length};
ghost use Rattle.ct_verify.specs.Laws.{AreHashes};
ghost use Rattle.ct_codec.specs.Parts.{joined};
ghost use Rattle.ct_monitor.specs.StateText.{AreNewestInBytes, AreSubtreesInBytes, IsInBytes, IsNoneOrInBytes};

use crate::{Newest, Peaks, Watcher};
use ct_tree::{Head, Sha256Hash};

// The numbers of a head fit in 64 bits, and its root has 32 bytes.
fn is_head(tree_size: u64, timestamp: u64, root: [u8; 32])
    ensures tree_size { tree_size < 2 ^ 64 }
    ensures timestamp { timestamp < 2 ^ 64 }
    ensures root { length root ≡ 32 }
{}

// The same for a head that may be missing.
fn is_maybe_head(head: Option<Head>)
    ensures { IsNoneOrInBytes head }
{
    match head {
        Some(head) => is_head(head.tree_size, head.timestamp, head.root),
        None => {}
    }
}

// A number fits in 64 bits.
fn is_number(number: u64)
    ensures { number < 2 ^ 64 }
{}

// The numbers of timestamps fit in 64 bits.
pub(crate) fn are_newest(newest: Newest)
    ensures { AreNewestInBytes newest }
{
    is_number(newest.accepted);
    is_number(newest.waiting);
}

// A hash has 32 bytes.
pub(crate) fn are_hashes(hashes: &[[u8; 32]])
    ensures { AreHashes hashes.now }
{}

// The bytes of hashes are no more than memory can hold.
fn have_size(hashes: &[[u8; 32]])
    ensures { length (joined hashes.now) < 2 ^ 64 }
{
    let bytes = hashes.as_flattened();
    is_number(bytes.len() as u64);
}

// The numbers and the roots of subtrees are in range.
fn are_subtrees(peaks: &Peaks)
    ensures { AreSubtreesInBytes peaks.now }
{
    is_number(peaks.size());
    are_hashes(peaks.subtrees());
    have_size(peaks.subtrees());
}

// The parts of a state are in range.
pub(crate) fn is_in_bytes(watcher: &Watcher<Sha256Hash>)
    ensures { IsInBytes watcher.now }
{
    is_maybe_head(watcher.accepted());
    is_maybe_head(watcher.waiting());
    are_newest(watcher.newest());
    are_subtrees(watcher.sure());
    are_subtrees(watcher.all());
}
