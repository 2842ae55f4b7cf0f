//! Checks whether the parts of a state fit one another.

ghost use Rattle.std.specs.Prelude.{◌≡◌, ◌<◌, [], None, length};
ghost use Rattle.std.specs.Bool.{MatchBool};
ghost use Rattle.sha2.specs.Sha256.{sha256};
ghost use Rattle.ct_monitor.specs.Verdicts.{IsGrownLater};
ghost use Rattle.ct_tree.specs.Peaks.{root_of_peaks};
ghost use Rattle.ct_monitor.specs.Fitting.{AcceptedFits, AreAcceptedOf, FitsTogether, HasSubtrees, NewestFits, WaitingFits};

use crate::{Peaks, Watcher};
use ct_tree::{Head, NodeHash, Sha256Hash, is_same_digest, node_hash};

// Reports whether there are as many subtrees as a tree with this number of leaves has.
fn has_subtrees(peaks: &Peaks) -> bool
    ensures { MatchBool result (HasSubtrees peaks.now) (HasSubtrees peaks.now → ⊥) }
{
    peaks.subtrees().len() == peaks.size().count_ones() as usize
}

// The root of perfect subtrees, largest first.
fn joined<H: NodeHash>(h: &H, subtrees: &[[u8; 32]]) -> [u8; 32]
    requires { 0 < length subtrees.now }
    ensures { result ≡ root_of_peaks H.digest subtrees.now }
{
    let last = subtrees.len() - 1;
    let mut root = subtrees[last];
    for i in (0..last).rev() {
        root = node_hash(h, &subtrees[i], &root);
    }
    root
}

// The root of no leaves: the hash of no bytes.
fn no_leaves<H: NodeHash>(h: &H) -> [u8; 32]
    ensures { result ≡ H.digest [] }
{
    h.hash(&[])
}

// The root of perfect subtrees, largest first, whatever they are. `ct_tree::root_of_subtrees` states it only for those that a list of
// leaves has.
pub(crate) fn root_of<H: NodeHash>(h: &H, subtrees: &[[u8; 32]]) -> [u8; 32]
    ensures { result ≡ root_of_peaks H.digest subtrees.now }
{
    if subtrees.is_empty() {
        no_leaves(h)
    } else {
        joined(h, subtrees)
    }
}

// Reports whether the accepted head has the number and the root of the accepted leaves.
fn accepted_fits(accepted: Option<Head>, sure: &Peaks) -> bool
    ensures { MatchBool result (AcceptedFits sha256 accepted sure.now) (AcceptedFits sha256 accepted sure.now → ⊥) }
{
    match accepted {
        None => sure.size() == 0,
        Some(head) => {
            let root = root_of(&Sha256Hash, sure.subtrees());
            head.tree_size == sure.size() && is_same_digest(&head.root, &root)
        }
    }
}

// Reports whether two lists of subtrees are the same.
fn are_same(one: &[[u8; 32]], two: &[[u8; 32]]) -> bool
    ensures { MatchBool result (one.now ≡ two.now) (one.now ≡ two.now → ⊥) }
{
    one == two
}

// Reports whether fewer leaves are accepted than were read, or equally many with the same subtrees.
fn are_accepted_of(sure: &Peaks, all: &Peaks) -> bool
    ensures { MatchBool result (AreAcceptedOf sure.now all.now) (AreAcceptedOf sure.now all.now → ⊥) }
{
    sure.size() < all.size()
        || (sure.size() == all.size() && are_same(sure.subtrees(), all.subtrees()))
}

// Reports whether all leaves that were read are accepted.
fn are_all(sure: &Peaks, all: &Peaks) -> bool
    ensures { MatchBool result (WaitingFits None 0 None sure.now all.now) (WaitingFits None 0 None sure.now all.now → ⊥) }
{
    sure.size() == all.size() && are_same(sure.subtrees(), all.subtrees())
}

// Reports whether a head is larger and later than the accepted one.
fn is_grown_later(accepted: Option<Head>, newest: u64, head: &Head) -> bool
    ensures { MatchBool result (IsGrownLater accepted newest head.now) (IsGrownLater accepted newest head.now → ⊥) }
{
    match accepted {
        None => true,
        Some(known) => known.tree_size < head.tree_size && newest < head.timestamp,
    }
}

// Reports whether the waiting head and the leaves that were read fit.
fn waiting_fits(
    accepted: Option<Head>,
    newest: u64,
    waiting: Option<Head>,
    sure: &Peaks,
    all: &Peaks,
) -> bool
    ensures { MatchBool result (WaitingFits accepted newest waiting sure.now all.now) (WaitingFits accepted newest waiting sure.now all.now → ⊥) }
{
    match waiting {
        None => are_all(sure, all),
        Some(head) => {
            is_grown_later(accepted, newest, &head)
                && all.size() < head.tree_size
                && are_accepted_of(sure, all)
        }
    }
}

// Reports whether the newest timestamp of a known head is not before its earliest one.
fn newest_fits(known: Option<Head>, newest: u64) -> bool
    ensures { MatchBool result (NewestFits known newest) (NewestFits known newest → ⊥) }
{
    match known {
        None => true,
        Some(head) => head.timestamp <= newest,
    }
}

/// Reports whether the parts of a state fit one another.
pub(crate) fn fits_together(watcher: &Watcher<Sha256Hash>) -> bool
    ensures { MatchBool result (FitsTogether sha256 watcher.now) (FitsTogether sha256 watcher.now → ⊥) }
{
    let sure = watcher.sure();
    let all = watcher.all();
    let accepted = watcher.accepted();
    let waiting = watcher.waiting();
    let newest = watcher.newest();
    has_subtrees(sure)
        && has_subtrees(all)
        && accepted_fits(accepted, sure)
        && waiting_fits(accepted, newest.accepted, waiting, sure, all)
        && newest_fits(accepted, newest.accepted)
        && newest_fits(waiting, newest.waiting)
}
