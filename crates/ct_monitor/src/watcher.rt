//! An observer of one log.
ghost use Rattle.std.specs.Prelude.{◌≡◌, ◌⊎◌, ◌+◌, ◌-◌, ◌^◌, ◌<◌, ◌≤◌, ℕ, List, [], map, IfOk, MatchOption, OnErr, Some};
ghost use Rattle.ct_tree.specs.Stack.{Stands};
ghost use Rattle.ct_tree.specs.Tree.{hash_leaf};
ghost use Rattle.ct_tree.specs.declared.head.Head.{Head};
ghost use Rattle.ct_monitor.specs.Heads.{IsHeadOfAll};
ghost use Rattle.ct_monitor.specs.declared.verdict.Verdict.TheVariants.{Accepted};
ghost use Rattle.ct_monitor.specs.Watched.{Watched, after_head, after_verdict, earliest_with, newest_with, newest_or, nothing_seen, read_on, waiting_or, with_more};
ghost use Rattle.ct_monitor.specs.Verdicts.{EntriesSay, HeadSays, IsGrownLater, IsGrownLaterThanBoth, IsLarger, IsNoLarger, IsSaid, KnownSay, LeadsTo, LeavesSay, OlderSays, ProofSays, WaitingSays, after_entries};
ghost use Rattle.ct_monitor.specs.WatcherState.{Keeps, WatcherState};

use crate::newest::Newest;
use crate::peaks::Peaks;
use crate::verdict::Verdict;
use ct_tree::{Head, NodeHash, is_same_digest};
use ct_verify::{ProofFault, verify_consistency};
use std::alloc::{AllocError, Global};
use std::marker::Model;

// The verdict on a head that has more leaves than a known one. There is none if it is later than the newest timestamp of the known one.
fn beside_smaller(known: Head, newest: u64, head: &Head) -> Option<Verdict>
    requires { known.tree_size < head.now.tree_size }
    ensures { MatchOption result (IsGrownLater (Some known) newest head.now) (λ v. IsSaid (Some known) newest head.now v) }
{
    if head.timestamp > newest {
        return None;
    }
    let root = known.root;
    Some(Verdict::TimeNotLater(Head {
        tree_size: known.tree_size,
        timestamp: newest,
        root,
    }))
}

// The immediate verdict on a head compared with a known one, of which heads were handed out with timestamps up to `newest`. There is none
// if there is no known head, or if the head has more leaves and is later than all of them.
pub(crate) fn beside(known: Option<Head>, newest: u64, head: &Head) -> Option<Verdict>
    ensures { MatchOption result (IsGrownLater known newest head.now) (λ v. IsSaid known newest head.now v) }
{
    let Some(known) = known else {
        return None;
    };
    if head.tree_size > known.tree_size {
        return beside_smaller(known, newest, head);
    }
    if head.tree_size < known.tree_size {
        return if head.timestamp < known.timestamp {
            Some(Verdict::Older(known))
        } else {
            Some(Verdict::Shrunk(known))
        };
    }
    if is_same_digest(&head.root, &known.root) {
        Some(Verdict::Again)
    } else {
        Some(Verdict::Fork(known))
    }
}

// The verdict on a head compared with the accepted and the waiting one. An accusation comes first.
fn by_known(
    accepted: Option<Head>,
    waiting: Option<Head>,
    newest: Newest,
    head: &Head,
) -> Option<Verdict>
    ensures { MatchOption result (IsGrownLaterThanBoth accepted waiting newest head.now) (λ v. KnownSay accepted waiting newest head.now v) }
{
    let first = beside(accepted, newest.accepted, head);
    let second = beside(waiting, newest.waiting, head);
    let Some(one) = first else {
        return second;
    };
    let Some(two) = second else {
        return Some(one);
    };
    let is_first = one.accuses();
    if is_first {
        return Some(one);
    }
    let is_second = two.accuses();
    if is_second { Some(two) } else { Some(one) }
}

// A known head after this one: if this one has its size, the earlier of the two timestamps counts.
fn earliest_with(known: Option<Head>, head: &Head) -> Option<Head>
    ensures { result ≡ earliest_with known head.now }
{
    match known {
        None => None,
        Some(known) => {
            if known.tree_size == head.tree_size {
                let root = known.root;
                Some(Head {
                    tree_size: known.tree_size,
                    timestamp: known.timestamp.min(head.timestamp),
                    root,
                })
            } else {
                Some(known)
            }
        }
    }
}

// The newest timestamp of a known head after this one: if this one has its size, the later of the two counts.
fn newest_with(known: Option<Head>, newest: u64, head: &Head) -> u64
    ensures { result ≡ newest_with known newest head.now }
{
    match known {
        None => newest,
        Some(known) => {
            if known.tree_size == head.tree_size {
                newest.max(head.timestamp)
            } else {
                newest
            }
        }
    }
}

// The head that waits, or this one.
fn waiting_or(waiting: Option<Head>, head: Head) -> Head
    ensures { result ≡ waiting_or waiting head }
{
    match waiting {
        None => head,
        Some(waiting) => waiting,
    }
}

// The newest timestamp of the head that waits, or of this one.
fn newest_or(waiting: Option<Head>, newest: u64, head: &Head) -> u64
    ensures { result ≡ newest_or waiting newest head.now }
{
    match waiting {
        None => head.timestamp,
        Some(_) => newest,
    }
}

// The known head that has more leaves than this one: the accepted one, or otherwise the waiting one.
fn larger(accepted: Option<Head>, waiting: Option<Head>, head: &Head) -> Option<Head>
    ensures { MatchOption result (IsNoLarger accepted head.now × IsNoLarger waiting head.now)
        (λ known. IsLarger accepted head.now known ⊎ (IsNoLarger accepted head.now × IsLarger waiting head.now known)) }
{
    if let Some(known) = accepted {
        if head.tree_size < known.tree_size {
            return Some(known);
        }
    }
    if let Some(known) = waiting {
        if head.tree_size < known.tree_size {
            return Some(known);
        }
    }
    None
}

// The root of no leaves: the hash of no bytes.
fn no_leaves<H: NodeHash>(h: &H) -> [u8; 32]
    ensures { result ≡ H.digest [] }
{
    h.hash(&[])
}

// The verdict on the head of no leaves, which every tree has grown from.
fn of_no_leaves<H: NodeHash>(h: &H, head: &Head, known: &Head, path: &[[u8; 32]]) -> Verdict
    requires { head.now.tree_size ≡ 0 }
    ensures { LeadsTo H.digest head.now known.now path.now result }
{
    let root = no_leaves(h);
    let same = is_same_digest(&head.root, &root);
    if same {
        Verdict::Consistent
    } else {
        Verdict::Inconsistent(ProofFault::FirstMismatch)
    }
}

// The verdict on a consistency proof from an older head to a known one.
fn leads_to<H: NodeHash>(h: &H, head: &Head, known: &Head, path: &[[u8; 32]]) -> Verdict
    ensures { LeadsTo H.digest head.now known.now path.now result }
{
    if head.tree_size == 0 {
        return of_no_leaves(h, head, known, path);
    }
    match verify_consistency(
        h,
        head.tree_size,
        known.tree_size,
        &head.root,
        &known.root,
        path,
    ) {
        Ok(()) => Verdict::Consistent,
        Err(fault) => Verdict::Inconsistent(fault),
    }
}

// How many of the available leaves a tree of this size has after the leaves that were read.
fn room_for(tree_size: u64, read: u64, available: usize) -> usize
    ensures as_far { (result ≡ tree_size - read) ⊎ ((available ≤ tree_size - read) × (result ≡ available)) }
    ensures fits { result ≤ available }
    ensures few { read + result < 2 ^ 64 }
{
    if tree_size <= read {
        return 0;
    }
    let room = (tree_size - read) as usize;
    if room < available { room } else { available }
}

/// A watcher observes a log by its answers, with one hash function. It keeps heads and at most 128 hashes, and no leaf. Its state can
/// be saved, and passed in again.
#[derive(Drop)]
pub struct Watcher<H: NodeHash + Drop> {
    h: H,
    accepted: Option<Head>,
    waiting: Option<Head>,
    newest: Newest,
    sure: Peaks,
    all: Peaks,
}

impl<H: NodeHash + Drop> Model for Watcher<H> {
    ghost Value = { WatcherState };

    ghost view = { λ w. record { accepted = w.accepted; waiting = w.waiting; newest = w.newest; sure = w.sure; all = w.all } };
}

impl<H: NodeHash + Drop> Watcher<H> {
    /// A watcher that has seen nothing. It takes no memory.
    pub fn new(alloc: Global, h: H) -> Watcher<H>
        ensures { Keeps H.digest result nothing_seen }
    {
        Watcher {
            h,
            accepted: None,
            waiting: None,
            newest: Newest {
                accepted: 0,
                waiting: 0,
            },
            sure: Peaks::from_parts(0, Vec::new(alloc)),
            all: Peaks::from_parts(0, Vec::new(alloc)),
        }
    }

    /// A watcher in the state that is passed in, whatever that is: the accepted and the waiting head with their earliest timestamps, their
    /// newest timestamps, and the perfect subtrees of the accepted leaves and of all that were read.
    pub fn from_parts(
        h: H,
        accepted: Option<Head>,
        waiting: Option<Head>,
        newest: Newest,
        sure: Peaks,
        all: Peaks,
    ) -> Watcher<H>
        ensures { result ≡ record { accepted = accepted; waiting = waiting; newest = newest; sure = sure; all = all } }
    {
        Watcher {
            h,
            accepted,
            waiting,
            newest,
            sure,
            all,
        }
    }

    /// The last head that was accepted, with its earliest timestamp.
    pub fn accepted(&self) -> Option<Head>
        ensures { result ≡ self.now.accepted }
    {
        self.accepted
    }

    /// The newest timestamps of the accepted and of the waiting head.
    pub fn newest(&self) -> Newest
        ensures { result ≡ self.now.newest }
    {
        self.newest
    }

    /// The head that waits for its entries, with its earliest timestamp.
    pub fn waiting(&self) -> Option<Head>
        ensures { result ≡ self.now.waiting }
    {
        self.waiting
    }

    /// The perfect subtrees of the accepted head's leaves.
    pub fn sure(&self) -> &Peaks
        ensures { result.now ≡ self.now.sure }
    {
        &self.sure
    }

    /// The perfect subtrees of all leaves that were read.
    pub fn all(&self) -> &Peaks
        ensures { result.now ≡ self.now.all }
    {
        &self.all
    }

    // The subtrees of all leaves that were read and of these leaves, as far as the head goes.
    fn longer(&self, head: Head, leaves: &[Vec<u8>]) -> Result<Peaks, AllocError>
        ensures keeps { IfOk result (λ p. (w : Watched) → Keeps H.digest self.now w
            → Keeps H.digest (record self.now { all = p }) (read_on w head (map (λ l. l.items) leaves.now))) }
        ensures stands { IfOk result (λ p. (D : List (List ℕ)) → Stands H.digest self.now.all (map (hash_leaf H.digest) D)
            → Stands H.digest p (map (hash_leaf H.digest) (with_more D head (map (λ l. l.items) leaves.now)))) }
    {
        let read = self.all.size();
        let available = leaves.len();
        let count = room_for(head.tree_size, read, available);
        let mut longer = self.all.copied()?;
        longer.push_leaves(&self.h, &leaves[..count])?;
        Ok(longer)
    }

    // Compares the waiting head, whose newest timestamp is `newest`, with the leaves that were read so far.
    fn settle(&mut self, head: Head, newest: u64, all: Peaks) -> Result<Verdict, AllocError>
        ensures says { IfOk result (λ v. (w : Watched) → Keeps H.digest (record self.old { all = all }) w → WaitingSays H.digest w head v) }
        ensures stands { IfOk result (λ v. (w : Watched) → Keeps H.digest (record self.old { all = all }) w
            → Keeps H.digest self.new (after_verdict w head newest v)) }
        ensures compared { IfOk result (λ v. (D : List (List ℕ)) → Stands H.digest all (map (hash_leaf H.digest) D) → LeavesSay H.digest D head v) }
        ensures unchanged { OnErr result (self.new ≡ self.old) }
    {
        if all.size() != head.tree_size {
            self.all = all;
            self.waiting = Some(head);
            self.newest.waiting = newest;
            return Ok(Verdict::Pending);
        }
        let computed = all.root(&self.h);
        if is_same_digest(&head.root, &computed) {
            self.sure = all.copied()?;
            self.all = all;
            self.accepted = Some(head);
            self.waiting = None;
            self.newest.accepted = newest;
            self.newest.waiting = 0;
            Ok(Verdict::Accepted)
        } else {
            self.all = self.sure.copied()?;
            self.waiting = None;
            self.newest.waiting = 0;
            Ok(Verdict::RootMismatch(computed))
        }
    }

    // Remembers the timestamp of a head that was handed out again.
    fn remember(&mut self, head: &Head)
        ensures { self.new ≡ record self.old {
          accepted = earliest_with self.old.accepted head.now;
          waiting = earliest_with self.old.waiting head.now;
          newest = record { accepted = newest_with self.old.accepted self.old.newest.accepted head.now; waiting = newest_with self.old.waiting self.old.newest.waiting head.now };
        } }
    {
        self.newest = Newest {
            accepted: newest_with(self.accepted, self.newest.accepted, head),
            waiting: newest_with(self.waiting, self.newest.waiting, head),
        };
        self.accepted = earliest_with(self.accepted, head);
        self.waiting = earliest_with(self.waiting, head);
    }

    // Keeps what a known head says of this one: its timestamp, if it was handed out again.
    fn keep(&mut self, head: &Head, verdict: &Verdict)
        ensures { (w : Watched) → Keeps H.digest self.old w → KnownSay w.accepted w.waiting w.newest head.now verdict.now
            → Keeps H.digest self.new (after_head w head.now verdict.now) }
    {
        let again = verdict.is_again();
        if again {
            self.remember(head);
        }
    }

    /// Takes a tree head. It is compared with the accepted and the waiting head. If it is larger and later than both, and no head waited, it
    /// becomes the waiting head. The verdict is then about the waiting head, which may be an earlier one. If it has the size and the root of
    /// a known head, its timestamp is kept.
    ///
    /// # Errors
    ///
    /// Returns an error if memory runs out. Nothing has changed then.
    pub fn take_head(&mut self, head: Head) -> Result<Verdict, AllocError>
        ensures says { IfOk result (λ v. (w : Watched) → Keeps H.digest self.old w → HeadSays H.digest w head v) }
        ensures stands { IfOk result (λ v. (w : Watched) → Keeps H.digest self.old w
            → Keeps H.digest self.new (after_head w head v)) }
        ensures compared { IfOk result (λ v. v ≡ Accepted → (D : List (List ℕ)) → Stands H.digest self.old.all (map (hash_leaf H.digest) D)
            → IsHeadOfAll H.digest D (waiting_or self.old.waiting head)) }
        ensures unchanged { OnErr result (self.new ≡ self.old) }
    {
        if let Some(verdict) = by_known(self.accepted, self.waiting, self.newest, &head) {
            self.keep(&head, &verdict);
            return Ok(verdict);
        }
        let waiting = waiting_or(self.waiting, head);
        let newest = newest_or(self.waiting, self.newest.waiting, &head);
        let all = self.all.copied()?;
        self.settle(waiting, newest, all)
    }

    /// Takes leaves from the index `start` on, as far as the waiting head goes. It hashes each of them, and one node on average for each.
    ///
    /// # Errors
    ///
    /// Returns an error if memory runs out. Nothing has changed then.
    pub fn take_entries(&mut self, start: u64, leaves: &[Vec<u8>]) -> Result<Verdict, AllocError>
        ensures says { IfOk result (λ v. (w : Watched) → Keeps H.digest self.old w
            → EntriesSay H.digest w w.waiting start (map (λ l. l.items) leaves.now) v) }
        ensures stands { IfOk result (λ v. (w : Watched) → Keeps H.digest self.old w
            → Keeps H.digest self.new (after_entries w w.waiting (map (λ l. l.items) leaves.now) v)) }
        ensures compared { IfOk result (λ v. v ≡ Accepted → (head : Head) → self.old.waiting ≡ Some head → (D : List (List ℕ))
            → Stands H.digest self.old.all (map (hash_leaf H.digest) D) → IsHeadOfAll H.digest (with_more D head (map (λ l. l.items) leaves.now)) head) }
        ensures unchanged { OnErr result (self.new ≡ self.old) }
    {
        let Some(head) = self.waiting else {
            return Ok(Verdict::Gap);
        };
        let read = self.all.size();
        if start != read {
            return Ok(Verdict::Gap);
        }
        let newest = self.newest();
        let all = self.longer(head, leaves)?;
        self.settle(head, newest.waiting, all)
    }

    /// Takes a consistency proof from the accepted head to the waiting one (RFC 6962, section 2.1.2). It changes nothing.
    pub fn take_proof(&self, path: &[[u8; 32]]) -> Verdict
        ensures { ProofSays H.digest self.now.accepted self.now.waiting path.now result }
    {
        let (Some(first), Some(second)) = (self.accepted, self.waiting) else {
            return Verdict::Gap;
        };
        match verify_consistency(
            &self.h,
            first.tree_size,
            second.tree_size,
            &first.root,
            &second.root,
            path,
        ) {
            Ok(()) => Verdict::Consistent,
            Err(fault) => Verdict::Inconsistent(fault),
        }
    }

    /// Takes a consistency proof from an older head to the accepted one, if that has more leaves, otherwise to the waiting one (RFC 6962,
    /// section 2.1.2). It changes nothing.
    pub fn take_older(&self, head: Head, path: &[[u8; 32]]) -> Verdict
        ensures { OlderSays H.digest self.now.accepted self.now.waiting head path.now result }
    {
        let Some(known) = larger(self.accepted, self.waiting, &head) else {
            return Verdict::Gap;
        };
        leads_to(&self.h, &head, &known, path)
    }
}
