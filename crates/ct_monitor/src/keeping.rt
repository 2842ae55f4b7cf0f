//! Observers that keep up with a log's tree heads: a follower, which keeps none of its leaves, and a monitor, which keeps all of them.
ghost use Rattle.std.specs.Prelude.{◌≡◌, ◌+◌, ◌<◌, ◌^◌, List, ℕ, [], ◌++◌, length, map, IfErr, IfOk, MatchResult, OnErr, OnOk, Some, None};
ghost use Rattle.ct_tree.specs.Stack.{Stands};
ghost use Rattle.ct_tree.specs.Tree.{hash_leaf, mth_of_leaves};
ghost use Rattle.ct_monitor.specs.Followed.{Followed, IsFollowing};
ghost use Rattle.ct_monitor.specs.Heads.{IsHeadOfAll};
ghost use Rattle.ct_monitor.specs.Observed.{IsCounted, IsInOrder, RefusesHead};
ghost use Rattle.ct_monitor.specs.FollowerState.{FollowerState, Follows, keeping};

use crate::extension::extended;
use crate::fault::MonitorFault;
use crate::order::{forks, is_not_later};
use crate::peaks::Peaks;
use ct_tree::{Head, NodeHash};
use std::alloc::{Allocator, Global};
use std::marker::Model;

/// A follower follows a log's tree heads and keeps the roots of the perfect subtrees in place of the leaves, with one hash function.
/// It needs at most 64 hashes and a head, whatever the size of the log. The state can be saved, and passed in again.
#[derive(Drop)]
pub struct Follower<H: NodeHash + Drop, A: Allocator = Global> {
    h: H,
    peaks: Peaks<A>,
    last: Option<Head>,
}

impl<H: NodeHash + Drop, A: Allocator> Model for Follower<H, A> {
    ghost Value = { FollowerState };

    ghost view = { λ f. record { peaks = f.peaks; last_head = f.last } };
}

impl<H: NodeHash + Drop, A: Allocator> Follower<H, A> {
    /// A follower of no leaves that took no head. It takes no memory.
    pub fn new(alloc: A, h: H) -> Follower<H, A>
        ensures follows { Follows H.digest result [] }
        ensures last_head { result.last_head ≡ None }
    {
        Follower {
            h,
            peaks: Peaks::from_parts(0, Vec::new(alloc)),
            last: None,
        }
    }

    /// A follower in the state that is passed in, whatever that is.
    pub fn from_parts(h: H, peaks: Peaks<A>, last: Option<Head>) -> Follower<H, A>
        ensures peaks { result.peaks ≡ peaks }
        ensures last_head { result.last_head ≡ last }
    {
        Follower { h, peaks, last }
    }

    /// The number of leaves, and the roots of their perfect subtrees.
    pub fn peaks(&self) -> &Peaks<A>
        ensures { result.now ≡ self.now.peaks }
    {
        &self.peaks
    }

    /// The last head that was taken.
    pub fn last_head(&self) -> Option<Head>
        ensures { result ≡ self.now.last_head }
    {
        self.last
    }

    // The faults that are found before anything is hashed, in their order.
    fn check_order<L: Allocator>(
        &self,
        head: &Head,
        new_entries: &[Vec<u8, L>],
    ) -> Result<(), MonitorFault>
        ensures few { OnOk result ((D : List (List ℕ)) → Follows H.digest self.now D → length D + length new_entries.now < 2 ^ 64) }
        ensures in_order { (D : List (List ℕ)) → Follows H.digest self.now D
            → MatchResult result (λ _. IsInOrder (keeping D self.now) head.now × IsCounted (keeping D self.now) head.now (map (λ l. l.items) new_entries.now))
            (RefusesHead H.digest (keeping D self.now) head.now (map (λ l. l.items) new_entries.now)) }
    {
        let count = self.peaks.size();
        if head.tree_size < count {
            return Err(MonitorFault::Shrunk);
        }
        if forks(&self.last, head) {
            return Err(MonitorFault::Fork);
        }
        if is_not_later(&self.last, head) {
            return Err(MonitorFault::TimeNotLater);
        }
        if head.tree_size - count != new_entries.len() as u64 {
            return Err(MonitorFault::CountMismatch);
        }
        Ok(())
    }

    // Replaces the subtrees and the last head by these.
    pub(crate) fn go_on(&mut self, longer: Peaks<A>, head: Head)
        ensures peaks { self.new.peaks ≡ longer }
        ensures last_head { self.new.last_head ≡ Some head }
    {
        self.peaks = longer;
        self.last = Some(head);
    }
}

impl<H: NodeHash + Drop, A: Allocator + Clone> Follower<H, A> {
    // The subtrees of the leaves with the new ones, if there is no fault in the head.
    pub(crate) fn longer<L: Allocator>(
        &self,
        head: &Head,
        new_entries: &[Vec<u8, L>],
    ) -> Result<Peaks<A>, MonitorFault>
        ensures in_order { OnOk result ((D : List (List ℕ)) → Follows H.digest self.now D
            → IsInOrder (keeping D self.now) head.now × IsCounted (keeping D self.now) head.now (map (λ l. l.items) new_entries.now)) }
        ensures stands { IfOk result (λ p. (D : List (List ℕ)) → Follows H.digest self.now D
            → Stands H.digest p (map (hash_leaf H.digest) (D ++ map (λ l. l.items) new_entries.now))) }
        ensures root { IfOk result (λ p. (D : List (List ℕ)) → Follows H.digest self.now D
            → IsHeadOfAll H.digest (D ++ map (λ l. l.items) new_entries.now) head.now) }
        ensures root_of_any { OnOk result ((D : List (List ℕ)) → length D + length new_entries.now < 2 ^ 64
            → Stands H.digest self.now.peaks (map (hash_leaf H.digest) D)
            → head.now.root ≡ mth_of_leaves H.digest (D ++ map (λ l. l.items) new_entries.now)) }
        ensures refused { IfErr result (λ f. (D : List (List ℕ)) → Follows H.digest self.now D
            → RefusesHead H.digest (keeping D self.now) head.now (map (λ l. l.items) new_entries.now) f) }
    {
        self.check_order(head, new_entries)?;
        extended(&self.h, &self.peaks, new_entries, &head.root)
    }

    /// Takes in a tree head and the leaves that are new in it, in order. It hashes each new leaf and one node on average for each, and at
    /// most 64 nodes for the root. The same head again, without new leaves, is taken. A head is taken only if its root is the root of the
    /// leaves that the subtrees represent and the new ones, whatever the last head was.
    ///
    /// # Errors
    ///
    /// The errors that [`Monitor::observe`](crate::Monitor::observe) of a monitor that keeps these leaves returns, in its order. An error
    /// changes nothing.
    pub fn observe<L: Allocator>(
        &mut self,
        head: Head,
        new_entries: &[Vec<u8, L>],
    ) -> Result<(), MonitorFault>
        ensures follows { OnOk result ((D : List (List ℕ)) → Follows H.digest self.old D
            → Follows H.digest self.new (D ++ map (λ l. l.items) new_entries.now)) }
        ensures last_head { OnOk result (self.new.last_head ≡ Some head) }
        ensures root { OnOk result ((D : List (List ℕ)) → Follows H.digest self.old D
            → IsHeadOfAll H.digest (D ++ map (λ l. l.items) new_entries.now) head) }
        ensures root_of_any { OnOk result ((D : List (List ℕ)) → length D + length new_entries.now < 2 ^ 64
            → Stands H.digest self.old.peaks (map (hash_leaf H.digest) D)
            → head.root ≡ mth_of_leaves H.digest (D ++ map (λ l. l.items) new_entries.now)) }
        ensures in_order { OnOk result ((D : List (List ℕ)) → Follows H.digest self.old D → IsInOrder (keeping D self.old) head) }
        ensures refused { IfErr result (λ f. (D : List (List ℕ)) → Follows H.digest self.old D
            → RefusesHead H.digest (keeping D self.old) head (map (λ l. l.items) new_entries.now) f) }
        ensures unchanged { OnErr result (self.new ≡ self.old) }
    {
        let longer = self.longer(&head, new_entries)?;
        self.go_on(longer, head);
        Ok(())
    }
}

/// A monitor follows a log's tree heads and keeps all its leaves, with one hash function.
#[derive(Drop)]
pub struct Monitor<H: NodeHash + Drop, A: Allocator = Global> {
    follower: Follower<H, A>,
    kept: Vec<Vec<u8, A>, A>,
}

impl<H: NodeHash + Drop, A: Allocator> Model for Monitor<H, A> {
    ghost Value = { Followed };

    ghost view = { λ m. record { leaves = map (λ l. l.items) m.kept.items; last_head = m.follower.last_head } };

    ghost invariant = { λ m. Follows H.digest m.follower (map (λ l. l.items) m.kept.items) };
}

impl<H: NodeHash + Drop, A: Allocator + Copy> Monitor<H, A> {
    /// A monitor that keeps no leaves and took no head. It takes no memory.
    pub fn new(alloc: A, h: H) -> Monitor<H, A>
        ensures leaves { result.leaves ≡ [] }
        ensures last_head { result.last_head ≡ None }
    {
        Monitor {
            follower: Follower::new(alloc, h),
            kept: Vec::new(alloc),
        }
    }
}

impl<H: NodeHash + Drop, A: Allocator> Monitor<H, A> {
    /// The kept leaves, in order.
    pub fn leaves(&self) -> &[Vec<u8, A>]
        ensures { map (λ l. l.items) result.now ≡ self.now.leaves }
    {
        &self.kept
    }

    /// The last head that was taken: the head of the kept leaves.
    pub fn last_head(&self) -> Option<Head>
        ensures last { result ≡ self.now.last_head }
        ensures following { IsFollowing H.digest self.now.leaves result }
    {
        self.follower.last_head()
    }
}

impl<H: NodeHash + Drop, A: Allocator + Clone> Monitor<H, A> {
    /// Takes in a tree head and the leaves that are new in it, in order. The leaves are kept without a copy of their bytes. It hashes each
    /// new leaf and one node on average for each, and at most 64 nodes for the root. It hashes no kept leaf again. The same head again,
    /// without new leaves, is taken.
    ///
    /// # Errors
    ///
    /// In this order:
    /// - `Shrunk` if the head has fewer leaves than are kept;
    /// - `Fork` if the last head has this size and a different root;
    /// - `TimeNotLater` unless the head is later than the last one or is that same head again;
    /// - `CountMismatch` unless the number of the kept and the new leaves together is the head's size;
    /// - `Memory`;
    /// - `RootMismatch` if its root is not the root of the kept and the new leaves.
    ///
    /// An error changes nothing.
    pub fn observe(
        &mut self,
        head: Head,
        new_entries: Vec<Vec<u8, A>, A>,
    ) -> Result<(), MonitorFault>
        ensures leaves { OnOk result (self.new.leaves ≡ self.old.leaves ++ map (λ l. l.items) new_entries.items) }
        ensures last_head { OnOk result (self.new.last_head ≡ Some head) }
        ensures root { OnOk result (IsHeadOfAll H.digest self.new.leaves head) }
        ensures in_order { OnOk result (IsInOrder self.old head) }
        ensures refused { IfErr result (RefusesHead H.digest self.old head (map (λ l. l.items) new_entries.items)) }
        ensures unchanged { OnErr result (self.new ≡ self.old) }
    {
        let mut entries = new_entries;
        self.observe_from(head, &mut entries)
    }

    /// Does the same as [`observe`](Monitor::observe), with the new leaves in a list of the caller's. They are moved out of it if the head
    /// is taken. After an error they are still there.
    ///
    /// # Errors
    ///
    /// The errors of `observe`.
    pub fn observe_from(
        &mut self,
        head: Head,
        new_entries: &mut Vec<Vec<u8, A>, A>,
    ) -> Result<(), MonitorFault>
        ensures leaves { OnOk result (self.new.leaves ≡ self.old.leaves ++ map (λ l. l.items) new_entries.old.items) }
        ensures last_head { OnOk result (self.new.last_head ≡ Some head) }
        ensures root { OnOk result (IsHeadOfAll H.digest self.new.leaves head) }
        ensures in_order { OnOk result (IsInOrder self.old head) }
        ensures moved { OnOk result (new_entries.new.items ≡ []) }
        ensures refused { IfErr result (RefusesHead H.digest self.old head (map (λ l. l.items) new_entries.old.items)) }
        ensures unchanged { OnErr result (self.new ≡ self.old) }
        ensures left { OnErr result (new_entries.new.items ≡ new_entries.old.items) }
    {
        let longer = self.follower.longer(&head, new_entries)?;
        self.kept.append(new_entries)?;
        self.follower.go_on(longer, head);
        Ok(())
    }
}
