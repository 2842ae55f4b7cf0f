//! The sequencing core.

ghost use Rattle.std.specs.Prelude.{◌≡◌, ◌≤◌, ◌<◌, List, ℕ, [], ◌∷◌, ◌++◌, length, max, IfOk, IfErr, IsOkUnless, OnOk, OnErr, IsTrue, ◌↔◌, if◌then◌else◌, slice_get, Some, ◌-◌};
ghost use Rattle.std.specs.Arc.{arc_value};
ghost use Rattle.std.specs.Bool.{OnTrue};
ghost use Rattle.ct_codec.specs.declared.item.Item.{Item};
ghost use Rattle.ct_tree.specs.declared.head.Head.{Head};
ghost use Rattle.ct_core.specs.Tree.{sha256_leaf};
ghost use Rattle.ct_core.specs.Leaf.{leaf_at};
ghost use Rattle.ct_core.specs.Settlement.{record_of, Lawful};
ghost use Rattle.ct_core.specs.Core.{IsSettled, Begins, Grows, clock_of, newest_leaf, last_moment, settle_refusal, publish_refusal};
ghost use Rattle.ct_core.specs.Core.{new_core, IsNextHead, IsInTime, IsCovered, Extends, published_with, after_publishing};

use crate::room::{Unshared, place_reserved, push_reserved};
use crate::{Published, Settled, StoredEntry};
use ct_codec::{Item, Refusal};
use ct_tree::Head;
use indexmap::IndexSet;
use std::alloc::Global;
use std::marker::Model;
use std::sync::Arc;

/// The sequencing core: the published state, all entries so far, and the records settled after it. The entries are kept in a table by their
/// identities: an entry's index there is its leaf's index.
#[derive(Drop)]
pub struct Core {
    published: Arc<Published>,
    entries: IndexSet<StoredEntry>,
    settlement: Vec<Settled>,
}

impl Model for Core {
    ghost use Rattle.ct_core.specs.Core.{CoreState};

    ghost Value = { CoreState };

    ghost use Rattle.ct_core.specs.CoreFields.{state_of, IsCoreOf};

    ghost view = { state_of };

    ghost invariant = { IsCoreOf };
}

impl Core {
    /// Returns a new log, with one head of size 0 and the timestamp `now`, in milliseconds.
    ///
    /// Refused with `Memory`.
    pub fn open(alloc: Global, now: u64) -> Result<Core, Refusal>
        ensures fresh { IfOk result (λ c. c ≡ new_core now) }
        ensures settled { IfOk result (λ c. IsSettled c []) }
        ensures lawful { IfOk result (λ c. Lawful c.published) }
        ensures memory { IsOkUnless result Refusal.Memory }
    {
        let published = Arc::new(alloc, Published::open(alloc, now)?)?;
        Ok(Core {
            published,
            entries: IndexSet::new(alloc),
            settlement: Vec::new(alloc),
        })
    }

    // Returns the newest leaf's timestamp, or 0 if there is no leaf.
    fn newest_leaf(&self) -> u64
        ensures { result ≡ newest_leaf self.now.entries }
    {
        let entries = self.entries.as_slice();
        entries.last().map_or(0, |e| e.timestamp())
    }

    // Returns the entries that the last head does not cover.
    fn pending(&self) -> &[StoredEntry]
        ensures { self.now.published.entries ++ result.now ≡ self.now.entries }
    {
        self.published.rest(self.entries.as_slice())
    }

    /// Returns the clock: the greater of the last head's timestamp and the newest leaf's, in milliseconds.
    pub fn clock(&self) -> u64
        ensures { result ≡ clock_of self.now }
    {
        self.published.last_moment().max(self.newest_leaf())
    }

    /// Settles an item at the timestamp `now`, in milliseconds, and returns its record. `hash` is the leaf hash (RFC 6962, section 2.1) of
    /// the leaf that the item has at this timestamp (section 3.4). If no item settled before has its identity, that leaf becomes an entry.
    /// Otherwise the record names the leaf of the first one.
    ///
    /// The refusals, in order: `ClockBack` if `now` is before the clock, and `Memory`. Then the item comes back unchanged, and the core is
    /// unchanged.
    pub fn settle_one(
        &mut self,
        alloc: Global,
        item: Item,
        hash: [u8; 32],
        now: u64,
    ) -> Result<Settled, (Refusal, Item)>
        requires { hash ≡ sha256_leaf (leaf_at item.submission now) }
        ensures settled { IfOk result (λ r. (items : List Item) → IsSettled self.old items
            → Grows self.old items (item ∷ []) now self.new × (r ≡ record_of (items ++ item ∷ []) (length items) item)) }
        ensures in_time { OnOk result ((clock_of self.old ≤ now) × (clock_of self.new ≤ now)) }
        ensures published { self.new.published ≡ self.old.published }
        ensures begins { Begins self.old.entries self.new.entries × Begins self.old.settlement self.new.settlement }
        ensures refused { IfErr result (λ e. (e.0 ≡ settle_refusal self.old now) × (e.1 ≡ item) × (self.new ≡ self.old)) }
    {
        if now < self.clock() {
            return Err((Refusal::ClockBack, item));
        }
        if let Err(refused) = self.settlement.reserve(1) {
            return Err((refused.into(), item));
        }
        if let Err(refused) = self.entries.reserve(1) {
            return Err((refused.into(), item));
        }
        let Item {
            front,
            ticket,
            submission,
        } = item;
        let shared = match Arc::new(alloc, submission) {
            Ok(shared) => shared,
            Err(refused) => {
                let Unshared {
                    refusal,
                    submission,
                } = refused.into();
                let item = Item {
                    front,
                    ticket,
                    submission,
                };
                return Err((refusal, item));
            }
        };
        let entry = StoredEntry::new(shared, now, hash);
        let (index, first) = place_reserved(&mut self.entries, entry);
        let record = Settled {
            front,
            ticket,
            index: index as u64,
            first,
        };
        push_reserved(&mut self.settlement, record);
        Ok(record)
    }

    /// Reports whether a publication at this timestamp is in time.
    fn is_in_time(&self, now: u64) -> bool
        ensures yes { OnTrue result (IsInTime self.now now) }
        ensures refusal { publish_refusal self.now now ≡ (if result then Refusal.Memory else Refusal.ClockBack) }
    {
        self.newest_leaf() <= now && self.published.last_moment() < now
    }

    /// Returns the state that a publication at the timestamp `now`, in milliseconds, would make. The core is unchanged.
    ///
    /// Refused as `publish` is.
    pub fn next(&self, alloc: Global, now: u64) -> Result<Published, Refusal>
        ensures state { IfOk result (λ p. (h : Head) × IsNextHead self.now now h × (p ≡ published_with self.now h)) }
        ensures extends { IfOk result (λ p. Extends self.now.published p) }
        ensures newer { IfOk result (λ p. length self.now.published.heads < length p.heads) }
        ensures lawful { IfOk result (λ p. Lawful p) }
        ensures in_time { OnOk result (IsInTime self.now now) }
        ensures refused { IfErr result (λ e. e ≡ publish_refusal self.now now) }
    {
        if !self.is_in_time(now) {
            return Err(Refusal::ClockBack);
        }
        self.published
            .extended(alloc, self.pending(), &self.settlement, now)
    }

    /// Publishes the state that `next` returned, if nothing was settled or published since, and returns its last head. It allocates no
    /// memory.
    pub fn adopt(&mut self, next: Arc<Published>) -> Head
        requires { (h : Head) × IsNextHead self.old h.timestamp h × IsInTime self.old h.timestamp × (arc_value next ≡ published_with self.old h) }
        ensures state { arc_value next ≡ published_with self.old result }
        ensures after { self.new ≡ after_publishing self.old result }
    {
        let head = next.last_head();
        self.settlement.clear();
        self.published = next;
        head
    }

    /// Publishes a tree head (RFC 6962, section 3.5) of all entries so far at the timestamp `now`, in milliseconds, with all records. There
    /// need not be anything new.
    ///
    /// The refusals, in order: `ClockBack` if `now` is before the newest leaf's timestamp or not after the last head's, and `Memory`. A
    /// refusal leaves the core unchanged.
    pub fn publish(&mut self, alloc: Global, now: u64) -> Result<Head, Refusal>
        ensures head { IfOk result (λ h. IsNextHead self.old now h × (self.new ≡ after_publishing self.old h)) }
        ensures in_time { OnOk result (IsInTime self.old now) }
        ensures lawful { Lawful self.new.published }
        ensures refused { IfErr result (λ e. (e ≡ publish_refusal self.old now) × (self.new ≡ self.old)) }
    {
        // The clause `lawful` follows from the invariant of the type, which a look at a field brings in.
        let _ = &self.published;
        let next = self.next(alloc, now)?;
        let shared = Arc::new(alloc, next)?;
        Ok(self.adopt(shared))
    }

    /// Reports whether the last head covers everything: all entries and records so far are published.
    pub fn is_covered(&self) -> bool
        ensures { IsTrue result ↔ IsCovered self.now }
    {
        self.pending().is_empty() && self.settlement.is_empty()
    }

    /// Returns the published state, shared with the caller: nothing of it is copied.
    ///
    /// Refused with `Memory`.
    pub fn share(&self) -> Result<Arc<Published>, Refusal>
        ensures same { IfOk result (λ p. arc_value p ≡ self.now.published) }
        ensures lawful { Lawful self.now.published }
        ensures memory { IsOkUnless result Refusal.Memory }
    {
        let published = Arc::try_clone(&self.published)?;
        Ok(published)
    }

    /// Returns the published state.
    pub fn published(&self) -> &Published
        ensures { result.now ≡ self.now.published }
    {
        &self.published
    }
}
