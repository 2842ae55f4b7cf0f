//! Searches.

ghost use Rattle.std.specs.Prelude.{◌≡◌, ◌==◌, ◌&&◌, ◌++◌, ℕ, List, Bool};
ghost use Rattle.std.specs.Arc.{arc_value};
ghost use Rattle.shared_table.specs.Looked.{places_in, at_index, looked_row, looked, first_where};

use crate::slots::Slot;
use crate::table::{Row, Table};
use std::sync::Arc;

/// A test of places.
pub trait Test {
    ghost use Rattle.std.specs.Prelude.{◌≡◌, ℕ, Bool};

    ghost passes: { Self → ℕ → Bool };

    /// Reports whether that place passes.
    fn is_passed(&self, place: u64) -> bool
        ensures { result ≡ passes self.now place };
}

// Reports whether a slot has that rest of an address and its place passes.
fn is_it<T: Test>(slot: Slot, rest: u64, test: &T) -> bool
    ensures { result ≡ ((slot.address == rest) && T.passes test.now slot.place) }
{
    if slot.address != rest {
        return false;
    }
    test.is_passed(slot.place)
}

// The first place that has that rest of an address and passes.
fn first_of<T: Test>(slots: &[Slot], rest: u64, test: &T) -> Option<u64>
    ensures { result ≡ first_where (T.passes test.now) (places_in slots.now rest) }
{
    for slot in slots {
        if is_it(*slot, rest, test) {
            return Some(slot.place);
        }
    }
    None
}

// The first place that passes: `earlier`, if a place before these slots passed, and otherwise the first in these slots.
fn first_or_later<T: Test>(earlier: Option<u64>, slots: &[Slot], rest: u64, test: &T) -> Option<u64>
    ensures { (ks : List ℕ) → earlier ≡ first_where (T.passes test.now) ks → result ≡ first_where (T.passes test.now) (ks ++ places_in slots.now rest) }
{
    match earlier {
        Some(place) => Some(place),
        None => first_of(slots, rest, test),
    }
}

// The first place that has that rest of an address and passes, in the bucket with that index, if there is one.
fn first_in_bucket<T: Test>(
    buckets: &[Arc<Vec<Slot>>],
    index: usize,
    rest: u64,
    test: &T,
) -> Option<u64>
    ensures { result ≡ first_where (T.passes test.now) (at_index buckets.now (λ p c. places_in (arc_value p).items c) index rest) }
{
    if buckets.len() <= index {
        return None;
    }
    let bucket = &buckets[index];
    first_of(bucket, rest, test)
}

// The first place in a row that has that rest of an address and passes.
fn first_in_row<T: Test>(row: &Row, rest: u64, test: &T) -> Option<u64>
    ensures { result ≡ first_where (T.passes test.now) (looked_row row.now rest) }
{
    let buckets = row.buckets.as_slice();
    let earlier = first_in_bucket(buckets, (rest % 64) as usize, rest / 64, test);
    first_or_later(earlier, &row.fresh, rest, test)
}

// The first place that has that rest of an address and passes, in the row with that index, if there is one.
fn first_at_row<T: Test>(rows: &[Arc<Row>], index: usize, rest: u64, test: &T) -> Option<u64>
    ensures { result ≡ first_where (T.passes test.now) (at_index rows.now (λ p c. looked_row (arc_value p) c) index rest) }
{
    if rows.len() <= index {
        return None;
    }
    let row = &rows[index];
    first_in_row(row, rest, test)
}

/// The first place of an address that passes, in the order in which the places were added, or `None` if none passes.
pub fn first_place<T: Test>(table: &Table, address: u64, test: &T) -> Option<u64>
    ensures { result ≡ first_where (T.passes test.now) (looked table.now address) }
{
    let rows = table.rows.as_slice();
    let earlier = first_at_row(rows, (address % 64) as usize, address / 64, test);
    first_or_later(earlier, &table.fresh, address, test)
}
