//! The table.

ghost use Rattle.std.specs.Prelude.{◌≡◌, ◌<◌, ℕ, List, [], ◌∷◌, ◌++◌, length, IfOk};
ghost use Rattle.std.specs.Arc.{arc_value};
ghost use Rattle.shared_table.specs.Looked.{places_in, at_index, below, looked_row, looked, if_at, AreParts, AreMore};
ghost use Rattle.shared_table.specs.declared.slots.Slot.{Slot};

use crate::lists::Shared;
use crate::slots::{Slot, joined, parts_of};
use std::alloc::{AllocError, Global};
use std::sync::Arc;

// The maximum number of slots that wait in a row.
const IN_ROW: usize = 1024;

// The maximum number of slots that wait in a table.
const IN_TABLE: usize = 512;

/// The places whose addresses have the same lowest bits. Tables share it.
#[derive(Drop)]
pub struct Row {
    // The places by the next bits of their addresses, in 64 buckets, or no buckets.
    pub(crate) buckets: Shared<Arc<Vec<Slot>>>,
    // The slots that were added last.
    pub(crate) fresh: Vec<Slot>,
}

/// Places by their addresses.
#[derive(Drop)]
pub struct Table {
    // The places by the lowest bits of their addresses, in 64 rows, or no rows.
    pub(crate) rows: Shared<Arc<Row>>,
    // The slots that were added last.
    pub(crate) fresh: Vec<Slot>,
}

// Two lists of slots, one after the other, to be shared.
fn shared_slots(
    alloc: Global,
    first: &[Slot],
    second: &[Slot],
) -> Result<Arc<Vec<Slot>>, AllocError>
    ensures { IfOk result (λ all. (arc_value all).items ≡ first.now ++ second.now) }
{
    let all = joined(alloc, first, second)?;
    let all = Arc::new(alloc, all)?;
    Ok(all)
}

// A bucket with more places.
fn bucket_with(
    alloc: Global,
    buckets: &[Arc<Vec<Slot>>],
    index: usize,
    part: &[Slot],
) -> Result<Arc<Vec<Slot>>, AllocError>
    ensures { IfOk result (λ t. (b : ℕ) → places_in (arc_value t).items b ≡ at_index buckets.now
        (λ p c. places_in (arc_value p).items c) index b ++ places_in part.now b) }
{
    if buckets.len() <= index {
        let bucket = shared_slots(alloc, &[], part)?;
        return Ok(bucket);
    }
    let old = &buckets[index];
    if part.is_empty() {
        let bucket = Arc::try_clone(old)?;
        return Ok(bucket);
    }
    let bucket = shared_slots(alloc, old, part)?;
    Ok(bucket)
}

// Each of 64 buckets, with the places of its part added.
fn each_bucket_with(
    alloc: Global,
    buckets: &[Arc<Vec<Slot>>],
    parts: &[Vec<Slot>],
) -> Result<Vec<Arc<Vec<Slot>>>, AllocError>
    requires { length parts.now ≡ 64 }
    ensures { IfOk result (λ all. (slots : List Slot) → AreParts parts.now slots → AreMore all.items buckets.now
        (λ p c. places_in (arc_value p).items c) slots 64) }
{
    let mut all = Vec::with_capacity(alloc, 64)?;
    for index in 0..64 {
        let bucket = bucket_with(alloc, buckets, index, &parts[index])?;
        all.push(bucket)?;
    }
    Ok(all)
}

// The buckets with more places.
fn buckets_with(
    alloc: Global,
    buckets: &[Arc<Vec<Slot>>],
    slots: &[Slot],
) -> Result<Shared<Arc<Vec<Slot>>>, AllocError>
    ensures { IfOk result (λ all. (a : ℕ) → below all (λ p c. places_in (arc_value p).items c) a ≡ below buckets.now
        (λ p c. places_in (arc_value p).items c) a ++ places_in slots.now a) }
{
    let parts = parts_of(alloc, slots)?;
    let all = each_bucket_with(alloc, buckets, &parts)?;
    let all = Shared::of(alloc, all)?;
    Ok(all)
}

// A row with more places: they wait, or all waiting places move to the buckets together.
fn row_of(
    alloc: Global,
    buckets: &Shared<Arc<Vec<Slot>>>,
    fresh: Vec<Slot>,
) -> Result<Row, AllocError>
    ensures { IfOk result (λ r. (a : ℕ) → looked_row r a ≡ below buckets.now (λ p c. places_in (arc_value p).items c) a ++ places_in fresh.items a) }
{
    if fresh.len() <= IN_ROW {
        let buckets = buckets.share()?;
        return Ok(Row { buckets, fresh });
    }
    let buckets = buckets_with(alloc, buckets.as_slice(), &fresh)?;
    let fresh = Vec::new(alloc);
    Ok(Row { buckets, fresh })
}

// A row with these buckets and two lists of slots, one after the other, to be shared.
fn shared_row(
    alloc: Global,
    buckets: &Shared<Arc<Vec<Slot>>>,
    first: &[Slot],
    second: &[Slot],
) -> Result<Arc<Row>, AllocError>
    ensures { IfOk result (λ r. (a : ℕ) → looked_row (arc_value r) a ≡ below buckets.now (λ p c. places_in (arc_value p).items c) a
        ++ places_in (first.now ++ second.now) a) }
{
    let fresh = joined(alloc, first, second)?;
    let row = row_of(alloc, buckets, fresh)?;
    let shared = Arc::new(alloc, row)?;
    Ok(shared)
}

// The row at an index, with more places.
fn row_with(
    alloc: Global,
    rows: &[Arc<Row>],
    index: usize,
    part: &[Slot],
) -> Result<Arc<Row>, AllocError>
    ensures { IfOk result (λ t. (b : ℕ) → looked_row (arc_value t) b ≡ at_index rows.now
        (λ p c. looked_row (arc_value p) c) index b ++ places_in part.now b) }
{
    if rows.len() <= index {
        let row = shared_row(alloc, &Shared::new(), &[], part)?;
        return Ok(row);
    }
    let old = &rows[index];
    if part.is_empty() {
        let row = Arc::try_clone(old)?;
        return Ok(row);
    }
    let row = shared_row(alloc, &old.buckets, &old.fresh, part)?;
    Ok(row)
}

// Each of 64 rows, with the places of its part added.
fn each_row_with(
    alloc: Global,
    rows: &[Arc<Row>],
    parts: &[Vec<Slot>],
) -> Result<Vec<Arc<Row>>, AllocError>
    requires { length parts.now ≡ 64 }
    ensures { IfOk result (λ all. (slots : List Slot) → AreParts parts.now slots → AreMore all.items rows.now
        (λ p c. looked_row (arc_value p) c) slots 64) }
{
    let mut all = Vec::with_capacity(alloc, 64)?;
    for index in 0..64 {
        let row = row_with(alloc, rows, index, &parts[index])?;
        all.push(row)?;
    }
    Ok(all)
}

// The rows with more places.
fn rows_with(
    alloc: Global,
    rows: &[Arc<Row>],
    slots: &[Slot],
) -> Result<Shared<Arc<Row>>, AllocError>
    ensures { IfOk result (λ all. (a : ℕ) → below all (λ p c. looked_row (arc_value p) c) a ≡ below rows.now
        (λ p c. looked_row (arc_value p) c) a ++ places_in slots.now a) }
{
    let parts = parts_of(alloc, slots)?;
    let all = each_row_with(alloc, rows, &parts)?;
    let all = Shared::of(alloc, all)?;
    Ok(all)
}

// A table with these rows, and with places that wait, or that move to the rows together.
fn table_of(alloc: Global, rows: &Shared<Arc<Row>>, fresh: Vec<Slot>) -> Result<Table, AllocError>
    ensures { IfOk result (λ t. (a : ℕ) → looked t a ≡ below rows.now (λ p c. looked_row (arc_value p) c) a ++ places_in fresh.items a) }
{
    if fresh.len() <= IN_TABLE {
        let rows = rows.share()?;
        return Ok(Table { rows, fresh });
    }
    let rows = rows_with(alloc, rows.as_slice(), &fresh)?;
    let fresh = Vec::new(alloc);
    Ok(Table { rows, fresh })
}

impl Table {
    /// A table with no places. It takes no memory.
    pub fn new(alloc: Global) -> Table
        ensures { (a : ℕ) → looked result a ≡ [] }
    {
        Table {
            rows: Shared::new(),
            fresh: Vec::new(alloc),
        }
    }
}

/// The table with more places. It shares what it can with this one.
///
/// Returns an error if memory runs out.
pub fn with_all(alloc: Global, table: &Table, slots: &[Slot]) -> Result<Table, AllocError>
    ensures { IfOk result (λ t. (b : ℕ) → looked t b ≡ looked table.now b ++ places_in slots.now b) }
{
    let fresh = joined(alloc, &table.fresh, slots)?;
    let more = table_of(alloc, &table.rows, fresh)?;
    Ok(more)
}

/// The table with one more place. It shares what it can with this one.
///
/// Returns an error if memory runs out.
pub fn with(alloc: Global, table: &Table, address: u64, place: u64) -> Result<Table, AllocError>
    ensures { IfOk result (λ t. (b : ℕ) → looked t b ≡ looked table.now b ++ if_at address place b) }
{
    let more = with_all(alloc, table, &[Slot { address, place }])?;
    Ok(more)
}

/// A table with the same places, which shares the rows. It copies at most 512 slots.
///
/// Returns an error if memory runs out.
pub fn copy(alloc: Global, table: &Table) -> Result<Table, AllocError>
    ensures { IfOk result (λ t. (b : ℕ) → looked t b ≡ looked table.now b) }
{
    let same = with_all(alloc, table, &[])?;
    Ok(same)
}
