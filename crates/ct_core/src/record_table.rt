//! The records of a settlement, and for each ticket the first record that has it.

ghost use Rattle.std.specs.Prelude.{◌≡◌, ◌==◌, [], ◌∷◌, ◌++◌, length, position, IfOk, IsOkUnless, OnOk};
ghost use Rattle.std.specs.List.{find};
ghost use Rattle.shared_table.specs.Looked.{AddsPlace};
ghost use Rattle.ct_core.specs.Tickets.{ticket_of, AreEntered};

use crate::both::both;
use crate::settled::Settled;
use ct_codec::Refusal;
use shared_list::SharedList;
use shared_table::{Slot, Table, Test, copy, first_place, with_all};
use std::alloc::Global;
use std::marker::Model;

// The records of a settlement in order, and for each ticket the first record that has it.
#[derive(Drop)]
pub(crate) struct RecordTable {
    records: SharedList<Settled>,
    // The indexes of the records, by their tickets.
    by_ticket: Table,
}

impl Model for RecordTable {
    ghost use Rattle.std.specs.Prelude.{List};
    ghost use Rattle.ct_core.specs.declared.settled.Settled.{Settled};
    ghost use Rattle.ct_core.specs.Tickets.{IsByTicket};

    ghost Value = { List Settled };

    ghost view = { λ t. t.records };

    ghost invariant = { λ t. IsByTicket t.by_ticket t.records };
}

// Tests whether a record has that ticket.
#[derive(Drop)]
struct HasTicket<'a> {
    records: &'a SharedList<Settled>,
    ticket: u64,
}

impl<'a> Test for HasTicket<'a> {
    ghost use Rattle.ct_core.specs.Tickets.{is_ticket_at};

    ghost passes = { λ t k. is_ticket_at t.records.now t.ticket k };

    fn is_passed(&self, place: u64) -> bool {
        let Some(record) = self.records.get(place as usize) else {
            return false;
        };
        record.ticket == self.ticket
    }
}

// Appends a record, and notes its index.
fn take_in(
    alloc: Global,
    records: &mut SharedList<Settled>,
    slots: &mut Vec<Slot>,
    settled: Settled,
) -> Result<(), Refusal>
    ensures pushed { OnOk result (records.new ≡ records.old ++ settled ∷ []) }
    ensures entered { OnOk result (AddsPlace ticket_of slots.old.items slots.new.items (length records.old) settled) }
    ensures memory { IsOkUnless result Refusal.Memory }
{
    slots.push(Slot {
        address: settled.ticket,
        place: records.len() as u64,
    })?;
    records.push(alloc, settled)?;
    Ok(())
}

// Appends these records, and returns their indexes by their tickets.
fn take_all_in(
    alloc: Global,
    records: &mut SharedList<Settled>,
    more: &[Settled],
) -> Result<Vec<Slot>, Refusal>
    ensures pushed { OnOk result (records.new ≡ records.old ++ more.now) }
    ensures entered { IfOk result (λ v. AreEntered v.items (length records.old) more.now) }
    ensures memory { IsOkUnless result Refusal.Memory }
{
    let mut slots = Vec::with_capacity(alloc, more.len())?;
    for settled in more {
        take_in(alloc, records, &mut slots, *settled)?;
    }
    Ok(slots)
}

// Returns the list followed by these records, and their indexes by their tickets.
fn records_with(
    alloc: Global,
    records: &SharedList<Settled>,
    more: &[Settled],
) -> Result<(SharedList<Settled>, Vec<Slot>), Refusal>
    ensures pushed { IfOk result (λ p. p.0 ≡ records.now ++ more.now) }
    ensures entered { IfOk result (λ p. AreEntered p.1.items (length records.now) more.now) }
    ensures memory { IsOkUnless result Refusal.Memory }
{
    let mut all = records.copy(alloc)?;
    let slots = take_all_in(alloc, &mut all, more);
    both(Ok(all), slots)
}

impl RecordTable {
    // Returns an empty table. It allocates no memory.
    pub(crate) fn new(alloc: Global) -> RecordTable
        ensures { result ≡ [] }
    {
        RecordTable {
            records: SharedList::new(alloc),
            by_ticket: Table::new(alloc),
        }
    }

    // Returns the records, in the order of settling.
    pub(crate) fn records(&self) -> &SharedList<Settled>
        ensures { result.now ≡ self.now }
    {
        &self.records
    }

    // Returns the index of the first record of a ticket, or `None` if it has none.
    fn place_of(&self, ticket: u64) -> Option<u64>
        ensures { result ≡ position (λ r. r.ticket == ticket) self.now }
    {
        let test = HasTicket {
            records: &self.records,
            ticket,
        };
        first_place(&self.by_ticket, ticket, &test)
    }

    // Returns the first record of a ticket, or `None` if it has none.
    pub(crate) fn first_record(&self, ticket: u64) -> Option<Settled>
        ensures { result ≡ find (λ r. r.ticket == ticket) self.now }
    {
        let Some(place) = self.place_of(ticket) else {
            return None;
        };
        Some(*self.records.at(place as usize))
    }

    // Returns an equal table.
    pub(crate) fn copy(&self, alloc: Global) -> Result<RecordTable, Refusal>
        ensures same { IfOk result (λ t. t ≡ self.now) }
        ensures memory { IsOkUnless result Refusal.Memory }
    {
        let (records, by_ticket) = both(self.records.copy(alloc), copy(alloc, &self.by_ticket))?;
        Ok(RecordTable { records, by_ticket })
    }

    // Returns the table with these records appended. It shares what it can with this one.
    pub(crate) fn with_records(
        &self,
        alloc: Global,
        more: &[Settled],
    ) -> Result<RecordTable, Refusal>
        ensures more { IfOk result (λ t. t ≡ self.now ++ more.now) }
        ensures memory { IsOkUnless result Refusal.Memory }
    {
        let (records, slots) = records_with(alloc, &self.records, more)?;
        let by_ticket = with_all(alloc, &self.by_ticket, &slots);
        let (records, by_ticket) = both(Ok(records), by_ticket)?;
        Ok(RecordTable { records, by_ticket })
    }
}
