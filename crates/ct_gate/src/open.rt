//! A new gate.

ghost use Rattle.std.specs.Prelude.{◌≡◌, ◌+◌, ◌-◌, ◌<◌, ◌≤◌, [], ◌∷◌, ◌++◌, true, None, IfOk, IfErr, OnOk};
ghost use Rattle.std.specs.Arc.{arc_value};
ghost use Rattle.ct_codec.specs.declared.refusal.Refusal.TheVariants.{Memory};
ghost use Rattle.ct_gate.specs.Opening.{view_of_fronts, new_fronts, IsNewFront, AreNewFronts};

use crate::intake::Intake;
use crate::outlet::Outlet;
use crate::shutter::Shutter;
use crate::word::{Deal, Gate, GateSeat};
use atomic_table::Table;
use ct_codec::Refusal;
use rtrb::RingBuffer;
use std::alloc::Global;
use std::sync::Arc;

/// Opens a gate with 1 to 16 fronts, numbered from 0, each with a ring of 1 to 4,096 slots.
///
/// Returns the shutter, and the intakes and outlets in the fronts' order. The only refusal is `Memory`.
pub fn open_gate(
    alloc: Global,
    fronts: u16,
    ring: usize,
) -> Result<(Shutter, Vec<Intake>, Vec<Outlet>), Refusal>
    requires fronts { (1 ≤ fronts) × (fronts ≤ 16) }
    requires ring { (1 ≤ ring) × (ring ≤ 4096) }
    ensures shutter { IfOk result (λ g. (g.0.fronts ≡ fronts) × (g.0.accepted ≡ None)) }
    ensures fronts { IfOk result (λ g. AreNewFronts g.0.gate ring fronts g.1.items g.2.items) }
    ensures refused { IfErr result (λ r. r ≡ Memory) }
{
    let (table, mut seat) = Table::of_words(alloc, &[0], &u64::from(fronts))?;
    let table = Arc::new(alloc, table)?;
    let mut intakes = Vec::new(alloc);
    let mut outlets = Vec::new(alloc);
    for number in 0..fronts {
        let (intake, outlet) = new_front(alloc, &table, &mut seat, number, fronts, ring)?;
        intakes.push(intake)?;
        outlets.push(outlet)?;
    }
    let shutter = Shutter {
        table,
        seat,
        accepted: None,
    };
    Ok((shutter, intakes, outlets))
}

// Makes the ends of the next front. The seat holds this front and all later ones.
fn new_front(
    alloc: Global,
    table: &Arc<Gate>,
    seat: &mut GateSeat,
    number: u16,
    fronts: u16,
    ring: usize,
) -> Result<(Intake, Outlet), Refusal>
    requires table { (seat.old.table_id ≡ (arc_value table.now).shared.table_id)
        × (seat.old.table_id.words ≡ 1) }
    requires seat { (number < fronts)
        × (seat.old.me ≡ (view_of_fronts (new_fronts number (fronts - number)) true, [])) }
    ensures seat { (seat.new.table_id ≡ seat.old.table_id)
        × (seat.new.me ≡ (view_of_fronts (new_fronts (number + 1) (fronts - (number + 1))) true, [])) }
    ensures front { IfOk result (λ f. IsNewFront seat.old.table_id ring number f.0 f.1) }
    ensures refused { IfErr result (λ r. r ≡ Memory) }
{
    let place = table.shared.split_seat::<Deal>(seat);
    let (producer, consumer) = RingBuffer::new(alloc, ring)?;
    let table = Arc::try_clone(table)?;
    let intake = Intake {
        table,
        seat: place,
        producer,
        number,
        tickets: 0,
        room: ring,
        knows_shutdown: false,
    };
    Ok((intake, Outlet { consumer, number }))
}
