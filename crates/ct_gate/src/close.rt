//! The end of a gate.

ghost use Rattle.std.specs.Prelude.{◌≡◌, ◌≢◌, ◌++◌, ◌∷◌, [], None, Some, All, map};
ghost use Rattle.std.specs.List.{range_with_len};
ghost use Rattle.std.specs.Arc.{arc_value};
ghost use Rattle.ct_codec.specs.Items.{Tickets, tickets_of};
ghost use Rattle.ct_gate.specs.Closing.{front_tickets};

use crate::intake::Intake;
use crate::shutter::Shutter;
use crate::word::{Gate, GateSeat, Gather};
use std::sync::{Arc, Wait};
use std::thread;

/// Closes a gate that was shut, given all its intakes in order, and returns how many submissions were accepted.
///
/// It allocates no memory. It waits until nobody else holds the gate.
pub fn close_gate<R: Wait>(rt: &R, shutter: Shutter, intakes: Vec<Intake>) -> u64
    requires shut { shutter.accepted ≢ None }
    requires gate { All (λ i. i.gate ≡ shutter.gate) intakes.items }
    requires fronts { map (λ i. i.number) intakes.items ≡ range_with_len 0 shutter.fronts }
    ensures count { shutter.accepted ≡ Some result }
    ensures tickets { Tickets (map (λ i. tickets_of i.accepted) intakes.items) result }
{
    let Shutter {
        table,
        mut seat,
        accepted,
    } = shutter;
    for intake in intakes {
        give_up(&table, &mut seat, intake);
    }
    let table = sole_owner(rt, table);
    let closed = table.close_with(seat);
    closed.free();
    accepted.unwrap()
}

// The seat takes in the intake's front, and the ring's end is dropped.
fn give_up(table: &Arc<Gate>, seat: &mut GateSeat, intake: Intake)
    requires { (seat.old.table_id ≡ (arc_value table.now).shared.table_id)
        × (intake.gate ≡ seat.old.table_id) × (seat.old.table_id.words ≡ 1) }
    ensures same { (seat.new.table_id ≡ seat.old.table_id) × (seat.new.me.1 ≡ seat.old.me.1)
        × (seat.new.me.0.is_shutter ≡ seat.old.me.0.is_shutter)
        × (seat.new.me.0.accepted ≡ seat.old.me.0.accepted) }
    ensures fronts { seat.new.me.0.fronts ≡ seat.old.me.0.fronts ++ front_tickets intake ∷ [] }
{
    let Intake {
        table: _,
        seat: place,
        producer: _,
        number: _,
        tickets: _,
        room: _,
        knows_shutdown: _,
    } = intake;
    table.shared.join_seat::<Gather>(seat, place);
}

// Returns the table after all other owners have dropped it.
fn sole_owner<R: Wait>(rt: &R, table: Arc<Gate>) -> Gate
    ensures { result ≡ arc_value table }
{
    let mut table = table;
    for _ in rt.forever() {
        match Arc::try_unwrap(table) {
            Ok(whole) => return whole,
            Err(shared) => table = shared,
        }
        thread::yield_now();
    }
    unreachable!()
}
