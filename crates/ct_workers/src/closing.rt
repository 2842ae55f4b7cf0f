//! The closing of the log.

ghost use Rattle.std.specs.Prelude.{◌≡◌, ◌⊎◌, List, length, All, IfOk, OnOk, IfErr};
ghost use Rattle.ct_house.specs.House.{IsOfHouse, AreInOrder};
ghost use Rattle.ct_workers.specs.ClosedLog.{IsReady, IsRefusedAtClosing, IsClosingFault, Closes, KeepsCount, KeepsSettled};

use ct_codec::Refusal;
use ct_house::{FinalLog, Front, Retired, Sequencer};
use ct_lines::Fault;
use ct_tree::Head;
use std::alloc::{AllocError, Global};
use std::sync::Wait;
use std::thread::Threads;

// Retires the fronts, and returns them in order.
fn retire_all(alloc: Global, fronts: Vec<Front>) -> Result<Vec<Retired>, AllocError>
    ensures { IfOk result (λ ends. ends.items ≡ fronts.items) }
{
    let mut ends = Vec::with_capacity(alloc, fronts.len())?;
    for front in fronts {
        ends.push_reserved(front.retire());
    }
    Ok(ends)
}

// Shuts the log, settles all items that the fronts had accepted, and publishes the last head. A log that the operator shut remains shut.
fn settle_and_publish<H: Threads + Wait + Sync>(
    rt: &H,
    alloc: Global,
    sequencer: &mut Sequencer,
    ends: &mut [Retired],
    now: u64,
) -> Result<Head, Refusal>
    requires of_house { All (IsOfHouse sequencer.old.house) ends.old }
    requires in_order { AreInOrder (length sequencer.old.lanes) ends.old }
    ensures ready { IfOk result (λ h. IsReady sequencer.old ends.old now h sequencer.new) }
    ensures kept { OnOk result (KeepsSettled now sequencer.old.core sequencer.new.core) }
    ensures counted { OnOk result (KeepsCount sequencer.old sequencer.new) }
    ensures ends { ends.new ≡ ends.old }
    ensures refused { IfErr result (λ e. IsRefusedAtClosing sequencer.old now e) }
{
    let _ = sequencer.shutdown();
    sequencer.settle(rt, alloc, ends, now)?;
    sequencer.publish(rt, alloc, now)
}

// Closes the log at the timestamp `now`, with the ends of all of its fronts in order.
fn close_ends<H: Threads + Wait + Sync>(
    rt: &H,
    alloc: Global,
    mut sequencer: Sequencer,
    mut ends: Vec<Retired>,
    now: u64,
) -> Result<FinalLog, Fault>
    requires of_house { All (IsOfHouse sequencer.house) ends.items }
    requires in_order { AreInOrder (length sequencer.lanes) ends.items }
    ensures closes { IfOk result (λ log. Closes sequencer ends.items now log) }
    ensures faults { IfErr result (IsClosingFault sequencer.core now) }
{
    match settle_and_publish(rt, alloc, &mut sequencer, &mut ends, now) {
        Ok(_) => Ok(sequencer.finish(rt, ends)),
        Err(refusal) => {
            sequencer.abandon(rt, ends);
            Err(Fault::from(refusal))
        }
    }
}

/// Closes the log at the timestamp `now`, in milliseconds, with all of its fronts in order. A fault is `ClockBack`, if the clock refuses
/// the timestamp, or `Memory`. After a fault the house is given up.
pub fn close<H: Threads + Wait + Sync>(
    rt: &H,
    alloc: Global,
    sequencer: Sequencer,
    fronts: Vec<Front>,
    now: u64,
) -> Result<FinalLog, Fault>
    requires of_house { All (IsOfHouse sequencer.house) fronts.items }
    requires in_order { AreInOrder (length sequencer.lanes) fronts.items }
    ensures closes { IfOk result (λ log. Closes sequencer fronts.items now log) }
    ensures faults { IfErr result (IsClosingFault sequencer.core now) }
{
    match retire_all(alloc, fronts) {
        Ok(ends) => close_ends(rt, alloc, sequencer, ends, now),
        Err(error) => {
            sequencer.abandon(rt, Vec::new(alloc));
            Err(Fault::from(error))
        }
    }
}
