//! The operator's tasks for its lines.

ghost use Rattle.std.specs.Prelude.{◌≤◌, ◌<◌, length};
ghost use Rattle.ct_lines.specs.ReplyText.{answered};
ghost use Rattle.ct_workers.specs.OperatorWork.{GoesOn, SettlesSome, SequencesFront, Publishes, ShutsTheLog, OperatorDoes};
ghost use Rattle.ct_workers.specs.Serving.{DoesWithLine};

use crate::serving::Party;
use crate::waiting::{Bell, Waiting};
use ct_codec::Refusal;
use ct_core::Reply;
use ct_house::Sequencer;
use ct_lines::{OperatorTask, reply_text};
use std::alloc::{AllocError, Global};
use std::sync::Wait;
use std::thread::Threads;

/// The maximum number of items that are settled at once.
pub const BATCH: u64 = 256;

// The maximum number of items for which the operator waits before it checks whether there are any. Another sleep costs more than settling
// an item.
const ENOUGH: u64 = 16;

// Settles at least one and at most `most` items of a front, as soon as there are any.
fn settle_some<R: Threads + Wait + Sync>(
    rt: &R,
    alloc: Global,
    sequencer: &mut Sequencer,
    front: u16,
    most: u32,
    now: u64,
    waiting: &Waiting,
) -> Result<u32, Refusal>
    requires front { front < length sequencer.old.lanes }
    requires most { (0 < most) × (most ≤ 256) }
    ensures { SettlesSome front most now sequencer.old result sequencer.new }
{
    let turns = waiting.turns;
    let accepted = waiting.accepted(front);
    let more = u64::from(most).min(ENOUGH);
    let mut turn = 0;
    while turn < turns && !waiting.is_over() {
        let seen = accepted.rung();
        match sequencer.take(rt, alloc, front, most, now) {
            Ok(settled) => {
                if settled > 0 {
                    return Ok(settled);
                }
            }
            Err(refusal) => return Err(refusal),
        }
        turn = accepted.wait_turn(rt, turn, seen, more);
    }
    Err(Refusal::Late)
}

// Returns how many of the remaining items are settled at once.
fn batch_of(left: u64) -> u32
    requires { 0 < left }
    ensures { (0 < result) × (result ≤ 256) × (result ≤ left) }
{
    left.min(BATCH) as u32
}

// Settles this many items of a front.
fn sequence<R: Threads + Wait + Sync>(
    rt: &R,
    alloc: Global,
    sequencer: &mut Sequencer,
    front: u16,
    count: u64,
    now: u64,
    waiting: &Waiting,
) -> Result<Reply, Refusal>
    requires { front < length sequencer.old.lanes }
    ensures { SequencesFront front count now sequencer.old (answered result) sequencer.new }
{
    let mut left = count;
    while left > 0 {
        let most = batch_of(left);
        match settle_some(rt, alloc, sequencer, front, most, now, waiting) {
            Ok(settled) => left -= u64::from(settled),
            Err(refusal) => return Err(refusal),
        }
    }
    Ok(Reply::Settled(count))
}

// Publishes a head, and rings the bell.
fn publish<R: Wait>(
    rt: &R,
    alloc: Global,
    sequencer: &mut Sequencer,
    now: u64,
    heads: &Bell,
) -> Result<Reply, Refusal>
    ensures { Publishes now sequencer.old (answered result) sequencer.new }
{
    let head = sequencer.publish(rt, alloc, now)?;
    heads.ring();
    Ok(Reply::Published(head))
}

// Shuts the log.
fn shut(sequencer: &mut Sequencer) -> Result<Reply, Refusal>
    ensures { ShutsTheLog sequencer.old (answered result) sequencer.new }
{
    let accepted = sequencer.shutdown()?;
    Ok(Reply::Accepted(accepted))
}

/// Does the task of a line. A line that waits gives up after `waiting.turns` turns in a row in which no item arrived.
pub fn do_operator_task<R: Threads + Wait + Sync>(
    rt: &R,
    alloc: Global,
    sequencer: &mut Sequencer,
    task: OperatorTask,
    waiting: &Waiting,
) -> Result<Reply, Refusal>
    ensures does { OperatorDoes sequencer.old task (answered result) sequencer.new }
    ensures goes_on { GoesOn sequencer.old sequencer.new }
{
    match task {
        OperatorTask::Sequence { from, count, now } => {
            if usize::from(from) >= sequencer.fronts() {
                return Err(Refusal::BadLine);
            }
            sequence(rt, alloc, sequencer, from, count, now, waiting)
        }
        OperatorTask::Publish { now } => publish(rt, alloc, sequencer, now, &waiting.heads),
        OperatorTask::Shutdown => shut(sequencer),
        OperatorTask::BadLine => Err(Refusal::BadLine),
    }
}

// The operator's replies are whole lines.
impl Party<OperatorTask> for Sequencer {
    ghost does = { DoesWithLine OperatorDoes GoesOn };

    fn reply<R: Threads + Wait + Sync>(
        &mut self,
        rt: &R,
        alloc: Global,
        waiting: &Waiting,
        task: OperatorTask,
    ) -> Result<Vec<u8>, AllocError> {
        let reply = do_operator_task(rt, alloc, self, task, waiting);
        reply_text(alloc, &reply)
    }
}
