//! Tasks done in turn: a party does each task of a list, and its replies follow one another.

ghost use Rattle.std.specs.Prelude.{ℕ, List, IfOk, OnOk, OnErr};
ghost use denote.Param.Send.{IsSync};
ghost use Rattle.ct_workers.specs.Serving.{ServesAll, ServesFirst};

use crate::waiting::Waiting;
use std::alloc::{AllocError, Global};
use std::sync::Wait;
use std::thread::Threads;

/// Does tasks, and replies to each.
pub trait Party<T> {
    /// Relates the party before, a task, a reply and the party after: whether the party may do so.
    ghost does: { Self → T → List ℕ → Self → Type 0 };

    /// Does a task, and returns the reply, or an error if memory was refused. A task that waits gives up after `waiting.turns` turns. Its
    /// requirement is its bound `R: Sync`, which an implementation's proof does not see otherwise.
    fn reply<R: Threads + Wait + Sync>(
        &mut self,
        rt: &R,
        alloc: Global,
        waiting: &Waiting,
        task: T,
    ) -> Result<Vec<u8>, AllocError>
        requires { IsSync R.row }
        ensures { IfOk result (λ r. does self.old task r.items self.new) };
}

/// Has a party do these tasks in their order. Its replies are appended to `replies`.
///
/// # Errors
///
/// Memory was refused. Then `replies` has the replies to some first tasks, and the party was given at most one more task.
pub fn serve_all<T: Drop, P: Party<T>, R: Threads + Wait + Sync>(
    rt: &R,
    alloc: Global,
    waiting: &Waiting,
    tasks: Vec<T>,
    party: &mut P,
    replies: &mut Vec<u8>,
) -> Result<(), AllocError>
    ensures all { OnOk result (ServesAll P.does party.old tasks.items replies.old.items party.new replies.new.items) }
    ensures first { OnErr result (ServesFirst P.does party.old tasks.items replies.old.items replies.new.items) }
{
    for task in tasks {
        let reply = party.reply(rt, alloc, waiting, task)?;
        replies.extend_from_slice(&reply)?;
    }
    Ok(())
}
