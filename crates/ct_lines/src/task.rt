//! The task of a front, the operator or the frozen log for a line.

ghost use Rattle.std.specs.Prelude.{◌≡◌, ℕ, List, IfOk, IsOkUnless};
ghost use Rattle.ct_lines.specs.Asked.{IsRequest};
ghost use Rattle.ct_lines.specs.Requests.{asked, front_asked, operator_asked};
ghost use Rattle.ct_lines.specs.Tasks.{step, front_step, operator_step, step_of, AsksFor, IsForThere, IsFrozenTask, IsTaskFor};

use crate::run_fault::Fault;
use crate::{FrontRequest, FrozenRequest, OperatorRequest, Request, read_line};
use ct_codec::Refusal;
use std::alloc::Global;

/// The operator's task for a line.
#[derive(Clone, Copy, Debug, PartialEq, Eq)]
pub enum OperatorTask {
    /// Settles `count` items that the front `from` accepts, at the timestamp `now`, in milliseconds.
    Sequence { from: u16, count: u64, now: u64 },
    /// Publishes a head at the timestamp `now`, in milliseconds.
    Publish { now: u64 },
    /// Shuts the log down.
    Shutdown,
    /// Replies with bad-line: the line is no request, or one that no party here serves.
    BadLine,
}

/// The program's task for a line.
#[derive(Debug, Drop)]
pub enum Task {
    /// The front with this number serves this request.
    Front(u16, FrontRequest),
    /// The operator does this task.
    Operator(OperatorTask),
    /// The frozen log answers this request.
    Frozen(FrozenRequest),
    /// The shift ends at this timestamp, in milliseconds.
    EndsShift(u64),
}

// Returns the task of the front with this number. If there is no such front, it is a bad line for the operator.
fn front_request_task(fronts: u16, number: u64, request: FrontRequest) -> Task
    ensures { (line : List ℕ) → IsTaskFor fronts line (front_step fronts number (front_asked request)) result }
{
    if number >= u64::from(fronts) {
        return Task::Operator(OperatorTask::BadLine);
    }
    Task::Front(number as u16, request)
}

// Returns the operator's task, or the end of a shift. `sequence` of a front that does not exist is a bad line.
fn operator_request_task(fronts: u16, request: OperatorRequest) -> Task
    ensures { (line : List ℕ) → IsTaskFor fronts line (operator_step fronts (operator_asked request)) result }
{
    match request {
        OperatorRequest::Sequence { from, count, now } => {
            if from >= u64::from(fronts) {
                return Task::Operator(OperatorTask::BadLine);
            }
            let from = from as u16;
            Task::Operator(OperatorTask::Sequence { from, count, now })
        }
        OperatorRequest::Publish { now } => Task::Operator(OperatorTask::Publish { now }),
        OperatorRequest::Shutdown => Task::Operator(OperatorTask::Shutdown),
        OperatorRequest::Shift { now } => Task::EndsShift(now),
    }
}

// Returns the task for the request in a line.
fn request_task(fronts: u16, request: Request) -> Task
    ensures { (line : List ℕ) → IsRequest line (asked request) → IsTaskFor fronts line (step_of fronts line (asked request)) result }
{
    match request {
        Request::Front(number, request) => front_request_task(fronts, number, request),
        Request::Operator(request) => operator_request_task(fronts, request),
        Request::Frozen(request) => Task::Frozen(request),
    }
}

/// Returns the task for a line, which is passed without its end byte. A line that is no request becomes a task of the operator, which
/// replies with bad-line.
///
/// # Errors
///
/// `Memory`, if memory is refused.
pub fn line_task(alloc: Global, fronts: u16, line: &[u8]) -> Result<Task, Fault>
    ensures asked { IfOk result (λ t. AsksFor fronts line.now (step line.now t)) }
    ensures there { IfOk result (λ t. IsForThere fronts (step line.now t)) }
    ensures frozen { IfOk result (λ t. IsFrozenTask line.now t) }
    ensures memory { IsOkUnless result Fault.Memory }
{
    match read_line(alloc, line) {
        Ok(request) => Ok(request_task(fronts, request)),
        Err(Refusal::BadLine) => Ok(Task::Operator(OperatorTask::BadLine)),
        Err(refusal) => Err(Fault::from(refusal)),
    }
}
