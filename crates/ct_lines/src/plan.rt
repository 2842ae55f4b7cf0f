//! Assigns the requests in the lines of an input to the parties that serve them.

ghost use Rattle.std.specs.Prelude.{◌≡◌, ◌<◌, ◌++◌, ◌∷◌, ℕ, [], List, Vec, length, IfOk, IsOkUnless, OnOk, Some, slice_get};
ghost use Rattle.std.specs.Global.{Global as GlobalOf};
ghost use Rattle.ct_lines.specs.Requests.{front_asked};
ghost use Rattle.ct_lines.specs.declared.request.FrontRequest.{FrontRequest as FrontRequestOf};
ghost use Rattle.ct_lines.specs.Tasks.{PartyTask, Step, does, ends_shift, for_front, for_operator, for_frozen, step, IsForThere, IsFrozenLine, IsFrozenTask};
ghost use Rattle.ct_lines.specs.Plans.{IsWorkOf, IsPlanOf, GivesOut};

use crate::run_fault::Fault;
use crate::task::{OperatorTask, Task, line_task};
use crate::{FrontRequest, FrozenRequest};
use std::alloc::{AllocError, Global};
use std::mem;

/// The tasks of the fronts and of the operator in a shift.
#[derive(Drop)]
pub struct Work {
    /// The requests for each front, in order.
    pub fronts: Vec<Vec<FrontRequest>>,
    /// The tasks of the operator, in order.
    pub operator: Vec<OperatorTask>,
}

/// A shift that ends.
#[derive(Drop)]
pub struct Shift {
    /// The tasks in it.
    pub work: Work,
    /// The timestamp at which it ends, in milliseconds.
    pub now: u64,
}

/// The requests in the lines of an input, assigned to the parties that serve them.
#[derive(Drop)]
pub struct Plan {
    /// The shifts that end, in order.
    pub shifts: Vec<Shift>,
    /// The tasks after the last shift that ends.
    pub last: Work,
    /// The requests that the frozen log answers, in order.
    pub frozen: Vec<FrozenRequest>,
}

// Returns an empty list of tasks for each front.
fn no_tasks(alloc: Global, fronts: usize) -> Result<Vec<Vec<FrontRequest>>, AllocError>
    ensures count { IfOk result (λ lists. length lists.items ≡ fronts) }
    ensures empty { IfOk result (λ lists. (k : ℕ) (v : Vec FrontRequestOf GlobalOf) → slice_get lists.items k ≡ Some v → v.items ≡ []) }
{
    let mut lists = Vec::new(alloc);
    for _front in 0..fronts {
        lists.push(Vec::new(alloc))?;
    }
    Ok(lists)
}

impl Work {
    // Returns work for this many fronts and for the operator, with no tasks.
    fn new(alloc: Global, fronts: usize) -> Result<Work, AllocError>
        ensures { IfOk result (λ w. IsWorkOf fronts w []) }
    {
        let fronts = no_tasks(alloc, fronts)?;
        Ok(Work {
            fronts,
            operator: Vec::new(alloc),
        })
    }

    // Adds a task of a front.
    fn add_front_task(&mut self, number: u16, task: FrontRequest) -> Result<(), AllocError>
        requires { number < length self.old.fronts.items }
        ensures { OnOk result ((fronts : ℕ) (tasks : List PartyTask) → IsWorkOf fronts self.old tasks
            → IsWorkOf fronts self.new (tasks ++ for_front number (front_asked task) ∷ [])) }
    {
        let tasks = &mut self.fronts[number as usize];
        tasks.push(task)?;
        Ok(())
    }

    // Adds a task of the operator.
    fn add_operator_task(&mut self, task: OperatorTask) -> Result<(), AllocError>
        ensures { OnOk result ((fronts : ℕ) (tasks : List PartyTask) → IsWorkOf fronts self.old tasks
            → IsWorkOf fronts self.new (tasks ++ for_operator task ∷ [])) }
    {
        self.operator.push(task)?;
        Ok(())
    }
}

impl Plan {
    /// Returns a plan for this many fronts, with no tasks.
    pub fn new(alloc: Global, fronts: u16) -> Result<Plan, AllocError>
        ensures { IfOk result (λ p. IsPlanOf fronts p []) }
    {
        let last = Work::new(alloc, usize::from(fronts))?;
        Ok(Plan {
            shifts: Vec::new(alloc),
            last,
            frozen: Vec::new(alloc),
        })
    }

    // Adds a request that the frozen log answers.
    fn add_frozen_request(&mut self, request: FrozenRequest) -> Result<(), AllocError>
        ensures { OnOk result ((fronts : ℕ) (steps : List Step) (line : List ℕ) → IsFrozenLine request line → IsPlanOf fronts self.old steps
            → IsPlanOf fronts self.new (steps ++ does (for_frozen line) ∷ [])) }
    {
        self.frozen.push(request)?;
        Ok(())
    }

    // Ends the shift at this timestamp, and starts another one.
    fn end_shift(&mut self, alloc: Global, now: u64) -> Result<(), AllocError>
        ensures { OnOk result ((fronts : ℕ) (steps : List Step) → IsPlanOf fronts self.old steps
            → IsPlanOf fronts self.new (steps ++ ends_shift now ∷ [])) }
    {
        let next = Work::new(alloc, self.last.fronts.len())?;
        let work = mem::replace(&mut self.last, next);
        self.shifts.push(Shift { work, now })?;
        Ok(())
    }

    // Adds the task of a line.
    fn add(&mut self, alloc: Global, task: Task) -> Result<(), AllocError>
        requires { (line : List ℕ) → IsForThere (length self.old.last.fronts.items) (step line task) }
        ensures { OnOk result ((fronts : ℕ) (steps : List Step) (line : List ℕ) → IsFrozenTask line task → IsPlanOf fronts self.old steps
            → IsPlanOf fronts self.new (steps ++ step line task ∷ [])) }
    {
        match task {
            Task::Front(number, task) => self.last.add_front_task(number, task)?,
            Task::Operator(task) => self.last.add_operator_task(task)?,
            Task::Frozen(request) => self.add_frozen_request(request)?,
            Task::EndsShift(now) => self.end_shift(alloc, now)?,
        }
        Ok(())
    }

    /// Adds the task of the line, which is passed without its end byte. An empty line has none.
    pub fn add_line(&mut self, alloc: Global, fronts: u16, line: &[u8]) -> Result<(), Fault>
        requires { length self.old.last.fronts.items ≡ fronts }
        ensures taken { OnOk result (GivesOut fronts self.old self.new line.now) }
        ensures memory { IsOkUnless result Fault.Memory }
    {
        if !line.is_empty() {
            let task = line_task(alloc, fronts, line)?;
            self.add(alloc, task)?;
        }
        Ok(())
    }
}
