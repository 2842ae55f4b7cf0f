//! Reads the lines of the input one by one, and assigns them.

ghost use Rattle.std.specs.Prelude.{◌≡◌, ◌⊎◌, List, length, IfOk, IfErr};
ghost use Rattle.ct_lines.specs.Plans.{IsPlanOf, LineTaken};
ghost use Rattle.ct_lines.specs.Tasks.{Step};
ghost use Rattle.ct_lines.specs.Steps.{AreStepsOf, AreWhole};

use crate::plan::Plan;
use crate::run_fault::Fault;
use json_lines::{READS, REQUEST_KEPT, next_line};
use std::alloc::Global;
use std::io::{BufRead, BufReader, Read};

// The number of bytes that are requested from the reader at a time.
const CAPACITY: usize = 65_536;

// Reads the next line into the buffer, and adds its task. Returns true if no line was left.
fn take_line<R: BufRead>(
    alloc: Global,
    fronts: u16,
    input: &mut R,
    buffer: &mut Vec<u8>,
    plan: &mut Plan,
) -> Result<bool, Fault>
    requires { length plan.old.last.fronts.items ≡ fronts }
    ensures taken { IfOk result (λ done. LineTaken fronts plan.old plan.new (R.remaining input.old) (R.remaining input.new) done) }
    ensures faults { IfErr result (λ f. (f ≡ Fault.Read) ⊎ (f ≡ Fault.Memory)) }
{
    let is_line = match next_line(input, REQUEST_KEPT, buffer) {
        Ok(is_line) => is_line,
        Err(error) => return Err(Fault::from(error.kind())),
    };
    if !is_line {
        return Ok(true);
    }
    plan.add_line(alloc, fronts, buffer)?;
    Ok(false)
}

// Assigns the lines that are left.
fn give_out<R: BufRead>(alloc: Global, fronts: u16, input: &mut R) -> Result<Plan, Fault>
    ensures plan { IfOk result (λ p. (ss : List Step) × AreStepsOf fronts (R.remaining input.old) ss × IsPlanOf fronts p ss × AreWhole ss) }
    ensures faults { IfErr result (λ f. (f ≡ Fault.Read) ⊎ (f ≡ Fault.Memory)) }
{
    let mut plan = Plan::new(alloc, fronts)?;
    let mut buffer = Vec::new(alloc);
    for turn in 0..READS {
        let done = take_line(alloc, fronts, input, &mut buffer, &mut plan)?;
        if done {
            return Ok(plan);
        }
    }
    Err(Fault::Read)
}

/// Reads the input to its end, and assigns its lines to this many fronts, to the operator and to the closed log, shift by shift. At most
/// one line is kept at a time, and at most 1,048,578 bytes of a line that is too long for a request. An empty line has no task.
///
/// # Errors
///
/// `Read` if the reader fails, or if there are more than 2^50 lines; `Memory` if memory is refused.
pub fn read_plan<R: Read>(alloc: Global, fronts: u16, input: &mut R) -> Result<Plan, Fault>
    ensures plan { IfOk result (λ p. (ss : List Step) × AreStepsOf fronts (R.remaining input.old) ss × IsPlanOf fronts p ss × AreWhole ss) }
    ensures faults { IfErr result (λ f. (f ≡ Fault.Read) ⊎ (f ≡ Fault.Memory)) }
{
    match BufReader::with_capacity(alloc, CAPACITY, input) {
        Ok(mut reader) => give_out(alloc, fronts, &mut reader),
        Err(error) => Err(Fault::from(error.kind())),
    }
}
