//! The line for a fault.

ghost use Rattle.std.specs.Prelude.{◌≡◌};
ghost use Rattle.json_lines.specs.Sends.{SendsSome};
ghost use Rattle.ctlog.specs.FaultLines.{fault_line, name_of};

use crate::names::Program;
use ct_lines::Fault;
use json_lines::tell;
use std::io::Write;

/// Writes the fault's line, as far as possible, and returns the status 1.
pub fn report<E: Write>(program: Program, fault: Fault, faults: &mut E) -> u8
    ensures status { result ≡ 1 }
    ensures line { SendsSome (E.contents faults.old) (E.contents faults.new) (fault_line (name_of program) fault) }
{
    tell(faults, program.line_of(fault).as_bytes());
    1
}
