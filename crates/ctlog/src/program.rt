//! The program over any reader and any two writers.

ghost use Rattle.std.specs.Prelude.{◌≡◌, ◌⊎◌, ◌≤◌};
ghost use Rattle.json_lines.specs.Sends.{SendsSome};
ghost use Rattle.ct_lines.specs.declared.run_fault.Fault.{Fault as FaultOf};
ghost use Rattle.ctlog.specs.CommandLine.{asked_for, help, version, nothing};
ghost use Rattle.ctlog.specs.FaultLines.{fault_line, name_of};
ghost use Rattle.ctlog.specs.Runs.{IsDone, IsBrokenOff};

use crate::answer::answer_command_line;
use crate::command::read_options;
use crate::names::Program;
use crate::reporting::report;
use ct_lines::Fault;
use ct_workers::serve;
use std::alloc::Global;
use std::io::{Read, Write};
use std::sync::Wait;
use std::thread::Threads;

/// The maximum number of turns that a line may wait in the process.
pub const TURNS: u64 = 50_000_000;

/// Runs the program with its command line, whose first argument is its name, and returns its exit status. A line that waits for another
/// party looks `turns` times.
///
/// - 0: the arguments request a log with these numbers, and all replies to the input were written; or they request help or the version,
///   which was written. Nothing was written to the faults.
/// - 1: a fault broke it off, and its line was written to the faults, as far as possible. The output has a prefix of the output at status
///   0. The reported fault is the one that happened, as far as the library's contracts say. No contract says which call was refused memory,
///   or whether the reader or the writer failed permanently.
/// - 2: the arguments request nothing that exists. Nothing was written to the output.
///
/// If no log is requested, the input is not read. Clap's contracts do not cover texts. So only tests check the texts of help and of the
/// version, and the text written to the faults at status 2.
pub fn run<'a, H: Threads + Wait + Sync, R: Read, W: Write, E: Write>(
    rt: &H,
    alloc: Global,
    words: &'a [&'a str],
    turns: u64,
    input: &mut R,
    output: &mut W,
    faults: &mut E,
) -> u8
    ensures status { result ≤ 2 }
    ensures done { result ≡ 0 → IsDone (asked_for (name_of Program.Ctlog) words.now) (R.remaining input.old) (W.contents output.old) (W.contents output.new) }
    ensures fault { result ≡ 1 → (f : FaultOf)
        × IsBrokenOff (asked_for (name_of Program.Ctlog) words.now) f (R.remaining input.old) (W.contents output.old) (W.contents output.new)
        × SendsSome (E.contents faults.old) (E.contents faults.new) (fault_line (name_of Program.Ctlog) f) }
    ensures refused { result ≡ 2 → (asked_for (name_of Program.Ctlog) words.now ≡ nothing) × (output.new ≡ output.old) }
    ensures unread { (asked_for (name_of Program.Ctlog) words.now ≡ help) ⊎ ((asked_for (name_of Program.Ctlog) words.now ≡ version)
        ⊎ (asked_for (name_of Program.Ctlog) words.now ≡ nothing)) → input.new ≡ input.old }
    ensures quiet { result ≡ 0 → faults.new ≡ faults.old }
{
    match read_options(alloc, Program::Ctlog, words) {
        Ok(options) => match serve(rt, alloc, options, turns, input, output) {
            Ok(()) => 0,
            Err(fault) => report(Program::Ctlog, fault, faults),
        },
        Err(error) => answer_command_line(alloc, Program::Ctlog, &error, output, faults),
    }
}
