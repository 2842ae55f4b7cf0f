//! The program `ctlog`: a log with up to 16 fronts, run over a script of request lines.
//!
//! It reads standard input to its end, assigns its lines to the fronts, the operator and the frozen log, and writes a reply for each line
//! that is not empty. Each front serves its lines in a thread of its own, and the operator serves its lines at the same time. The replies
//! of the fronts come first, in the order of their numbers, then the operator's, and then, after the log is closed, those of the frozen
//! log. At a line that ends a shift, all lines before it are done, and all fronts are resumed, before the lines after it are started.
//!
//! - `program` has `run`, which does all this over any reader and any two writers, with `serve` of `ct_workers`.
//! - `words` has the texts of the arguments, `command` reads the numbers of a log from them, and `answer` answers a command line that gives
//!   no numbers. `names` has the program's name and its descriptions for help.
//! - `reporting` writes the line for a fault, which ends the program before all output is written.
#![tactic(auto)]

ghost use Rattle.std.specs.Prelude.{◌≡◌, ◌⊎◌, ◌≤◌};
ghost use Rattle.ct_lines.specs.declared.run_fault.Fault.{Fault as FaultOf};
ghost use Rattle.ctlog.specs.CommandLine.{asked_of, help, version, nothing};
ghost use Rattle.ctlog.specs.FaultLines.{fault_line, name_of};
ghost use Rattle.ctlog.specs.Runs.{IsDone, IsBrokenOff};
ghost use Rattle.json_lines.specs.Sends.{SendsSome};

mod answer;
mod command;
mod names;
mod program;
mod reporting;
mod words;

use answer::refuse_words;
use ct_lines::Fault;
use names::Program;
use program::{TURNS, run};
use reporting::report;
use std::alloc::Global;
use std::io;
use std::io::{Read, Write};
use std::process::ExitCode;
use std::sync::Wait;
use std::thread::Threads;
use words::texts;

// Returns the arguments of the command line. The contracts of `std` do not say which these are.
fn collected(rt: &HostRuntime) -> io::Result<Vec<String>> {
    let words = std::env::args(rt)?.collect(rt.alloc())?;
    Ok(words)
}

// Runs the program with these arguments, and returns its exit status. It has the promises of `run`.
fn run_words<H: Threads + Wait + Sync, R: Read, W: Write, E: Write>(
    rt: &H,
    alloc: Global,
    words: &[String],
    input: &mut R,
    output: &mut W,
    faults: &mut E,
) -> u8
    ensures status { result ≤ 2 }
    ensures done { result ≡ 0 → IsDone (asked_of (name_of Program.Ctlog) words.now) (R.remaining input.old) (W.contents output.old) (W.contents output.new) }
    ensures fault { result ≡ 1 → (f : FaultOf)
        × IsBrokenOff (asked_of (name_of Program.Ctlog) words.now) f (R.remaining input.old) (W.contents output.old) (W.contents output.new)
        × SendsSome (E.contents faults.old) (E.contents faults.new) (fault_line (name_of Program.Ctlog) f) }
    ensures refused { result ≡ 2 → (asked_of (name_of Program.Ctlog) words.now ≡ nothing) × (output.new ≡ output.old) }
    ensures unread { (asked_of (name_of Program.Ctlog) words.now ≡ help) ⊎ ((asked_of (name_of Program.Ctlog) words.now ≡ version)
        ⊎ (asked_of (name_of Program.Ctlog) words.now ≡ nothing)) → input.new ≡ input.old }
    ensures quiet { result ≡ 0 → faults.new ≡ faults.old }
{
    match texts(alloc, words) {
        Ok(texts) => run(rt, alloc, &texts, TURNS, input, output, faults),
        Err(error) => report(Program::Ctlog, Fault::from(error), faults),
    }
}

fn main(rt: HostRuntime) -> ExitCode {
    let alloc = rt.alloc();
    let mut input = rt.reader();
    let mut output = std::io::writer(&rt);
    let mut faults = rt.stderr();
    let status = match collected(&rt) {
        Ok(words) => run_words(&rt, alloc, &words, &mut input, &mut output, &mut faults),
        Err(error) => refuse_words(alloc, Program::Ctlog, &error, &mut output, &mut faults),
    };
    ExitCode::from(status)
}
