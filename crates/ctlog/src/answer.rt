//! Answers to command lines that give no numbers.

ghost use Rattle.std.specs.Prelude.{◌≡◌, ◌≢◌, ◌⊎◌, ◌≤◌, ℕ, List, [], OnErr, IfErr};
ghost use Rattle.std.specs.Io.KnownBytes.{Appends};
ghost use Rattle.std.specs.IoError.{error_kind};
ghost use Rattle.std.specs.declared.io.ErrorKind.TheVariants.{OutOfMemory as NoMemory};
ghost use Rattle.clap.specs.Words.{kind_of};
ghost use Rattle.clap.specs.declared.error.kind.ErrorKind.TheVariants.{OutOfMemory};
ghost use Rattle.json_lines.specs.Sends.{SendsSome};
ghost use Rattle.ct_lines.specs.declared.run_fault.Fault.{Fault as FaultOf};
ghost use Rattle.ctlog.specs.CommandLine.{IsNotice, IsUnanswered};
ghost use Rattle.ctlog.specs.FaultLines.{fault_line, name_of};

use crate::command::{NoOptions, unreadable_word};
use crate::names::Program;
use crate::reporting::report;
use clap::Error;
use ct_lines::Fault;
use json_lines::{send, tell};
use std::alloc::Global;
use std::io;
use std::io::Write;

// Writes help or the version to the output.
fn send_notice<W: Write>(alloc: Global, error: &Error, output: &mut W) -> Result<(), Fault>
    ensures text { (text : List ℕ) × Appends (W.contents output.old) (W.contents output.new) text }
    ensures faults { IfErr result (λ f. (f ≡ Fault.Write) ⊎ (f ≡ Fault.Memory)) }
{
    let text = format!(in alloc; "{error}")?;
    send(output, text.as_bytes())?;
    Ok(())
}

// The source of requests, for a user who gave them as arguments.
const SOURCE: &str = "Requests come on standard input, a line of JSON each.\n";

// Writes the reason why the arguments are refused to the faults. Write errors are ignored.
fn tell_refusal<E: Write>(alloc: Global, error: &Error, faults: &mut E) -> Result<(), Fault>
    ensures memory { IfErr result (λ f. f ≡ Fault.Memory) }
    ensures same { OnErr result (faults.new ≡ faults.old) }
{
    let text = format!(in alloc; "{error}\n{SOURCE}")?;
    tell(faults, text.as_bytes());
    Ok(())
}

/// Answers a command line that gives no numbers and for which clap has this error. Returns the exit status.
///
/// - 0: help or the version was written to the output.
/// - 1: a fault broke it off, and its line was written to the faults, as far as possible.
/// - 2: the arguments are refused, and the reason was written to the faults, as far as possible.
pub fn answer_command_line<W: Write, E: Write>(
    alloc: Global,
    program: Program,
    error: &Error,
    output: &mut W,
    faults: &mut E,
) -> u8
    ensures status { result ≤ 2 }
    ensures noticed { result ≡ 0 → IsNotice (kind_of error.now)
        × ((text : List ℕ) × Appends (W.contents output.old) (W.contents output.new) text) }
    ensures fault { result ≡ 1 → (f : FaultOf) × IsUnanswered (kind_of error.now) f (W.contents output.old) (W.contents output.new)
        × SendsSome (E.contents faults.old) (E.contents faults.new) (fault_line (name_of program) f) }
    ensures refused { result ≡ 2 → (IsNotice (kind_of error.now) → ⊥) × (kind_of error.now ≢ OutOfMemory) × (output.new ≡ output.old) }
    ensures quiet { result ≡ 0 → faults.new ≡ faults.old }
{
    match NoOptions::from(error.kind()) {
        NoOptions::Fault(fault) => report(program, fault, faults),
        NoOptions::Notice => match send_notice(alloc, error, output) {
            Ok(()) => 0,
            Err(fault) => report(program, fault, faults),
        },
        NoOptions::Refusal => match tell_refusal(alloc, error, faults) {
            Ok(()) => 2,
            Err(fault) => report(program, fault, faults),
        },
    }
}

/// Answers a command line whose arguments could not be read. Returns the exit status, which is never 0.
///
/// - 1: there was no memory, for the arguments or for the refusal. The fault's line was written to the faults, as far as possible, and
///   nothing to the output.
/// - 2: an argument is not UTF-8, and the refusal was written to the faults, as far as possible. Only tests check its text.
pub fn refuse_words<W: Write, E: Write>(
    alloc: Global,
    program: Program,
    error: &io::Error,
    output: &mut W,
    faults: &mut E,
) -> u8
    ensures status { (result ≡ 1) ⊎ (result ≡ 2) }
    ensures memory { error_kind error.now ≡ NoMemory → result ≡ 1 }
    ensures fault { result ≡ 1 → Appends (W.contents output.old) (W.contents output.new) []
        × SendsSome (E.contents faults.old) (E.contents faults.new) (fault_line (name_of program) Fault.Memory) }
    ensures refused { result ≡ 2 → output.new ≡ output.old }
{
    match Fault::from(error.kind()) {
        Fault::Read => {
            let refusal = unreadable_word(alloc, program);
            answer_command_line(alloc, program, &refusal, output, faults)
        }
        fault => report(program, fault, faults),
    }
}
