//! The command line: `PROGRAM --fronts N --ring K [--open-at T] [--close-at T]`.

ghost use Rattle.std.specs.Prelude.{◌≡◌, ◌<◌, ◌≤◌, ◌⊎◌, IfOk, IfErr, IfSome, Some, None, MatchResult, false, ℕ};
ghost use Rattle.clap.specs.Words.{app_of, rule_of, kind_of};
ghost use Rattle.ctlog.specs.CommandLine.{asked_for, app_named, options_named, versioned, log_with, IsRefusalOf};
ghost use Rattle.ctlog.specs.CommandLine.{fronts_rule, ring_rule, open_at_rule, close_at_rule};
ghost use Rattle.ctlog.specs.FaultLines.{name_of};
ghost use Rattle.ctlog.specs.NoOptions.{IsNoOptions};

use crate::names::Program;
use clap::error::ErrorKind;
use clap::{Arg, ArgAction, Command, Error, value_parser};
use ct_lines::{Fault, Options};
use std::alloc::Global;

// The latest timestamp that the command line accepts, 2^53 - 1, in milliseconds.
const LAST_MOMENT: u64 = 9_007_199_254_740_991;

// The version of the programs and of the library for C (include/wagtenib.pc.in).
const VERSION: &str = "0.1.0";

// Returns the option for the number of fronts.
fn fronts_option<'a>(alloc: Global) -> Arg<'a>
    ensures rule { rule_of result ≡ fronts_rule }
    ensures local { result.global ≡ false }
{
    Arg::new(alloc, "fronts")
        .long("fronts")
        .value_name("N")
        .help("The number of fronts, from 1 to 16")
        .required(true)
        .action(ArgAction::Set)
        .value_parser(value_parser!(u16).range(1..=16))
}

// Returns the option for the capacity of a ring.
fn ring_option<'a>(alloc: Global) -> Arg<'a>
    ensures rule { rule_of result ≡ ring_rule }
    ensures local { result.global ≡ false }
{
    Arg::new(alloc, "ring")
        .long("ring")
        .value_name("K")
        .help("The places of a front's ring, from 1 to 4096")
        .required(true)
        .action(ArgAction::Set)
        .value_parser(value_parser!(usize).range(1..=4096))
}

// Returns the option for the timestamp of opening.
fn open_at_option<'a>(alloc: Global) -> Arg<'a>
    ensures rule { rule_of result ≡ open_at_rule }
    ensures local { result.global ≡ false }
{
    Arg::new(alloc, "open-at")
        .long("open-at")
        .value_name("T")
        .help(
            "The moment at which the log opens, in milliseconds, at most 9007199254740991; a log that closes then or before ends with clock-back [default: 0]",
        )
        .action(ArgAction::Set)
        .value_parser(value_parser!(u64).range(0..=9_007_199_254_740_991))
}

// Returns the option for the timestamp of closing.
fn close_at_option<'a>(alloc: Global, program: Program) -> Arg<'a>
    ensures rule { rule_of result ≡ close_at_rule }
    ensures local { result.global ≡ false }
{
    Arg::new(alloc, "close-at")
        .long("close-at")
        .value_name("T")
        .help(program.closing())
        .action(ArgAction::Set)
        .value_parser(value_parser!(u64).range(0..=9_007_199_254_740_991))
}

// Returns the command and its arguments.
fn arguments<'a>(alloc: Global, program: Program) -> Result<Command<'a>, Error>
    ensures app { IfOk result (λ c. app_of c ≡ options_named (name_of program)) }
    ensures memory { IfErr result (λ e. kind_of e ≡ ErrorKind.OutOfMemory) }
{
    let command = Command::new(alloc, program.name())
        .arg(fronts_option(alloc))?
        .arg(ring_option(alloc))?
        .arg(open_at_option(alloc))?
        .arg(close_at_option(alloc, program))?;
    Ok(command)
}

// Returns the command, with a description of the program after its options.
fn with_about<'a>(command: Command<'a>, program: Program) -> Command<'a>
    ensures { app_of result ≡ app_of command.entry }
{
    command.after_help(program.about())
}

// Returns the command, with the version of the programs.
fn with_version<'a>(command: Command<'a>) -> Command<'a>
    ensures { app_of result ≡ versioned (app_of command.entry) }
{
    command.version(VERSION)
}

// Returns the command, its arguments, its version, and the description for help.
fn command<'a>(alloc: Global, program: Program) -> Result<Command<'a>, Error>
    ensures app { IfOk result (λ c. app_of c ≡ app_named (name_of program)) }
    ensures memory { IfErr result (λ e. kind_of e ≡ ErrorKind.OutOfMemory) }
{
    let command = arguments(alloc, program)?;
    Ok(with_version(with_about(command, program)))
}

// Returns the numbers, if both exist and are in their ranges.
fn in_range(fronts: Option<u16>, ring: Option<usize>) -> Option<(u16, usize)>
    ensures some { IfSome result (λ p. (fronts ≡ Some p.0) × (ring ≡ Some p.1) × (0 < p.0) × (p.0 ≤ 16) × (0 < p.1) × (p.1 ≤ 4096)) }
    ensures none { result ≡ None → (f k : ℕ) → fronts ≡ Some f → ring ≡ Some k → 1 ≤ f → f ≤ 16 → 1 ≤ k → k ≤ 4096 → ⊥ }
{
    match (fronts, ring) {
        (Some(fronts @ 1..=16), Some(ring @ 1..=4096)) => Some((fronts, ring)),
        _ => None,
    }
}

/// Returns the numbers that the arguments request of this program. The first argument is the name by which the program was called.
///
/// Each timestamp only has to be in its range. A log may open after its closing, and then its clock refuses the closing.
///
/// # Errors
///
/// Clap's error: of the kind `OutOfMemory`; of the kind `DisplayHelp` or `DisplayVersion`, if the arguments request help or the version; or
/// of another kind, if they request nothing that exists.
pub fn read_options<'a>(
    alloc: Global,
    program: Program,
    words: &'a [&'a str],
) -> Result<Options, Error>
    ensures { MatchResult result
        (λ o. asked_for (name_of program) words.now ≡ log_with o.fronts o.ring o.open_at o.close_at)
        (λ e. IsRefusalOf (asked_for (name_of program) words.now) (kind_of e)) }
{
    let mut command = command(alloc, program)?;
    let matches = command.try_get_matches_from_mut(words)?;
    let open_at = matches.get_one::<u64>("open-at").unwrap_or(0);
    let close_at = matches.get_one::<u64>("close-at").unwrap_or(LAST_MOMENT);
    let fronts = matches.get_one::<u16>("fronts");
    let ring = matches.get_one::<usize>("ring");
    let Some((fronts, ring)) = in_range(fronts, ring) else {
        let error = command.error(ErrorKind::ValueValidation, "a number is out of range")?;
        return Err(error);
    };
    Ok(Options {
        fronts,
        ring,
        open_at,
        close_at,
    })
}

// Returns a refusal with this message.
fn refused(alloc: Global, program: Program, message: &str) -> Result<Error, Error>
    ensures refusal { IfOk result (λ e. kind_of e ≡ ErrorKind.InvalidValue) }
    ensures memory { IfErr result (λ e. kind_of e ≡ ErrorKind.OutOfMemory) }
{
    let mut command = command(alloc, program)?;
    let error = command.error(ErrorKind::InvalidValue, message)?;
    Ok(error)
}

// Returns a refusal with this message, or clap's error if there was no memory for it.
fn refusal(alloc: Global, program: Program, message: &str) -> Error
    ensures { (kind_of result ≡ ErrorKind.InvalidValue) ⊎ (kind_of result ≡ ErrorKind.OutOfMemory) }
{
    match refused(alloc, program, message) {
        Ok(error) => error,
        Err(error) => error,
    }
}

/// The kind of answer if the arguments give no numbers.
#[derive(Clone, Copy, Debug, PartialEq, Eq)]
pub enum NoOptions {
    /// There was no memory.
    Fault(Fault),
    /// Help or the version, which the arguments request.
    Notice,
    /// A refusal.
    Refusal,
}

impl From<ErrorKind> for NoOptions {
    ghost from_gives = { λ kind n. IsNoOptions n kind };

    fn from(kind: ErrorKind) -> NoOptions {
        match kind {
            ErrorKind::OutOfMemory => NoOptions::Fault(Fault::Memory),
            ErrorKind::DisplayHelp | ErrorKind::DisplayVersion => NoOptions::Notice,
            _ => NoOptions::Refusal,
        }
    }
}

/// Returns the refusal of a command line with an argument that is not UTF-8: clap's error, of the kind `InvalidValue`, or `OutOfMemory` if
/// there was no memory for it.
pub fn unreadable_word(alloc: Global, program: Program) -> Error
    ensures { (kind_of result ≡ ErrorKind.InvalidValue) ⊎ (kind_of result ≡ ErrorKind.OutOfMemory) }
{
    refusal(alloc, program, "an argument isn't UTF-8")
}
