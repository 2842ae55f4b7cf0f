//! The program, with its name and its descriptions for help.

ghost use Rattle.std.specs.Prelude.{◌≡◌};
ghost use Rattle.ctlog.specs.FaultLines.{fault_line, name_of};

use ct_lines::Fault;

/// A program that runs a log.
#[derive(Clone, Copy, Debug, PartialEq, Eq)]
pub enum Program {
    /// `ctlog`, which reads its whole input before the log opens.
    Ctlog,
}

impl Program {
    /// Returns the program's name.
    pub fn name<'a>(self) -> &'a str
        ensures { result.now ≡ name_of self }
    {
        match self {
            Program::Ctlog => "ctlog",
        }
    }

    /// Returns the description of the program, which help shows below the options.
    pub fn about(self) -> &'static str {
        match self {
            Program::Ctlog => {
                "Runs a Certificate Transparency log (RFC 6962). Requests come on standard input and replies go to standard output,
a line of JSON each; docs/LINES.md has their form. The input is read whole before the log opens."
            }
        }
    }

    /// Returns the description of the timestamp of closing, for help.
    pub fn closing(self) -> &'static str {
        match self {
            Program::Ctlog => {
                "The time at which the log is closed, in milliseconds, at most the default [default: 9007199254740991]"
            }
        }
    }

    /// Returns the line that the program writes for a fault, with the end of the line.
    pub fn line_of(self, fault: Fault) -> &'static str
        ensures { result.now ≡ fault_line (name_of self) fault }
    {
        match (self, fault) {
            (Program::Ctlog, Fault::Memory) => "ctlog: memory\n",
            (Program::Ctlog, Fault::ClockBack) => "ctlog: clock-back\n",
            (Program::Ctlog, Fault::Threads) => "ctlog: threads\n",
            (Program::Ctlog, Fault::Read) => "ctlog: read\n",
            (Program::Ctlog, Fault::Write) => "ctlog: write\n",
        }
    }
}
