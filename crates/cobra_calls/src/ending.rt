//! Why a call ends without an answer.

ghost use Rattle.std.specs.Prelude.{◌≡◌, string_bytes, Some, IfOk};
ghost use Rattle.cobra_answers.specs.declared.stop.Stop.TheVariants as stop;
ghost use Rattle.cobra_calls.specs.declared.ending.Ending.TheVariants.{Stop};
ghost use Rattle.cobra_calls.specs.Endings.{out_of_memory, ending_of, told_as, line_of, status_of};
ghost use Rattle.cobra_calls.specs.Endings.{IsLogRefusal, IsUnusable, IsUnusableLine};

use cobra_answers::{Fault, Stop};
use fault_words::refusal as refusal_line;
use long_log_definitions::MAX_LONG_LOG_BYTES;
use proof_text::ProofFault;
use refute_command::Refusal;
use session_log::LogFault;
use std::alloc::{AllocError, Global};
use std::{fmt, io};

/// The exit status of words that are no call, and of a log that is refused.
pub const USAGE: u8 = 2;

/// The exit status of a file that could not be read or written.
const DEVICE_FAILED: u8 = 5;

/// Why a call ends without an answer. It is displayed as the line that says so, without its line
/// feed.
#[derive(Drop)]
pub enum Ending {
    Stop(Stop),
    Proof(ProofFault),
    /// A line that is told, and the exit status.
    Told { line: String, status: u8 },
}

impl From<Stop> for Ending {
    ghost from_gives = { λ s e. e ≡ Stop s };

    fn from(stop: Stop) -> Ending {
        Ending::Stop(stop)
    }
}

impl From<Fault> for Ending {
    ghost from_gives = { λ f e. e ≡ Stop (stop.Refused f) };

    fn from(fault: Fault) -> Ending {
        Ending::Stop(Stop::Refused(fault))
    }
}

impl From<AllocError> for Ending {
    ghost from_gives = { λ _ e. e ≡ out_of_memory };

    fn from(_refused: AllocError) -> Ending {
        Ending::memory()
    }
}

impl From<Refusal> for Ending {
    ghost from_gives = { λ r e. e ≡ ending_of r };

    fn from(refusal: Refusal) -> Ending {
        match refusal {
            Refusal::Command(fault) => Ending::Stop(Stop::Refused(fault)),
            Refusal::Proof(fault) => Ending::Proof(fault),
        }
    }
}

impl Ending {
    /// Memory was refused.
    pub fn memory() -> Ending
        ensures { result ≡ out_of_memory }
    {
        Ending::Stop(Stop::Refused(Fault::Memory))
    }

    /// A line is told, where there is memory for it.
    fn told(line: Result<String, AllocError>, status: u8) -> Ending
        ensures told { result ≡ told_as line status }
    {
        match line {
            Ok(line) => Ending::Told { line, status },
            Err(_) => Ending::memory(),
        }
    }

    /// The words of the call ask for what there is not, or for what the log has no room for.
    pub fn usage(line: Result<String, AllocError>) -> Ending
        ensures told { result ≡ told_as line 2 }
    {
        Ending::told(line, USAGE)
    }

    /// A log of this name is refused.
    pub fn refused(alloc: Global, name: &str, log: &[u8], fault: LogFault) -> Ending
        ensures refused { IsLogRefusal name.now fault result }
    {
        match fault {
            LogFault::Memory => Ending::memory(),
            fault => Ending::told(
                refusal_line(alloc, name, log, fault, MAX_LONG_LOG_BYTES),
                USAGE,
            ),
        }
    }

    /// A file or a directory of this name cannot be read or written.
    pub fn unusable(alloc: Global, name: &str, error: io::Error) -> Ending
        ensures unusable { IsUnusable name.now result }
    {
        Ending::told(unusable_line(alloc, name, error), DEVICE_FAILED)
    }

    /// The exit status.
    pub fn code(&self) -> u8
        ensures code { result ≡ status_of self.now }
    {
        match self {
            Ending::Stop(stop) => stop.code(),
            Ending::Proof(fault) => fault.code(),
            Ending::Told { status, .. } => *status,
        }
    }
}

/// Says that a file or a directory of this name cannot be read or written.
fn unusable_line(alloc: Global, name: &str, error: io::Error) -> Result<String, AllocError>
    ensures line { IfOk result (λ line. IsUnusableLine name.now (string_bytes line)) }
{
    let why = format!(in alloc; "{error}")?;
    format!(in alloc; "{name}: {why}")
}

impl fmt::Display for Ending {
    ghost output = { λ e. Some (line_of e) };

    fn fmt<W: fmt::Write>(&self, f: &mut fmt::Formatter<W>) -> fmt::Result {
        match self {
            Ending::Stop(stop) => write!(f, "{stop}"),
            Ending::Proof(fault) => write!(f, "{fault}"),
            Ending::Told { line, .. } => write!(f, "{line}"),
        }
    }
}
