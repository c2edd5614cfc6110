//! A call of `explain`.

ghost use Rattle.std.specs.Prelude.{◌≡◌, ℕ, List, Option, IfOk, IfErr, OnOk};
ghost use Rattle.session_log.specs.Version.{version_of};
ghost use Rattle.cobra_answers.specs.Answers.{IsTold, IsRefused};
ghost use Rattle.cobra_answers.specs.declared.status.Status.{Status};
ghost use Rattle.cobra_answers.specs.Failures.{failures_after};
ghost use Rattle.cobra_answers.specs.Refusals.{is_memory};
ghost use Rattle.cobra_cli.specs.Checked.{IsUndecided};
ghost use Rattle.cobra_cli.specs.Explained.{IsExplanation};
ghost use Rattle.cobra_calls.specs.Calls.{log_name};
ghost use Rattle.cobra_calls.specs.Endings.{failures_by, output_failures};
ghost use Rattle.cobra_calls.specs.Explains.{IsRefusalText, IsSaid, IsUnsaid, said_fault};
ghost use Rattle.cobra_calls.specs.Explains.{IsExplainEnding};

use crate::audits::hand_on;
use crate::ending::Ending;
use crate::splits::log_name;
use crate::world::Outlet;
use cobra_answers::{Fault, Status, Stop};
use cobra_cli::{Format, Options, explain};
use cobra_words::Request;
use desk::gate::OpenGate;
use fault_words::refusal as refusal_line;
use session_log::{LogFault, MAX_LOG_BYTES};
use std::alloc::{AllocError, Global};
use std::sync::Wait;
use std::thread::Threads;
use std::time::Clock;

/// The line that says why a log of this name is refused, with its line feed.
fn refusal_text(
    alloc: Global,
    name: &str,
    log: &[u8],
    fault: LogFault,
) -> Result<String, AllocError>
    ensures text { IfOk result (IsRefusalText name.now fault) }
{
    let mut line = refusal_line(alloc, name, log, fault, MAX_LOG_BYTES)?;
    line.push('\n')?;
    Ok(line)
}

/// Says in words why a log of this name is refused.
fn say_refused<W: Outlet>(
    alloc: Global,
    name: &str,
    log: &[u8],
    fault: LogFault,
    sink: &mut W,
) -> Result<(), Ending>
    ensures said { OnOk result (IsSaid name.now fault (W.bytes sink.old) (W.bytes sink.new)) }
    ensures unsaid { IfErr result (IsUnsaid name.now fault (W.bytes sink.old) (W.bytes sink.new)) }
    ensures count { W.failures sink.new ≡ output_failures (W.failures sink.old) result }
{
    match refusal_text(alloc, name, log, fault) {
        Ok(line) => hand_on(line.as_bytes(), sink),
        Err(AllocError) => Err(Ending::memory()),
    }
}

/// Whether memory was refused.
fn is_memory(fault: LogFault) -> bool
    ensures memory { result ≡ is_memory fault }
{
    matches!(fault, LogFault::Memory)
}

/// The log's fault that is said in words, where one is.
fn said_fault(format: Format, refused: Fault) -> Option<LogFault>
    ensures said { result ≡ said_fault format refused }
{
    match format {
        Format::Dot => None,
        Format::Text => match refused {
            Fault::Log(said) => { if is_memory(said) { None } else { Some(said) } }
            _ => None,
        },
    }
}

/// How a call ends that is refused so, and of a log that is refused, why, in words.
fn refuse<W: Outlet>(
    alloc: Global,
    name: &str,
    log: &[u8],
    format: Format,
    refused: Fault,
    sink: &mut W,
) -> Ending
    ensures ended { (budget : ℕ) (old : Option (List ℕ))
        → IsRefused (IsExplanation budget (version_of log.now) format) IsUndecided log.now old
        (W.bytes sink.old) refused
        → IsExplainEnding name.now log.now budget format old (W.bytes sink.new) result }
    ensures count { (before : ℕ) → W.failures sink.old ≡ failures_after before (Err refused)
        → W.failures sink.new ≡ failures_by before result }
{
    match said_fault(format, refused) {
        Some(said) => match say_refused(alloc, name, log, said, sink) {
            Ok(()) => Ending::Stop(Stop::Refused(refused)),
            Err(ending) => ending,
        },
        None => Ending::Stop(Stop::Refused(refused)),
    }
}

/// Says why no serial order explains a log, and of a log that is refused, why, in words.
pub fn explain_log<R: Threads + Wait + Clock + Sync, W: Outlet>(
    rt: &R,
    alloc: Global,
    log: &[u8],
    request: &Request<'_>,
    options: &Options,
    format: Format,
    sink: &mut W,
) -> Result<Status, Ending>
    ensures told { IfOk result (IsTold (IsExplanation options.now.budget (version_of log.now) format)
        log.now (W.bytes sink.old) (W.bytes sink.new)) }
    ensures ended { IfErr result (IsExplainEnding (log_name request.now) log.now options.now.budget
        format (W.bytes sink.old) (W.bytes sink.new)) }
    ensures count { W.failures sink.new ≡ output_failures (W.failures sink.old) result }
{
    match explain(rt, alloc, log, options, format, &OpenGate, sink) {
        Ok(status) => Ok(status),
        Err(fault) => Err(refuse(alloc, log_name(request), log, format, fault, sink)),
    }
}
