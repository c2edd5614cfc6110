//! A call of `split`.

ghost use Rattle.std.specs.Prelude.{◌≡◌, ℕ, List, Option, IfOk, IfErr, string_bytes};
ghost use Rattle.split_command.specs.Told.{IsTold, IsUntold, failures_after};
ghost use Rattle.cobra_answers.specs.declared.status.Status.TheVariants.{Done};
ghost use Rattle.cobra_calls.specs.Calls.{log_name};
ghost use Rattle.cobra_calls.specs.Endings.{failures_by, output_failures};
ghost use Rattle.cobra_calls.specs.Splits.{no_room_line, IsSplitEnding};

use crate::ending::Ending;
use cobra_answers::{Status, Stop};
use cobra_words::Request;
use output::Sink;
use split_command::{SplitFault, put_split};
use splitting::NoRoom;
use std::alloc::{AllocError, Global};
use std::thread::Threads;

/// The name of standard input, where a log that is read from it is spoken of.
const STANDARD_INPUT: &str = "-";

/// The name of the log.
pub fn log_name<'a>(request: &Request<'a>) -> &'a str
    ensures name { result.now ≡ log_name request.now }
{
    request.log.unwrap_or(STANDARD_INPUT)
}

/// Says why the locks of a log of this name cannot be named.
fn no_room_line(alloc: Global, name: &str, why: NoRoom) -> Result<String, AllocError>
    ensures line { IfOk result (λ line. string_bytes line ≡ no_room_line name.now why) }
{
    match why {
        NoRoom::Keys { longest, marks } => format!(in alloc;
            "{name}: no room for the locks: a key of the log has {longest} bytes and its lock {marks} more, and a key has at most 64"
        ),
        NoRoom::Identities { largest, writes } => format!(in alloc;
            "{name}: no room for the locks: the identities of the log reach {largest}, and above it are not as many as its {writes} writes"
        ),
    }
}

/// Why there is no split log of a log of this name.
fn ending_of(alloc: Global, name: &str, log: &[u8], fault: SplitFault) -> Ending
    ensures ending { (bytes : List ℕ) (old new : Option (List ℕ)) → IsUntold bytes old new fault
        → IsSplitEnding name.now bytes old new result }
    ensures count { (before : ℕ) → failures_after {X = Unit {0}} before (Err fault)
        ≡ failures_by before result }
{
    match fault {
        SplitFault::Log(fault) => Ending::refused(alloc, name, log, fault),
        SplitFault::Locks(why) => Ending::usage(no_room_line(alloc, name, why)),
        SplitFault::Output { .. } => Ending::Stop(Stop::Output),
    }
}

/// Writes the split log of a long log.
pub fn split_log<R: Threads + Sync, W: Sink>(
    rt: &R,
    alloc: Global,
    log: &[u8],
    request: &Request<'_>,
    sink: &mut W,
) -> Result<Status, Ending>
    ensures done { IfOk result (λ s. IsTold log.now (W.bytes sink.old) (W.bytes sink.new) × (s ≡ Done)) }
    ensures ended { IfErr result (IsSplitEnding (log_name request.now) log.now
        (W.bytes sink.old) (W.bytes sink.new)) }
    ensures count { W.failures sink.new ≡ output_failures (W.failures sink.old) result }
{
    match put_split(rt, alloc, log, request.workers, sink) {
        Ok(()) => Ok(Status::Done),
        Err(fault) => Err(ending_of(alloc, log_name(request), log, fault)),
    }
}
