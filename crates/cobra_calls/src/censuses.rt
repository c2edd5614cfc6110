//! A call of `census`.

ghost use Rattle.std.specs.Prelude.{◌≡◌, ℕ, List, Option, IfOk, IfErr};
ghost use Rattle.census_command.specs.Told.{IsTold, IsUntold, failures_after};
ghost use Rattle.cobra_calls.specs.Calls.{log_name};
ghost use Rattle.cobra_calls.specs.Endings.{failures_by, output_failures};
ghost use Rattle.cobra_calls.specs.Censuses.{IsCensusEnding};

use crate::ending::Ending;
use crate::splits::log_name;
use census_command::{CensusFault, put_census};
use cobra_answers::{Status, Stop};
use cobra_words::Request;
use output::Sink;
use std::alloc::Global;
use std::thread::Threads;

/// Why there is no census of a log of this name.
fn ending_of(alloc: Global, name: &str, log: &[u8], fault: CensusFault) -> Ending
    ensures ending { (bytes : List ℕ) (old new : Option (List ℕ)) → IsUntold bytes old new fault
        → IsCensusEnding name.now bytes old new result }
    ensures count { (before : ℕ) → failures_after {X = Unit {0}} before (Err fault)
        ≡ failures_by before result }
{
    match fault {
        CensusFault::Log(fault) => Ending::refused(alloc, name, log, fault),
        CensusFault::Output { .. } => Ending::Stop(Stop::Output),
    }
}

/// Writes the census of a long log.
pub fn census_log<R: Threads + Sync, W: Sink>(
    rt: &R,
    alloc: Global,
    log: &[u8],
    request: &Request<'_>,
    sink: &mut W,
) -> Result<Status, Ending>
    ensures done { IfOk result (IsTold log.now (W.bytes sink.old) (W.bytes sink.new)) }
    ensures ended { IfErr result (IsCensusEnding (log_name request.now) log.now
        (W.bytes sink.old) (W.bytes sink.new)) }
    ensures count { W.failures sink.new ≡ output_failures (W.failures sink.old) result }
{
    match put_census(rt, alloc, log, request.workers, sink) {
        Ok(status) => Ok(status),
        Err(fault) => Err(ending_of(alloc, log_name(request), log, fault)),
    }
}
