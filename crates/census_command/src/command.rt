//! The text of a census, and the status.

ghost use Rattle.std.specs.Prelude.{◌≡◌, IfOk, IfErr};
ghost use Rattle.census_command.specs.Told.{IsCounted, IsRefusal, IsTold, IsUntold};
ghost use Rattle.census_command.specs.Told.{status_of, failures_after};

use crate::fault::CensusFault;
use census::{Census, census, census_text, total_of};
use cobra_answers::Status;
use desk::seat_no::Workers;
use known_outcomes::resolve;
use long_reading::read_long_log;
use output::{Sink, write_all};
use std::alloc::Global;
use std::thread::Threads;

/// The census of a long log, outcomes being known.
fn census_of<R: Threads + Sync>(
    rt: &R,
    alloc: Global,
    log: &[u8],
    workers: Workers,
) -> Result<Census, CensusFault>
    ensures counted { IfOk result (IsCounted log.now) }
    ensures refused { IfErr result (IsRefusal log.now) }
{
    let (_, sessions) = read_long_log(rt, alloc, log, workers)?;
    let sessions = resolve(alloc, sessions)?;
    Ok(census(alloc, &sessions)?)
}

/// How the command ends: a read or a transaction that is counted leaves no serial order, and where
/// none is, nothing was judged.
fn status_of(census: &Census) -> Status
    ensures status { result ≡ status_of census.now }
{
    if total_of(census) == 0 {
        Status::Unknown
    } else {
        Status::NotSerializable
    }
}

/// Puts the census of a long log into a sink, as text.
///
/// # Errors
/// The log's first fault, and nothing is written; the sink's failure; want of memory.
pub fn put_census<R: Threads + Sync, W: Sink>(
    rt: &R,
    alloc: Global,
    log: &[u8],
    workers: Workers,
    sink: &mut W,
) -> Result<Status, CensusFault>
    ensures told { IfOk result (IsTold log.now (W.bytes sink.old) (W.bytes sink.new)) }
    ensures untold { IfErr result (IsUntold log.now (W.bytes sink.old) (W.bytes sink.new)) }
    ensures count { W.failures sink.new ≡ failures_after (W.failures sink.old) result }
{
    let census = census_of(rt, alloc, log, workers)?;
    let text = census_text(alloc, &census)?;
    write_all(sink, &text)?;
    Ok(status_of(&census))
}
