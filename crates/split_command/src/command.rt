//! The text of the split log.

ghost use Rattle.std.specs.Prelude.{◌≡◌, IfOk, IfErr, OnOk};
ghost use Rattle.split_command.specs.Told.{IsSplitText, IsRefusal, IsTold, IsUntold};
ghost use Rattle.split_command.specs.Told.{failures_after};

use crate::fault::SplitFault;
use desk::seat_no::Workers;
use known_outcomes::resolve;
use long_reading::read_long_log;
use output::{Sink, write_all};
use session_log::print_log;
use splitting::split;
use std::alloc::Global;
use std::thread::Threads;

/// The text of the split log of a long log.
fn split_text<R: Threads + Sync>(
    rt: &R,
    alloc: Global,
    log: &[u8],
    workers: Workers,
) -> Result<Vec<u8>, SplitFault>
    ensures text { IfOk result (λ text. IsSplitText log.now text.items) }
    ensures refused { IfErr result (IsRefusal log.now) }
{
    let (_, sessions) = read_long_log(rt, alloc, log, workers)?;
    let sessions = resolve(alloc, sessions)?;
    let split = split(alloc, &sessions)??;
    Ok(print_log(alloc, &split)?)
}

/// Puts the split log of a long log into a sink, as text: the log in which each committed
/// transaction that writes is split in two, with outcomes known. It has a serial order exactly
/// where the log has a snapshot order.
///
/// # Errors
/// The log's first fault, or that there is no room for the names of its locks, and nothing is
/// written; the sink's failure; want of memory.
pub fn put_split<R: Threads + Sync, W: Sink>(
    rt: &R,
    alloc: Global,
    log: &[u8],
    workers: Workers,
    sink: &mut W,
) -> Result<(), SplitFault>
    ensures told { OnOk result (IsTold log.now (W.bytes sink.old) (W.bytes sink.new)) }
    ensures untold { IfErr result (IsUntold log.now (W.bytes sink.old) (W.bytes sink.new)) }
    ensures count { W.failures sink.new ≡ failures_after (W.failures sink.old) result }
{
    let text = split_text(rt, alloc, log, workers)?;
    write_all(sink, &text)?;
    Ok(())
}
