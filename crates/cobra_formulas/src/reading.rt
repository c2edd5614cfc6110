//! From the bytes of a log to its history.

ghost use Rattle.std.specs.Prelude.{IfOk, IfErr};
ghost use Rattle.log_definitions.specs.WellFormed.{IsWellFormed, IsLogFault};

use desk::gate::Gate;
use desk::seat_no::Workers;
use gather::collect;
use session_history::History;
use session_log::LogFault;
use std::alloc::Global;
use std::sync::Wait;
use std::thread::Threads;
use std::time::Clock;

/// The history of a log, exactly where it is well-formed, or its first fault. Its sessions are read
/// by so many workers at once, each of which passes the gate before each of its turns.
pub fn read_log<R: Threads + Wait + Clock + Sync, G: Gate>(
    rt: &R,
    alloc: Global,
    log: &[u8],
    workers: Workers,
    gate: &G,
) -> Result<History, LogFault>
    ensures accepted { IfOk result (λ history. IsWellFormed log.now history) }
    ensures refused { IfErr result (IsLogFault log.now) }
{
    let (version, sessions) = collect(rt, alloc, log, workers, gate)?;
    History::build(alloc, version, sessions)
}
