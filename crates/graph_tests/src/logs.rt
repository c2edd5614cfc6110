//! Logs, and their histories.

ghost use Rattle.serializability.specs.Reads.{IsClean};
ghost use Rattle.log_definitions.specs.Numbers.{log_of};

use anomalies::classify;
use cobra_formulas::read_log;
use desk::gate::OpenGate;
use desk::seat_no::Workers;
use session_history::History;
use std::alloc::Global;
use std::process::Abort;
use std::sync::Wait;
use std::thread::Threads;
use std::time::Clock;

/// A session whose first transaction reads what its second one writes.
pub const READ_BEFORE_WRITTEN: &str = "session 1\nbegin\nr x 1\ncommit\nbegin\nw x 1\ncommit\n";

/// Each of two writers of a key has ended when the next transaction begins, which reads what the
/// first wrote.
pub const IN_TURN: &str =
    "log 3\nsession 1\nbegin 1\nw x 1\ncommit 2\nsession 2\nbegin 3\nw x 2\ncommit 4\n\
    session 3\nbegin 5\nr x 1\ncommit 6\n";

pub fn workers(rt: &impl Abort, count: u8) -> Workers {
    Workers::new(count).expect(rt, "workers")
}

/// The history of a log.
pub fn history_of<R: Threads + Wait + Clock + Abort + Sync>(
    rt: &R,
    alloc: Global,
    log: &str,
) -> History {
    let read = read_log(rt, alloc, log.as_bytes(), workers(rt, 1), &OpenGate);
    read.ok().expect(rt, "a history")
}

/// The history of a log without an anomaly.
#[tactic(auto, using(headline::proofs::Answered::clean_log))]
pub fn clean<R: Threads + Wait + Clock + Abort + Sync>(rt: &R, alloc: Global, log: &str) -> History
    ensures { IsClean (log_of result) }
{
    let history = history_of(rt, alloc, log);
    let _invariant = history.committed();
    match classify(alloc, &history).expect(rt, "memory") {
        Some(_) => panic!(rt; "an anomaly"),
        None => history,
    }
}
