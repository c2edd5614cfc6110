//! Whether some serial order explains a log.

ghost use Rattle.std.specs.Prelude.{◌≡◌, IfOk, IfErr};
ghost use Rattle.deciding.specs.Decides.{IsDecided};
ghost use Rattle.cobra_answers.specs.Answers.{IsTold, IsRefused};
ghost use Rattle.cobra_answers.specs.Failures.{failures_after};
ghost use Rattle.cobra_cli.specs.Checked.{status_of, verdict_text, IsVerdict, IsUndecided};

use crate::options::Options;
use cobra_answers::{
    Fault, Reply, Status, anomaly_text, cycle_text, serial_text, spent_text, tell,
};
use cobra_formulas::read_log;
use deciding::{Decision, decide};
use desk::gate::Gate;
use output::Sink;
use session_history::History;
use std::alloc::{AllocError, Global};
use std::sync::Wait;
use std::thread::Threads;
use std::time::Clock;

/// What is written where pruning ends in a cycle.
const DEAD: &[u8] = b"not serializable: A9 pruning ends in a cycle\n";

/// What is written where a search refuted every cube.
const REFUTED: &[u8] = b"not serializable: every cube is refuted\n";

/// How a command ends that tells a decision.
pub fn status_of(decision: &Decision) -> Status
    ensures status { result ≡ status_of decision.now }
{
    match decision {
        Decision::Serial(_) => Status::Done,
        Decision::Spent { .. } => Status::Unknown,
        _ => Status::NotSerializable,
    }
}

/// What `check` writes of a decision.
pub fn verdict_text(
    alloc: Global,
    history: &History,
    decision: &Decision,
) -> Result<Vec<u8>, AllocError>
    requires decided { IsDecided history.now decision.now }
    ensures text { IfOk result (λ text. text.items ≡ verdict_text history.now decision.now) }
{
    match decision {
        Decision::Serial(order) => serial_text(alloc, history, order),
        Decision::Anomalous(anomaly) => anomaly_text(alloc, history, *anomaly),
        Decision::Cyclic(line) => cycle_text(alloc, history, line),
        Decision::Dead(_) => Vec::from_slice(alloc, DEAD),
        Decision::Refuted { .. } => Vec::from_slice(alloc, REFUTED),
        Decision::Spent { closed } => spent_text(alloc, *closed),
    }
}

/// What is to be said of a decision.
fn verdict(alloc: Global, history: &History, decision: &Decision) -> Result<Reply, AllocError>
    requires decided { IsDecided history.now decision.now }
    ensures status { IfOk result (λ r. r.status ≡ status_of decision.now) }
    ensures text { IfOk result (λ r. r.text.items ≡ verdict_text history.now decision.now) }
{
    Ok(Reply {
        status: status_of(decision),
        text: verdict_text(alloc, history, decision)?,
    })
}

/// Writes whether some serial order explains a log: `serializable` and such an order; or `not
/// serializable` and why, by an anomaly, a cycle of known edges, that pruning ends in one, or that
/// the search of what is left refuted every cube, by a tree that was checked; or `unknown`, and how
/// many cubes it closed, where its budget was spent before.
///
/// # Errors
/// The log's first fault; G1 above 100,000 choices between chains; the sink's failure, with how
/// much of the text went out; want of memory. At each but the sink's nothing was written.
pub fn check<R: Threads + Wait + Clock + Sync, G: Gate, W: Sink>(
    rt: &R,
    alloc: Global,
    log: &[u8],
    options: &Options,
    gate: &G,
    sink: &mut W,
) -> Result<Status, Fault>
    ensures told { IfOk result (IsTold (IsVerdict options.now.budget)
        log.now (W.bytes sink.old) (W.bytes sink.new)) }
    ensures refused { IfErr result (IsRefused (IsVerdict options.now.budget) IsUndecided
        log.now (W.bytes sink.old) (W.bytes sink.new)) }
    ensures count { W.failures sink.new ≡ failures_after (W.failures sink.old) result }
{
    let history = read_log(rt, alloc, log, options.workers, gate)?;
    let decision = decide(rt, alloc, &history, &options.means(), gate)?;
    let reply = verdict(alloc, &history, &decision)?;
    tell(sink, &reply)
}
