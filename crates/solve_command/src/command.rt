//! From a log to the verdict, by a search over its formula.

ghost use Rattle.std.specs.Prelude.{◌≡◌, IfOk, IfErr};
ghost use Rattle.cobra_answers.specs.Answers.{IsTold, IsRefused};
ghost use Rattle.cobra_answers.specs.Failures.{failures_after};
ghost use Rattle.solve_command.specs.Solved.{IsSolution, HasNoFormula};

use crate::solution::reply_of;
use cobra_answers::{Fault, Reply, Status, tell};
use cobra_formulas::read_log;
use desk::gate::Gate;
use desk::seat_no::Workers;
use output::Sink;
use session_history::History;
use solving::solve_history;
use std::alloc::Global;
use std::sync::Wait;
use std::thread::Threads;
use std::time::Clock;

/// What is to be said of a history.
#[tactic(auto, using(crate::proofs::Solving::serial_where_told, crate::proofs::Solving::solution_so))]
fn reply_for<R: Threads + Wait + Clock + Sync, G: Gate>(
    rt: &R,
    alloc: Global,
    history: &History,
    plain: bool,
    budget: u32,
    workers: Workers,
    gate: &G,
) -> Result<Reply, Fault>
    ensures says { IfOk result (λ r.
        IsSolution plain budget history.now r.status r.text.items) }
    ensures refused { IfErr result (λ f. HasNoFormula plain f history.now) }
{
    let solution = solve_history(rt, alloc, history, plain, budget, workers, gate)?;
    Ok(reply_of(alloc, history, budget, &solution)?)
}

/// Writes whether some serial order explains a log: `serializable` and such an order; or that its
/// formula is refuted, which is the contradiction where an anomaly stands; or `unknown`, where the
/// search met as many conflicts as the budget allows.
///
/// # Errors
/// Those of the log and of its formula, as at `encode`; the sink's failure; want of memory.
pub fn solve<R: Threads + Wait + Clock + Sync, G: Gate, W: Sink>(
    rt: &R,
    alloc: Global,
    log: &[u8],
    plain: bool,
    budget: u32,
    workers: Workers,
    gate: &G,
    sink: &mut W,
) -> Result<Status, Fault>
    ensures told { IfOk result (IsTold (IsSolution plain budget)
        log.now (W.bytes sink.old) (W.bytes sink.new)) }
    ensures refused { IfErr result (IsRefused (IsSolution plain budget) (HasNoFormula plain)
        log.now (W.bytes sink.old) (W.bytes sink.new)) }
    ensures count { W.failures sink.new ≡ failures_after (W.failures sink.old) result }
{
    let history = read_log(rt, alloc, log, workers, gate)?;
    let reply = reply_for(rt, alloc, &history, plain, budget, workers, gate)?;
    tell(sink, &reply)
}
