//! Whether an order is a serial order of a log.

ghost use Rattle.std.specs.Prelude.{◌≡◌, ◌<◌, ◌≤◌, IfOk, IfErr, OnOk};
ghost use Rattle.std.specs.List.{All};
ghost use Rattle.serializability.specs.Replay.{IsSerial};
ghost use Rattle.log_definitions.specs.Numbers.{log_of};
ghost use Rattle.decode_order.specs.Replaying.{replay_fault, IsReplayFault};
ghost use Rattle.cobra_answers.specs.Answers.{IsTold, IsRefused};
ghost use Rattle.cobra_cli.specs.Commands.{IsRefusal, IsVerified, IsNotVerified};
ghost use Rattle.cobra_answers.specs.Failures.{failures_after};

use crate::options::Options;
use cobra_answers::{Fault, Reply, Status, tell};
use cobra_formulas::read_log;
use decode_order::{ReplayFault, replay};
use desk::gate::Gate;
use order_text::read_order;
use output::Sink;
use session_history::{History, NodeLine};
use std::alloc::Global;
use std::sync::Wait;
use std::thread::Threads;
use std::time::Clock;

/// A refusal of a replay, with the names of the transactions.
fn replay_refusal(history: &History, order: &NodeLine, fault: ReplayFault) -> Fault
    requires reason { IsReplayFault fault (replay_fault (log_of history.now) order.now) }
    requires nodes { All (λ v. (0 < v) × (v ≤ (log_of history.now).nodes)) order.now }
    ensures refusal { IsRefusal history.now order.now result }
{
    match fault {
        ReplayFault::NotAPermutation => Fault::NotAPermutation,
        ReplayFault::SessionOrder { node } => {
            let name = history.name_of(node);
            Fault::SessionOrder {
                session: name.session,
                place: name.place,
            }
        }
        ReplayFault::MomentOrder { node } => {
            let name = history.name_of(node);
            Fault::MomentOrder {
                session: name.session,
                place: name.place,
            }
        }
        ReplayFault::ReadMismatch { node, op } => {
            let name = history.name_of(node);
            Fault::ReadMismatch {
                session: name.session,
                place: name.place,
                op,
            }
        }
        ReplayFault::Memory => Fault::Memory,
    }
}

/// Replays an order of a history.
fn replay_order(alloc: Global, history: &History, order: &NodeLine) -> Result<(), Fault>
    requires nodes { All (λ v. (0 < v) × (v ≤ (log_of history.now).nodes)) order.now }
    ensures serial { OnOk result (IsSerial (log_of history.now) order.now) }
    ensures refusal { IfErr result (IsRefusal history.now order.now) }
{
    match replay(alloc, history, order) {
        Ok(()) => Ok(()),
        Err(fault) => Err(replay_refusal(history, order, fault)),
    }
}

/// What is to be said of an order file.
fn verify_order(alloc: Global, history: &History, order: &[u8]) -> Result<Reply, Fault>
    ensures verified { IfOk result (λ r. IsVerified order.now history.now r.status r.text.items) }
    ensures refused { IfErr result (λ f. IsNotVerified order.now f history.now) }
{
    let listed = read_order(alloc, order, history)?;
    replay_order(alloc, history, &listed)?;
    Ok(Reply::fixed(alloc, Status::Done, b"accepted\n")?)
}

/// Writes `accepted` exactly where an order file lists a serial order of the log.
///
/// # Errors
/// The log's first fault; the order file's, O1 to O3; then P1, P2, P5 or P3 of the order's replay;
/// the sink's failure; want of memory.
pub fn verify<R: Threads + Wait + Clock + Sync, G: Gate, W: Sink>(
    rt: &R,
    alloc: Global,
    log: &[u8],
    order: &[u8],
    options: &Options,
    gate: &G,
    sink: &mut W,
) -> Result<Status, Fault>
    ensures told { IfOk result (IsTold (IsVerified order.now)
        log.now (W.bytes sink.old) (W.bytes sink.new)) }
    ensures refused { IfErr result (IsRefused (IsVerified order.now) (IsNotVerified order.now)
        log.now (W.bytes sink.old) (W.bytes sink.new)) }
    ensures count { W.failures sink.new ≡ failures_after (W.failures sink.old) result }
{
    let history = read_log(rt, alloc, log, options.workers, gate)?;
    let reply = verify_order(alloc, &history, order)?;
    tell(sink, &reply)
}
